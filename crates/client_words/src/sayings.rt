//! What is said, in the words of a `say` line behind its connection.

use crate::calls::{push_map_call, push_map_wait, push_queue_call, push_queue_wait};
use crate::data::{partition_of_name, push_name};
use client_codecs::Authentication;
use compose_words::{Listening, Saying};
use grid_base::{Memory, PartitionId};
use std::alloc::Global;

/// The name of the cluster that a `say` line asks for by itself.
const USUAL_CLUSTER: &[u8] = b"dev";

/// Appends how a client makes itself known.
fn push_hello(out: &mut String, authentication: &Authentication) -> Result<(), Memory> {
    out.push_str("hello")?;
    if let Some(client) = authentication.client {
        write!(out, " client {client}")?;
    }
    if authentication.name.as_slice() != USUAL_CLUSTER {
        out.push_str(" cluster ")?;
        push_name(out, authentication.name.as_slice())?;
    }
    Ok(())
}

/// Appends in which partition a queue is, where its name doesn't say it.
fn push_partition(
    alloc: Global,
    out: &mut String,
    name: &[u8],
    partition: PartitionId,
) -> Result<(), Memory> {
    if partition_of_name(alloc, name)? == Some(partition) {
        return Ok(());
    }
    write!(out, " partition {partition}")
}

/// Appends what is listened to.
fn push_listening(out: &mut String, listening: &Listening) -> Result<(), Memory> {
    let (word, name) = match listening {
        Listening::Entries {
            name,
            with_value: true,
        } => ("listenValues ", name),
        Listening::Entries { name, .. } => ("listenEntries ", name),
        Listening::Invalidations { name } => ("listenInvalidations ", name),
        Listening::Rows => return out.push_str("listenRows"),
    };
    out.push_str(word)?;
    push_name(out, name.as_slice())
}

/// Appends what is said.
pub(crate) fn push_saying(alloc: Global, out: &mut String, saying: &Saying) -> Result<(), Memory> {
    match saying {
        Saying::Hello(authentication) => push_hello(out, authentication),
        Saying::Ping => out.push_str("ping"),
        Saying::OnMap(call) => push_map_call(alloc, out, call),
        Saying::OnQueue { partition, call } => {
            push_queue_call(alloc, out, call)?;
            push_partition(alloc, out, call.queue().as_slice(), *partition)
        }
        Saying::WaitOnMap { wait, timeout } => push_map_wait(alloc, out, wait, *timeout),
        Saying::WaitOnQueue {
            partition,
            wait,
            timeout,
        } => {
            push_queue_wait(alloc, out, wait, *timeout)?;
            push_partition(alloc, out, wait.queue().as_slice(), *partition)
        }
        Saying::Listen(listening) => push_listening(out, listening),
    }
}
