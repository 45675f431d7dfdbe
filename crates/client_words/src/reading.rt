//! What a client's message says.

use client_codecs::{AUTHENTICATION_KIND, PING_KIND, read_authentication};
use compose_words::{Listening, MapWait, QueueWait, Saying};
use event_codecs::{Registration, read_registration};
use fixed_fields::kind_of;
use grid_base::{CallRefused, ClientKey, MapCall, Memory, QueueCall};
use map_codecs::{read_map_call, read_map_wait};
use message_frames::Message;
use queue_codecs::{read_queue_call, read_queue_wait, stated_partition};
use std::alloc::{AllocError, Global};

/// Whose call it is no message says.
const NOBODY: ClientKey = ClientKey::OfConn(0);

/// What was read, or nothing where it can't be read.
fn read<T>(reading: Result<T, CallRefused>) -> Result<Option<T>, Memory> {
    match reading {
        Ok(read) => Ok(Some(read)),
        Err(CallRefused::Memory) => Err(AllocError),
        Err(_) => Ok(None),
    }
}

/// What a call that may wait says, as it was read.
fn map_wait(call: MapCall) -> Option<MapWait> {
    match call {
        MapCall::TryLock {
            name,
            key,
            owner,
            lease,
        } => Some(MapWait::Lock {
            name,
            key,
            owner,
            lease,
        }),
        MapCall::Put {
            name,
            key,
            owner,
            value,
            ttl,
        } => Some(MapWait::Put {
            name,
            key,
            owner,
            value,
            ttl,
        }),
        _ => None,
    }
}

/// The same of a queue.
fn queue_wait(call: QueueCall) -> Option<QueueWait> {
    match call {
        QueueCall::Offer { name, value } => Some(QueueWait::Offer { name, value }),
        QueueCall::Poll { name } => Some(QueueWait::Poll { name }),
        _ => None,
    }
}

/// What a registration says.
fn listening(registration: Registration) -> Listening {
    match registration {
        Registration::Entries {
            name,
            with_value,
            ..
        } => Listening::Entries { name, with_value },
        Registration::Invalidations { name, .. } => Listening::Invalidations { name },
        Registration::Rows { .. } => Listening::Rows,
    }
}

/// The call that a message is, if it is one.
fn read_call(alloc: Global, message: &Message) -> Result<Option<Saying>, Memory> {
    if let Some(call) = read(read_map_call(alloc, message, NOBODY))? {
        return Ok(Some(Saying::OnMap(call)));
    }
    let Some(partition) = stated_partition(message) else {
        return Ok(None);
    };
    let call = read(read_queue_call(alloc, message))?;
    Ok(call.map(|call| Saying::OnQueue { partition, call }))
}

/// The call that may wait that a message is, if it is one.
fn read_wait(alloc: Global, message: &Message) -> Result<Option<Saying>, Memory> {
    if let Some((call, timeout)) = read(read_map_wait(alloc, message, NOBODY))? {
        return Ok(map_wait(call).map(|wait| Saying::WaitOnMap { wait, timeout }));
    }
    let Some(partition) = stated_partition(message) else {
        return Ok(None);
    };
    let Some((call, timeout)) = read(read_queue_wait(alloc, message))? else {
        return Ok(None);
    };
    Ok(queue_wait(call).map(|wait| Saying::WaitOnQueue {
        partition,
        wait,
        timeout,
    }))
}

/// What a message says, if it can be read.
pub(crate) fn read_saying(alloc: Global, message: &Message) -> Result<Option<Saying>, Memory> {
    let Some(first) = message.frames.as_slice().first() else {
        return Ok(None);
    };
    match kind_of(first) {
        Some(AUTHENTICATION_KIND) => {
            let authentication = read(read_authentication(alloc, message))?;
            return Ok(authentication.map(Saying::Hello));
        }
        Some(PING_KIND) => return Ok(Some(Saying::Ping)),
        _ => {}
    }
    if let Some(saying) = read_call(alloc, message)? {
        return Ok(Some(saying));
    }
    if let Some(saying) = read_wait(alloc, message)? {
        return Ok(Some(saying));
    }
    let registration = read(read_registration(alloc, message))?;
    Ok(registration.map(|registration| Saying::Listen(listening(registration))))
}
