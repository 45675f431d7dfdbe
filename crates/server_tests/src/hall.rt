//! A server with clients in memory.
use grid_base::{MemberId, Memory};
use grid_cli::Status;
use grid_edge::{FixedClock, MemoryDoors, MemoryReady, MemorySink, MemorySource};
use grid_server::serve_gated;
use partition_threads::Gate;
use std::alloc::Global;
use std::sync::Wait;
use std::thread::Threads;

pub(crate) type From = MemoryReady<MemorySource>;

pub(crate) type To = MemoryReady<MemorySink>;

pub(crate) type Guests = MemoryDoors<From, To>;

/// A client of a member who says this.
pub(crate) fn guest(alloc: Global, member: MemberId, says: Vec<u8>) -> (MemberId, From, To) {
    let from = MemorySource::new(says, Vec::new(alloc));
    let to = MemorySink::new(Vec::new(alloc));
    let from = MemoryReady::new(from, Vec::new(alloc), Vec::new(alloc));
    (
        member,
        from,
        MemoryReady::new(to, Vec::new(alloc), Vec::new(alloc)),
    )
}

/// How a server ended, what its operator was told, and the doors.
#[derive(Drop)]
pub(crate) struct Ran {
    pub(crate) status: Status,
    pub(crate) told: Vec<u8>,
    pub(crate) has_grid: bool,
    pub(crate) is_closed: bool,
    pub(crate) doors: Guests,
}

/// Runs a server by these words, with a control script.
pub(crate) fn run<G: Gate, R: Threads + Wait + Sync>(
    rt: &R,
    alloc: Global,
    words: &[&str],
    script: &[u8],
    mut doors: Guests,
    gate: &G,
) -> Result<Ran, Memory> {
    let mut texts = Vec::new(alloc);
    for word in words {
        texts.push(String::from_str(alloc, word)?)?;
    }
    let mut script = MemorySource::new(Vec::from_slice(alloc, script)?, Vec::new(alloc));
    let mut out = MemorySink::new(Vec::new(alloc));
    let ended = serve_gated(
        rt,
        alloc,
        texts.as_slice(),
        Vec::new(alloc),
        &[],
        &mut script,
        &mut out,
        &mut FixedClock::new(7),
        &mut doors,
        gate,
    );
    Ok(Ran {
        status: ended.status,
        told: out.into_bytes(),
        has_grid: ended.grid.is_some(),
        is_closed: ended.closed.is_some(),
        doors,
    })
}
