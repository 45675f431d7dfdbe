//! Calls of two workers in two partitions, each inside its turn at once.
use crate::client::{executes, executes_elsewhere};
use crate::hall::{guest, run};
use grid_base::{CallId, MemberId, PartitionId};
use grid_cli::Status;
use grid_edge::MemoryDoors;
use partition_threads::Gate;
use std::sync::atomic::{AtomicU64, Ordering};
use std::test::Fail;
use std::thread;

/// How often a call looks for the other one.
const MOST_LOOKS: u32 = 100_000_000;

/// Holds each of two calls inside its turn until the other has come inside its own.
#[derive(Drop)]
struct Meeting {
    inside: AtomicU64,
    given_up: AtomicU64,
}

impl Gate for Meeting {
    fn inside(&self, _member: MemberId, _partition: PartitionId, _id: CallId) {
        self.inside.fetch_add(1, Ordering::SeqCst);
        for _ in 0..MOST_LOOKS {
            if self.inside.load(Ordering::SeqCst) >= 2 {
                return;
            }
            thread::yield_now();
        }
        self.given_up.fetch_add(1, Ordering::SeqCst);
    }

    fn answered(&self, _id: CallId) {}
}

#[test]
fn calls_in_two_partitions_are_in_their_turns_at_once(rt: HostRuntime) -> Result<(), Fail> {
    let alloc = rt.alloc();
    let mut guests = Vec::new(alloc);
    guests.push(guest(alloc, 2, executes(alloc)?))?;
    guests.push(guest(alloc, 2, executes_elsewhere(alloc)?))?;
    let doors = MemoryDoors::new(guests, Vec::new(alloc))?;
    let gate = Meeting {
        inside: AtomicU64::new(0),
        given_up: AtomicU64::new(0),
    };
    let ran = run(&rt, alloc, &["serve"], b"end\n", doors, &gate)?;
    assert_eq!(rt; ran.status, Status::Done);
    assert_eq!(rt; gate.inside.load(Ordering::SeqCst), 2);
    assert_eq!(rt; gate.given_up.load(Ordering::SeqCst), 0);
    Ok(())
}
