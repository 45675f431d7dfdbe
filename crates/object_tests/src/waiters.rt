ghost use Rattle.std.specs.Prelude.{◌≡◌, length, IfOk};

use call_engine::{GridEnv, GridShelf};
use entry_processors::Registry;
use grid_base::{Bytes, CallId, GridCall, Memory, Moment, QueueCall, Request, Shelf};
use std::alloc::Global;
use std::test::Fail;
use wait_sets::{WaitSet, Waiter, deadline_of};

/// Queues have room for as many values.
fn environment(alloc: Global, capacity: u32) -> GridEnv {
    GridEnv {
        registry: Registry::new(Vec::new(alloc)),
        capacity,
    }
}

fn waits(conn: u32, number: u32, call: QueueCall, deadline: Option<Moment>) -> Waiter {
    Waiter {
        request: Request {
            id: CallId { conn, number },
            correlation: 0,
            kind: 0,
            partition: 100,
            call: GridCall::Queue(call),
        },
        deadline,
    }
}

/// Polls the queue without a name.
fn polls(alloc: Global, number: u32, deadline: Option<Moment>) -> Waiter {
    let name = Bytes::new(alloc);
    waits(1, number, QueueCall::Poll { name }, deadline)
}

/// Offers to it.
fn offers(alloc: Global) -> Waiter {
    let name = Bytes::new(alloc);
    let value = Bytes::new(alloc);
    waits(2, 1, QueueCall::Offer { name, value }, None)
}

/// Connection 1 polls without an end and until 6,000, and connection 2 offers.
fn three(alloc: Global) -> Result<WaitSet, Memory>
    ensures { IfOk result (λ set. length set ≡ 3) }
{
    let mut set = WaitSet::new(alloc);
    set.add(polls(alloc, 1, deadline_of(5_000, -1)))?;
    set.add(polls(alloc, 2, deadline_of(5_000, 1_000)))?;
    set.add(offers(alloc))?;
    Ok(set)
}

/// Whose turn it is first, by a look at all and by one at those that may be due.
fn first_turns(
    alloc: Global,
    capacity: u32,
    now: Moment,
) -> Result<(Option<usize>, Option<usize>), Memory> {
    let set = three(alloc)?;
    let shelf = GridShelf::empty(alloc);
    let env = environment(alloc, capacity);
    Ok((
        set.next(&shelf, &env, now),
        set.next_from(0, &shelf, &env, now),
    ))
}

#[test]
fn the_first_that_is_ready_or_due_is_next(rt: HostRuntime) -> Result<(), Fail> {
    for (capacity, now, place) in [(1, 5_999, Some(2)), (1, 6_000, Some(1)), (0, 5_999, None)] {
        let turns = first_turns(rt.alloc(), capacity, now)?;
        assert_eq!(rt; turns, (place, place), "at {now}");
    }
    Ok(())
}

/// Whether a poll until 6,000 is ready or due at that moment.
fn is_due(alloc: Global, now: Moment) -> bool {
    let waiter = polls(alloc, 2, Some(6_000));
    waiter.is_its_turn(&GridShelf::empty(alloc), &environment(alloc, 1), now)
}

#[test]
fn a_poll_of_nothing_is_due_at_its_deadline(rt: HostRuntime) {
    assert!(rt; !is_due(rt.alloc(), 5_999));
    assert!(rt; is_due(rt.alloc(), 6_000));
}

fn number_of(waiter: Waiter) -> u32 {
    waiter.request.id.number
}

/// The number of the request of the one that leaves first, if one waits.
fn next_number(set: &mut WaitSet) -> Option<u32> {
    let first = set.drain()?;
    Some(number_of(first))
}

#[test]
fn waiters_leave_in_order(rt: HostRuntime) -> Result<(), Fail> {
    let mut set = three(rt.alloc())?;
    let second = number_of(set.take(1));
    assert_eq!(rt; second, 2);
    assert_eq!(rt; next_number(&mut set), Some(1));
    assert_eq!(rt; set.len(), 1);
    Ok(())
}

#[test]
fn a_closed_connection_leaves(rt: HostRuntime) -> Result<(), Fail> {
    let mut set = three(rt.alloc())?;
    set.drop_conn(2);
    set.drop_conn(1);
    assert!(rt; set.is_empty());
    assert_eq!(rt; next_number(&mut set), None);
    Ok(())
}
