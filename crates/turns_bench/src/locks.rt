//! The same turns by a mutex with a condition variable: tickets are served in order, and the value is out meanwhile.
use crate::ticks::Ticks;
use std::sync::{Condvar, Mutex, Wait};
use std::thread::{Threads, join};

/// What lies under the mutex.
#[derive(Drop)]
struct Tickets {
    next: u64,
    served: u64,
    /// While no thread has the turn.
    value: Option<Ticks>,
}

/// A counter that threads take turns on.
#[derive(Drop)]
struct Desk {
    tickets: Mutex<Tickets>,
    served: Condvar,
}

impl Desk {
    fn new() -> Desk {
        Desk {
            tickets: Mutex::new(Tickets {
                next: 0,
                served: 0,
                value: Some(Ticks { count: 0 }),
            }),
            served: Condvar::new(),
        }
    }

    /// Waits for a turn, and takes the value.
    fn enter<R: Wait>(&self, rt: &R) -> Option<Ticks> {
        let mut tickets = self.tickets.lock(rt);
        let mine = tickets.next;
        tickets.next = mine.wrapping_add(1);
        let mut tickets = self
            .served
            .wait_while(rt, tickets, |tickets| tickets.served != mine);
        tickets.value.take()
    }

    /// Puts the value back, and serves the next ticket.
    fn leave<R: Wait>(&self, rt: &R, value: Option<Ticks>) {
        let mut tickets = self.tickets.lock(rt);
        tickets.value = value;
        tickets.served = tickets.served.wrapping_add(1);
        self.served.notify_all();
    }

    /// Takes so many turns.
    fn take_turns<R: Wait>(&self, rt: &R, turns: u32) {
        for _ in 0..turns {
            let mut value = self.enter(rt);
            if let Some(ticks) = &mut value {
                ticks.count = ticks.count.wrapping_add(1);
            }
            self.leave(rt, value);
        }
    }

    /// What the value has counted.
    fn counted<R: Wait>(&self, rt: &R) -> u64 {
        match &self.tickets.lock(rt).value {
            Some(ticks) => ticks.count,
            None => 0,
        }
    }
}

/// Two threads take so many turns each.
fn take_by_two<R: Threads + Wait + Sync>(rt: &R, one: &Desk, two: &Desk, turns: u32) {
    join(
        rt,
        || one.take_turns(rt, turns),
        || two.take_turns(rt, turns),
    );
}

/// One thread, on one counter.
pub fn one<R: Wait>(rt: &R, turns: u32) -> u64 {
    let desk = Desk::new();
    desk.take_turns(rt, turns);
    desk.counted(rt)
}

/// Four threads, on one counter.
pub fn shared<R: Threads + Wait + Sync>(rt: &R, turns: u32) -> u64 {
    let desk = Desk::new();
    join(
        rt,
        || take_by_two(rt, &desk, &desk, turns),
        || take_by_two(rt, &desk, &desk, turns),
    );
    desk.counted(rt)
}

/// Two threads, each on its own counter.
fn apart_by_two<R: Threads + Wait + Sync>(rt: &R, turns: u32) -> u64 {
    let (here, there) = (Desk::new(), Desk::new());
    take_by_two(rt, &here, &there, turns);
    here.counted(rt).saturating_add(there.counted(rt))
}

/// Four threads, each on its own counter.
pub fn apart<R: Threads + Wait + Sync>(rt: &R, turns: u32) -> u64 {
    let (a, b) = join(rt, || apart_by_two(rt, turns), || apart_by_two(rt, turns));
    a.saturating_add(b)
}
