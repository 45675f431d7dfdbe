//! What a thread sleeps on.
use std::sync::Wait;
use std::sync::atomic::{AtomicU64, Ordering};
use std::thread;

/// How often a thread looks for work before it sleeps. More looks would keep other threads from the processors.
const MOST_LOOKS: u32 = 20;

/// A bell that one thread sleeps on, until another rings it. What the thread waits for is made before the ring.
///
/// The sleeper reads `rings` before each look for work. It says that it sleeps before its sleep compares the rings, and
/// who rings raises them before it reads that. So either the sleep finds the new count, or the ringer finds the
/// sleeper. A sleep sees the low half of the count: 2^32 rings between one look and the sleep after it would pass
/// unseen.
#[derive(Drop)]
pub struct Bell {
    rings: AtomicU64,
    asleep: AtomicU64,
}

impl Bell {
    /// A bell that never rang. Takes no memory.
    pub fn new() -> Bell {
        Bell {
            rings: AtomicU64::new(0),
            asleep: AtomicU64::new(0),
        }
    }

    /// How often it rang.
    pub fn rings(&self) -> u64 {
        self.rings.load(Ordering::SeqCst)
    }

    /// Rings. It is a system call only where the sleeper sleeps, or is about to.
    pub fn ring(&self) {
        self.rings.fetch_add(1, Ordering::SeqCst);
        if self.asleep.load(Ordering::SeqCst) != 0 {
            self.rings.wake_all();
        }
    }

    /// What an idle thread does after a look that found nothing: after few in a row it lets others run, and after twenty
    /// it sleeps until the bell has rung since it showed `rings`. `idle` is how many looks in a row found nothing
    /// before; gives the number for the next. It may come back for no reason.
    pub fn rest<R: Wait>(&self, rt: &R, rings: u64, idle: u32) -> u32 {
        if idle < MOST_LOOKS {
            thread::yield_now();
            return idle + 1;
        }
        self.asleep.store(1, Ordering::SeqCst);
        self.rings.park(rt, (rings % (1 << 32)) as u32);
        self.asleep.store(0, Ordering::SeqCst);
        0
    }
}
