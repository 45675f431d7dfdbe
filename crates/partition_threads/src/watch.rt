//! How those who hold a call learn of events in its partition.
use std::sync::atomic::{AtomicU64, Ordering};

/// The events of one partition, counted for those who hold calls there.
///
/// Who holds a call says so before it reads the count; who ran an event raises the count before it reads whether a call
/// is held. So either the holder finds the new count, or it is found, and rung.
#[derive(Drop)]
pub(crate) struct Watch {
    events: AtomicU64,
    held: AtomicU64,
}

impl Watch {
    pub(crate) fn new() -> Watch {
        Watch {
            events: AtomicU64::new(0),
            held: AtomicU64::new(0),
        }
    }

    /// How many events were told of.
    pub(crate) fn events(&self) -> u64 {
        self.events.load(Ordering::SeqCst)
    }

    /// Tells of an event. Answers whether a call is held.
    pub(crate) fn event_ran(&self) -> bool {
        self.events.fetch_add(1, Ordering::SeqCst);
        self.held.load(Ordering::SeqCst) != 0
    }

    /// One more call is held.
    pub(crate) fn hold(&self) {
        self.held.fetch_add(1, Ordering::SeqCst);
    }

    /// One that was held isn't any more.
    pub(crate) fn release(&self) {
        self.held.fetch_sub(1, Ordering::SeqCst);
    }
}
