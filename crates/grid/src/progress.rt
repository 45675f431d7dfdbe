//! How far long work has come, told to a person at a terminal.
use grid_sample::Watch;
use sample_run::LineWatch;
use std::io::{Eprint, IsTerminal};
use std::sync::atomic::{AtomicU32, Ordering};

/// After how many lines, or calls, a person is told of them.
const LINES: u32 = 500;

const CALLS: u32 = 250;

/// Tells on standard error how far a sample has come, where that is a terminal; else it says nothing.
#[derive(Drop)]
pub struct Progress<E> {
    error: E,
    is_seen: bool,
    /// How many calls were run.
    calls: AtomicU32,
}

impl<E: Eprint + IsTerminal> Progress<E> {
    /// Looks whether standard error is a terminal.
    pub fn new(error: E) -> Self {
        let is_seen = error.is_terminal();
        Progress {
            error,
            is_seen,
            calls: AtomicU32::new(0),
        }
    }

    /// Says that so many were done. Where standard error takes nothing, the work goes on all the same.
    fn say(&self, count: u32, what: &str) {
        let _ = eprintln!(self.error; "grid: {count} {what}");
    }
}

impl<E: Eprint + IsTerminal> LineWatch for Progress<E> {
    fn ran_lines(&self, lines: u32) {
        if self.is_seen && lines.is_multiple_of(LINES) {
            self.say(lines, "lines run");
        }
    }
}

impl<E: Eprint + IsTerminal + Sync> Watch for Progress<E> {
    fn ran_call(&self) {
        let calls = self.calls.fetch_add(1, Ordering::Relaxed).wrapping_add(1);
        if self.is_seen && calls.is_multiple_of(CALLS) {
            self.say(calls, "calls made");
        }
    }
}
