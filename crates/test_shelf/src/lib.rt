//! A shelf small enough to read, for the tests of what stands on any shelf.
#![tactic(auto)]

mod journal;

pub use journal::{Journal, JournalCall};
