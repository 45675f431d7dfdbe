//! What one thread did for its connections, in one order: reads, writes, and calls that it started and finished.
#![tactic(auto)]

mod entry;
mod journal;

pub use entry::{Entry, NotedCall};
pub use journal::Journal;
