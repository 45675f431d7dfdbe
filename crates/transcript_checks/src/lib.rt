//! What is wanted of a transcript, compared with what was printed: the first line in which they differ, and the front that is
//! written before a call fails.
#![tactic(auto)]

mod difference;
mod fronts;

pub use difference::{Difference, first_difference, told_difference};
pub use fronts::{SMALL_READ, SMALL_WRITE, text_of_reads, text_of_writes};
