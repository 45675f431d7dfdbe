//! Calls of four sessions on four threads, which are counted: all add 1 to one number, and then a turn reads it.
#![tactic(auto)]

mod calling;
mod counting;
pub mod laws;
mod opening;
mod requests;
mod stage;
mod threads;

pub use counting::{Counted, count_calls};
