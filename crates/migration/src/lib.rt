//! The states of a move: a member comes into a partition's row, and may take another's place in it.
//!
//! Each state owns the row of its step, and only the methods here lead from one state to the next: a target gets its
//! contents before it may lead, and a primary is drained before it leaves.
#![tactic(auto)]

mod drained;
mod ended;
mod freezing;
mod joined;
mod joining;
mod ongoing;
mod replacing;

pub use drained::{Drained, DrainedRefused, DrainedStep};
pub use ended::{Cancelled, Committed, CommittedStep};
pub use freezing::{Freezing, FreezingStep};
pub use joined::{Joined, JoinedRefused, JoinedStep};
pub use joining::Joining;
pub use ongoing::{Arrived, Ongoing};
pub use replacing::{Replacing, Underway};
