//! The table service's part of a partition: its newest row, the move under way in it, and the members that the service
//! was told had crashed.
//!
//! Each call takes all its memory and writes all its messages before anything changes, and gives the messages only where
//! it has changed all.
#![tactic(auto)]

mod losses;
mod moves;
mod phase;
mod refusals;
mod reopening;
mod service;
mod taking;
mod telling;
mod told;

pub use moves::Advanced;
pub use refusals::{MoveRefused, ReopenRefused};
pub use service::Service;
pub use told::Told;
