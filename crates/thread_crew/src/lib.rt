//! Threads that are there together, or are known not to be.
#![tactic(auto)]

mod beside;
mod crew;
mod room;
mod task;

pub use beside::join_told;
pub use crew::with_crew;
pub use room::{Room, room_for};
