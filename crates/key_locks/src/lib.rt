//! The lock of a map's key: who may write, and when a lease or a value has ended. Nothing here takes memory.
#![tactic(auto)]

mod ends;
pub mod laws;
mod locks;

pub use ends::{ends_at, has_ended};
pub use locks::{Lock, NotOwner, cleaned, may_write, try_lock, unlock};
