//! A partition's shelf: calls run on its objects, and whether one that waits is ready.
#![tactic(auto)]

mod entries;
mod env;
pub mod laws;
mod queues;
mod readiness;
mod shelf;

pub use env::{GridEnv, GridSettings};
pub use shelf::GridShelf;
