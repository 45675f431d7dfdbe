//! A queue as one thread sees it: what a call answers, and how it changes the list.
#![tactic(auto)]

pub mod laws;
mod queues;

pub use queues::{QueueStep, run_queue};
