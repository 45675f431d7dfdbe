//! The script that is made from a number: four clients that put and get in a grid whose partitions move, and one crash.
//! `docs/SAMPLE.md` says in words what it has.
#![tactic(auto)]

mod calls;
pub mod laws;
mod lines;
mod script;
mod steps;

pub use script::make;
