//! Worlds in turn cells: the grid whose partitions are run by threads.
//!
//! Each of the 271 partitions is a world in a cell, at which threads take turns, and each member has four workers that
//! run the calls which reach it. A `LiveGrid` is shared by all threads; a `GridPass` has a pass of each cell and a token
//! of each worker's queue, to be handed out among them.
#![tactic(auto)]

mod answers;
mod control;
mod control_turns;
mod copies;
mod environment;
mod grid;
mod handing;
pub mod laws;
mod looking;
mod opening;
mod pass_places;
mod plan;
mod settling;
mod world;

pub use copies::Record;
pub use environment::{Environment, Shared};
pub use grid::{GridPass, LiveGrid};
pub use plan::GridPlan;
pub use world::LiveWorld;
