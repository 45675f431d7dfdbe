//! The commands of the program `grid`: a replay, a sample, and the server of a live grid.
#![tactic(auto)]

mod desk;
mod ended;
mod hall;
mod sampling;
mod serve;
mod setting;
mod stage;
mod threads;
mod top;
mod waking;
mod working;

pub use ended::Ended;
pub use sampling::sample_command;
pub use serve::{serve_command, serve_gated};
pub use top::grid_top;
