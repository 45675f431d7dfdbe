//! `grid sample`: prints what became of a number's script, and then what four sessions' calls came to on a live grid.
#![tactic(auto)]

mod counts;
mod numbered;
mod sample;
mod watched;

pub use counts::{CAPACITY, KEY, write_counts};
pub use sample::run_sample;
pub use watched::Watch;
