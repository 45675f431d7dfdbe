//! `grid sample`: runs the script that is made from a number, and tells in numbers what became of it.
#![tactic(auto)]

mod lines;
mod sample;
mod summary;
mod watch;

pub use sample::{Sampled, replay_sample, replay_watched};
pub use summary::{Summary, write_summary};
pub use watch::{LineWatch, Unwatched};
