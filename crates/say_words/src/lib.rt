//! What the words of a `say` line say: one home for the words of scripts and for those of calls from the prompt.
#![tactic(auto)]

mod data;
mod numbers;
mod options;
mod reading;
mod what;

pub use reading::{SayLine, Told, read_say_line, read_told};
pub use what::has_data;
