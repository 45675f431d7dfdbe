//! What happened at the lines of a script, and its words.
#![tactic(auto)]

mod happening;
mod tale;
mod telling;
mod together;

pub use happening::{Flight, Happening, PlanStep};
pub use tale::{Tale, Told};
pub use telling::Place;
pub use together::LineTold;
