//! The lines of a script: what `grid replay` reads, and why a line is refused.
#![tactic(auto)]

mod fields;
mod keywords;
pub mod laws;
mod limits;
mod line;
mod numbers;
mod reading;
mod refusal;
mod words;

pub use limits::{MOST_BYTES, MOST_LINE_BYTES, MOST_LINES};
pub use line::Line;
pub use numbers::number_within;
pub use reading::read_line;
pub use refusal::{LineRefused, LineWhy};
