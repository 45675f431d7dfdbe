//! The parts of what members send one another as bytes, read from left to right, each refused at its first place that fails.
#![tactic(auto)]

mod cursor;
mod refusal;

pub use cursor::Cursor;
pub use refusal::WireRefused;
