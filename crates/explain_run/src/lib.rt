//! `grid explain`: a script's run in words, a line for each thing that happened.
#![tactic(auto)]

mod explain;
mod script;
mod story;

pub use explain::explain_command;
pub use script::{Script, ScriptEnd, read_script};
pub use story::{Stop, Story};
