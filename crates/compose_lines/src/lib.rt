//! `grid compose`: reads a script in words, and writes the script that they stand for, line by line.
#![tactic(auto)]

mod command;
mod composer;

pub use command::compose_command;
pub use composer::{Composed, Composer};
