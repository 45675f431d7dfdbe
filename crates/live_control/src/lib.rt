//! A control script on a live grid: an operator's events, line by line, as they are typed.
#![tactic(auto)]

mod laws;
mod lines;
mod orders;
mod running;
mod serving;

pub use laws::every_script_in_memory_is_served;
pub use serving::serve_control;
