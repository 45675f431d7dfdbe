//! `grid draw`: what happened in a script's run as a message sequence chart.
#![tactic(auto)]

mod calls;
mod cast;
mod chart;
mod command;
mod drawing;
mod lanes;
mod marks;
mod messages;
mod table;

pub use command::draw_command;
pub use drawing::draw_chart;
