//! A script, line by line: what each line does to a grid and to the near clients of its connections, and what it tells, as
//! data or as text.
//!
//! A near client is a client like any other. What it sends arrives on its connection, and what it reads is what is
//! appended there. So a line of a near client is, to the grid, a line of bytes or none at all (`grid_line` in
//! `specs/Runs.antt`), and all that holds of the grid's runs holds of these.
#![tactic(auto)]

mod client;
mod grid;
mod laws;
mod looking;
mod near_lines;
mod print;
mod told;

pub use grid::ScriptGrid;
pub use laws::{
    every_call_counts_once, every_published_list_grows, every_run_is_linearizable,
    every_run_is_ruled, every_run_is_the_grids, every_run_that_tells_of_no_skip_has_none,
    every_service_serves_as_published, every_skipped_call_is_told,
};
pub use print::push_script_told;
pub use told::{NearOutcome, ScriptTold};
