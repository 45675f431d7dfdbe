//! The grid of a script whose table service may run on its members: the grid of `replay_run`, with the masters of each
//! partition beside it.
//!
//! Where line 2 of a script is `masters`, what the table service does is decided. A line that asks for an event of the service
//! puts a decision to the masters of its partition, and the event runs as the decision is published. All else runs at once, as
//! in a grid without masters. `masters_world` has that rule as two tables, and proves what holds of it.
//!
//! The run of such a grid is a run of the grid (`specs/`), so all that holds of runs holds of these.
#![tactic(auto)]

mod decisions;
mod flows;
mod grid;
mod laws;
mod lines;
mod looking;
mod outcomes;
mod publishing;
pub mod waiting_laws;

pub use grid::RuledGrid;
pub use laws::{
    every_call_counts_once, every_mastership_agrees, every_mastership_is_sound,
    every_published_list_grows, every_ruled_run_is_a_run, every_run_is_linearizable,
    every_run_is_ruled, every_run_that_tells_of_no_skip_has_none,
    every_service_serves_as_published, every_skipped_call_is_told, every_waiter_stays,
};
