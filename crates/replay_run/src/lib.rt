//! A script, line by line: what each line does to a grid, and what it tells.
#![tactic(auto)]

mod calls;
mod connections;
mod counts;
mod dumps;
mod entries;
mod events;
mod grid;
mod histories;
mod laws;
mod links;
mod looking;
mod messages;
mod outcomes;
mod outgoing;
mod rebalancing;
mod registering;
mod reopened;
mod run_end;
mod tally;
mod waiting;

pub use counts::Counts;
pub use grid::Grid;
pub use laws::{
    every_call_counts_once, every_partition_goes_by_its_machine, every_run_is_linearizable,
    every_run_that_tells_of_no_skip_has_none, every_skipped_call_is_told, every_waiter_stays,
};
pub use line_told::{push_decimal, push_nothing, push_number, push_ok, push_text, push_value};
pub use links::MOST_IN_FLIGHT;
pub use messages::tell_outcome;
pub use outcomes::{done_word, is_advance, push_fate, push_happened};
pub use run_end::RunEnd;
