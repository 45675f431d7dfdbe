//! The grid of a script, which runs a line only where its script can have that line next.
#![tactic(auto)]

mod run_end;
mod running;

pub use run_end::RunEnd;
pub use running::RunningGrid;
