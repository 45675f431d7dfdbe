//! A script's run as it is watched: what each line came to, for people to read.
#![tactic(auto)]

mod arrivals;
mod clients;
mod deliveries;
mod events;
mod flows;
mod history;
mod masters;
mod near_notes;
mod nears;
mod notes;
mod printed;
mod questions;
mod rebalances;
mod sendings;
mod waiters;
mod watch;

pub use running_grid::RunEnd;
pub use watch::Watch;
