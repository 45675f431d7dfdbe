//! A map's entry as one thread sees it: what a call on it answers, and what it leaves.
#![tactic(auto)]

mod entry_view;
pub mod laws;
mod records;
mod run;

pub use records::{Idle, MapRecord, is_expired};
pub use run::run_map;
