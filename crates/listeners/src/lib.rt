//! Who listens to which map, and to the rows, of those connected to a member; and what each of them is sent at the
//! release of an answer and at the adoption of a row.
#![tactic(auto)]

mod audience;
pub mod laws;
mod listener;
mod listeners;
mod maps;
mod telling;

pub use listener::Listener;
pub use listeners::Listeners;
