//! What the masters of a partition decide, and what they say to one another, as bytes.
//!
//! `Decision` and `MasterMessage` are the values, `read_master` reads bytes, and `write_store`, `write_stored`, `write_ask`
//! and `write_tell` write them. What is written is read as itself. docs/MASTERS.md has the bytes in a table.
#![tactic(auto)]

mod decision;
mod kinds;
pub mod laws;
mod message;
mod reading;
mod writing;

pub use decision::Decision;
pub use kinds::{DecisionKind, MessageKind};
pub use message::MasterMessage;
pub use reading::{log_length, read_master};
pub use writing::{write_ask, write_store, write_store_with, write_stored, write_tell};
