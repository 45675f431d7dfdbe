//! A client's message in the words of a `say` line, and names, keys and values in words that stand for the same bytes again.
#![tactic(auto)]

mod calls;
mod data;
mod reading;
mod sayings;
mod spelling;
mod spoken;

pub use calls::{push_deed, push_object};
pub use data::{push_data, push_entry_name, push_hex, push_name, push_nullable};
pub use spoken::{Form, Spoken, read_spoken};
