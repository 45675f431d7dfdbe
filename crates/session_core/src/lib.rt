//! A client's connection to a member: its bytes as answers of the session itself, and as calls.
#![tactic(auto)]

mod item;
mod items;
pub mod laws;
mod session;

pub use item::Item;
pub use session::{FedSession, Session};
