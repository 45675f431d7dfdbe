//! One member's part of a partition: how it decides about calls and messages, and performs what it decided.
#![tactic(auto)]

mod adoption;
mod calls;
mod catch_up;
mod contents;
mod decision;
mod node;
mod reaction;
mod resend;
mod taking;

pub use calls::{Called, Execution};
pub use contents::Contents;
pub use node::Node;
pub use taking::Taken;
