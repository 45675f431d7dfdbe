//! A member's part in the mastership of one partition: what it was told of, its log of decisions, what it does as a master,
//! and what it sends, as bytes.
//!
//! `Member` is a member of the machine of `masters_protocol` in code. Each step takes all its memory before anything
//! changes, and its contract says that the state after it, the answer and the messages are the machine's (`specs/Steps.antt`).
//! docs/MASTERS.md says the rules in words.
#![tactic(auto)]

mod counts;
mod member;
mod peers;
mod resending;
mod role;
mod stepping;
mod taking;
mod tells;
mod took;

pub use member::Member;
pub use stepping::Sent;
pub use taking::Taken;
pub use took::MasterTook;
