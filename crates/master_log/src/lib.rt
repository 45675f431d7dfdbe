//! The masters of one partition on its members: who decides, what each member has in its log, the messages between them as
//! bytes, and the list of what was decided for good.
//!
//! `Masters` is the machine of `masters_protocol` in code: each call is one of the machine's events, and its contract says
//! that the state after it and its answer are the machine's. `specs/` has what each part of the code is to the machine.
//! docs/MASTERS.md says the rules in words.
#![tactic(auto)]

mod calls;
pub mod laws;
mod masters;
mod readers;
mod refusal;

pub use calls::MOST_DECISIONS;
pub use master_member::MasterTook;
pub use masters::Masters;
pub use refusal::ProposeRefused;
