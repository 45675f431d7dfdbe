//! What the members of a partition and the table service say to one another, as bytes.
#![tactic(auto)]

mod kind;
pub mod laws;
mod message;
mod outbox;
mod reading;
mod took;
mod writing;

pub use kind::Kind;
pub use message::{MAX_MEMBERS, MemberMessage};
pub use outbox::Outbox;
pub use reading::read_member;
pub use took::Took;
pub use writing::write_member;
