//! The rows of the partition table: who keeps a partition, in which version.
#![tactic(auto)]

mod members;
mod row;

pub use members::{RowMember, RowMembers};
pub use row::Row;
