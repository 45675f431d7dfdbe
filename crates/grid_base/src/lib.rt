//! The grid's common words: bytes, names, calls and answers, and what a partition keeps.
#![tactic(auto)]

mod bytes;
mod calls;
pub mod errors;
mod names;
mod refusal;
mod shelf;

pub use bytes::Bytes;
pub use calls::{Answer, Change, Executed, GridCall, MapCall, QueueCall, Request};
pub use names::{CallId, ClientKey, MemberId, Moment, ObjectKey, Owner, PartitionId};
pub use refusal::{CallRefused, PartitionRefused};
pub use shelf::{Executes, Shelf};

/// Want of memory: the one error whose coming no contract explains.
pub type Memory = std::alloc::AllocError;

/// How many partitions a grid has.
pub const PARTITIONS: u16 = 271;
