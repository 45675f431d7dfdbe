//! Queues of jobs, and parcels for their answers.
//!
//! A job is a client's call, with a pass of the cell at its partition: one that is to be run, or one that has run and whose
//! outcome isn't known yet. It isn't copyable, and neither is the pass: so what is taken from a queue was put there, and
//! each job is taken at most once. Its answer goes into a parcel of one place, with the pass.
#![tactic(auto)]

mod bell;
mod call;
mod job;
mod noted;
mod parcel;
mod parcel_calls;
mod parcel_rule;
mod queue;
mod queue_rule;
mod roster;
mod terms;

pub use bell::Bell;
pub use call::{BegunCall, NewCall};
pub use job::{Job, Unmade, Work};
pub use noted::Noted;
pub use parcel::{Done, Parcel, ParcelEnd};
pub use parcel_rule::ParcelRule;
pub use queue::{Busy, JobQueue, QueuePass};
pub use queue_rule::QueueRule;
pub use roster::{QueueSide, Roster, Tables};
pub use terms::{ParcelSide, Terms};
