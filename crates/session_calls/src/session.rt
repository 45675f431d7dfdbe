//! What a session holds.
use grid_base::{CallId, MemberId, PartitionId};
use hand_cell::{Pass, Served};
use job_queues::QueuePass;
use partition_threads::Awaited;

/// What a session holds of a workplace. Its calls reach one member.
#[derive(Drop)]
pub struct SessionPass<T: Served> {
    /// The number of the session's connection.
    pub conn: u32,
    /// The member that its calls reach.
    pub member: MemberId,
    /// A pass of each cell, which is None exactly while a call of the session is under way there.
    pub passes: Vec<Option<Pass<T>>>,
    /// A token of the queue of each of the member's workers.
    pub tokens: Vec<QueuePass<T>>,
}

/// A call that was started, and is under way.
#[derive(Drop)]
pub struct Started<T: Served> {
    pub id: CallId,
    pub partition: PartitionId,
    pub(crate) awaited: Awaited<T>,
}
