//! What wakes the server's loop.
use grid_base::{CallId, MemberId, PartitionId};
use grid_edge::Wakes;
use partition_threads::Gate;

/// A gate that wakes who waits at the doors once a call has its answer.
#[derive(Drop)]
pub(crate) struct WakingGate<'g, 'w, G, W> {
    pub(crate) gate: &'g G,
    pub(crate) waker: &'w W,
}

impl<'g, 'w, G: Gate, W: Wakes> Gate for WakingGate<'g, 'w, G, W> {
    fn inside(&self, member: MemberId, partition: PartitionId, id: CallId) {
        self.gate.inside(member, partition, id);
    }

    fn answered(&self, id: CallId) {
        self.gate.answered(id);
        self.waker.wake();
    }
}
