//! What is called as calls are run.
use grid_base::{CallId, MemberId, PartitionId};

/// What workers call as they run calls.
pub trait Gate: Sync {
    /// Called inside each call's turn, before its event is run.
    fn inside(&self, member: MemberId, partition: PartitionId, id: CallId);

    /// Called once the parcel of a call has its answer, outside any turn. Who looks for answers may be woken here.
    fn answered(&self, id: CallId);
}

/// The gate that does nothing.
#[derive(Clone, Copy, Debug)]
pub struct OpenGate;

impl Gate for OpenGate {
    fn inside(&self, _member: MemberId, _partition: PartitionId, _id: CallId) {}

    fn answered(&self, _id: CallId) {}
}
