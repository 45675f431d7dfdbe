//! Calls, before and after their events.
use crate::noted::Noted;
use grid_base::{CallId, MemberId, Moment, PartitionId, Request};
use hand_cell::{Pass, Served};

/// A call that is to be run at a member, with a pass of the cell at its partition. It arrived at the moment `now`.
#[derive(Drop)]
pub struct NewCall<T: Served> {
    pub pass: Pass<T>,
    pub member: MemberId,
    pub request: Request,
    pub now: Moment,
}

/// A call whose event has run, with the pass that saw it.
#[derive(Drop)]
pub struct BegunCall<T: Served> {
    pub pass: Pass<T>,
    pub member: MemberId,
    pub partition: PartitionId,
    pub id: CallId,
    /// How many events of its partition were told of before the last look at it, which found nothing to deliver. None
    /// where it is to be looked at at once.
    pub looked: Option<u64>,
    /// The pass as it was before the event.
    pub first: Noted<Pass<T>>,
    pub event: Noted<T::Event>,
}
