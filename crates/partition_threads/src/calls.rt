//! Calls that are held.
ghost use Rattle.std.specs.Prelude.{◌≡◌, Some};
ghost use Rattle.job_queues.specs.Roster.{Roster};
ghost use Rattle.partition_threads.specs.Calls.{IsCall};

use crate::gate::Gate;
use hand_cell::{LiveOutcome, Served};
use job_queues::{BegunCall, Done, Parcel, ParcelEnd};
use std::sync::{Arc, Wait};

/// A call that has run, and the sender's end of the parcel that its answer goes to.
#[derive(Drop)]
pub struct HeldCall<T: Served> {
    pub call: BegunCall<T>,
    pub parcel: Arc<Parcel<T>>,
    pub end: ParcelEnd<T>,
}

/// Fills the parcel of a call whose outcome is known, and tells the gate.
pub(crate) fn answer<T: Served, G: Gate, R: Wait>(
    rt: &R,
    gate: &G,
    held: HeldCall<T>,
    outcome: LiveOutcome,
)
    requires { (roster : Roster T.Plan) × IsCall T.key_of T.tells T.call_of roster held (Some outcome) }
{
    let HeldCall { call, parcel, end } = held;
    let BegunCall { pass, id, .. } = call;
    parcel.put(rt, end, Done { pass, id, outcome });
    gate.answered(id);
}
