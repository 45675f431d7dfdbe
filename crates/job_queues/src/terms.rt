//! What parcels are made for.
use hand_cell::{Pass, Served};
use std::marker::Model;

/// The terms on which a parcel is made: what its cell was made for, the pass that goes with the call, as it was then,
/// and the call's event. No value of it is made.
pub struct Terms<T: Served> {
    plan: T::Plan,
    first: Pass<T>,
    event: T::Event,
}

impl<T: Served> Model for Terms<T> {
    ghost use Rattle.job_queues.specs.Terms.{Terms};

    ghost Value = { Terms T.Plan T.Event };

    ghost view = { λ t. record { plan = t.plan; first = t.first; event = t.event } };
}

/// Which side of a parcel an end is, and for what the parcel was made. No value of it is made.
pub enum ParcelSide<T: Served> {
    Opening,
    Sender(Terms<T>),
    Receiver(Terms<T>),
    Spent,
}
