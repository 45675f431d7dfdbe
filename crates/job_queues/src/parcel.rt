//! A parcel: a queue of one place for the answer of one call.
ghost use Rattle.std.specs.Prelude.{◌≡◌};
ghost use Rattle.crossbeam_queue.specs.Passes.{ruled_capacity};

use crate::bell::Bell;
use crate::parcel_rule::ParcelRule;
use crate::terms::ParcelSide;
use crossbeam_queue::{Pass as Seat, RuledArrayQueue};
use grid_base::CallId;
use hand_cell::{LiveOutcome, Pass, Served};
use std::alloc::Global;
use std::marker::Model;

/// What became of a call, with the pass that went with it.
#[derive(Drop)]
pub struct Done<T: Served> {
    pub pass: Pass<T>,
    pub id: CallId,
    pub outcome: LiveOutcome,
}

/// A place for the answer of one call. Its sender fills it once, and its receiver sleeps on it.
#[derive(Drop)]
pub struct Parcel<T: Served> {
    pub(crate) queue: RuledArrayQueue<Done<T>, ParcelSide<T>, ParcelRule<T>, Global>,
    pub(crate) bell: Bell,
    ghost one: { ruled_capacity queue ≡ 1 },
}

/// One end of a parcel, the sender's or the receiver's, and how often it found the parcel empty. The count stays at
/// 2^64 - 1.
#[derive(Drop)]
pub struct ParcelEnd<T: Served> {
    pub(crate) seat: Seat<Done<T>, ParcelSide<T>>,
    pub(crate) empty: u64,
}

impl<T: Served> Model for ParcelEnd<T> {
    ghost use Rattle.std.specs.Prelude.{◌≡◌, []};
    ghost use Rattle.job_queues.specs.Ends.{End, end_of};

    ghost Value = { End T T.Plan T.Event T.Outcome };

    ghost view = { λ p. end_of p.seat p.empty };

    ghost invariant = { λ p. p.seat.me.1 ≡ [] };
}
