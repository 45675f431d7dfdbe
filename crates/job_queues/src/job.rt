//! Jobs.
ghost use Rattle.std.specs.Prelude.{◌≡◌, ℕ, true, None, IfOk, IfErr};
ghost use Rattle.hand_cell.specs.declared.names.Key.TheVariants.{Call};
ghost use Rattle.hand_cell.specs.Names.{has, IsNewKey};
ghost use Rattle.hand_cell.specs.Calls.{IsPassOf};
ghost use Rattle.job_queues.specs.declared.job.Work.TheVariants.{New, Begun};
ghost use Rattle.job_queues.specs.Calls.{IsBegun};
ghost use Rattle.job_queues.specs.Roster.{Roster, StandsAt};
ghost use Rattle.job_queues.specs.Terms.{terms_for, terms_noted};
ghost use Rattle.job_queues.specs.Jobs.{IsJobFor, Awaits, member_of, partition_of};

use crate::call::{BegunCall, NewCall};
use crate::parcel::{Parcel, ParcelEnd};
use grid_base::{MemberId, PartitionId};
use hand_cell::{Cell, Served};
use std::alloc::Global;
use std::sync::Arc;

/// What there is to do for a call.
#[derive(Drop)]
pub enum Work<T: Served> {
    /// It is to be run.
    New(NewCall<T>),
    /// It has run, and its outcome isn't known yet.
    Begun(BegunCall<T>),
}

impl<T: Served> Work<T> {
    /// The member that the call reaches.
    pub fn member(&self) -> MemberId
        ensures { result ≡ member_of self.now }
    {
        match self {
            Work::New(call) => call.member,
            Work::Begun(call) => call.member,
        }
    }

    /// The partition that the call is in.
    pub fn partition(&self) -> PartitionId
        ensures { result ≡ partition_of self.now }
    {
        match self {
            Work::New(call) => call.request.partition,
            Work::Begun(call) => call.partition,
        }
    }
}

/// What there is to do for a call, and the sender's end of the parcel that its answer goes to.
#[derive(Drop)]
pub struct Job<T: Served> {
    pub work: Work<T>,
    pub parcel: Arc<Parcel<T>>,
    pub end: ParcelEnd<T>,
}

/// There was no memory for a job. The call comes back.
#[derive(Drop)]
pub struct Unmade<C: Drop> {
    pub call: C,
}

impl<T: Served> Job<T> {
    /// A job for a call that is to be run, and the receiver's side of its parcel. The call's pass is of that cell and has
    /// the name of the call, which is new. Takes memory for a parcel.
    pub fn new(
        alloc: Global,
        cell: &Cell<T>,
        call: NewCall<T>,
    ) -> Result<(Job<T>, Arc<Parcel<T>>, ParcelEnd<T>), Unmade<NewCall<T>>>
        requires cell { IsPassOf cell.now call.pass }
        requires named { has call.pass.names (Call call.request.id) ≡ true }
        requires unused { IsNewKey T.key_of (Call call.request.id) call.pass.seen }
        requires within { T.fits call.request }
        ensures work { IfOk result (λ made. made.0.work ≡ New call) }
        ensures job { (roster : Roster T.Plan) → StandsAt roster call.request.partition cell.now
            → IfOk result (λ made. IsJobFor T.key_of T.tells T.call_of T.fits roster made.0) }
        ensures receiver { IfOk result (λ made. Awaits
            (terms_for T.call_of cell.now call.pass call.member call.request call.now) made.1 made.2) }
        ensures back { IfErr result (λ unmade. unmade.call ≡ call) }
    {
        let made = Parcel::new(
            alloc,
            cell,
            &call.pass,
            call.member,
            &call.request,
            call.now,
        );
        let Ok((ours, sender, receiver)) = made else {
            return Err(Unmade { call });
        };
        let Ok(theirs) = Arc::try_clone(&ours) else {
            return Err(Unmade { call });
        };
        let job = Job {
            work: Work::New(call),
            parcel: theirs,
            end: sender,
        };
        Ok((job, ours, receiver))
    }

    /// A job for a call that has run, and the receiver's side of its parcel, which is on the terms that the call noted.
    /// Takes memory for a parcel.
    pub fn begun(
        alloc: Global,
        cell: &Cell<T>,
        call: BegunCall<T>,
    ) -> Result<(Job<T>, Arc<Parcel<T>>, ParcelEnd<T>), Unmade<BegunCall<T>>>
        ensures work { IfOk result (λ made. made.0.work ≡ Begun call) }
        ensures job { (roster : Roster T.Plan) → IsBegun T.key_of T.tells T.call_of roster (terms_noted cell.now call) call None
            → IfOk result (λ made. IsJobFor T.key_of T.tells T.call_of T.fits roster made.0) }
        ensures receiver { IfOk result (λ made. Awaits (terms_noted cell.now call) made.1 made.2) }
        ensures back { IfErr result (λ unmade. unmade.call ≡ call) }
    {
        let Ok((ours, sender, receiver)) = Parcel::noted(alloc, cell, &call) else {
            return Err(Unmade { call });
        };
        let Ok(theirs) = Arc::try_clone(&ours) else {
            return Err(Unmade { call });
        };
        let job = Job {
            work: Work::Begun(call),
            parcel: theirs,
            end: sender,
        };
        Ok((job, ours, receiver))
    }
}
