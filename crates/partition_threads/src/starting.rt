//! How a call is started.
ghost use Rattle.std.specs.Prelude.{◌≡◌, ◌+◌, ◌*◌, ◌%◌, true, Some, slice_get, IfOk, IfErr};
ghost use Rattle.hand_cell.specs.declared.names.Key.TheVariants.{Call};
ghost use Rattle.hand_cell.specs.Names.{has, IsNewKey};
ghost use Rattle.job_queues.specs.Roster.{roster_of};
ghost use Rattle.job_queues.specs.Answers.{IsDone};
ghost use Rattle.job_queues.specs.Calls.{IsNew};
ghost use Rattle.job_queues.specs.Terms.{Terms};
ghost use Rattle.partition_threads.specs.Workplaces.{IsTokenAt};
ghost use Rattle.partition_threads.specs.Starting.{HasStarted, IsUnstarted, IsAwaited};

use crate::workplace::Workplace;
use grid_base::{MemberId, Moment, Request};
use hand_cell::{Pass, Served};
use job_queues::{Busy, Done, Job, NewCall, Parcel, ParcelEnd, QueuePass, Unmade, Work};
use std::alloc::Global;
use std::fmt;
use std::sync::{Arc, Wait};
use thiserror::Error;

/// A call that was started: the receiver's side of its parcel.
#[derive(Drop)]
pub struct Awaited<T: Served> {
    pub parcel: Arc<Parcel<T>>,
    pub end: ParcelEnd<T>,
}

/// Why a call wasn't handed over to its worker.
#[derive(Clone, Copy, Debug, PartialEq, Eq, Error)]
pub enum Obstacle {
    /// The worker's queue was full at a moment of the call.
    #[error("the worker's queue was full")]
    Busy,
    #[error("there is no memory to hand the call over")]
    Memory,
}

/// A call that wasn't started, and why. The pass comes back as it was.
#[derive(Drop, Error)]
#[error("{why}")]
pub struct StartRefused<T: Served> {
    pub pass: Pass<T>,
    pub why: Obstacle,
}

impl<T: Served> fmt::Debug for StartRefused<T> {
    fn fmt<W: fmt::Write>(&self, f: &mut fmt::Formatter<W>) -> fmt::Result {
        f.debug_struct("StartRefused")
            .field("why", &self.why)
            .finish_non_exhaustive()
    }
}

impl<T: Served> Workplace<T> {
    /// Hands a call over to the worker of its partition at a member, with a pass of the cell there that has the name of
    /// the call, which is new. Takes memory for a parcel; a system call only where the worker sleeps.
    pub fn start<R: Wait>(
        &self,
        rt: &R,
        alloc: Global,
        token: &mut QueuePass<T>,
        pass: Pass<T>,
        member: MemberId,
        request: Request,
        now: Moment,
    ) -> Result<Awaited<T>, StartRefused<T>>
        requires token { IsTokenAt self.now (4 * member + request.partition % 4) token.old }
        requires cell { slice_get (roster_of self.now.cells.items).tables request.partition ≡ Some pass.table }
        requires named { has pass.names (Call request.id) ≡ true }
        requires unused { IsNewKey T.key_of (Call request.id) pass.seen }
        requires within { T.fits request }
        ensures started { IfOk result (λ awaited. HasStarted T.call_of (roster_of self.now.cells.items) pass member request now awaited) }
        ensures same { IfOk result (λ _. token.new ≡ token.old) }
        ensures refused { IfErr result (λ refused. IsUnstarted pass token.old token.new refused) }
    {
        let call = NewCall {
            pass,
            member,
            request,
            now,
        };
        self.start_call(rt, alloc, token, call)
    }

    /// Hands a call over as `start` does.
    pub(crate) fn start_call<R: Wait>(
        &self,
        rt: &R,
        alloc: Global,
        token: &mut QueuePass<T>,
        call: NewCall<T>,
    ) -> Result<Awaited<T>, StartRefused<T>>
        requires token { IsTokenAt self.now (4 * call.member + call.request.partition % 4) token.old }
        requires call { (terms : Terms T.Plan T.Event) × IsNew T.key_of T.call_of T.fits (roster_of self.now.cells.items) terms call }
        ensures started { (terms : Terms T.Plan T.Event) → IsNew T.key_of T.call_of T.fits (roster_of self.now.cells.items) terms call
            → IfOk result (λ awaited. IsAwaited terms awaited) }
        ensures same { IfOk result (λ _. token.new ≡ token.old) }
        ensures refused { IfErr result (λ refused. IsUnstarted call.pass token.old token.new refused) }
    {
        let cell = &self.cells[usize::from(call.request.partition)];
        match Job::new(alloc, cell, call) {
            Ok((job, parcel, end)) => match self.submit(rt, token, job) {
                Ok(()) => Ok(Awaited { parcel, end }),
                Err(Busy { job }) => {
                    let Job { work, .. } = job;
                    match work {
                        Work::New(call) => Err(StartRefused {
                            pass: call.pass,
                            why: Obstacle::Busy,
                        }),
                        Work::Begun(_) => unreachable!(),
                    }
                }
            },
            Err(Unmade { call }) => Err(StartRefused {
                pass: call.pass,
                why: Obstacle::Memory,
            }),
        }
    }
}

impl<T: Served> Awaited<T> {
    /// Waits for the answer, as `Parcel::wait`.
    pub fn wait<R: Wait>(self, rt: &R) -> Done<T>
        requires { (terms : Terms T.Plan T.Event) × IsAwaited terms self }
        ensures { (terms : Terms T.Plan T.Event) → IsAwaited terms self → IsDone T.key_of T.tells terms result }
    {
        let Awaited { parcel, end } = self;
        parcel.wait(rt, end)
    }
}
