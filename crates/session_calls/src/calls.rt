//! How a session's calls are started and finished.
ghost use Rattle.std.specs.Prelude.{IfOk, IfErr};
ghost use Rattle.job_queues.specs.Terms.{Terms};
ghost use Rattle.session_calls.specs.Sessions.{IsSessionOf};
ghost use Rattle.session_calls.specs.Calls.{MayCall, HasStarted, HasRefused, IsUnderWay, MayFinish, HasEnded};

use crate::session::{SessionPass, Started};
use crate::slots::{put_pass, take_pass};
use grid_base::{Moment, Request};
use hand_cell::{LiveOutcome, Served};
use partition_threads::{Awaited, Obstacle, THREADS, Workplace};
use std::alloc::Global;
use std::sync::Wait;

/// What a look for a call's outcome found.
#[derive(Drop)]
pub enum Finished<T: Served> {
    /// The outcome. The pass is back.
    Ready(LiveOutcome),
    /// The call is still under way.
    NotYet(Started<T>),
}

impl<T: Served> SessionPass<T> {
    /// Hands a call over to the worker of its partition at the session's member. The pass of the partition goes with
    /// it; where the call isn't started it stays. No call of the session is under way in the partition, and the pass
    /// there has the name of this call, which is new. Takes memory for a parcel; a system call only where the worker
    /// sleeps.
    pub fn start<R: Wait>(
        &mut self,
        rt: &R,
        alloc: Global,
        place: &Workplace<T>,
        request: Request,
        now: Moment,
    ) -> Result<Started<T>, Obstacle>
        requires session { IsSessionOf place.now self.old }
        requires may { MayCall T.key_of T.fits self.old request }
        ensures started { IfOk result (λ started. HasStarted T.key_of T.call_of place.now self.old self.new request now started) }
        ensures refused { IfErr result (λ why. HasRefused self.old self.new request.partition why) }
        ensures kept { IsSessionOf place.now self.new }
    {
        let id = request.id;
        let partition = request.partition;
        let slot = usize::from(partition);
        let member = self.member;
        let pass = take_pass(&mut self.passes, slot);
        let token = &mut self.tokens[slot % THREADS];
        match place.start(rt, alloc, token, pass, member, request, now) {
            Ok(awaited) => Ok(Started {
                id,
                partition,
                awaited,
            }),
            Err(refused) => {
                put_pass(&mut self.passes, slot, refused.pass);
                Err(refused.why)
            }
        }
    }

    /// Looks whether a call has its outcome; its pass is then back. Waits for nobody: constant time, no memory and no
    /// system call.
    pub fn finish<R: Wait>(
        &mut self,
        rt: &R,
        place: &Workplace<T>,
        started: Started<T>,
    ) -> Finished<T>
        requires session { IsSessionOf place.now self.old }
        requires may { (terms : Terms T.Plan T.Event) × MayFinish T.key_of place.now terms self.old started }
        ensures ended { (terms : Terms T.Plan T.Event) → IsUnderWay T.key_of place.now terms started
            → HasEnded T.key_of T.tells place.now terms started self.old self.new result }
        ensures kept { IsSessionOf place.now self.new }
    {
        let _ = place;
        let Started {
            id,
            partition,
            awaited,
        } = started;
        let Awaited { parcel, mut end } = awaited;
        match parcel.look(rt, &mut end) {
            Some(done) => {
                put_pass(&mut self.passes, usize::from(partition), done.pass);
                Finished::Ready(done.outcome)
            }
            None => Finished::NotYet(Started {
                id,
                partition,
                awaited: Awaited { parcel, end },
            }),
        }
    }
}
