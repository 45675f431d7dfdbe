//! How a call is made by its caller, where that can be at once.
ghost use Rattle.std.specs.Prelude.{◌≡◌, ◌+◌, ◌*◌, ◌%◌, true, Some, None, All, slice_get, IfOk, IfErr};
ghost use Rattle.hand_cell.specs.declared.names.Key.TheVariants.{Call};
ghost use Rattle.hand_cell.specs.Calls.{plan_of};
ghost use Rattle.hand_cell.specs.Names.{has, IsNewKey};
ghost use Rattle.job_queues.specs.Answers.{IsDone};
ghost use Rattle.job_queues.specs.Calls.{IsNew, IsBegun};
ghost use Rattle.job_queues.specs.Roster.{Roster, roster_of};
ghost use Rattle.job_queues.specs.Terms.{Terms};
ghost use Rattle.partition_threads.specs.Making.{HasMade, CameTo, HasTold};
ghost use Rattle.partition_threads.specs.Starting.{IsUnstarted};
ghost use Rattle.partition_threads.specs.Steps.{IsRun};
ghost use Rattle.partition_threads.specs.Workplaces.{IsTokenAt};

use crate::gate::Gate;
use crate::starting::{Awaited, Obstacle, StartRefused};
use crate::turns::{Step, try_call_turn, try_delivery_turn};
use crate::workplace::{Workplace, worker_of};
use grid_base::{MemberId, Moment, Request};
use hand_cell::{LiveOutcome, Pass, Runs, Served};
use job_queues::{BegunCall, Busy, Done, Job, NewCall, QueuePass, Unmade, Work};
use std::alloc::Global;
use std::sync::Wait;

/// How many messages a caller delivers for a call at most before it hands the call over.
pub const MOST_DELIVERIES: u32 = 64;

/// What a call came to.
#[derive(Drop)]
pub enum Made<T: Served> {
    /// Its outcome is known, and its pass is back.
    Done(Done<T>),
    /// It was handed over to the worker of its partition.
    Started(Awaited<T>),
    /// It has run, its outcome isn't known yet, and it couldn't be handed over. No worker knows of it: its caller keeps it,
    /// and goes on with it by `Workplace::go_on`, without sleeping before.
    Kept(BegunCall<T>, Obstacle),
}

impl<T: Served> Workplace<T> {
    /// Makes a call at once where its worker has no job and the turn of its partition is free: its event and its deliveries,
    /// a turn each, `MOST_DELIVERIES` at most. Else, and where its outcome isn't known after these, it is handed over as by
    /// `start`. It is refused only where nothing was done.
    ///
    /// The pass is of the cell there and has the name of the call, which is new. A call made at once waits for nobody; it
    /// takes memory only for its event and its deliveries, and is a system call only where others wait for the turn or a call
    /// is held in the partition. `Gate::inside` is called inside its turn. Who would rather not run a long call hands it over
    /// by `start`.
    pub fn make<N, G: Gate, R: Wait>(
        &self,
        rt: &R,
        alloc: Global,
        env: &N,
        gate: &G,
        token: &mut QueuePass<T>,
        pass: Pass<T>,
        member: MemberId,
        request: Request,
        now: Moment,
    ) -> Result<Made<T>, StartRefused<T>>
    where
        T: Runs<N>,
        requires token { IsTokenAt self.now (4 * member + request.partition % 4) token.old }
        requires cell { slice_get (roster_of self.now.cells.items).tables request.partition ≡ Some pass.table }
        requires named { has pass.names (Call request.id) ≡ true }
        requires unused { IsNewKey T.key_of (Call request.id) pass.seen }
        requires within { T.fits request }
        requires env { All (λ cell. T.means env.now (plan_of cell)) self.now.cells.items }
        ensures made { IfOk result (λ made. HasMade T.key_of T.tells T.call_of (roster_of self.now.cells.items) pass member request now made) }
        ensures told { IfOk result (λ made. HasTold token.old token.new made) }
        ensures refused { IfErr result (λ refused. IsUnstarted pass token.old token.new refused) }
    {
        let worker = worker_of(member, request.partition);
        let call = NewCall {
            pass,
            member,
            request,
            now,
        };
        if !self.is_idle(worker, token) {
            return self.start_made(rt, alloc, token, call);
        }
        match try_call_turn(alloc, self, env, gate, call) {
            Ok((call, outcome)) => match outcome {
                Some(outcome) => Ok(Made::Done(done_with(call, outcome))),
                None => Ok(self.go_on(rt, alloc, env, token, call)),
            },
            Err(call) => self.start_made(rt, alloc, token, call),
        }
    }

    /// Goes on with a call that its caller keeps: delivers what is in flight in its partition, a message a turn, where the
    /// turn is free, until the outcome is known. Where it isn't then, the call is handed over to its worker.
    pub fn go_on<N, R: Wait>(
        &self,
        rt: &R,
        alloc: Global,
        env: &N,
        token: &mut QueuePass<T>,
        call: BegunCall<T>,
    ) -> Made<T>
    where
        T: Runs<N>,
        requires token { IsTokenAt self.now (4 * call.member + call.partition % 4) token.old }
        requires call { (terms : Terms T.Plan T.Event) × IsBegun T.key_of T.tells T.call_of (roster_of self.now.cells.items) terms call None }
        requires env { All (λ cell. T.means env.now (plan_of cell)) self.now.cells.items }
        ensures came { (terms : Terms T.Plan T.Event) → IsBegun T.key_of T.tells T.call_of (roster_of self.now.cells.items) terms call None
            → CameTo T.key_of T.tells T.call_of (roster_of self.now.cells.items) terms call.member call.partition call.id result }
        ensures told { HasTold token.old token.new result }
    {
        let (call, outcome) = deliver_at_once(alloc, self, env, call);
        match outcome {
            Some(outcome) => Made::Done(done_with(call, outcome)),
            None => self.hand_over(rt, alloc, token, call),
        }
    }

    /// Hands a call over that hasn't run.
    fn start_made<R: Wait>(
        &self,
        rt: &R,
        alloc: Global,
        token: &mut QueuePass<T>,
        call: NewCall<T>,
    ) -> Result<Made<T>, StartRefused<T>>
        requires token { IsTokenAt self.now (4 * call.member + call.request.partition % 4) token.old }
        requires call { (terms : Terms T.Plan T.Event) × IsNew T.key_of T.call_of T.fits (roster_of self.now.cells.items) terms call }
        ensures came { (terms : Terms T.Plan T.Event) → IsNew T.key_of T.call_of T.fits (roster_of self.now.cells.items) terms call
            → IfOk result (λ made. CameTo T.key_of T.tells T.call_of (roster_of self.now.cells.items) terms call.member call.request.partition call.request.id made) }
        ensures told { IfOk result (λ made. HasTold token.old token.new made) }
        ensures refused { IfErr result (λ refused. IsUnstarted call.pass token.old token.new refused) }
    {
        match self.start_call(rt, alloc, token, call) {
            Ok(awaited) => Ok(Made::Started(awaited)),
            Err(refused) => Err(refused),
        }
    }

    /// Hands a call over that has run.
    fn hand_over<R: Wait>(
        &self,
        rt: &R,
        alloc: Global,
        token: &mut QueuePass<T>,
        call: BegunCall<T>,
    ) -> Made<T>
        requires token { IsTokenAt self.now (4 * call.member + call.partition % 4) token.old }
        requires call { (terms : Terms T.Plan T.Event) × IsBegun T.key_of T.tells T.call_of (roster_of self.now.cells.items) terms call None }
        ensures came { (terms : Terms T.Plan T.Event) → IsBegun T.key_of T.tells T.call_of (roster_of self.now.cells.items) terms call None
            → CameTo T.key_of T.tells T.call_of (roster_of self.now.cells.items) terms call.member call.partition call.id result }
        ensures told { HasTold token.old token.new result }
    {
        let cell = &self.cells[usize::from(call.partition)];
        match Job::begun(alloc, cell, call) {
            Ok((job, parcel, end)) => match self.submit(rt, token, job) {
                Ok(()) => Made::Started(Awaited { parcel, end }),
                Err(Busy { job }) => {
                    let Job { work, .. } = job;
                    match work {
                        Work::Begun(call) => Made::Kept(call, Obstacle::Busy),
                        Work::New(_) => unreachable!(),
                    }
                }
            },
            Err(Unmade { call }) => Made::Kept(call, Obstacle::Memory),
        }
    }
}

/// Delivers what is in flight in a call's partition, a message a turn, while the turn is free, until the call's outcome is
/// known.
fn deliver_at_once<T: Served + Runs<N>, N>(
    alloc: Global,
    place: &Workplace<T>,
    env: &N,
    call: BegunCall<T>,
) -> (BegunCall<T>, Option<LiveOutcome>)
    requires call { (terms : Terms T.Plan T.Event) × IsBegun T.key_of T.tells T.call_of (roster_of place.now.cells.items) terms call None }
    requires env { All (λ cell. T.means env.now (plan_of cell)) place.now.cells.items }
    ensures { (terms : Terms T.Plan T.Event) → IsBegun T.key_of T.tells T.call_of (roster_of place.now.cells.items) terms call None
        → IsRun T.key_of T.tells T.call_of (roster_of place.now.cells.items) terms call.member call.partition call.id result.0 result.1 }
{
    let mut going = call;
    for _ in 0..MOST_DELIVERIES {
        match try_delivery_turn(alloc, place, env, going) {
            Step::Known(call, outcome) => return (call, Some(outcome)),
            Step::Rests(call) => return (call, None),
            Step::Delivered(call) => going = call,
        }
    }
    (going, None)
}

/// The answer of a call whose outcome is known.
fn done_with<T: Served>(call: BegunCall<T>, outcome: LiveOutcome) -> Done<T>
    ensures { (roster : Roster T.Plan) (terms : Terms T.Plan T.Event) → IsBegun T.key_of T.tells T.call_of roster terms call (Some outcome)
        → IsDone T.key_of T.tells terms result }
{
    let BegunCall { pass, id, .. } = call;
    Done { pass, id, outcome }
}
