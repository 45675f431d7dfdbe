//! How a session's calls are made at once, where that can be.
ghost use Rattle.std.specs.Prelude.{◌<◌, vec_len, All, IfOk, IfErr};
ghost use Rattle.hand_cell.specs.Calls.{plan_of};
ghost use Rattle.job_queues.specs.Terms.{Terms};
ghost use Rattle.session_calls.specs.Calls.{MayCall, HasRefused};
ghost use Rattle.session_calls.specs.Making.{HasMade, MayGoOn, CameTo, HasTakenIn};
ghost use Rattle.session_calls.specs.Sessions.{IsSessionOf};

use crate::session::{SessionPass, Started};
use crate::slots::{put_pass, take_pass};
use grid_base::{CallId, Moment, PartitionId, Request};
use hand_cell::{LiveOutcome, Runs, Served};
use job_queues::BegunCall;
use partition_threads::{Gate, Made as Came, Obstacle, THREADS, Workplace};
use std::alloc::Global;
use std::sync::Wait;

/// What a call of a session came to.
#[derive(Drop)]
pub enum Made<T: Served> {
    /// Its outcome. The pass is back.
    Ready(LiveOutcome),
    /// It was handed over to the worker of its partition, and is under way.
    Started(Started<T>),
    /// It has run, its outcome isn't known yet, and it couldn't be handed over. Nobody wakes the session for it: the session
    /// goes on with it by `SessionPass::go_on`, without sleeping before.
    Kept(BegunCall<T>, Obstacle),
}

impl<T: Served> SessionPass<T> {
    /// Makes a call at once where its worker has no job and the turn of its partition is free: its event and its deliveries,
    /// a turn each. Else, and where its outcome isn't known then, it is handed over as by `start`. Where it is refused
    /// nothing was done, and the pass stays. It asks what `start` asks, and costs what `Workplace::make` does.
    ///
    /// A call that is known to take long, as one of an executed processor or of a large value, is better started: a worker
    /// runs it then, while this thread goes on.
    pub fn make<N, G: Gate, R: Wait>(
        &mut self,
        rt: &R,
        alloc: Global,
        place: &Workplace<T>,
        env: &N,
        gate: &G,
        request: Request,
        now: Moment,
    ) -> Result<Made<T>, Obstacle>
    where
        T: Runs<N>,
        requires session { IsSessionOf place.now self.old }
        requires may { MayCall T.key_of T.fits self.old request }
        requires env { All (λ cell. T.means env.now (plan_of cell)) place.now.cells.items }
        ensures made { IfOk result (λ made. HasMade T.key_of T.call_of T.tells place.now self.old self.new request now made) }
        ensures refused { IfErr result (λ why. HasRefused self.old self.new request.partition why) }
        ensures kept { IsSessionOf place.now self.new }
    {
        let id = request.id;
        let partition = request.partition;
        let slot = usize::from(partition);
        let member = self.member;
        let pass = take_pass(&mut self.passes, slot);
        let token = &mut self.tokens[slot % THREADS];
        match place.make(rt, alloc, env, gate, token, pass, member, request, now) {
            Ok(came) => Ok(self.take_in(id, partition, came)),
            Err(refused) => {
                put_pass(&mut self.passes, slot, refused.pass);
                Err(refused.why)
            }
        }
    }

    /// Goes on with a call that the session keeps, as `Workplace::go_on` does.
    pub fn go_on<N, R: Wait>(
        &mut self,
        rt: &R,
        alloc: Global,
        place: &Workplace<T>,
        env: &N,
        call: BegunCall<T>,
    ) -> Made<T>
    where
        T: Runs<N>,
        requires session { IsSessionOf place.now self.old }
        requires may { (terms : Terms T.Plan T.Event) × MayGoOn T.key_of T.call_of T.tells place.now terms self.old call }
        requires env { All (λ cell. T.means env.now (plan_of cell)) place.now.cells.items }
        ensures came { (terms : Terms T.Plan T.Event) → MayGoOn T.key_of T.call_of T.tells place.now terms self.old call
            → CameTo T.key_of T.call_of T.tells place.now terms call.id call.partition self.old self.new result }
        ensures kept { IsSessionOf place.now self.new }
    {
        let id = call.id;
        let partition = call.partition;
        let token = &mut self.tokens[usize::from(partition) % THREADS];
        let came = place.go_on(rt, alloc, env, token, call);
        self.take_in(id, partition, came)
    }

    /// Takes in what a call came to: its pass, where that is back.
    fn take_in(&mut self, id: CallId, partition: PartitionId, came: Came<T>) -> Made<T>
        requires { partition < vec_len self.old.passes }
        ensures { HasTakenIn self.old self.new id partition came result }
    {
        match came {
            Came::Done(done) => {
                put_pass(&mut self.passes, usize::from(partition), done.pass);
                Made::Ready(done.outcome)
            }
            Came::Started(awaited) => Made::Started(Started {
                id,
                partition,
                awaited,
            }),
            Came::Kept(call, why) => Made::Kept(call, why),
        }
    }
}
