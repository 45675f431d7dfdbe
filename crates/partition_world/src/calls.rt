ghost use Rattle.std.specs.Prelude.{◌≡◌, List, true, IfOk, IfErr, OnErr};
ghost use Rattle.partition_protocol.specs.World.{is_live};
ghost use Rattle.partition_protocol.specs.Events.{Event as ProtocolEvent, Call as CallEvent};
ghost use Rattle.grid_base.specs.Shelves.{meaning};
ghost use Rattle.partition_world.specs.Events.{came_to};
ghost use Rattle.partition_world.specs.Worlds.{Comes, HasRun, IsKept, KeepsSetup, run_of};

use crate::entry::Entry;
use crate::event::{CallOutcome, Happened};
use crate::records::Records;
use crate::world::World;
use grid_base::{CallId, Executes, MemberId, Memory, Moment, Shelf};
use replica_node::{Called, Execution};
use std::alloc::Global;

impl<S: Shelf, R: Records<S::Call>> World<S, R> {
    /// A call reaches a member.
    pub(crate) fn call<N>(
        &mut self,
        alloc: Global,
        env: &N,
        member: MemberId,
        id: CallId,
        call: S::Call,
        now: Moment,
    ) -> Result<Happened, Memory>
    where
        S: Executes<N>,
        S::Call: Drop,
        requires { (events : List (ProtocolEvent S.Call)) × Comes (meaning S.model (S.plan_of env.now)) R.records S.model.within_limits self.old events (CallEvent member id.conn id.number call now) }
        ensures ok { (events : List (ProtocolEvent S.Call)) → let k = meaning S.model (S.plan_of env.now) in let e = CallEvent member id.conn id.number call now in
            Comes k R.records S.model.within_limits self.old events e → IfOk result (HasRun k R.records self.old self.new events e) }
        ensures err { (events : List (ProtocolEvent S.Call)) → let k = meaning S.model (S.plan_of env.now) in
            Comes k R.records S.model.within_limits self.old events (CallEvent member id.conn id.number call now) → OnErr result (IsKept k R.records self.old self.new events) }
        ensures keeps { KeepsSetup self.old self.new }
    {
        if !self.is_live(member) {
            return Ok(Happened::Nothing);
        }
        let outcome = self.execute(alloc, env, member, id, call, now)?;
        Ok(Happened::Called(outcome))
    }

    /// A live member executes a call, which is recorded, and whose effect is sent, or refuses it. All memory is taken
    /// before anything changes.
    fn execute<N>(
        &mut self,
        alloc: Global,
        env: &N,
        member: MemberId,
        id: CallId,
        call: S::Call,
        now: Moment,
    ) -> Result<CallOutcome, Memory>
    where
        S: Executes<N>,
        S::Call: Drop,
        requires comes { (events : List (ProtocolEvent S.Call)) × Comes (meaning S.model (S.plan_of env.now)) R.records S.model.within_limits self.old events (CallEvent member id.conn id.number call now) }
        requires lives { (events : List (ProtocolEvent S.Call)) → let k = meaning S.model (S.plan_of env.now) in
            Comes k R.records S.model.within_limits self.old events (CallEvent member id.conn id.number call now) → is_live (run_of k self.old events) member ≡ true }
        ensures ok { (events : List (ProtocolEvent S.Call)) → let k = meaning S.model (S.plan_of env.now) in let e = CallEvent member id.conn id.number call now in
            Comes k R.records S.model.within_limits self.old events e → IfOk result (λ outcome. HasRun k R.records self.old self.new events e (Happened.Called outcome)) }
        ensures err { (events : List (ProtocolEvent S.Call)) → let k = meaning S.model (S.plan_of env.now) in
            Comes k R.records S.model.within_limits self.old events (CallEvent member id.conn id.number call now) → OnErr result (IsKept k R.records self.old self.new events) }
        ensures keeps { KeepsSetup self.old self.new }
    {
        self.recorder.reserve()?;
        self.links.reserve(member, 1)?;
        let node = &mut self.nodes[usize::from(member)];
        let execution = match node.call(alloc, env, id, &call, now)? {
            Called::Executed(execution) => execution,
            Called::Refused(why) => return Ok(CallOutcome::Refused(why)),
        };
        let outcome = came_to(&execution);
        let Execution {
            version,
            seen,
            reply,
            sent,
            ..
        } = execution;
        self.recorder.record(Entry::Call {
            id,
            version,
            seen,
            now,
            call,
            reply,
        });
        self.links.send_all(member, sent.into_vec());
        Ok(outcome)
    }
}

/// What a call came to that was executed.
fn came_to(execution: &Execution) -> CallOutcome
    ensures { result ≡ came_to execution.now }
{
    let seen = execution.seen;
    if execution.is_held {
        CallOutcome::Held { seen }
    } else {
        CallOutcome::Released { seen }
    }
}
