ghost use Rattle.std.specs.Prelude.{◌≡◌, ◌+◌, ◌<◌, ◌^◌, false, IfOk, OnErr};
ghost use Rattle.grid_base.specs.Shelves.{meaning};
ghost use Rattle.replica_node.specs.Nodes.{node_of};
ghost use Rattle.apart_protocol.specs.Member.{Receives};
ghost use Rattle.member_alone.specs.Brought.{IsSmallIn};
ghost use Rattle.member_alone.specs.Lives.{Life};
ghost use Rattle.member_alone.specs.Outcomes.{HasCalled, outcome_of};
ghost use Rattle.member_alone.specs.Stands.{StandsForMember, is_stopped};

use crate::lone::LoneMember;
use crate::outcome::CallOutcome;
use grid_base::{CallId, Executes, Memory, Moment, Shelf};
use replica_node::{Called, Execution};
use std::alloc::Global;

/// What a call came to that was executed.
fn outcome_of(execution: &Execution) -> CallOutcome
    ensures { result ≡ outcome_of execution.now }
{
    let seen = execution.seen;
    if execution.is_held {
        CallOutcome::Held { seen }
    } else {
        CallOutcome::Released { seen }
    }
}

impl<S: Shelf> LoneMember<S> {
    /// A client's call reaches the member at a moment. Its effect, if it has one, is put out for each backup, and its answer
    /// waits for them. Want of memory changes nothing.
    ///
    /// Costs what the shelf makes of the call, a copy of its reply, and a copy of its effect for each backup.
    pub fn call<N>(
        &mut self,
        alloc: Global,
        env: &N,
        id: CallId,
        call: &S::Call,
        now: Moment,
    ) -> Result<CallOutcome, Memory>
    where
        S: Executes<N>,
        requires runs { is_stopped self.old ≡ false }
        requires limits { S.model.within_limits call.now }
        requires small { IsSmallIn S.model self.old }
        requires room { (node_of self.old.node).pair.count + 1 < 2 ^ 32 }
        ensures ok { (life : Life S.Call S.State) → let k = meaning S.model (S.plan_of env.now) in
            StandsForMember k self.old life → IfOk result (HasCalled k life (Receives id.conn id.number call.now now) self.new) }
        ensures err { (life : Life S.Call S.State) → let k = meaning S.model (S.plan_of env.now) in
            StandsForMember k self.old life → OnErr result (StandsForMember k self.new life) }
        ensures goes_on { is_stopped self.new ≡ false }
    {
        self.outlet.reserve()?;
        let execution = match self.node.call(alloc, env, id, call, now)? {
            Called::Executed(execution) => execution,
            Called::Refused(why) => return Ok(CallOutcome::Refused(why)),
        };
        let outcome = outcome_of(&execution);
        self.outlet.put(execution.sent);
        Ok(outcome)
    }
}
