ghost use Rattle.std.specs.Prelude.{◌≡◌, ◌+◌, ◌++◌, ◌∷◌, ℕ, List, [], IfOk, OnOk, OnErr};
ghost use Rattle.partition_protocol.specs.Events.{Event as ProtocolEvent};
ghost use Rattle.partition_protocol.specs.Claims.{IsSafe, IsFaithful};
ghost use Rattle.grid_base.specs.Shelves.{meaning};
ghost use Rattle.partition_world.specs.Events.{event_of, happened_of};
ghost use Rattle.partition_world.specs.Answers.{released_at};
ghost use Rattle.partition_world.specs.Worlds.{StandsFor, Comes, HasRun, IsKept, KeepsSetup, run_of, next_of, setup_of, steps_of, waiting};

use crate::event::{Event, Happened};
use crate::records::Records;
use crate::world::World;
use grid_base::{Executes, Memory, Shelf};
use std::alloc::Global;

/// A world takes at most so many events.
pub const MOST_EVENTS: u32 = 4_294_967_294;

impl<S: Shelf, R: Records<S::Call>> World<S, R> {
    /// Runs one event. No event looks through the history but a reopening, which tells it.
    ///
    /// A call costs its execution, and a copy of its effect for each backup. A delivery costs the reading of the message,
    /// what the member makes of it, and what that writes: of a row a snapshot of the contents at most, and for each backup
    /// a copy of it or up to 64 effects. Moves and detections cost a row's bytes for each member.
    pub fn step<N>(
        &mut self,
        alloc: Global,
        env: &N,
        event: Event<S::Call>,
    ) -> Result<Happened, Memory>
    where
        S: Executes<N>,
        S::Call: Drop,
        requires { (events : List (ProtocolEvent S.Call)) × Comes (meaning S.model (S.plan_of env.now)) R.records S.model.within_limits self.old events (event_of event) }

        // The outcome is the protocol's, and the world then stands for one event more.
        ensures outcome { (events : List (ProtocolEvent S.Call)) → let k = meaning S.model (S.plan_of env.now) in
            Comes k R.records S.model.within_limits self.old events (event_of event) → IfOk result (λ happened. happened_of happened ≡ (next_of k self.old events (event_of event)).outcome) }
        ensures stands { (events : List (ProtocolEvent S.Call)) → let k = meaning S.model (S.plan_of env.now) in
            Comes k R.records S.model.within_limits self.old events (event_of event) → OnOk result (StandsFor k R.records S.model.within_limits self.new (events ++ event_of event ∷ [])) }
        ensures steps { OnOk result (steps_of self.new ≡ steps_of self.old + 1) }

        // What it releases comes last among the answers that wait at its member.
        ensures waiting { (events : List (ProtocolEvent S.Call)) → let k = meaning S.model (S.plan_of env.now) in
            Comes k R.records S.model.within_limits self.old events (event_of event)
            → OnOk result ((member : ℕ) → waiting self.new member ≡ waiting self.old member ++ released_at k.object k.change_of (run_of k self.old events) (event_of event) member) }

        // Want of memory is no event, and changes nothing.
        ensures err { (events : List (ProtocolEvent S.Call)) → let k = meaning S.model (S.plan_of env.now) in
            Comes k R.records S.model.within_limits self.old events (event_of event) → OnErr result (StandsFor k R.records S.model.within_limits self.new events) }
        ensures err_waiting { OnErr result ((member : ℕ) → waiting self.new member ≡ waiting self.old member) }
        ensures err_steps { OnErr result (steps_of self.new ≡ steps_of self.old) }

        ensures setup { setup_of self.new ≡ setup_of self.old }
    {
        let happened = self.happen(alloc, env, event)?;
        self.steps += 1;
        Ok(happened)
    }

    /// Runs an event, and doesn't count it.
    fn happen<N>(
        &mut self,
        alloc: Global,
        env: &N,
        event: Event<S::Call>,
    ) -> Result<Happened, Memory>
    where
        S: Executes<N>,
        S::Call: Drop,
        requires { (events : List (ProtocolEvent S.Call)) × Comes (meaning S.model (S.plan_of env.now)) R.records S.model.within_limits self.old events (event_of event) }
        ensures ok { (events : List (ProtocolEvent S.Call)) → let k = meaning S.model (S.plan_of env.now) in
            Comes k R.records S.model.within_limits self.old events (event_of event) → IfOk result (HasRun k R.records self.old self.new events (event_of event)) }
        ensures err { (events : List (ProtocolEvent S.Call)) → let k = meaning S.model (S.plan_of env.now) in
            Comes k R.records S.model.within_limits self.old events (event_of event) → OnErr result (IsKept k R.records self.old self.new events) }
        ensures keeps { KeepsSetup self.old self.new }
    {
        match event {
            Event::Call {
                member,
                id,
                call,
                now,
            } => self.call(alloc, env, member, id, call, now),
            Event::Deliver { from, to, place } => self.deliver(alloc, from, to, place),
            Event::Lose { from, to, place } => Ok(self.lose(from, to, place)),
            Event::Repeat { from, to, place } => self.repeat(alloc, from, to, place),
            Event::Resend { end } => self.resend(alloc, end),
            Event::Crash { member } => self.crash(member),
            Event::Detect { member } => self.detect(alloc, member),
            Event::BeginMove { from, to } => self.begin_move(alloc, from, to),
            Event::BeginJoin { to } => self.begin_join(alloc, to),
            Event::BeginHandover { from, to } => Ok(self.begin_handover(from, to)),
            Event::Advance => self.advance(alloc),
            Event::Reopen => self.reopen(alloc),
        }
    }
}

/// What the protocol claims of its every run holds of a world: its history is that of one thread, it has every answer
/// that was released, and it has calls that were made, in order, each at most once.
pub fn every_world_is_safe<S: Shelf, R: Records<S::Call>>(world: &World<S, R>)
    ensures { (plan : S.Plan) (events : List (ProtocolEvent S.Call)) → let k = meaning S.model plan in
        StandsFor k R.records S.model.within_limits world.now events → IsSafe k.object (run_of k world.now events) × IsFaithful events (run_of k world.now events) }
{}
