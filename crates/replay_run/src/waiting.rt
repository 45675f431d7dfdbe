//! Calls that wait: they join the list of their member and partition, and leave it as their turn comes.

ghost use Rattle.std.specs.Prelude.{◌≡◌, ℕ, ◌+◌, ◌^◌, ◌<◌, ◌++◌, Some, None, OnOk, IsErrOf};
ghost use Rattle.grid_base.specs.declared.calls.Request.{Request as Call};
ghost use Rattle.grid_base.specs.Limits.{CallFits};
ghost use Rattle.partition_world.specs.Events.{event_of};
ghost use Rattle.call_engine.specs.Calls.{Settings};
ghost use Rattle.call_engine.specs.Objects.{partition_object};
ghost use Rattle.replay_run.specs.Runs.{Run, Waiter as RunWaiter, partitions, refused_at, stirred_by, served_in};
ghost use Rattle.replay_run.specs.ScriptRuns.{IsRun, IsNext};
ghost use Rattle.replay_run.specs.Tallies.{tallied_later};
ghost use Rattle.replay_run.specs.Grids.{boxed, AreFew, Holds, IsCounting};
ghost use Rattle.replay_run.specs.LineTold.{all_told};
ghost use Rattle.replay_run.specs.WorldCalls.{HasCallRoom, GivesUpSo, HasRoomAt};
ghost use Rattle.replay_run.specs.WaiterCalls.{IsBetween, HasServed, HasTakenOut, by_turns, by_leaving, MayLeave, HasHandledCall, by_waiting};
ghost use Rattle.wait_sets.specs.declared.turn.Turn.TheVariants.{Call as Called};
ghost use Rattle.partition_protocol.specs.Service.{numbers_below};
ghost use Rattle.replica_node.specs.Calls.{refused_as};
ghost use Rattle.replay_run.specs.declared.tally.Reception.TheVariants.{Refused as WasRefused};
ghost use Rattle.replay_run.specs.declared.run_end.RunEnd.TheVariants as RunEnds;

use crate::calls::{Arriving, Caller, Refusal, call, tell_refusal};
use crate::grid::Grid;
use crate::links::MOST_IN_FLIGHT;
use crate::outgoing::{Reaching, append_reached, version_known};
use crate::run_end::RunEnd;
use crate::tally::Reception;
use grid_base::{MemberId, Memory, PARTITIONS, PartitionRefused, Request};
use line_told::Told;
use partition_world::Event;
use std::alloc::Global;
use wait_sets::{Spot, Turn, Waiter, deadline_of, standing_of};

/// The member at which an event may make waiters leave: the one that takes a message, or that crashes.
pub(crate) fn stirred_by(event: &Event<Request>) -> Option<MemberId>
    ensures { result ≡ stirred_by (event_of event.now) }
{
    match event {
        Event::Deliver { to, .. } => Some(*to),
        Event::Crash { member } => Some(*member),
        _ => None,
    }
}

impl Grid {
    /// A waiting call arrives at its connection's member: it joins its list, and then the list's turns are made.
    pub(crate) fn wait(
        &mut self,
        alloc: Global,
        member: MemberId,
        request: Request,
        timeout: i64,
        out: &mut Vec<Told>,
    ) -> Result<(), RunEnd>
        requires limits { CallFits request.call }
        requires placed { request.partition < partitions }
        requires member { member < self.old.members }
        requires stands { (settings : Settings) × (r : Run) × IsBetween (boxed form) settings self.old r (Some request.id.conn) × IsNext r request × HasCallRoom r × AreFew r × IsCounting self.old.connections r request.id.conn request.id.number }
        ensures ok { (settings : Settings) (r : Run) → IsBetween (boxed form) settings self.old r (Some request.id.conn) → IsNext r request
            → IsCounting self.old.connections r request.id.conn request.id.number
            → OnOk result (HasHandledCall (boxed form) settings self.new r request.id.conn (request.id.number + 1) (by_waiting settings r member request timeout) out.old.items out.new.items) }
        ensures full { (settings : Settings) (r : Run) → IsBetween (boxed form) settings self.old r (Some request.id.conn) → IsNext r request
            → IsCounting self.old.connections r request.id.conn request.id.number
            → IsErrOf result RunEnds.InFlight → GivesUpSo r (by_waiting settings r member request timeout) }
    {
        let conn = request.id.conn;
        let at = Spot {
            member,
            partition: request.partition,
        };
        let deadline = deadline_of(self.moments[usize::from(member)], timeout);
        self.connections.arrive(conn, self.lines)?;
        self.tally.count(Reception::Taken);
        self.waiters.add(at, Waiter { request, deadline })?;
        self.make_turns(alloc, at, Some(conn), out)
    }

    /// Makes the turns of a list until nothing is to be done with anybody in it. Answers go out to connections that are
    /// open, and to that of the line at hand.
    ///
    /// Costs a constant where nobody waits there.
    pub(crate) fn make_turns(
        &mut self,
        alloc: Global,
        at: Spot,
        own: Option<u32>,
        out: &mut Vec<Told>,
    ) -> Result<(), RunEnd>
        requires member { at.member < self.old.members }
        requires partition { at.partition < partitions }
        requires stands { (settings : Settings) × (r : Run) × IsBetween (boxed form) settings self.old r own × HasRoomAt r at.partition 0 }
        ensures ok { (settings : Settings) (r : Run) → IsBetween (boxed form) settings self.old r own
            → OnOk result (HasServed (boxed form) settings self.old self.new r own (by_turns settings r own at.partition at.member) out.old.items out.new.items) }
        ensures full { (settings : Settings) (r : Run) → IsBetween (boxed form) settings self.old r own
            → IsErrOf result RunEnds.InFlight → GivesUpSo r (by_turns settings r own at.partition at.member) }
    {
        while let Some(turn) = self.next_turn(at) {
            self.make_turn(alloc, at, own, turn, out)?;
        }
        Ok(())
    }

    /// Makes the turns of a member's lists, in order of partition.
    pub(crate) fn make_turns_of(
        &mut self,
        alloc: Global,
        member: MemberId,
        out: &mut Vec<Told>,
    ) -> Result<(), RunEnd>
        requires member { member < self.old.members }
        requires stands { (settings : Settings) × (r : Run) × IsBetween (boxed form) settings self.old r None × ((p : ℕ) → HasRoomAt r p 0) }
        ensures ok { (settings : Settings) (r : Run) → IsBetween (boxed form) settings self.old r None
            → OnOk result (HasServed (boxed form) settings self.old self.new r None (λ skips. served_in (partition_object settings) skips r member (numbers_below partitions)) out.old.items out.new.items) }
        ensures full { (settings : Settings) (r : Run) → IsBetween (boxed form) settings self.old r None
            → IsErrOf result RunEnds.InFlight → GivesUpSo r (λ skips. served_in (partition_object settings) skips r member (numbers_below partitions)) }
    {
        if self.waiters.is_idle() {
            return Ok(());
        }
        for partition in 0..PARTITIONS {
            self.make_turns(alloc, Spot { member, partition }, None, out)?;
        }
        Ok(())
    }

    /// The waiter whose turn it is in a list, which leaves it.
    fn next_turn(&mut self, at: Spot) -> Option<Turn>
        requires member { at.member < self.old.members }
        requires partition { at.partition < partitions }
        requires stands { (settings : Settings) × (r : Run) × IsRun (partition_object settings) r × Holds (boxed form) settings self.old r }
        ensures taken { (settings : Settings) (r : Run) → IsRun (partition_object settings) r → Holds (boxed form) settings self.old r → HasTakenOut (boxed form) settings self.new r at.partition at.member result }
        ensures rest { self.new ≡ record self.old { waiters = self.new.waiters } }
    {
        let world = &self.worlds[usize::from(at.partition)];
        let standing = standing_of(world, at.member);
        let shelf = world.contents(at.member).shelf;
        let now = self.moments[usize::from(at.member)];
        self.waiters.turn(at, standing, shelf, &self.env, now)
    }

    /// What becomes of a waiter that has left.
    fn make_turn(
        &mut self,
        alloc: Global,
        at: Spot,
        own: Option<u32>,
        turn: Turn,
        out: &mut Vec<Told>,
    ) -> Result<(), RunEnd>
        requires stands { (settings : Settings) × (r : Run) × (w : RunWaiter) × MayLeave (boxed form) settings self.old r at own turn w × HasRoomAt r at.partition 0 }
        ensures ok { (settings : Settings) (r : Run) (w : RunWaiter) → MayLeave (boxed form) settings self.old r at own turn w
            → OnOk result (HasServed (boxed form) settings self.old self.new r own (by_leaving settings r own w) out.old.items out.new.items) }
        ensures full { (settings : Settings) (r : Run) (w : RunWaiter) → MayLeave (boxed form) settings self.old r at own turn w
            → IsErrOf result RunEnds.InFlight → GivesUpSo r (by_leaving settings r own w) }
    {
        match turn {
            Turn::Call(request) => self.make_call(alloc, at, own, request, out),
            Turn::Refusal(request, why) => Ok(self.refuse_waiter(alloc, request, why, out)?),
            Turn::Silence(request) => {
                drop(request);
                Ok(())
            }
        }
    }

    /// A waiter is refused as its plain call would be, which is no event.
    fn refuse_waiter(
        &mut self,
        alloc: Global,
        request: Request,
        why: PartitionRefused,
        out: &mut Vec<Told>,
    ) -> Result<(), Memory>
        requires refused { self.old.tally.refused < self.old.tally.arrived }
        requires memory { self.old.tally.memory < self.old.tally.arrived }
        ensures grid { self.new ≡ record self.old { tally = tallied_later WasRefused self.old.tally } }
        ensures told { OnOk result (out.new.items ≡ out.old.items ++ all_told (refused_at self.old.lines request (refused_as why))) }
    {
        self.tally.count_later(Reception::Refused);
        let to = Caller {
            line: self.lines,
            id: request.id,
            correlation: request.correlation,
        };
        let refusal = Refusal {
            code: why.code(),
            version: why.version(),
        };
        tell_refusal(alloc, out, to, Some(refusal))
    }

    /// The plain call of a waiter is made. A full partition takes none.
    fn make_call(
        &mut self,
        alloc: Global,
        at: Spot,
        own: Option<u32>,
        request: Request,
        out: &mut Vec<Told>,
    ) -> Result<(), RunEnd>
        requires stands { (settings : Settings) × (r : Run) × (w : RunWaiter) × MayLeave (boxed form) settings self.old r at own (Called request) w × HasRoomAt r at.partition 0 }
        ensures ok { (settings : Settings) (r : Run) (w : RunWaiter) → MayLeave (boxed form) settings self.old r at own (Called request) w
            → OnOk result (HasServed (boxed form) settings self.old self.new r own (by_leaving settings r own w) out.old.items out.new.items) }
        ensures full { (settings : Settings) (r : Run) (w : RunWaiter) → MayLeave (boxed form) settings self.old r at own (Called request) w
            → IsErrOf result RunEnds.InFlight → GivesUpSo r (by_leaving settings r own w) }
    {
        let world = &mut self.worlds[usize::from(at.partition)];
        if world.has_crowded_link(MOST_IN_FLIGHT) {
            return Err(RunEnd::InFlight);
        }
        let arriving = Arriving {
            line: self.lines,
            member: at.member,
            now: self.moments[usize::from(at.member)],
        };
        let reaching = Reaching {
            line: self.lines,
            partition: at.partition,
            member: at.member,
            known: version_known(world, self.members, at.member),
            own,
        };
        let reception = call(alloc, world, &self.env, arriving, request, out)?;
        self.tally.count_later(reception);
        append_reached(
            alloc,
            reaching,
            world,
            self.listeners.as_slice(),
            &mut self.connections,
            out,
        )?;
        Ok(())
    }
}
