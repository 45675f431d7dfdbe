//! The line that deals the primaries out evenly: the plan for the grid's rows, and the events of its steps.

ghost use Rattle.std.specs.Prelude.{◌≡◌, ◌<◌, ◌∷◌, ◌++◌, [], true, Err, take, map, IfOk, OnOk, IsErrOf};
ghost use Rattle.partition_world.specs.Events.{event_of};
ghost use Rattle.rebalance.specs.declared.StepKind.TheVariants.{Handover};
ghost use Rattle.rebalance.specs.Plans.{Planned, Gives};
ghost use Rattle.call_engine.specs.Calls.{Settings};
ghost use Rattle.call_engine.specs.Objects.{partition_object};
ghost use Rattle.script_lang.specs.declared.line.Line.TheVariants as ScriptLines;
ghost use Rattle.replay_run.specs.Runs.{Run, partitions};
ghost use Rattle.replay_run.specs.Rebalancing.{is_moving_at, rows_in, marks_in, is_detected_in, detected_in, plan_in, event_begun, first_resends, turned, turned_on, joined, rejoined, stepped, stepped_all, most_line_events};
ghost use Rattle.line_told.specs.declared.told.Told.TheVariants as told;
ghost use Rattle.replay_run.specs.LineTold.{steps_told, plan_told, end_told};
ghost use Rattle.replay_run.specs.Grids.{boxed, Stands, MayRun, HasRun, IsGivenUp};
ghost use Rattle.replay_run.specs.WorldCalls.{HasRoomAt, IsAmid, HasGoneOnSo, GivesUpSo, MayStep, HasStepped, HasNoSteps};
ghost use Rattle.replay_run.specs.declared.run_end.RunEnd.TheVariants as RunEnds;

use crate::grid::Grid;
use crate::messages::tell_outcome;
use crate::run_end::RunEnd;
use grid_base::{MemberId, Memory, PARTITIONS, PartitionId, Request};
use line_told::{LineOutcome, Told};
use partition_table::Row;
use partition_world::Event;
use rebalance::{Plan, PlanRefused, Step, StepKind, plan};
use std::alloc::{AllocError, Global};

/// How many messages are delivered at once.
const MOST_DELIVERIES: u32 = 1000;

/// How many turns a step has.
const MOST_TURNS: u8 = 4;

/// The event with which a step begins.
fn event_begun(step: Step) -> Event<Request>
    ensures { event_of result ≡ event_begun step.kind step.from step.to }
{
    let Step { from, to, kind, .. } = step;
    match kind {
        StepKind::Move => Event::BeginMove { from, to },
        StepKind::Handover => Event::BeginHandover { from, to },
    }
}

/// Up to so many of the first steps.
fn first_steps(steps: &[Step], most: u32) -> &[Step]
    ensures { result.now ≡ take most steps.now }
{
    &steps[..(most as usize).min(steps.len())]
}

/// Tells the steps of a plan.
fn tell_steps(out: &mut Vec<Told>, steps: &[Step]) -> Result<(), Memory>
    ensures { OnOk result (out.new.items ≡ out.old.items ++ map told.Step steps.now) }
{
    for step in steps {
        out.push(Told::Step(*step))?;
    }
    Ok(())
}

/// Tells a plan: how many steps it has, and each of them.
fn tell_plan(out: &mut Vec<Told>, steps: &[Step]) -> Result<(), Memory>
    ensures { OnOk result (out.new.items ≡ out.old.items ++ steps_told steps.now) }
{
    tell_outcome(out, LineOutcome::Planned { steps: steps.len() })?;
    tell_steps(out, steps)
}

/// Tells why there is no plan; want of memory is handed on.
fn tell_no_plan(out: &mut Vec<Told>, why: PlanRefused) -> Result<(), Memory>
    ensures { OnOk result ((planned : Planned) → Gives (Err why) planned → HasNoSteps planned × (out.new.items ≡ out.old.items ++ plan_told planned)) }
{
    match why {
        PlanRefused::NoMember => tell_outcome(out, LineOutcome::NoMember),
        PlanRefused::Unsettled { partition } => {
            tell_outcome(out, LineOutcome::Unsettled { partition })
        }
        PlanRefused::Memory => Err(AllocError),
    }
}

/// Tells how a step ended: its move is done, or still under way.
fn tell_ended(out: &mut Vec<Told>, partition: PartitionId, moving: bool) -> Result<(), Memory>
    ensures { OnOk result (out.new.items ≡ out.old.items ++ end_told partition moving) }
{
    Ok(out.push(Told::Ended { partition, moving })?)
}

impl Grid {
    /// Whether a move of the partition is under way.
    fn is_moving(&self, partition: PartitionId) -> bool
        requires placed { partition < partitions }
        requires stands { (settings : Settings) × (r : Run) × IsAmid (boxed form) settings self.now r }
        ensures { (settings : Settings) (r : Run) → IsAmid (boxed form) settings self.now r → result ≡ is_moving_at (partition_object settings) r partition }
    {
        self.worlds[usize::from(partition)].moving()
    }

    /// Copies of the newest rows, in order of partition.
    fn rows(&self, alloc: Global) -> Result<Vec<Row>, Memory>
        requires { (settings : Settings) × (r : Run) × IsAmid (boxed form) settings self.now r }
        ensures { (settings : Settings) (r : Run) → IsAmid (boxed form) settings self.now r → IfOk result (λ rows. rows.items ≡ rows_in (partition_object settings) r) }
    {
        let mut rows = Vec::with_capacity(alloc, usize::from(PARTITIONS))?;
        for partition in 0..PARTITIONS {
            rows.push(self.worlds[usize::from(partition)].row().copied(alloc)?)?;
        }
        Ok(rows)
    }

    /// Which partitions are moving, in order of partition.
    fn marks(&self, alloc: Global) -> Result<Vec<bool>, Memory>
        requires { (settings : Settings) × (r : Run) × IsAmid (boxed form) settings self.now r }
        ensures { (settings : Settings) (r : Run) → IsAmid (boxed form) settings self.now r → IfOk result (λ marks. marks.items ≡ marks_in (partition_object settings) r) }
    {
        let mut marks = Vec::with_capacity(alloc, usize::from(PARTITIONS))?;
        for partition in 0..PARTITIONS {
            marks.push(self.is_moving(partition))?;
        }
        Ok(marks)
    }

    /// Whether every partition's table service was told that the member has crashed.
    fn is_detected(&self, member: MemberId) -> bool
        requires { (settings : Settings) × (r : Run) × IsAmid (boxed form) settings self.now r }
        ensures { (settings : Settings) (r : Run) → IsAmid (boxed form) settings self.now r → result ≡ is_detected_in (partition_object settings) r member }
    {
        for partition in 0..PARTITIONS {
            if !self.worlds[usize::from(partition)].is_detected(member) {
                return false;
            }
        }
        true
    }

    /// The detected members, in order.
    fn detected(&self, alloc: Global) -> Result<Vec<MemberId>, Memory>
        requires { (settings : Settings) × (r : Run) × IsAmid (boxed form) settings self.now r }
        ensures { (settings : Settings) (r : Run) → IsAmid (boxed form) settings self.now r → IfOk result (λ detected. detected.items ≡ detected_in (partition_object settings) r) }
    {
        let mut detected = Vec::new(alloc);
        for member in 0..self.members {
            if self.is_detected(member) {
                detected.push(member)?;
            }
        }
        Ok(detected)
    }

    /// The plan for the rows as they stand.
    fn plan(&self, alloc: Global) -> Result<Plan, PlanRefused>
        requires { (settings : Settings) × (r : Run) × IsAmid (boxed form) settings self.now r }
        ensures { (settings : Settings) (r : Run) → IsAmid (boxed form) settings self.now r → Gives result (plan_in (partition_object settings) r) }
    {
        let rows = self.rows(alloc)?;
        let marks = self.marks(alloc)?;
        let detected = self.detected(alloc)?;
        plan(alloc, &rows, &marks, &detected, self.members)
    }

    /// The first member of the partition's row sends again, if the row has one.
    fn resend_first(
        &mut self,
        alloc: Global,
        partition: PartitionId,
        out: &mut Vec<Told>,
    ) -> Result<(), RunEnd>
        requires placed { partition < partitions }
        requires stands { (settings : Settings) × (r : Run) × IsAmid (boxed form) settings self.old r × HasRoomAt r partition 1 }
        ensures ok { (settings : Settings) (r : Run) → IsAmid (boxed form) settings self.old r
            → OnOk result (HasGoneOnSo (boxed form) settings self.new r (λ skips. first_resends (partition_object settings) skips r partition) out.old.items out.new.items) }
        ensures full { (settings : Settings) (r : Run) → IsAmid (boxed form) settings self.old r → IsErrOf result RunEnds.InFlight → GivesUpSo r (λ skips. first_resends (partition_object settings) skips r partition) }
    {
        let first = self.worlds[usize::from(partition)].row().primary();
        let Some(end) = first else {
            return Ok(());
        };
        self.take(alloc, partition, Event::Resend { end }, out)?;
        Ok(())
    }

    /// One turn of a step: what may have been lost is sent again, messages are delivered, and the move takes its next
    /// step.
    fn turn(
        &mut self,
        alloc: Global,
        partition: PartitionId,
        out: &mut Vec<Told>,
    ) -> Result<(), RunEnd>
        requires placed { partition < partitions }
        requires stands { (settings : Settings) × (r : Run) × IsAmid (boxed form) settings self.old r × HasRoomAt r partition 1003 }
        ensures ok { (settings : Settings) (r : Run) → IsAmid (boxed form) settings self.old r
            → OnOk result (HasGoneOnSo (boxed form) settings self.new r (λ skips. turned (partition_object settings) skips r partition) out.old.items out.new.items) }
        ensures full { (settings : Settings) (r : Run) → IsAmid (boxed form) settings self.old r → IsErrOf result RunEnds.InFlight → GivesUpSo r (λ skips. turned (partition_object settings) skips r partition) }
    {
        let service = self.members;
        self.take(alloc, partition, Event::Resend { end: service }, out)?;
        self.resend_first(alloc, partition, out)?;
        self.deliver_first(alloc, partition, MOST_DELIVERIES, out)?;
        self.take(alloc, partition, Event::Advance, out)?;
        Ok(())
    }

    /// The turns of a step, while its move is under way.
    fn turn_on(
        &mut self,
        alloc: Global,
        partition: PartitionId,
        out: &mut Vec<Told>,
    ) -> Result<(), RunEnd>
        requires placed { partition < partitions }
        requires stands { (settings : Settings) × (r : Run) × IsAmid (boxed form) settings self.old r × HasRoomAt r partition 4012 }
        ensures ok { (settings : Settings) (r : Run) → IsAmid (boxed form) settings self.old r
            → OnOk result (HasGoneOnSo (boxed form) settings self.new r (λ skips. turned_on (partition_object settings) skips r partition MOST_TURNS) out.old.items out.new.items) }
        ensures full { (settings : Settings) (r : Run) → IsAmid (boxed form) settings self.old r → IsErrOf result RunEnds.InFlight → GivesUpSo r (λ skips. turned_on (partition_object settings) skips r partition MOST_TURNS) }
    {
        let mut turns = 0;
        'turns: while turns < MOST_TURNS {
            if !self.is_moving(partition) {
                return Ok(());
            }
            self.turn(alloc, partition, out)?;
            turns += 1;
        }
        Ok(())
    }

    /// A member joins the partition's row, and messages are delivered.
    fn join(
        &mut self,
        alloc: Global,
        partition: PartitionId,
        member: MemberId,
        out: &mut Vec<Told>,
    ) -> Result<(), RunEnd>
        requires placed { partition < partitions }
        requires stands { (settings : Settings) × (r : Run) × IsAmid (boxed form) settings self.old r × HasRoomAt r partition 1001 }
        ensures ok { (settings : Settings) (r : Run) → IsAmid (boxed form) settings self.old r
            → OnOk result (HasGoneOnSo (boxed form) settings self.new r (λ skips. joined (partition_object settings) skips r partition member) out.old.items out.new.items) }
        ensures full { (settings : Settings) (r : Run) → IsAmid (boxed form) settings self.old r → IsErrOf result RunEnds.InFlight → GivesUpSo r (λ skips. joined (partition_object settings) skips r partition member) }
    {
        self.take(alloc, partition, Event::BeginJoin { to: member }, out)?;
        self.deliver_first(alloc, partition, MOST_DELIVERIES, out)?;
        Ok(())
    }

    /// After a handover, if it has ended, the member that led joins the row again.
    fn join_again(
        &mut self,
        alloc: Global,
        partition: PartitionId,
        from: MemberId,
        out: &mut Vec<Told>,
    ) -> Result<(), RunEnd>
        requires placed { partition < partitions }
        requires stands { (settings : Settings) × (r : Run) × IsAmid (boxed form) settings self.old r × HasRoomAt r partition 1001 }
        ensures ok { (settings : Settings) (r : Run) → IsAmid (boxed form) settings self.old r
            → OnOk result (HasGoneOnSo (boxed form) settings self.new r (λ skips. rejoined (partition_object settings) skips r partition from Handover) out.old.items out.new.items) }
        ensures full { (settings : Settings) (r : Run) → IsAmid (boxed form) settings self.old r → IsErrOf result RunEnds.InFlight → GivesUpSo r (λ skips. rejoined (partition_object settings) skips r partition from Handover) }
    {
        if self.is_moving(partition) {
            return Ok(());
        }
        self.join(alloc, partition, from, out)
    }

    /// After a handover that has ended the member that led joins the row again, from which it was taken.
    fn rejoin(
        &mut self,
        alloc: Global,
        partition: PartitionId,
        from: MemberId,
        kind: StepKind,
        out: &mut Vec<Told>,
    ) -> Result<(), RunEnd>
        requires placed { partition < partitions }
        requires stands { (settings : Settings) × (r : Run) × IsAmid (boxed form) settings self.old r × HasRoomAt r partition 1001 }
        ensures ok { (settings : Settings) (r : Run) → IsAmid (boxed form) settings self.old r
            → OnOk result (HasGoneOnSo (boxed form) settings self.new r (λ skips. rejoined (partition_object settings) skips r partition from kind) out.old.items out.new.items) }
        ensures full { (settings : Settings) (r : Run) → IsAmid (boxed form) settings self.old r → IsErrOf result RunEnds.InFlight → GivesUpSo r (λ skips. rejoined (partition_object settings) skips r partition from kind) }
    {
        match kind {
            StepKind::Move => Ok(()),
            StepKind::Handover => self.join_again(alloc, partition, from, out),
        }
    }

    /// Runs a step: it begins, and goes on for some turns, until no move is under way.
    fn run_step(&mut self, alloc: Global, step: Step, out: &mut Vec<Told>) -> Result<(), RunEnd>
        requires placed { step.partition < partitions }
        requires stands { (settings : Settings) × (r : Run) × IsAmid (boxed form) settings self.old r × HasRoomAt r step.partition most_line_events }
        ensures ok { (settings : Settings) (r : Run) → IsAmid (boxed form) settings self.old r
            → OnOk result (HasGoneOnSo (boxed form) settings self.new r (λ skips. stepped (partition_object settings) skips r step) out.old.items out.new.items) }
        ensures full { (settings : Settings) (r : Run) → IsAmid (boxed form) settings self.old r → IsErrOf result RunEnds.InFlight → GivesUpSo r (λ skips. stepped (partition_object settings) skips r step) }
    {
        let Step {
            partition,
            from,
            kind,
            ..
        } = step;
        self.take(alloc, partition, event_begun(step), out)?;
        self.turn_on(alloc, partition, out)?;
        self.rejoin(alloc, partition, from, kind, out)
    }

    /// Runs a step, and tells how it ended.
    fn run_told(&mut self, alloc: Global, step: Step, out: &mut Vec<Told>) -> Result<(), RunEnd>
        requires placed { step.partition < partitions }
        requires stands { (settings : Settings) × (r : Run) × IsAmid (boxed form) settings self.old r × HasRoomAt r step.partition most_line_events }
        ensures ok { (settings : Settings) (r : Run) → IsAmid (boxed form) settings self.old r → OnOk result (HasStepped (boxed form) settings self.new r (step ∷ []) out.old.items out.new.items) }
        ensures full { (settings : Settings) (r : Run) → IsAmid (boxed form) settings self.old r → IsErrOf result RunEnds.InFlight → GivesUpSo r (λ skips. stepped (partition_object settings) skips r step) }
    {
        self.run_step(alloc, step, out)?;
        let moving = self.is_moving(step.partition);
        Ok(tell_ended(out, step.partition, moving)?)
    }

    /// Runs steps, and tells after each how it ended.
    fn run_steps(
        &mut self,
        alloc: Global,
        steps: &[Step],
        out: &mut Vec<Told>,
    ) -> Result<(), RunEnd>
        requires { (settings : Settings) × (r : Run) × IsAmid (boxed form) settings self.old r × MayStep r 0 steps.now }
        ensures ok { (settings : Settings) (r : Run) → IsAmid (boxed form) settings self.old r → OnOk result (HasStepped (boxed form) settings self.new r steps.now out.old.items out.new.items) }
        ensures full { (settings : Settings) (r : Run) → IsAmid (boxed form) settings self.old r → IsErrOf result RunEnds.InFlight → GivesUpSo r (λ skips. stepped_all (partition_object settings) skips r steps.now) }
    {
        for place in 0..steps.len() {
            self.run_told(alloc, steps[place], out)?;
        }
        Ok(())
    }

    /// `rebalance K`: the plan for the rows, and then up to so many of its steps.
    pub(crate) fn rebalance(
        &mut self,
        alloc: Global,
        number: u32,
        most: u32,
        out: &mut Vec<Told>,
    ) -> Result<(), RunEnd>
        requires { MayRun (boxed form) self.old number (ScriptLines.Rebalance most) }
        ensures ok { (settings : Settings) (r : Run) → Stands (boxed form) settings self.old r → OnOk result (HasRun (boxed form) settings self.new r (ScriptLines.Rebalance most) out.old.items out.new.items) }
        ensures full { (settings : Settings) (r : Run) → Stands (boxed form) settings self.old r → IsErrOf result RunEnds.InFlight → IsGivenUp settings r (ScriptLines.Rebalance most) }
    {
        self.lines = number;
        match self.plan(alloc) {
            Ok(plan) => {
                let steps = plan.steps.as_slice();
                tell_plan(out, steps)?;
                self.run_steps(alloc, first_steps(steps, most), out)
            }
            Err(why) => Ok(tell_no_plan(out, why)?),
        }
    }
}
