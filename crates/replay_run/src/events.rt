//! Lines that are events of partitions: deliveries, losses, crashes, moves and the rest.

ghost use Rattle.std.specs.Prelude.{◌≡◌, ◌<◌, ◌≤◌, ◌++◌, if◌then◌else◌, ℕ, List, [], true, option_map, IfOk, OnOk, IsErrOf, Some};
ghost use Rattle.partition_protocol.specs.Service.{numbers_below};
ghost use Rattle.partition_protocol.specs.Events.{Event as ProtocolEvent, Reopen as Reopens};
ghost use Rattle.partition_protocol.specs.Arrivals.{asked_by};
ghost use Rattle.grid_base.specs.Shelves.{meaning};
ghost use Rattle.partition_world.specs.Worlds.{StandsFor, run_of};
ghost use Rattle.partition_world.specs.Events.{event_of, happened_of};
ghost use Rattle.call_engine.specs.Calls.{Settings};
ghost use Rattle.call_engine.specs.Objects.{partition_object};
ghost use Rattle.script_lang.specs.declared.line.Line.{Line as ScriptLine};
ghost use Rattle.script_lang.specs.declared.line.Line.TheVariants as ScriptLines;
ghost use Rattle.replay_run.specs.Runs.{Run, partitions, taker_of, world_at, meets_full, event_by, delivery_on, flowed, flowed_in, takes, takes_in, reopening_by};
ghost use Rattle.replay_run.specs.Grids.{boxed, Stands, MayRun, HasRun, IsGivenUp};
ghost use Rattle.replay_run.specs.WorldCalls.{GivesUpSo, HasRoomAt, IsAmid, HasOccurred, HasTaken, HasFlowed, HasTakenInAll, reaching_of, event_in_all, line_of_fate};
ghost use Rattle.replay_run.specs.declared.run_end.RunEnd.TheVariants as RunEnds;

use crate::grid::Grid;
use crate::links::MOST_IN_FLIGHT;
use crate::messages::tell_outcome;
use crate::outcomes::is_advance;
use crate::outgoing::{Reaching, append_reached, version_known};
use crate::reopened::Reopened;
use crate::run_end::RunEnd;
use crate::waiting::stirred_by;
use grid_base::{MemberId, Memory, PARTITIONS, PartitionId, Request, Shelf};
use line_told::{LineOutcome, Told};
use partition_world::{Event, Happened, Link, Records, World};
use script_lang::Line;
use std::alloc::Global;
use wait_sets::Spot;

/// What happens to a member in all partitions.
#[derive(Clone, Copy)]
pub(crate) enum Fate {
    Crash(MemberId),
    Detect(MemberId),
}

impl Fate {
    fn event(self) -> Event<Request>
        ensures { event_of result ≡ event_in_all self }
    {
        match self {
            Fate::Crash(member) => Event::Crash { member },
            Fate::Detect(member) => Event::Detect { member },
        }
    }
}

/// The event that a line is and its partition, where it is one event of a partition.
pub(crate) fn event_by(line: &Line) -> Option<(PartitionId, Event<Request>)>
    ensures { option_map (λ one. record { partition = one.0; event = event_of one.1 }) result ≡ event_by line.now }
{
    match line {
        Line::Deliver {
            partition,
            from,
            to,
            place,
        } => Some((
            *partition,
            Event::Deliver {
                from: *from,
                to: *to,
                place: *place,
            },
        )),
        Line::Lose {
            partition,
            from,
            to,
            place,
        } => Some((
            *partition,
            Event::Lose {
                from: *from,
                to: *to,
                place: *place,
            },
        )),
        Line::Repeat {
            partition,
            from,
            to,
            place,
        } => Some((
            *partition,
            Event::Repeat {
                from: *from,
                to: *to,
                place: *place,
            },
        )),
        Line::Resend { partition, end } => Some((*partition, Event::Resend { end: *end })),
        Line::Move {
            partition,
            from,
            to,
        } => Some((
            *partition,
            Event::BeginMove {
                from: *from,
                to: *to,
            },
        )),
        Line::Join { partition, to } => Some((*partition, Event::BeginJoin { to: *to })),
        Line::Handover {
            partition,
            from,
            to,
        } => Some((
            *partition,
            Event::BeginHandover {
                from: *from,
                to: *to,
            },
        )),
        Line::Advance { partition } => Some((*partition, Event::Advance)),
        Line::Reopen { partition } => Some((*partition, Event::Reopen)),
        _ => None,
    }
}

/// The delivery of the first message of a link.
fn delivery_on(link: Link) -> Event<Request>
    ensures { event_of result ≡ delivery_on link }
{
    Event::Deliver {
        from: link.from,
        to: link.to,
        place: 0,
    }
}

/// Whether an event is one that its partition doesn't take now, as too many messages are in flight.
fn meets_full<S: Shelf, R: Records<S::Call>>(world: &World<S, R>, event: &Event<S::Call>) -> bool
    ensures { (plan : S.Plan) (events : List (ProtocolEvent S.Call)) → let k = meaning S.model plan in
        StandsFor k R.records S.model.within_limits world.now events → result ≡ meets_full (run_of k world.now events) (event_of event.now) }
{
    !matches!(event, Event::Lose { .. }) && world.has_crowded_link(MOST_IN_FLIGHT)
}

/// The member that takes a message, or the table service.
fn taker_of(event: &Event<Request>) -> Option<MemberId>
    ensures { result ≡ taker_of (event_of event.now) }
{
    match event {
        Event::Deliver { to, .. } => Some(*to),
        _ => None,
    }
}

impl Grid {
    /// Where an event that is no call reaches a member, if it does.
    fn reaching(&self, partition: PartitionId, event: &Event<Request>) -> Option<Reaching>
        requires placed { partition < partitions }
        requires stands { (settings : Settings) × (r : Run) × IsAmid (boxed form) settings self.now r }
        ensures { (settings : Settings) (r : Run) → IsAmid (boxed form) settings self.now r
            → result ≡ option_map (reaching_of settings r partition) (taker_of (event_of event.now)) }
    {
        let member = taker_of(event)?;
        let world = &self.worlds[usize::from(partition)];
        Some(Reaching {
            line: self.lines,
            partition,
            member,
            known: version_known(world, self.members, member),
            own: None,
        })
    }

    /// Runs an event of a partition that is no call, and appends what it does at the member that it reaches; then those
    /// whom it stirs have their turns. A full partition takes no event but a loss. After an error the grid is given up.
    ///
    /// A line is taken apart so: it is counted as a comment is, and then its events are taken one by one.
    pub fn take(
        &mut self,
        alloc: Global,
        partition: PartitionId,
        event: Event<Request>,
        out: &mut Vec<Told>,
    ) -> Result<Happened, RunEnd>
        requires placed { partition < partitions }
        requires unasked { asked_by (event_of event) ≡ [] }
        requires stands { (settings : Settings) × (r : Run) × IsAmid (boxed form) settings self.old r × HasRoomAt r partition 1 }
        ensures ok { (settings : Settings) (r : Run) → IsAmid (boxed form) settings self.old r → IfOk result (λ happened. HasTaken (boxed form) settings self.new r partition (event_of event) happened out.old.items out.new.items) }
        ensures full { (settings : Settings) (r : Run) → IsAmid (boxed form) settings self.old r → IsErrOf result RunEnds.InFlight → GivesUpSo r (λ skips. takes (partition_object settings) skips r partition (event_of event)) }
    {
        let stirred = stirred_by(&event);
        let happened = self.occur(alloc, partition, event, out)?;
        if let Some(member) = stirred {
            if member < self.members {
                self.make_turns(alloc, Spot { member, partition }, None, out)?;
            }
        }
        Ok(happened)
    }

    /// The same, but for the turns.
    fn occur(
        &mut self,
        alloc: Global,
        partition: PartitionId,
        event: Event<Request>,
        out: &mut Vec<Told>,
    ) -> Result<Happened, RunEnd>
        requires placed { partition < partitions }
        requires unasked { asked_by (event_of event) ≡ [] }
        requires stands { (settings : Settings) × (r : Run) × IsAmid (boxed form) settings self.old r × HasRoomAt r partition 1 }
        ensures ok { (settings : Settings) (r : Run) → IsAmid (boxed form) settings self.old r → IfOk result (λ happened. HasOccurred (boxed form) settings self.new r partition (event_of event) happened out.old.items out.new.items) }
        ensures full { (settings : Settings) (r : Run) → IsAmid (boxed form) settings self.old r → IsErrOf result RunEnds.InFlight → meets_full (world_at (partition_object settings) r partition) (event_of event) ≡ true }
    {
        let reaching = self.reaching(partition, &event);
        let world = &mut self.worlds[usize::from(partition)];
        if meets_full(world, &event) {
            return Err(RunEnd::InFlight);
        }
        let reopens = matches!(event, Event::Reopen);
        let happened = world.step(alloc, &self.env, event)?;
        if let Some(at) = reaching {
            append_reached(
                alloc,
                at,
                world,
                self.listeners.as_slice(),
                &mut self.connections,
                out,
            )?;
        }
        self.note_reopening(partition, reopens, happened)?;
        Ok(happened)
    }

    /// Keeps the line at which a partition was reopened, if it was.
    fn note_reopening(
        &mut self,
        partition: PartitionId,
        reopens: bool,
        happened: Happened,
    ) -> Result<(), Memory>
        ensures reopened { OnOk result (self.new.reopened.items ≡ self.old.reopened.items ++ (if reopens then reopening_by partition self.old.lines Reopens (happened_of happened) else [])) }
        ensures rest { (record self.new { reopened = self.old.reopened }) ≡ self.old }
    {
        if reopens && matches!(happened, Happened::RowMade { .. }) {
            self.reopened.push(Reopened {
                partition,
                line: self.lines,
            })?;
        }
        Ok(())
    }

    /// A line that is one event of a partition: its outcome, and then the answers that it released.
    pub(crate) fn run_event(
        &mut self,
        alloc: Global,
        number: u32,
        partition: PartitionId,
        event: Event<Request>,
        out: &mut Vec<Told>,
    ) -> Result<(), RunEnd>
        requires { (line : ScriptLine) × MayRun (boxed form) self.old number line × (event_by line ≡ Some (record { partition = partition; event = event_of event })) }
        ensures ok { (settings : Settings) (r : Run) (line : ScriptLine) → Stands (boxed form) settings self.old r → event_by line ≡ Some (record { partition = partition; event = event_of event })
            → OnOk result (HasRun (boxed form) settings self.new r line out.old.items out.new.items) }
        ensures full { (settings : Settings) (r : Run) (line : ScriptLine) → Stands (boxed form) settings self.old r → event_by line ≡ Some (record { partition = partition; event = event_of event })
            → IsErrOf result RunEnds.InFlight → IsGivenUp settings r line }
    {
        self.lines = number;
        let advances = is_advance(&event);
        let mut messages = Vec::new(alloc);
        let happened = self.take(alloc, partition, event, &mut messages)?;
        tell_outcome(out, LineOutcome::of_event(advances, happened))?;
        Ok(out.append(&mut messages)?)
    }

    /// Delivers the first message in flight, up to so many times, and tells how often.
    pub(crate) fn deliver_first(
        &mut self,
        alloc: Global,
        partition: PartitionId,
        most: u32,
        out: &mut Vec<Told>,
    ) -> Result<u32, RunEnd>
        requires placed { partition < partitions }
        requires stands { (settings : Settings) × (r : Run) × IsAmid (boxed form) settings self.old r × HasRoomAt r partition most }
        ensures ok { (settings : Settings) (r : Run) → IsAmid (boxed form) settings self.old r
            → IfOk result (λ deliveries. HasFlowed (boxed form) settings self.new r (λ skips. flowed (partition_object settings) skips r partition most) deliveries out.old.items out.new.items) }
        ensures most { IfOk result (λ deliveries. deliveries ≤ most) }
        ensures full { (settings : Settings) (r : Run) → IsAmid (boxed form) settings self.old r → IsErrOf result RunEnds.InFlight → GivesUpSo r (λ skips. flowed (partition_object settings) skips r partition most) }
    {
        let mut deliveries = 0;
        'deliveries: while deliveries < most {
            let next = self.worlds[usize::from(partition)].next_link();
            let Some(link) = next else {
                return Ok(deliveries);
            };
            self.take(alloc, partition, delivery_on(link), out)?;
            deliveries += 1;
        }
        Ok(deliveries)
    }

    /// `flow P K`: delivers up to so many messages of a partition.
    pub(crate) fn flow(
        &mut self,
        alloc: Global,
        number: u32,
        partition: PartitionId,
        most: u32,
        out: &mut Vec<Told>,
    ) -> Result<(), RunEnd>
        requires { MayRun (boxed form) self.old number (ScriptLines.Flow partition most) }
        ensures ok { (settings : Settings) (r : Run) → Stands (boxed form) settings self.old r → OnOk result (HasRun (boxed form) settings self.new r (ScriptLines.Flow partition most) out.old.items out.new.items) }
        ensures full { (settings : Settings) (r : Run) → Stands (boxed form) settings self.old r → IsErrOf result RunEnds.InFlight → IsGivenUp settings r (ScriptLines.Flow partition most) }
    {
        self.lines = number;
        let mut messages = Vec::new(alloc);
        let deliveries = self.deliver_first(alloc, partition, most, &mut messages)?;
        tell_outcome(out, LineOutcome::Flowed { deliveries })?;
        Ok(out.append(&mut messages)?)
    }

    /// Delivers up to so many messages of each partition, and tells how many in all.
    fn deliver_in_all(
        &mut self,
        alloc: Global,
        most: u32,
        out: &mut Vec<Told>,
    ) -> Result<u32, RunEnd>
        requires most { most ≤ 1000 }
        requires stands { (settings : Settings) × (r : Run) × IsAmid (boxed form) settings self.old r × ((p : ℕ) → HasRoomAt r p most) }
        ensures ok { (settings : Settings) (r : Run) → IsAmid (boxed form) settings self.old r
            → IfOk result (λ deliveries. HasFlowed (boxed form) settings self.new r (λ skips. flowed_in (partition_object settings) skips r most (numbers_below partitions)) deliveries out.old.items out.new.items) }
        ensures full { (settings : Settings) (r : Run) → IsAmid (boxed form) settings self.old r → IsErrOf result RunEnds.InFlight → GivesUpSo r (λ skips. flowed_in (partition_object settings) skips r most (numbers_below partitions)) }
    {
        let mut deliveries = 0;
        for partition in 0..PARTITIONS {
            deliveries += self.deliver_first(alloc, partition, most, out)?;
        }
        Ok(deliveries)
    }

    /// `flow all K`: delivers up to so many messages of each partition, in their order.
    pub(crate) fn flow_all(
        &mut self,
        alloc: Global,
        number: u32,
        most: u32,
        out: &mut Vec<Told>,
    ) -> Result<(), RunEnd>
        requires { MayRun (boxed form) self.old number (ScriptLines.FlowAll most) }
        ensures ok { (settings : Settings) (r : Run) → Stands (boxed form) settings self.old r → OnOk result (HasRun (boxed form) settings self.new r (ScriptLines.FlowAll most) out.old.items out.new.items) }
        ensures full { (settings : Settings) (r : Run) → Stands (boxed form) settings self.old r → IsErrOf result RunEnds.InFlight → IsGivenUp settings r (ScriptLines.FlowAll most) }
    {
        self.lines = number;
        let mut messages = Vec::new(alloc);
        let deliveries = self.deliver_in_all(alloc, most, &mut messages)?;
        tell_outcome(out, LineOutcome::Flowed { deliveries })?;
        Ok(out.append(&mut messages)?)
    }

    /// Runs the same event in each partition, and tells what it came to in the first one.
    fn take_in_all(
        &mut self,
        alloc: Global,
        fate: Fate,
        out: &mut Vec<Told>,
    ) -> Result<Happened, RunEnd>
        requires { (settings : Settings) × (r : Run) × IsAmid (boxed form) settings self.old r × ((p : ℕ) → HasRoomAt r p 1) }
        ensures ok { (settings : Settings) (r : Run) → IsAmid (boxed form) settings self.old r → IfOk result (λ first. HasTakenInAll (boxed form) settings self.new r (event_in_all fate) first out.old.items out.new.items) }
        ensures full { (settings : Settings) (r : Run) → IsAmid (boxed form) settings self.old r → IsErrOf result RunEnds.InFlight → GivesUpSo r (λ skips. takes_in (partition_object settings) skips r (event_in_all fate) (numbers_below partitions)) }
    {
        let mut first = Happened::Nothing;
        for partition in 0..PARTITIONS {
            let happened = self.take(alloc, partition, fate.event(), out)?;
            if partition == 0 {
                first = happened;
            }
        }
        Ok(first)
    }

    /// `crash M` and `detect M`: the event in every partition, in their order.
    pub(crate) fn run_fate(
        &mut self,
        alloc: Global,
        number: u32,
        fate: Fate,
        out: &mut Vec<Told>,
    ) -> Result<(), RunEnd>
        requires { MayRun (boxed form) self.old number (line_of_fate fate) }
        ensures ok { (settings : Settings) (r : Run) → Stands (boxed form) settings self.old r → OnOk result (HasRun (boxed form) settings self.new r (line_of_fate fate) out.old.items out.new.items) }
        ensures full { (settings : Settings) (r : Run) → Stands (boxed form) settings self.old r → IsErrOf result RunEnds.InFlight → IsGivenUp settings r (line_of_fate fate) }
    {
        self.lines = number;
        let mut messages = Vec::new(alloc);
        let first = self.take_in_all(alloc, fate, &mut messages)?;
        tell_outcome(out, LineOutcome::of_fate(first))?;
        Ok(out.append(&mut messages)?)
    }
}
