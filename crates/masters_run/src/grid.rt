ghost use Rattle.std.specs.Prelude.{◌≡◌, ℕ, ◌<◌, ◌≤◌, ◌++◌, true, false, List, [], length, map, is_some, option_to_list, Some, slice_get, IfOk, OnOk, IsErrOf};
ghost use Rattle.call_engine.specs.Calls.{Settings};
ghost use Rattle.master_log.specs.declared.masters.Masters.{Masters as MastersOf};
ghost use Rattle.master_log.specs.Standing.{StandsFor, size_of};
ghost use Rattle.call_engine.specs.Objects.{partition_object};
ghost use Rattle.masters_world.specs.Machine.{proposals};
ghost use Rattle.partition_protocol.specs.Events.{Deliver as DeliverEvent};
ghost use Rattle.replay_run.specs.Runs.{Run, partitions, is_open, connection_of, next_line};
ghost use Rattle.replay_run.specs.Grids.{boxed};
ghost use Rattle.replay_run.specs.Grids as grid;
ghost use Rattle.line_told.specs.declared.told.LineOutcome.TheVariants as outcome;
ghost use Rattle.replay_run.specs.LineTold.{came_to};
ghost use Rattle.replay_run.specs.WorldCalls.{open_member_in};
ghost use Rattle.replay_run.specs.WorldCalls as amid;
ghost use Rattle.replay_run.specs.declared.run_end.RunEnd.{RunEnd as RunEndOf};
ghost use Rattle.replay_run.specs.declared.run_end.RunEnd.TheVariants as RunEnds;
ghost use Rattle.script_lang.specs.declared.line.Line.TheVariants as ScriptLines;
ghost use Rattle.masters_run.specs.Runs.{RuledRun, begun, ruled_at};
ghost use Rattle.masters_run.specs.AfterLines.{after_line};
ghost use Rattle.masters_run.specs.Grids.{Stands, MayRun, HasMasters, Runs, Gives, GivesUpIfFull};
ghost use Rattle.masters_run.specs.Parts.{MayBeNext, HasNoMasters, ProposesNothing, IsProposalOf, is_held_back, GoesOn, is_of_masters, HaveCrashed};
ghost use Rattle.masters_run.specs.Written.{as_written};

use crate::decisions::decision_by;
use entry_processors::Processor;
use grid_base::{MemberId, Memory, PARTITIONS, PartitionId};
use line_told::{LineOutcome, Ready, Told};
use master_log::Masters;
use master_wire::Decision;
use replay_run::{Grid, RunEnd, tell_outcome};
use script_lang::Line;
use std::alloc::{AllocError, Global};

/// The grid of a script, and the masters of its partitions where its table service runs on the members.
#[derive(Drop)]
pub struct RuledGrid {
    pub(crate) grid: Grid,
    /// Those of each partition. None where each partition has the one table service.
    pub(crate) masters: Vec<Masters>,
}

/// The masters of each partition, as they begin.
fn opening_masters(alloc: Global, members: u8) -> Result<Vec<Masters>, Memory>
    requires some { 1 ≤ members }
    requires most { members ≤ 8 }
    ensures count { IfOk result (λ all. length all.items ≡ partitions) }
    ensures each { IfOk result (λ all. (p : ℕ) (masters : MastersOf) → slice_get all.items p ≡ Some masters → (size_of masters ≡ members) × StandsFor masters []) }
{
    let mut masters = Vec::with_capacity(alloc, usize::from(PARTITIONS))?;
    for _ in 0..PARTITIONS {
        masters.push(Masters::new(alloc, members)?)?;
    }
    Ok(masters)
}

impl RuledGrid {
    /// The grid after a script's first line, whose entries are processed by these processors, and whose queues have this
    /// capacity. It has no masters. Costs its partitions, and in each of them its members and the links between them.
    pub fn new(
        alloc: Global,
        members: u8,
        backups: u8,
        capacity: u32,
        processors: Vec<Box<dyn Processor>>,
    ) -> Result<RuledGrid, Memory>
        requires some { 1 ≤ members }
        requires most { members ≤ 8 }
        ensures { IfOk result (λ all. Stands form (record { forms = map form processors.items; capacity = capacity }) all (begun members backups)) }
    {
        Ok(RuledGrid {
            grid: Grid::new(alloc, members, backups, capacity, processors)?,
            masters: Vec::new(alloc),
        })
    }

    /// How many members the grid has.
    pub fn members(&self) -> u8
        ensures { (settings : Settings) (s : RuledRun) → Stands (boxed form) settings self.now s → result ≡ s.run.members }
    {
        self.grid.members()
    }

    /// How many lines were run, the first among them.
    pub fn lines(&self) -> u32
        ensures { (settings : Settings) (s : RuledRun) → Stands (boxed form) settings self.now s → result ≡ s.run.lines }
    {
        self.grid.lines()
    }

    /// Whether a connection was opened, and no fault closed it.
    pub fn is_open(&self, conn: u32) -> bool
        ensures { (settings : Settings) (s : RuledRun) → Stands (boxed form) settings self.now s → result ≡ is_open (connection_of s.run conn) }
    {
        self.grid.is_open(conn)
    }

    /// Whether bytes can arrive on a connection: it is open, and its member hasn't crashed.
    pub fn takes_bytes(&self, conn: u32) -> bool
        requires { (settings : Settings) × (s : RuledRun) × Stands (boxed form) settings self.now s }
        ensures { (settings : Settings) (s : RuledRun) → Stands (boxed form) settings self.now s → result ≡ is_some (open_member_in settings s.run conn) }
    {
        self.grid.takes_bytes(conn)
    }

    /// Runs the line of that number, which is the next one, and adds what it tells. After an error the grid and what it told
    /// are given up: for want of memory, or where a link between members, or between masters, had 65,400 messages or more in
    /// flight as an event came that may send.
    ///
    /// Costs what the line costs the grid (`Grid::run_line`), and in addition what it costs the masters of its partition: a
    /// proposal costs the log for each peer, and a message between masters its bytes. `flow` goes over a partition's links for
    /// each delivery where there are masters.
    pub fn run_line(
        &mut self,
        alloc: Global,
        number: u32,
        line: &Line,
        out: &mut Ready,
    ) -> Result<(), RunEnd>
        requires { MayRun (boxed form) self.old number line.now }
        ensures ok { Gives (boxed form) self.old self.new line.now result out.old out.new }
        ensures full { GivesUpIfFull (boxed form) self.old line.now result }
    {
        if self.masters.is_empty() {
            self.run_unruled(alloc, number, line, out)
        } else {
            self.run_ruled(alloc, number, line, out)
        }
    }

    /// Runs a line of a grid that has no masters yet. It comes to have them by the script's second line alone.
    fn run_unruled(
        &mut self,
        alloc: Global,
        number: u32,
        line: &Line,
        out: &mut Ready,
    ) -> Result<(), RunEnd>
        requires may { MayRun (boxed form) self.old number line.now }
        requires none { HasNoMasters (boxed form) self.old }
        ensures ok { Gives (boxed form) self.old self.new line.now result out.old out.new }
        ensures full { GivesUpIfFull (boxed form) self.old line.now result }
    {
        match line {
            Line::Masters if number == 2 => self.begin_masters(alloc, number, &mut out.told),
            _ => self.grid.run_line(alloc, number, line, out),
        }
    }

    /// `masters`, as line 2: from here on the table service of each partition runs on the members. Costs, in each partition,
    /// the members and the links between them.
    fn begin_masters(
        &mut self,
        alloc: Global,
        number: u32,
        out: &mut Vec<Told>,
    ) -> Result<(), RunEnd>
        requires may { MayRun (boxed form) self.old number ScriptLines.Masters }
        requires second { number ≡ 2 }
        requires none { HasNoMasters (boxed form) self.old }
        ensures ok { Runs (boxed form) self.old self.new ScriptLines.Masters result out.old.items out.new.items }
        ensures memory { (end : RunEndOf) → IsErrOf result end → end ≡ RunEnds.Memory }
    {
        self.masters = opening_masters(alloc, self.grid.members())?;
        self.count(number);
        Ok(tell_outcome(out, LineOutcome::Ran)?)
    }

    /// Runs a line of a grid that has masters.
    fn run_ruled(
        &mut self,
        alloc: Global,
        number: u32,
        line: &Line,
        out: &mut Ready,
    ) -> Result<(), RunEnd>
        requires may { MayRun (boxed form) self.old number line.now }
        requires ruled { HasMasters (boxed form) self.old }
        ensures ok { Gives (boxed form) self.old self.new line.now result out.old out.new }
        ensures full { GivesUpIfFull (boxed form) self.old line.now result }
    {
        if let Some((partition, decision)) = self.proposal_of(alloc, line)? {
            return self.run_proposal(alloc, number, partition, &decision, &mut out.told);
        }
        if self.is_held_back(line) {
            return Ok(self.pass(number, &mut out.told)?);
        }
        self.run_at_once(alloc, number, line, out)
    }

    /// Runs a line that proposes nothing and isn't held back: one of the masters alone, or one at which something happens at
    /// once.
    fn run_at_once(
        &mut self,
        alloc: Global,
        number: u32,
        line: &Line,
        out: &mut Ready,
    ) -> Result<(), RunEnd>
        requires may { MayRun (boxed form) self.old number line.now }
        requires ruled { HasMasters (boxed form) self.old }
        requires nothing { ProposesNothing (boxed form) self.old line.now }
        requires goes_on { GoesOn (boxed form) self.old line.now }
        ensures ok { Gives (boxed form) self.old self.new line.now result out.old out.new }
        ensures full { GivesUpIfFull (boxed form) self.old line.now result }
    {
        match line {
            Line::Told { member, crashed } => {
                self.run_told(alloc, number, *member, *crashed, &mut out.told)
            }
            Line::MasterDeliver {
                partition,
                from,
                to,
                place,
            } => self.run_delivery(alloc, number, *partition, *from, *to, *place, &mut out.told),
            Line::MasterLose {
                partition,
                from,
                to,
                place,
            } => self.run_loss(alloc, number, *partition, *from, *to, *place, &mut out.told),
            Line::MasterResend { partition, member } => {
                self.run_resending(alloc, number, *partition, *member, &mut out.told)
            }
            Line::MasterFlow { partition, most } => {
                self.run_master_flow(alloc, number, *partition, *most, &mut out.told)
            }
            _ => self.run_unasked(alloc, number, line, out),
        }
    }

    /// The same, but for the lines of the masters alone.
    fn run_unasked(
        &mut self,
        alloc: Global,
        number: u32,
        line: &Line,
        out: &mut Ready,
    ) -> Result<(), RunEnd>
        requires may { MayRun (boxed form) self.old number line.now }
        requires ruled { HasMasters (boxed form) self.old }
        requires nothing { ProposesNothing (boxed form) self.old line.now }
        requires goes_on { GoesOn (boxed form) self.old line.now }
        requires other { is_of_masters line.now ≡ false }
        ensures ok { Gives (boxed form) self.old self.new line.now result out.old out.new }
        ensures full { GivesUpIfFull (boxed form) self.old line.now result }
    {
        match line {
            Line::Flow { partition, most } => {
                self.run_flow(alloc, number, *partition, *most, &mut out.told)
            }
            Line::FlowAll { most } => self.run_flow_all(alloc, number, *most, &mut out.told),
            Line::Detect { member } => self.run_detection(alloc, number, *member, &mut out.told),
            Line::Crash { member } => {
                self.crash(*member);
                self.grid.run_line(alloc, number, line, out)
            }
            _ => self.grid.run_line(alloc, number, line, out),
        }
    }

    /// What a line proposes, and to the masters of which partition: an event of the table service, or that it takes the
    /// message at a place of a link to it.
    fn proposal_of(
        &self,
        alloc: Global,
        line: &Line,
    ) -> Result<Option<(PartitionId, Decision)>, Memory>
        requires may { MayBeNext (boxed form) self.now line.now }
        requires ruled { HasMasters (boxed form) self.now }
        ensures { IfOk result (IsProposalOf (boxed form) self.now line.now) }
    {
        match line {
            Line::Deliver {
                partition,
                from,
                to,
                place,
            } if *to == self.grid.members() => {
                match self.taking(alloc, *partition, *from, *place)? {
                    Some(decision) => Ok(Some((*partition, decision))),
                    None => Ok(None),
                }
            }
            _ => Ok(decision_by(line)),
        }
    }

    /// The decision that the table service takes the message at that place of the link from that end. While something is
    /// pending there is none.
    ///
    /// A decision has four bytes for the place. So many messages that one stands further on would want 100 gigabytes: that is
    /// told as want of memory.
    fn taking(
        &self,
        alloc: Global,
        partition: PartitionId,
        from: u8,
        place: usize,
    ) -> Result<Option<Decision>, Memory>
        requires placed { partition < partitions }
        requires stands { (settings : Settings) × (s : RuledRun) × Stands (boxed form) settings self.now s }
        requires ruled { HasMasters (boxed form) self.now }
        ensures { (settings : Settings) (s : RuledRun) → Stands (boxed form) settings self.now s
            → IfOk result (λ taking. option_to_list taking ≡ map as_written (proposals (ruled_at (partition_object settings) s partition) (DeliverEvent from s.run.members place))) }
    {
        if self.masters[usize::from(partition)].pending() {
            return Ok(None);
        }
        let Some(world) = self.grid.world(partition) else {
            return Ok(None);
        };
        let Some(message) = world.in_flight(from, self.grid.members()).get(place) else {
            return Ok(None);
        };
        let Ok(place) = u32::try_from(place) else {
            return Err(AllocError);
        };
        Ok(Some(Decision::Take {
            from,
            place,
            message: message.copied(alloc)?,
        }))
    }

    /// Whether a line that proposes nothing does nothing either. A message to the table service comes to it by a decision
    /// alone, and isn't lost while something is pending; the service sends again only where a live master serves; and nothing
    /// is rebalanced.
    fn is_held_back(&self, line: &Line) -> bool
        requires may { MayBeNext (boxed form) self.now line.now }
        requires ruled { HasMasters (boxed form) self.now }
        requires nothing { ProposesNothing (boxed form) self.now line.now }
        ensures { (settings : Settings) (s : RuledRun) → Stands (boxed form) settings self.now s → result ≡ is_held_back settings s line.now }
    {
        let service = self.grid.members();
        match line {
            Line::Masters | Line::Rebalance { .. } => true,
            Line::Deliver { to, .. } => *to == service,
            Line::Lose { partition, to, .. } => {
                *to == service && self.masters[usize::from(*partition)].pending()
            }
            Line::Resend { partition, end } => {
                *end == service && self.masters[usize::from(*partition)].serving().is_none()
            }
            _ => false,
        }
    }

    /// A member crashes as a master, in each partition.
    fn crash(&mut self, member: MemberId)
        requires { (settings : Settings) × (s : RuledRun) × Stands (boxed form) settings self.old s }
        ensures masters { HaveCrashed member self.old.masters.items self.new.masters.items }
        ensures grid { self.new.grid ≡ self.old.grid }
    {
        for masters in self.masters.iter_mut() {
            masters.crash(member);
        }
    }

    /// Counts the line of that number, which is the next one and at which nothing happens here. Takes no memory.
    pub fn count_line(&mut self, number: u32)
        requires { MayRun (boxed form) self.old number ScriptLines.Comment }
        ensures { (settings : Settings) (s : RuledRun) → Stands (boxed form) settings self.old s
            → Stands (boxed form) settings self.new (after_line (partition_object settings) [] s ScriptLines.Comment) }
    {
        self.count(number);
    }

    /// Counts a line, whose events are then taken one by one. Takes no memory.
    pub(crate) fn count(&mut self, number: u32)
        requires { grid.MayRun (boxed form) self.old.grid number ScriptLines.Comment }
        ensures amid { (settings : Settings) (r : Run) → grid.Stands (boxed form) settings self.old.grid r
            → amid.IsAmid (boxed form) settings self.new.grid (next_line r) }
        ensures masters { self.new.masters ≡ self.old.masters }
    {
        self.grid.begin_line(number);
    }

    /// Counts a line whose condition is false.
    fn pass(&mut self, number: u32, out: &mut Vec<Told>) -> Result<(), Memory>
        requires { grid.MayRun (boxed form) self.old.grid number ScriptLines.Comment }
        ensures amid { (settings : Settings) (r : Run) → grid.Stands (boxed form) settings self.old.grid r
            → amid.IsAmid (boxed form) settings self.new.grid (next_line r) }
        ensures masters { self.new.masters ≡ self.old.masters }
        ensures told { OnOk result (out.new.items ≡ out.old.items ++ came_to outcome.Idle) }
    {
        self.count(number);
        tell_outcome(out, LineOutcome::Idle)
    }
}
