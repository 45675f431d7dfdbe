ghost use Rattle.std.specs.Prelude.{◌≡◌, ℕ, true, false, ◌+◌, ◌-◌, ◌*◌, ◌<◌, ◌≤◌, ◌++◌, None, Some, map, is_some, IfOk, OnOk, IsErrOf, ◌||◌, length};
ghost use Rattle.call_engine.specs.Calls.{Settings};
ghost use Rattle.call_engine.specs.Objects.{partition_object};
ghost use Rattle.replay_run.specs.Runs.{Run, partitions, begun, lives, is_open, connection_of, next_line};
ghost use Rattle.line_told.specs.declared.told.LineOutcome.TheVariants as outcome;
ghost use Rattle.replay_run.specs.LineTold.{came_to};
ghost use Rattle.replay_run.specs.Grids.{boxed, AreListening, Holds, Stands, MayRun, HasRun, HasGiven, IsGivenUp};
ghost use Rattle.replay_run.specs.WorldCalls.{is_quiet, open_member_in};
ghost use Rattle.replay_run.specs.declared.run_end.RunEnd.TheVariants as RunEnds;

use crate::connections::Connections;
use crate::events::{Fate, event_by};
use crate::links::links_of;
use crate::messages::tell_outcome;
use crate::reopened::Reopened;
use crate::run_end::RunEnd;
use crate::tally::Tally;
use call_engine::{GridEnv, GridShelf};
use entry_processors::{Processor, Registry};
use grid_base::{MemberId, Memory, Moment, PARTITIONS, Request};
use line_told::{LineOutcome, Ready, Told};
use listeners::Listeners;
use partition_world::{Link, Recorder, World};
use script_lang::Line;
use std::alloc::Global;
use wait_sets::WaitLists;

/// The worlds of all partitions, the connections to their members and who listens on them, each member's clock, and how
/// many lines were run.
#[derive(Drop)]
pub struct Grid {
    pub(crate) env: GridEnv,
    pub(crate) members: u8,
    pub(crate) lines: u32,
    pub(crate) moments: Vec<Moment>,
    pub(crate) connections: Connections,
    /// Those of each member.
    pub(crate) listeners: Vec<Listeners>,
    /// Of the calls that arrived.
    pub(crate) tally: Tally,
    /// In order.
    pub(crate) reopened: Vec<Reopened>,
    /// Those of each partition.
    pub(crate) links: Vec<Link>,
    pub(crate) worlds: Vec<World<GridShelf, Recorder<Request>>>,
    /// The calls that wait.
    pub(crate) waiters: WaitLists,
}

/// Nobody listens to any of the members.
fn nobody(alloc: Global, members: u8) -> Result<Vec<Listeners>, Memory>
    ensures { IfOk result (λ listeners. (backups : ℕ) → AreListening listeners.items (begun members backups) None) }
{
    let mut listeners = Vec::with_capacity(alloc, usize::from(members))?;
    for _ in 0..members {
        listeners.push(Listeners::new(alloc))?;
    }
    Ok(listeners)
}

impl Grid {
    /// The grid after a script's first line, whose entries are processed by these processors, and whose queues have
    /// this capacity. Costs its partitions, and in each of them its members and the links between them.
    pub fn new(
        alloc: Global,
        members: u8,
        backups: u8,
        capacity: u32,
        processors: Vec<Box<dyn Processor>>,
    ) -> Result<Grid, Memory>
        requires some { 1 ≤ members }
        requires most { members ≤ 8 }
        ensures { IfOk result (λ grid. Stands form (record { forms = map form processors.items; capacity = capacity }) grid (begun members backups)) }
    {
        let mut worlds = Vec::with_capacity(alloc, usize::from(PARTITIONS))?;
        for partition in 0..PARTITIONS {
            worlds.push(World::new(alloc, partition, members, backups)?)?;
        }
        Ok(Grid {
            env: GridEnv {
                registry: Registry::new(processors),
                capacity,
            },
            members,
            lines: 1,
            moments: vec![in alloc; 0; usize::from(members)]?,
            connections: Connections::new(alloc)?,
            tally: Tally::new(),
            listeners: nobody(alloc, members)?,
            reopened: Vec::new(alloc),
            links: links_of(alloc, members)?,
            worlds,
            waiters: WaitLists::new(alloc, members)?,
        })
    }

    /// How many members the grid has, also in the midst of a line.
    pub fn members(&self) -> u8
        ensures { (settings : Settings) (r : Run) → Holds (boxed form) settings self.now r → result ≡ r.members }
    {
        self.members
    }

    /// How many lines were run, the first among them, and one that is being run.
    pub fn lines(&self) -> u32
        ensures { (settings : Settings) (r : Run) → Holds (boxed form) settings self.now r → result ≡ r.lines }
    {
        self.lines
    }

    /// Whether a connection was opened, and no fault closed it.
    pub fn is_open(&self, conn: u32) -> bool
        ensures { (settings : Settings) (r : Run) → Stands (boxed form) settings self.now r → result ≡ is_open (connection_of r conn) }
    {
        self.connections.is_open(conn)
    }

    /// Whether bytes can arrive on a connection: it is open, and its member hasn't crashed.
    pub fn takes_bytes(&self, conn: u32) -> bool
        requires { (settings : Settings) × (r : Run) × Stands (boxed form) settings self.now r }
        ensures { (settings : Settings) (r : Run) → Stands (boxed form) settings self.now r → result ≡ is_some (open_member_in settings r conn) }
    {
        self.open_member(conn).is_some()
    }

    /// Runs the line of that number, which is the next one, and adds what it tells. After an error the grid and what it told
    /// are given up: for want of memory, or where an event other than a loss met a partition with 65,400 messages or more
    /// in flight on one link.
    ///
    /// A line costs its own work: it looks up its connection and its partition by their numbers. An event looks at the
    /// length of each of its partition's links only while 65,400 messages or more are in flight on all of them together. A
    /// delivery costs in addition at most the length of its link; `flow` finds each in constant time, and the lines of all
    /// partitions cost a constant for each. The lines `dump` and `links` cost sorting and printing what their member keeps
    /// of the partition, and printing the messages in flight. The line `rebalance` costs a pass over the partitions' rows, and
    /// then the events of its steps. The line `trail` costs the entries of its partition's history,
    /// and the line `end` those of all. Lines of near clients, and of
    /// masters, do nothing here.
    pub fn run_line(
        &mut self,
        alloc: Global,
        number: u32,
        line: &Line,
        out: &mut Ready,
    ) -> Result<(), RunEnd>
        requires { MayRun (boxed form) self.old number line.now }
        ensures ok { (settings : Settings) (r : Run) → Stands (boxed form) settings self.old r
            → OnOk result (HasGiven (boxed form) settings self.new r line.now out.old out.new) }
        ensures full { (settings : Settings) (r : Run) → Stands (boxed form) settings self.old r → IsErrOf result RunEnds.InFlight → IsGivenUp settings r line.now }
    {
        if let Some((partition, event)) = event_by(line) {
            return self.run_event(alloc, number, partition, event, &mut out.told);
        }
        match line {
            Line::Arrive { conn, bytes } => {
                self.arrive(alloc, number, *conn, bytes.as_slice(), &mut out.told)
            }
            Line::Flow { partition, most } => {
                self.flow(alloc, number, *partition, *most, &mut out.told)
            }
            Line::FlowAll { most } => self.flow_all(alloc, number, *most, &mut out.told),
            Line::Crash { member } => {
                self.run_fate(alloc, number, Fate::Crash(*member), &mut out.told)
            }
            Line::Detect { member } => {
                self.run_fate(alloc, number, Fate::Detect(*member), &mut out.told)
            }
            Line::Clock { member, moment } => {
                self.set_clock(alloc, number, *member, *moment, &mut out.told)
            }
            Line::Rebalance { most } => self.rebalance(alloc, number, *most, &mut out.told),
            _ => Ok(self.run_quiet_line(alloc, number, line, out)?),
        }
    }

    /// Runs a line at which nothing happens in a partition.
    fn run_quiet_line(
        &mut self,
        alloc: Global,
        number: u32,
        line: &Line,
        out: &mut Ready,
    ) -> Result<(), Memory>
        requires may { MayRun (boxed form) self.old number line.now }
        requires quiet { is_quiet line.now ≡ true }
        ensures { (settings : Settings) (r : Run) → Stands (boxed form) settings self.old r
            → OnOk result (HasGiven (boxed form) settings self.new r line.now out.old out.new) }
    {
        match line {
            Line::OpenConn { conn, member } => {
                self.open(alloc, number, *conn, *member, &mut out.told)
            }
            Line::Dump { partition, member } => {
                self.dump(alloc, number, *partition, *member, out)
            }
            Line::Links { partition } => self.push_links(alloc, number, *partition, out),
            Line::Trail { partition } => self.trail(alloc, number, *partition, out),
            Line::Comment => self.count(number, &mut out.told),
            Line::MasterFlow { .. } => self.flow_nothing(number, &mut out.told),
            Line::End => self.end(alloc, number, out),
            _ => self.pass(number, &mut out.told),
        }
    }

    /// Counts the line of that number, which is the next one and is taken apart: its events are then taken one by one.
    /// Takes no memory.
    pub fn begin_line(&mut self, number: u32)
        requires { MayRun (boxed form) self.old number Line.Comment }
        ensures { (settings : Settings) (r : Run) → Stands (boxed form) settings self.old r → Stands (boxed form) settings self.new (next_line r) }
    {
        self.lines = number;
    }

    /// Counts a line that ran.
    pub(crate) fn count(&mut self, number: u32, out: &mut Vec<Told>) -> Result<(), Memory>
        ensures grid { self.new ≡ record self.old { lines = number } }
        ensures told { OnOk result (out.new.items ≡ out.old.items ++ came_to outcome.Ran) }
    {
        self.lines = number;
        tell_outcome(out, LineOutcome::Ran)
    }

    /// `mflow P K` finds no message: without masters there are none between them.
    fn flow_nothing(&mut self, number: u32, out: &mut Vec<Told>) -> Result<(), Memory>
        ensures grid { self.new ≡ record self.old { lines = number } }
        ensures told { OnOk result (out.new.items ≡ out.old.items ++ came_to (outcome.Flowed 0)) }
    {
        self.lines = number;
        tell_outcome(out, LineOutcome::Flowed { deliveries: 0 })
    }

    /// Counts a line whose condition is false.
    pub(crate) fn pass(&mut self, number: u32, out: &mut Vec<Told>) -> Result<(), Memory>
        ensures grid { self.new ≡ record self.old { lines = number } }
        ensures told { OnOk result (out.new.items ≡ out.old.items ++ came_to outcome.Idle) }
    {
        self.lines = number;
        tell_outcome(out, LineOutcome::Idle)
    }

    /// Whether a member hasn't crashed: that is so in all partitions, or in none.
    pub(crate) fn is_live(&self, member: MemberId) -> bool
        requires { (settings : Settings) × (r : Run) × Stands (boxed form) settings self.now r }
        ensures { (settings : Settings) (r : Run) → Stands (boxed form) settings self.now r → result ≡ lives (partition_object settings) r member }
    {
        self.worlds[0].is_live(member)
    }

    /// `open C M`: opens a connection that wasn't opened before, to a member that lives.
    fn open(
        &mut self,
        alloc: Global,
        number: u32,
        conn: u32,
        member: MemberId,
        out: &mut Vec<Told>,
    ) -> Result<(), Memory>
        requires { MayRun (boxed form) self.old number (Line.OpenConn conn member) }
        ensures { (settings : Settings) (r : Run) → Stands (boxed form) settings self.old r → OnOk result (HasRun (boxed form) settings self.new r (Line.OpenConn conn member) out.old.items out.new.items) }
    {
        if self.connections.get(conn).is_some() || !self.is_live(member) {
            return self.pass(number, out);
        }
        self.connections.open(alloc, conn, member);
        self.count(number, out)
    }

    /// `clock M T`: sets a member's clock, and makes the turns of its lists.
    fn set_clock(
        &mut self,
        alloc: Global,
        number: u32,
        member: MemberId,
        moment: Moment,
        out: &mut Vec<Told>,
    ) -> Result<(), RunEnd>
        requires { MayRun (boxed form) self.old number (Line.Clock member moment) }
        ensures ok { (settings : Settings) (r : Run) → Stands (boxed form) settings self.old r → OnOk result (HasRun (boxed form) settings self.new r (Line.Clock member moment) out.old.items out.new.items) }
        ensures full { (settings : Settings) (r : Run) → Stands (boxed form) settings self.old r → IsErrOf result RunEnds.InFlight → IsGivenUp settings r (Line.Clock member moment) }
    {
        self.moments[usize::from(member)] = moment;
        self.count(number, out)?;
        self.make_turns_of(alloc, member, out)
    }
}
