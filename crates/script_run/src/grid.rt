ghost use Rattle.std.specs.Prelude.{◌≡◌, ℕ, ◌≤◌, List, [], length, map, IfOk, OnOk, IsErrOf};
ghost use Rattle.grid_base.specs.declared.names.CallId.{CallId};
ghost use Rattle.call_engine.specs.Calls.{Settings};
ghost use Rattle.call_engine.specs.Objects.{partition_object};
ghost use Rattle.replay_run.specs.Grids.{boxed};
ghost use Rattle.replay_run.specs.declared.run_end.RunEnd.TheVariants as RunEnds;
ghost use Rattle.script_lang.specs.declared.line.Line.TheVariants.{Arrive, Comment};
ghost use Rattle.script_run.specs.Runs.{ScriptRun, begun};
ghost use Rattle.script_run.specs.AfterLines.{played};
ghost use Rattle.script_run.specs.LineTold.{told_of, idle};
ghost use Rattle.script_run.specs.Grids.{AreSpoken, Goes, Stands, MayRun, HasTold, HasRun, IsGivenUp, MayPlay, HasPlayed, IsGivenUpAt};

use crate::client::{NearClient, note_all};
use crate::print::push_script_told;
use crate::told::ScriptTold;
use entry_processors::Processor;
use grid_base::Memory;
use line_told::{LineOutcome, Ready};
use masters_run::RuledGrid;
use replay_run::{RunEnd, tell_outcome};
use script_lang::Line;
use std::alloc::Global;

/// How many connections a script can open.
const CONNECTIONS: usize = 64;

/// A script's grid, and the near clients of its connections.
#[derive(Drop)]
pub struct ScriptGrid {
    pub(crate) grid: RuledGrid,
    /// In the order in which they came.
    pub(crate) nears: Vec<NearClient>,
    /// Whether a byte has arrived on each connection.
    pub(crate) spoken: Vec<bool>,
}

impl ScriptGrid {
    /// The grid after a script's first line, whose entries are processed by these processors, and whose queues have this
    /// capacity. Costs its partitions, and in each of them its members and the links between them.
    pub fn new(
        alloc: Global,
        members: u8,
        backups: u8,
        capacity: u32,
        processors: Vec<Box<dyn Processor>>,
    ) -> Result<ScriptGrid, Memory>
        requires some { 1 ≤ members }
        requires most { members ≤ 8 }
        ensures { IfOk result (λ all. Stands form (record { forms = map form processors.items; capacity = capacity }) all (begun members backups)) }
    {
        Ok(ScriptGrid {
            grid: RuledGrid::new(alloc, members, backups, capacity, processors)?,
            nears: Vec::new(alloc),
            spoken: vec![in alloc; false; CONNECTIONS]?,
        })
    }

    /// How many members the grid has.
    pub fn members(&self) -> u8
        ensures { (settings : Settings) (s : ScriptRun) → Stands (boxed form) settings self.now s → result ≡ s.run.members }
    {
        self.grid.members()
    }

    /// How many lines were run, the first among them.
    pub fn lines(&self) -> u32
        ensures { (settings : Settings) (s : ScriptRun) → Stands (boxed form) settings self.now s → result ≡ s.run.lines }
    {
        self.grid.lines()
    }

    /// Runs the line of that number, which is the next one, and gives what it tells. After an error the grid is given up: for
    /// want of memory, or where a link between members, or between masters, had 65,400 messages or more in flight as an event
    /// came that may send.
    ///
    /// A line costs what it costs the grid (`RuledGrid::run_line`), and in addition, where there are near clients, a look at what
    /// it told for each of them. A look-up that hits costs the copy of its value, and the grid nothing; `nearfeed` costs what its
    /// client makes of the bytes that it is handed.
    pub fn run_line(
        &mut self,
        alloc: Global,
        number: u32,
        line: &Line,
    ) -> Result<ScriptTold, RunEnd>
        requires { MayRun (boxed form) self.old number line.now }
        ensures ok { (settings : Settings) (s : ScriptRun) → Stands (boxed form) settings self.old s
            → IfOk result (HasTold (boxed form) settings self.new s line.now) }
        ensures full { (settings : Settings) (s : ScriptRun) → Stands (boxed form) settings self.old s → IsErrOf result RunEnds.InFlight
            → IsGivenUp settings s line.now }
    {
        match line {
            Line::Near {
                conn,
                name,
                capacity,
            } => self.begin_near(alloc, number, *conn, name, *capacity),
            Line::NearGet { conn, key } => self.look_up(alloc, number, *conn, key),
            Line::NearFeed { conn, most } => Ok(self.feed(alloc, number, *conn, *most)?),
            Line::Arrive { conn, .. } => self.arrive(alloc, number, *conn, line),
            _ => {
                let ready = self.run_on_grid(alloc, number, line)?;
                Ok(ScriptTold::by_grid(alloc, ready))
            }
        }
    }

    /// Runs the line of that number as `run_line` does, and appends the text of what it tells. After an error that text is given
    /// up too.
    pub fn print_line(
        &mut self,
        alloc: Global,
        number: u32,
        line: &Line,
        out: &mut Vec<u8>,
    ) -> Result<(), RunEnd>
        requires { MayRun (boxed form) self.old number line.now }
        ensures ok { (settings : Settings) (s : ScriptRun) → Stands (boxed form) settings self.old s
            → OnOk result (HasRun (boxed form) settings self.new s line.now out.old.items out.new.items) }
        ensures full { (settings : Settings) (s : ScriptRun) → Stands (boxed form) settings self.old s → IsErrOf result RunEnds.InFlight
            → IsGivenUp settings s line.now }
    {
        let told = self.run_line(alloc, number, line)?;
        Ok(push_script_told(alloc, out, number, &told)?)
    }

    /// Bytes arrive on a connection, unless it is a near connection: that takes none but its client's.
    fn arrive(
        &mut self,
        alloc: Global,
        number: u32,
        conn: u32,
        line: &Line,
    ) -> Result<ScriptTold, RunEnd>
        requires { (bytes : List ℕ) × (line.now ≡ Arrive conn bytes) × MayRun (boxed form) self.old number line.now }
        ensures ok { (settings : Settings) (s : ScriptRun) (bytes : List ℕ) → line.now ≡ Arrive conn bytes → Stands (boxed form) settings self.old s
            → IfOk result (HasTold (boxed form) settings self.new s line.now) }
        ensures full { (settings : Settings) (s : ScriptRun) (bytes : List ℕ) → line.now ≡ Arrive conn bytes → Stands (boxed form) settings self.old s
            → IsErrOf result RunEnds.InFlight → IsGivenUp settings s line.now }
    {
        if self.place_of(conn).is_some() {
            return Ok(self.pass(alloc, number)?);
        }
        self.mark_spoken(conn);
        let ready = self.run_on_grid(alloc, number, line)?;
        Ok(ScriptTold::by_grid(alloc, ready))
    }

    /// Bytes come on a connection: if they can arrive there, it is silent no more.
    pub(crate) fn mark_spoken(&mut self, conn: u32)
        requires { (settings : Settings) × (s : ScriptRun) × Stands (boxed form) settings self.old s × (conn ≤ 63) }
        ensures spoken { (settings : Settings) (s : ScriptRun) (bytes : List ℕ) (skips : List CallId) → Stands (boxed form) settings self.old s
            → 1 ≤ length bytes
            → AreSpoken self.new.spoken.items (played settings skips s (Arrive conn bytes)).run }
        ensures rest { (record self.new { spoken = self.old.spoken }) ≡ self.old }
    {
        if !self.grid.takes_bytes(conn) {
            return;
        }
        self.spoken[conn as usize] = true;
    }

    /// Runs a line on the grid, and gives what it tells. The messages among that are yet to be read by the near clients.
    pub(crate) fn run_on_grid(
        &mut self,
        alloc: Global,
        number: u32,
        line: &Line,
    ) -> Result<Ready, RunEnd>
        requires { MayPlay (boxed form) self.old number line.now }
        ensures ok { (settings : Settings) (s : ScriptRun) → Goes (boxed form) settings self.old s
            → IfOk result (HasPlayed (boxed form) settings self.new s line.now) }
        ensures full { (settings : Settings) (s : ScriptRun) → Goes (boxed form) settings self.old s → IsErrOf result RunEnds.InFlight
            → IsGivenUpAt settings s line.now }
        ensures spoken { self.new.spoken ≡ self.old.spoken }
    {
        let mut ready = Ready::new(alloc);
        self.grid.run_line(alloc, number, line, &mut ready)?;
        note_all(&mut self.nears, ready.told.as_slice())?;
        Ok(ready)
    }

    /// Counts a line at which nothing happens on the grid. Takes no memory.
    pub(crate) fn count(&mut self, number: u32)
        requires { MayPlay (boxed form) self.old number Comment }
        ensures goes { (settings : Settings) (s : ScriptRun) → Goes (boxed form) settings self.old s
            → Goes (boxed form) settings self.new (played settings [] s Comment) }
        ensures spoken { self.new.spoken ≡ self.old.spoken }
    {
        self.grid.count_line(number);
    }

    /// Counts a line whose condition is false.
    pub(crate) fn pass(&mut self, alloc: Global, number: u32) -> Result<ScriptTold, Memory>
        requires { MayPlay (boxed form) self.old number Comment }
        ensures goes { (settings : Settings) (s : ScriptRun) → Goes (boxed form) settings self.old s
            → Goes (boxed form) settings self.new (played settings [] s Comment) }
        ensures spoken { self.new.spoken ≡ self.old.spoken }
        ensures told { IfOk result (λ told. told_of told ≡ idle) }
    {
        self.count(number);
        let mut ready = Ready::new(alloc);
        tell_outcome(&mut ready.told, LineOutcome::Idle)?;
        Ok(ScriptTold::by_grid(alloc, ready))
    }
}
