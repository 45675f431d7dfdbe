//! The lines of near clients: `near`, `nearget` and `nearfeed`.

ghost use Rattle.std.specs.Prelude.{◌≡◌, ◌≤◌, if◌then◌else◌, [], None, IfOk, IsErrOf};
ghost use Rattle.std.specs.Str.{is_utf8};
ghost use Rattle.call_engine.specs.Calls.{Settings};
ghost use Rattle.call_engine.specs.Objects.{partition_object};
ghost use Rattle.replay_run.specs.Grids.{boxed};
ghost use Rattle.replay_run.specs.declared.run_end.RunEnd.TheVariants as RunEnds;
ghost use Rattle.script_lang.specs.declared.line.Line.TheVariants.{Near, NearGet, NearFeed, Arrive, Comment};
ghost use Rattle.replay_run.specs.Runs.{connection_of};
ghost use Rattle.script_run.specs.Runs.{ScriptRun, is_new, can_begin, may_look};
ghost use Rattle.script_run.specs.Grids.{Goes, Stands, MayRun, HasTold, IsGivenUp, MayPlay, MaySend, HasSent, HasMissed, IsGivenUpAt, place_in};
ghost use Rattle.script_run.specs.AfterLines.{played};
ghost use Rattle.script_run.specs.LineTold.{told_of, by_near};
ghost use Rattle.script_run.specs.declared.told.NearOutcome.TheVariants as NearOutcomes;

use crate::client::{Fed, begin};
use crate::grid::ScriptGrid;
use crate::told::{NearOutcome, ScriptTold};
use grid_base::{Bytes, Memory};
use grid_client::NearLook;
use line_told::{LineOutcome, Ready, Told};
use replay_run::RunEnd;
use script_lang::Line;
use simdutf8::basic::from_utf8;
use std::alloc::Global;

/// How many bytes a key has at least.
const SHORTEST_KEY: usize = 8;

/// Whether a name is one.
fn is_name(name: &Bytes) -> bool
    ensures { result ≡ is_utf8 name.now }
{
    from_utf8(name.as_slice()).is_ok()
}

impl ScriptGrid {
    /// The place of the client of a near connection.
    pub(crate) fn place_of(&self, conn: u32) -> Option<usize>
        ensures { result ≡ place_in self.now conn }
    {
        self.nears.iter().position(|near| near.conn == conn)
    }

    /// Whether a connection is open, and no byte has arrived on it.
    fn is_new(&self, conn: u32) -> bool
        requires { (settings : Settings) × (s : ScriptRun) × Stands (boxed form) settings self.now s × (conn ≤ 63) }
        ensures { (settings : Settings) (s : ScriptRun) → Stands (boxed form) settings self.now s → result ≡ is_new (connection_of s.run conn) }
    {
        self.grid.is_open(conn) && !self.spoken[conn as usize]
    }

    /// Whether a connection can become a near connection: it is open, no byte has arrived on it, it is none yet, and the
    /// map's name is one.
    fn can_begin(&self, conn: u32, name: &Bytes) -> bool
        requires { (settings : Settings) × (s : ScriptRun) × Stands (boxed form) settings self.now s × (conn ≤ 63) }
        ensures { (settings : Settings) (s : ScriptRun) → Stands (boxed form) settings self.now s → result ≡ can_begin s conn name.now }
    {
        self.place_of(conn).is_none() && self.is_new(conn) && is_name(name)
    }

    /// Whether a key can be looked up: it has eight bytes at least, and bytes can arrive on the connection.
    fn may_look(&self, conn: u32, key: &Bytes) -> bool
        requires { (settings : Settings) × (s : ScriptRun) × Stands (boxed form) settings self.now s }
        ensures { (settings : Settings) (s : ScriptRun) → Stands (boxed form) settings self.now s
            → result ≡ may_look (partition_object settings) s conn key.now }
    {
        key.len() >= SHORTEST_KEY && self.grid.takes_bytes(conn)
    }

    /// The place of the client that may look a key up.
    fn place_asked(&self, conn: u32, key: &Bytes) -> Option<usize>
        requires { (settings : Settings) × (s : ScriptRun) × Stands (boxed form) settings self.now s }
        ensures { (settings : Settings) (s : ScriptRun) → Stands (boxed form) settings self.now s
            → result ≡ (if may_look (partition_object settings) s conn key.now then place_in self.now conn else None) }
    {
        if !self.may_look(conn, key) {
            return None;
        }
        self.place_of(conn)
    }

    /// `near C NAME CAP`: an open connection on which no byte has arrived becomes a near connection. What its client sends
    /// first arrives at once, where its member lives. The line has run either way.
    pub(crate) fn begin_near(
        &mut self,
        alloc: Global,
        number: u32,
        conn: u32,
        name: &Bytes,
        capacity: u32,
    ) -> Result<ScriptTold, RunEnd>
        requires { MayRun (boxed form) self.old number (Near conn name.now capacity) }
        ensures ok { (settings : Settings) (s : ScriptRun) → Stands (boxed form) settings self.old s
            → IfOk result (HasTold (boxed form) settings self.new s (Near conn name.now capacity)) }
        ensures full { (settings : Settings) (s : ScriptRun) → Stands (boxed form) settings self.old s → IsErrOf result RunEnds.InFlight
            → IsGivenUp settings s (Near conn name.now capacity) }
    {
        if !self.can_begin(conn, name) {
            return Ok(self.pass(alloc, number)?);
        }
        let opening = begin(&mut self.nears, alloc, conn, name, capacity)?;
        let mut grid = self.send(alloc, number, conn, opening)?;
        grid.told[0] = Told::Outcome(LineOutcome::Ran);
        Ok(ScriptTold::by_grid(alloc, grid))
    }

    /// `nearget C KEY`: the client of a near connection looks a key of eight bytes at least up, where bytes can arrive on the
    /// connection. A hit sends nothing; at a miss the get of the key arrives.
    pub(crate) fn look_up(
        &mut self,
        alloc: Global,
        number: u32,
        conn: u32,
        key: &Bytes,
    ) -> Result<ScriptTold, RunEnd>
        requires { MayRun (boxed form) self.old number (NearGet conn key.now) }
        ensures ok { (settings : Settings) (s : ScriptRun) → Stands (boxed form) settings self.old s
            → IfOk result (HasTold (boxed form) settings self.new s (NearGet conn key.now)) }
        ensures full { (settings : Settings) (s : ScriptRun) → Stands (boxed form) settings self.old s → IsErrOf result RunEnds.InFlight
            → IsGivenUp settings s (NearGet conn key.now) }
    {
        let Some(place) = self.place_asked(conn, key) else {
            return Ok(self.pass(alloc, number)?);
        };
        let look = self.nears[place].look(key)?;
        match look {
            NearLook::Hit(value) => Ok(self.hit(alloc, number, value)),
            NearLook::Miss(sending) => self.miss(alloc, number, conn, sending.bytes),
        }
    }

    /// Counts a line at which a value is kept for the key.
    fn hit(&mut self, alloc: Global, number: u32, value: Option<Bytes>) -> ScriptTold
        requires { MayPlay (boxed form) self.old number Comment }
        ensures goes { (settings : Settings) (s : ScriptRun) → Goes (boxed form) settings self.old s
            → Goes (boxed form) settings self.new (played settings [] s Comment) }
        ensures spoken { self.new.spoken ≡ self.old.spoken }
        ensures told { told_of result ≡ by_near (NearOutcomes.Hit value) [] [] }
    {
        self.count(number);
        ScriptTold {
            near: Some(NearOutcome::Hit(value)),
            heard: Vec::new(alloc),
            grid: Ready::new(alloc),
        }
    }

    /// A line at which none is kept: the get arrives.
    fn miss(
        &mut self,
        alloc: Global,
        number: u32,
        conn: u32,
        get: Bytes,
    ) -> Result<ScriptTold, RunEnd>
        requires { MaySend (boxed form) self.old number conn get }
        ensures ok { (settings : Settings) (s : ScriptRun) → Stands (boxed form) settings self.old s
            → IfOk result (HasMissed (boxed form) settings self.new s conn get) }
        ensures full { (settings : Settings) (s : ScriptRun) → Stands (boxed form) settings self.old s → IsErrOf result RunEnds.InFlight
            → IsGivenUpAt settings s (Arrive conn get) }
    {
        let mut grid = self.send(alloc, number, conn, get)?;
        grid.told.remove(0);
        Ok(ScriptTold {
            near: Some(NearOutcome::Miss),
            heard: Vec::new(alloc),
            grid,
        })
    }

    /// `nearfeed C K`: the client of a near connection is handed the next bytes of its connection's output, up to so many.
    pub(crate) fn feed(
        &mut self,
        alloc: Global,
        number: u32,
        conn: u32,
        most: u32,
    ) -> Result<ScriptTold, Memory>
        requires { MayRun (boxed form) self.old number (NearFeed conn most) }
        ensures { (settings : Settings) (s : ScriptRun) → Stands (boxed form) settings self.old s
            → IfOk result (HasTold (boxed form) settings self.new s (NearFeed conn most)) }
    {
        let Some(place) = self.place_of(conn) else {
            return self.pass(alloc, number);
        };
        let Fed { bytes, heard } = self.nears[place].feed(most)?;
        self.count(number);
        Ok(ScriptTold {
            near: Some(NearOutcome::Fed { bytes }),
            heard,
            grid: Ready::new(alloc),
        })
    }

    /// What a near client sends arrives on its connection, where its member lives. What that brings is told behind an outcome.
    fn send(&mut self, alloc: Global, number: u32, conn: u32, bytes: Bytes) -> Result<Ready, RunEnd>
        requires { MaySend (boxed form) self.old number conn bytes }
        ensures ok { (settings : Settings) (s : ScriptRun) → Stands (boxed form) settings self.old s
            → IfOk result (HasSent (boxed form) settings self.new s conn bytes) }
        ensures full { (settings : Settings) (s : ScriptRun) → Stands (boxed form) settings self.old s → IsErrOf result RunEnds.InFlight
            → IsGivenUpAt settings s (Arrive conn bytes) }
    {
        self.mark_spoken(conn);
        let line = Line::Arrive { conn, bytes };
        self.run_on_grid(alloc, number, &line)
    }
}
