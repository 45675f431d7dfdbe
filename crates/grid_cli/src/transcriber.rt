ghost use Rattle.std.specs.Prelude.{◌≡◌, ◌<◌, ◌≤◌, ◌++◌, ◌∷◌, [], List, ℕ, length, map, OnOk, IfOk, IfErr, IsErrOf, Option, Some, None, false, Ok as Okay};
ghost use Rattle.grid_base.specs.declared.names.CallId.{CallId};
ghost use Rattle.grid_edge.specs.Faults.{Rose};
ghost use Rattle.entry_processors.specs.Processors.{ProcessorForm};
ghost use Rattle.script_lang.specs.Limits.{most_lines, most_line_bytes};
ghost use Rattle.script_run.specs.Runs.{ScriptRun};
ghost use Rattle.script_lang.specs.Lines.{line_of};
ghost use Rattle.script_run.specs.Grids.{Stands, MayRun};
ghost use Rattle.grid_cli.specs.Transcripts.{settings};
ghost use Rattle.grid_cli.specs.Transcribing.{HasRun, Follows, HasRoomFor, IsBegunBy, RanAs, StopsAs, Concludes};

use crate::print::{push_limit, push_refused};
use crate::status::{LimitWhat, Status};
use entry_processors::Processor;
use grid_base::Memory;
use grid_edge::{Sink, write_all};
use replay_run::RunEnd;
use script_lang::{Line, LineRefused, LineWhy, read_line};
use script_run::ScriptGrid;
use std::alloc::{AllocError, Global};
use std::mem;

/// The outcome of the first line.
const FIRST_OK: &[u8] = b"1 ok\n";

/// What became of a line, whose text is then to be written.
#[derive(Clone, Copy)]
pub(crate) enum Ran {
    /// The run goes on.
    Goes,
    /// It was the line `end`.
    Ended,
    /// It isn't in the grammar, and ran in no part.
    Refused(u32, LineWhy),
    /// An event of it met a partition with too many messages in flight.
    GivenUp,
}

/// Whether a script has a grid yet.
#[derive(Drop)]
enum Stage {
    /// Before the first line: the processors that the grid will have.
    Waiting(Vec<Box<dyn Processor>>),
    Running(ScriptGrid),
}

/// What the first line of a script made.
enum Begun {
    Made(ScriptGrid),
    Refused(LineWhy),
}

/// The grid that a script's first line makes, with these processors.
fn grid_of(
    alloc: Global,
    processors: Vec<Box<dyn Processor>>,
    text: &[u8],
    out: &mut Vec<u8>,
) -> Result<Begun, Memory>
    ensures { IfOk result (λ begun. IsBegunBy form (map form processors.items) begun text.now out.old.items out.new.items) }
{
    match read_line(alloc, text, true, 0) {
        Ok(
            Line::Grid {
                members,
                backups,
                capacity,
            },
        ) => {
            let grid = ScriptGrid::new(alloc, members, backups, capacity, processors)?;
            out.extend_from_slice(FIRST_OK)?;
            Ok(Begun::Made(grid))
        }
        Ok(_) => Ok(Begun::Refused(LineWhy::NoGrid)),
        Err(LineRefused::Why(why)) => Ok(Begun::Refused(why)),
        Err(LineRefused::Memory) => Err(AllocError),
    }
}

/// Runs the lines of a script, and writes the text of each before the next one runs.
#[derive(Drop)]
pub(crate) struct Transcriber {
    stage: Stage,
    /// The text of a line.
    text: Vec<u8>,
}

impl Transcriber {
    /// Before the first line of a script whose grid has these processors.
    pub(crate) fn new(alloc: Global, processors: Vec<Box<dyn Processor>>) -> Self
        ensures { Follows form (map form processors.items) result.stage [] [] [] }
    {
        Transcriber {
            stage: Stage::Waiting(processors),
            text: Vec::new(alloc),
        }
    }

    /// Runs a line and leaves its text.
    fn run(&mut self, alloc: Global, text: &[u8]) -> Result<Ran, Memory>
        requires follows { (forms : List ProcessorForm) × (skips : List CallId) × (done : List (List ℕ)) × (written : List ℕ)
            × Follows form forms self.old.stage skips done written × HasRoomFor done text.now }
        ensures { (forms : List ProcessorForm) (skips : List CallId) (done : List (List ℕ)) (written : List ℕ)
            → Follows form forms self.old.stage skips done written
            → IfOk result (λ ran. RanAs form forms ran self.new.stage skips done text.now written self.new.text.items) }
    {
        self.text.clear();
        match mem::replace(&mut self.stage, Stage::Waiting(Vec::new(alloc))) {
            Stage::Waiting(processors) => self.begin(alloc, processors, text),
            Stage::Running(grid) => self.go_on(alloc, grid, text),
        }
    }

    /// Runs the first line, with whose grid the run goes on.
    fn begin(
        &mut self,
        alloc: Global,
        processors: Vec<Box<dyn Processor>>,
        text: &[u8],
    ) -> Result<Ran, Memory>
        requires empty { self.old.text.items ≡ [] }
        ensures { (forms : List ProcessorForm) (skips : List CallId) (done : List (List ℕ)) (written : List ℕ)
            → Follows form forms (Stage.Waiting processors) skips done written
            → IfOk result (λ ran. RanAs form forms ran self.new.stage skips done text.now written self.new.text.items) }
    {
        match grid_of(alloc, processors, text, &mut self.text)? {
            Begun::Made(grid) => {
                self.stage = Stage::Running(grid);
                Ok(Ran::Goes)
            }
            Begun::Refused(why) => {
                push_refused(&mut self.text, 1, why)?;
                Ok(Ran::Refused(1, why))
            }
        }
    }

    /// Runs a line of the grammar, and goes on with its grid. Where the run is given up, none of the line's own text is left.
    fn run_line(
        &mut self,
        alloc: Global,
        mut grid: ScriptGrid,
        number: u32,
        line: &Line,
    ) -> Result<Ran, Memory>
        requires empty { self.old.text.items ≡ [] }
        requires may { MayRun form grid number line.now }
        ensures { (forms : List ProcessorForm) (skips : List CallId) (done : List (List ℕ)) (written : List ℕ)
            (follows : HasRun form forms grid skips done written) (text : List ℕ)
            → line_of false follows.run.run.members text ≡ Okay line.now
            → IfOk result (λ ran. RanAs form forms ran self.new.stage skips done text written self.new.text.items) }
    {
        match grid.print_line(alloc, number, line, &mut self.text) {
            Ok(()) => {
                self.stage = Stage::Running(grid);
                Ok(if line.is_end() { Ran::Ended } else { Ran::Goes })
            }
            Err(RunEnd::InFlight) => {
                self.text.clear();
                push_limit(&mut self.text, number, LimitWhat::InFlight)?;
                Ok(Ran::GivenUp)
            }
            Err(RunEnd::Memory) => Err(AllocError),
        }
    }

    /// Runs a line after the first, and goes on with its grid.
    fn go_on(&mut self, alloc: Global, grid: ScriptGrid, text: &[u8]) -> Result<Ran, Memory>
        requires empty { self.old.text.items ≡ [] }
        requires room { length text.now ≤ most_line_bytes }
        requires stands { (forms : List ProcessorForm) × (capacity : ℕ) × (s : ScriptRun) × Stands form (settings forms capacity) grid s
            × (s.run.lines < most_lines) × (s.run.members ≤ 8) }
        ensures { (forms : List ProcessorForm) (skips : List CallId) (done : List (List ℕ)) (written : List ℕ)
            → Follows form forms (Stage.Running grid) skips done written
            → IfOk result (λ ran. RanAs form forms ran self.new.stage skips done text.now written self.new.text.items) }
    {
        let number = grid.lines() + 1;
        match read_line(alloc, text, false, grid.members()) {
            Ok(line) => self.run_line(alloc, grid, number, &line),
            Err(LineRefused::Why(why)) => {
                push_refused(&mut self.text, number, why)?;
                Ok(Ran::Refused(number, why))
            }
            Err(LineRefused::Memory) => Err(AllocError),
        }
    }

    /// Runs a line and writes its text. An `Err` is the status with which the run stops there,
    /// `Status::Done` at the line `end`.
    pub(crate) fn transcribe<K: Sink>(
        &mut self,
        alloc: Global,
        text: &[u8],
        out: &mut K,
    ) -> Result<(), Status>
        requires follows { (forms : List ProcessorForm) × (skips : List CallId) × (done : List (List ℕ)) × (written : List ℕ)
            × Follows form forms self.old.stage skips done written × HasRoomFor done text.now }
        ensures goes { (forms : List ProcessorForm) (skips : List CallId) (done : List (List ℕ)) (written : List ℕ)
            → Follows form forms self.old.stage skips done written
            → OnOk result ((more : List CallId) × (added : List ℕ)
            × Follows form forms self.new.stage (more ++ skips) (done ++ text.now ∷ []) (written ++ added)
            × (K.taken out.new ≡ K.taken out.old ++ added)) }
        ensures stops { (forms : List ProcessorForm) (skips : List CallId) (done : List (List ℕ)) (written : List ℕ)
            → Follows form forms self.old.stage skips done written
            → IfErr result (λ status. (more : List CallId) × (added : List ℕ) × StopsAs forms status (more ++ skips) done text.now (written ++ added)
            × (K.taken out.new ≡ K.taken out.old ++ added)) }
        ensures never_falls { K.faults out.old ≤ K.faults out.new }
        ensures cause { IsErrOf result Status.WriteFault → Rose (K.faults out.old) (K.faults out.new) }
    {
        let Ok(ran) = self.run(alloc, text) else {
            return Err(Status::Memory);
        };
        let Ok(()) = write_all(out, self.text.as_slice()) else {
            return Err(Status::WriteFault);
        };
        match ran {
            Ran::Goes => Ok(()),
            Ran::Ended => Err(Status::Done),
            Ran::Refused(line, why) => Err(Status::ScriptRefused { line, why }),
            Ran::GivenUp => Err(Status::Limit {
                what: LimitWhat::InFlight,
            }),
        }
    }

    /// How many lines were run.
    pub(crate) fn lines(&self) -> u32
        ensures { (forms : List ProcessorForm) (skips : List CallId) (done : List (List ℕ)) (written : List ℕ)
            → Follows form forms self.now.stage skips done written → result ≡ length done }
    {
        match &self.stage {
            Stage::Waiting(_) => 0,
            Stage::Running(grid) => grid.lines(),
        }
    }

    /// Ends a script that stopped without a line `end`.
    pub(crate) fn refuse_end<K: Sink>(&mut self, out: &mut K) -> Status
        ensures concludes { (forms : List ProcessorForm) (skips : List CallId) (done : List (List ℕ)) (written : List ℕ)
            → Follows form forms self.old.stage skips done written
            → (added : List ℕ) × Concludes forms None result skips done (written ++ added) × (K.taken out.new ≡ K.taken out.old ++ added) }
        ensures never_falls { K.faults out.old ≤ K.faults out.new }
        ensures cause { result ≡ Status.WriteFault → Rose (K.faults out.old) (K.faults out.new) }
    {
        let line = self.lines();
        self.text.clear();
        let Ok(()) = push_refused(&mut self.text, line, LineWhy::NoEnd) else {
            return Status::Memory;
        };
        let Ok(()) = write_all(out, self.text.as_slice()) else {
            return Status::WriteFault;
        };
        Status::ScriptRefused {
            line,
            why: LineWhy::NoEnd,
        }
    }

    /// Ends a script that goes past a limit in the line after those that were run.
    pub(crate) fn stop_at_limit<K: Sink>(&mut self, what: LimitWhat, out: &mut K) -> Status
        requires { (forms : List ProcessorForm) × (skips : List CallId) × (done : List (List ℕ)) × (written : List ℕ)
            × Follows form forms self.old.stage skips done written × (length done ≤ most_lines) }
        ensures concludes { (forms : List ProcessorForm) (skips : List CallId) (done : List (List ℕ)) (written : List ℕ)
            → Follows form forms self.old.stage skips done written
            → (added : List ℕ) × Concludes forms (Some what) result skips done (written ++ added) × (K.taken out.new ≡ K.taken out.old ++ added) }
        ensures never_falls { K.faults out.old ≤ K.faults out.new }
        ensures cause { result ≡ Status.WriteFault → Rose (K.faults out.old) (K.faults out.new) }
    {
        let line = self.lines() + 1;
        self.text.clear();
        let Ok(()) = push_limit(&mut self.text, line, what) else {
            return Status::Memory;
        };
        let Ok(()) = write_all(out, self.text.as_slice()) else {
            return Status::WriteFault;
        };
        Status::Limit { what }
    }
}
