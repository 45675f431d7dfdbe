//! A script that runs line by line, each of which is told.

ghost use Rattle.std.specs.Prelude.{◌≡◌, ◌≢◌, ◌+◌, ◌<◌, Err, OnOk, OnErr, IfOk};
ghost use Rattle.script_lang.specs.Limits.{most_lines};
ghost use Rattle.running_grid.specs.Runs.{IsRunning};
ghost use Rattle.explain_run.specs.Stories.{GoesOn, IsOver, lines_of};

use crate::script::{Script, ScriptEnd};
use entry_processors::Processor;
use grid_base::{Memory, PartitionId};
use grid_cli::{LimitWhat, Status, push_limit, push_refused};
use memchr::memchr;
use run_tale::{LineTold, Place, Tale};
use script_lang::{Line, LineRefused, LineWhy, MOST_LINE_BYTES, MOST_LINES, read_line};
use std::alloc::{AllocError, Global};
use std::mem;
use watched_run::{RunEnd, Watch};

/// How a script's run ended.
#[derive(Clone, Copy, Debug, PartialEq, Eq)]
pub enum Stop {
    /// At its line `end`.
    Done,
    /// At a line that isn't in the language.
    Refused { line: u32, why: LineWhy },
    /// At a limit that a line goes past.
    Limit { line: u32, what: LimitWhat },
    /// Behind that line, which is the last that was read whole.
    Behind { line: u32 },
    /// For want of memory.
    Memory,
}

impl From<AllocError> for Stop {
    fn from(_error: AllocError) -> Stop {
        Stop::Memory
    }
}

impl Stop {
    fn at_limit(line: u32, what: LimitWhat) -> Stop {
        Stop::Limit { line, what }
    }

    /// Why a line that didn't run ends the run.
    fn at(line: u32, end: RunEnd) -> Stop {
        match end {
            RunEnd::Refused(why) => Stop::Refused { line, why },
            RunEnd::Long => Stop::at_limit(line, LimitWhat::Line),
            RunEnd::Lines => Stop::at_limit(line, LimitWhat::Lines),
            RunEnd::InFlight => Stop::at_limit(line, LimitWhat::InFlight),
            RunEnd::Memory => Stop::Memory,
        }
    }

    /// The status of a command whose run of a script with this end stops so.
    pub fn status(self, end: ScriptEnd) -> Status
        ensures runs { result ≢ Status.Usage }
        ensures doorless { result ≢ Status.DoorFault }
        ensures writes { result ≢ Status.WriteFault }
        ensures reads { result ≡ Status.ReadFault → end ≡ ScriptEnd.Fault }
    {
        match self {
            Stop::Done => Status::Done,
            Stop::Refused { line, why } => Status::ScriptRefused { line, why },
            Stop::Limit { what, .. } => Status::Limit { what },
            Stop::Behind { line } => match end {
                ScriptEnd::Whole => Status::ScriptRefused {
                    line,
                    why: LineWhy::NoEnd,
                },
                ScriptEnd::TooLong => Status::Limit {
                    what: LimitWhat::Bytes,
                },
                ScriptEnd::Fault => Status::ReadFault,
            },
            Stop::Memory => Status::Memory,
        }
    }

    /// Appends what a transcript says where the run of a script with this end stops so, if it says anything.
    pub fn push(self, end: ScriptEnd, out: &mut Vec<u8>) -> Result<(), Memory> {
        match (self, end) {
            (Stop::Refused { line, why }, _) => push_refused(out, line, why),
            (Stop::Limit { line, what }, _) => push_limit(out, line, what),
            (Stop::Behind { line }, ScriptEnd::Whole) => push_refused(out, line, LineWhy::NoEnd),
            (Stop::Behind { line }, ScriptEnd::TooLong) => {
                push_limit(out, line.saturating_add(1), LimitWhat::Bytes)
            }
            _ => Ok(()),
        }
    }
}

/// The partition that a line names.
fn partition_of(line: &Line) -> Option<PartitionId> {
    match line {
        Line::Deliver { partition, .. }
        | Line::Lose { partition, .. }
        | Line::Repeat { partition, .. }
        | Line::Flow { partition, .. }
        | Line::Resend { partition, .. }
        | Line::Move { partition, .. }
        | Line::Join { partition, .. }
        | Line::Handover { partition, .. }
        | Line::Advance { partition }
        | Line::Reopen { partition }
        | Line::MasterDeliver { partition, .. }
        | Line::MasterLose { partition, .. }
        | Line::MasterResend { partition, .. }
        | Line::MasterFlow { partition, .. }
        | Line::Dump { partition, .. }
        | Line::Links { partition }
        | Line::Trail { partition } => Some(*partition),
        _ => None,
    }
}

/// How many lines a script has at most.
fn count_lines(text: &[u8]) -> u32 {
    let newlines = text.iter().filter(|byte| **byte == b'\n').count();
    u32::try_from(newlines)
        .unwrap_or(u32::MAX)
        .saturating_add(1)
        .min(MOST_LINES)
}

/// A run before its first line, and behind it.
#[derive(Drop)]
enum Stage {
    Waiting(Vec<Box<dyn Processor>>),
    Running(Watch),
    Ended,
}

/// A script that runs line by line.
#[derive(Drop)]
pub struct Story {
    script: Script,
    /// Where the next line begins.
    at: usize,
    /// How many lines were whole.
    lines: u32,
    stage: Stage,
    told: Tale,
}

impl Story {
    /// A script of which no line ran. Its grid is to have these processors, whose numbers go from 1.
    pub fn new(alloc: Global, script: Script, processors: Vec<Box<dyn Processor>>) -> Self
        ensures goes_on { GoesOn form result }
        ensures lines { lines_of result ≡ 0 }
    {
        Story {
            script,
            at: 0,
            lines: 0,
            stage: Stage::Waiting(processors),
            told: Tale::new(alloc),
        }
    }

    /// The next line's text, and where the one behind it begins.
    fn next_text(&self) -> Result<(&[u8], usize), Stop>
        ensures { OnOk result (lines_of self.now < most_lines) }
    {
        let rest = self.script.text.as_slice().get(self.at..).unwrap_or(&[]);
        let newline = memchr(b'\n', rest);
        let length = newline.unwrap_or(rest.len());
        let line = self.lines.saturating_add(1);
        if rest.is_empty() {
            return Err(Stop::Behind { line: self.lines });
        }
        if line > MOST_LINES {
            return Err(Stop::at_limit(line, LimitWhat::Lines));
        }
        if length > MOST_LINE_BYTES {
            return Err(Stop::at_limit(line, LimitWhat::Line));
        }
        if newline.is_none() && self.script.end != ScriptEnd::Whole {
            return Err(Stop::Behind { line: self.lines });
        }
        let behind = self.at.saturating_add(length).saturating_add(1);
        Ok((rest.get(..length).unwrap_or(rest), behind))
    }

    /// Runs the first line.
    fn begin(
        &mut self,
        alloc: Global,
        processors: Vec<Box<dyn Processor>>,
        text: &[u8],
    ) -> Result<Place, Stop>
        requires { IsOver self.old }
        ensures goes_on { GoesOn form self.new }
        ensures counts { lines_of self.new ≡ lines_of self.old }
        ensures at { IfOk result (λ place. place.line ≡ lines_of self.old) }
        ensures over { OnErr result (IsOver self.new) }
    {
        let number = self.lines;
        let line = match read_line(alloc, text, true, 0) {
            Ok(line) => line,
            Err(LineRefused::Why(why)) => return Err(Stop::Refused { line: number, why }),
            Err(LineRefused::Memory) => return Err(Stop::Memory),
        };
        let Line::Grid {
            members,
            backups,
            capacity,
        } = line
        else {
            let why = LineWhy::NoGrid;
            return Err(Stop::Refused { line: number, why });
        };
        let lines = count_lines(self.script.text.as_slice());
        let watch = Watch::new(alloc, members, backups, capacity, processors, lines)?;
        self.told.begin(members, backups, capacity)?;
        self.stage = Stage::Running(watch);
        Ok(Place {
            line: number,
            members,
            partition: None,
        })
    }

    /// Runs a line behind the first.
    fn go_on(&mut self, alloc: Global, mut watch: Watch, text: &[u8]) -> Result<Place, Stop>
        requires over { IsOver self.old }
        requires stands { IsRunning form watch.running }
        ensures goes_on { GoesOn form self.new }
        ensures counts { lines_of self.new ≡ lines_of self.old }
        ensures at { IfOk result (λ place. place.line ≡ lines_of self.old) }
        ensures over { OnErr result (IsOver self.new) }
    {
        let ran = watch.run(alloc, text, &mut self.told);
        let line = match ran {
            Ok(line) => line,
            Err(end) => return Err(Stop::at(self.lines, end)),
        };
        let members = watch.members();
        self.stage = if line.is_end() {
            Stage::Ended
        } else {
            Stage::Running(watch)
        };
        Ok(Place {
            line: self.lines,
            members,
            partition: partition_of(&line),
        })
    }

    /// Runs the next line.
    fn run_next(&mut self, alloc: Global) -> Result<Place, Stop>
        requires { GoesOn form self.old }
        ensures goes_on { GoesOn form self.new }
        ensures counts { OnOk result (lines_of self.new ≡ lines_of self.old + 1) }
        ensures at { IfOk result (λ place. place.line ≡ lines_of self.new) }
        ensures over { OnErr result (IsOver self.new) }
        ensures done { IsOver self.old → result ≡ Err Stop.Done }
    {
        let stage = mem::replace(&mut self.stage, Stage::Ended);
        if matches!(&stage, Stage::Ended) {
            return Err(Stop::Done);
        }
        let (text, behind) = self.next_text()?;
        let text = Vec::from_slice(alloc, text)?;
        self.at = behind;
        self.lines = self.lines.saturating_add(1);
        match stage {
            Stage::Waiting(processors) => self.begin(alloc, processors, text.as_slice()),
            Stage::Running(watch) => self.go_on(alloc, watch, text.as_slice()),
            Stage::Ended => Err(Stop::Done),
        }
    }

    /// Runs the next line, and tells what happened. An `Err` is how the run ended: behind a line `end`, or at a line that
    /// didn't run, of which nothing is told. Costs what the line costs the grid, the words of what happened, and a copy of
    /// the line.
    pub fn next(&mut self, alloc: Global) -> Result<LineTold, Stop>
        requires { GoesOn form self.old }
        ensures goes_on { GoesOn form self.new }
        // Lines run and are told in order, each by its number.
        ensures counts { OnOk result (lines_of self.new ≡ lines_of self.old + 1) }
        ensures at { IfOk result (λ told. told.at.line ≡ lines_of self.new) }

        // After an `Err` nothing more is run.
        ensures over { OnErr result (IsOver self.new) }
        ensures done { IsOver self.old → result ≡ Err Stop.Done }
    {
        let at = self.run_next(alloc)?;
        let told = self.told.take(alloc);
        Ok(LineTold { at, told })
    }
}
