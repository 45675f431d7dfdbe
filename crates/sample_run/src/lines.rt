//! Running the lines of a script on a grid.

ghost use Rattle.std.specs.Prelude.{◌≡◌, ◌<◌, ◌≤◌, ◌++◌, ◌∷◌, [], List, false, length, drop, IfOk, OnOk, IsErrOf};
ghost use Rattle.script_lang.specs.Limits.{most_lines};
ghost use Rattle.script_lang.specs.Lines.{line_of, IsWithin};
ghost use Rattle.script_lang.specs.Words.{whole_lines};
ghost use Rattle.script_lang.specs.declared.line.Line.{Line};
ghost use Rattle.replay_run.specs.declared.run_end.RunEnd.TheVariants as RunEnds;
ghost use Rattle.replay_run.specs.Grids.{boxed};
ghost use Rattle.sample_run.specs.SampleRuns.{StopsBehind, IsTextOf, StandsAfter, IsNext, EndsAs};

use crate::watch::LineWatch;
use entry_processors::Processor;
use grid_base::Memory;
use line_told::Ready;
use memchr::memchr;
use replay_run::{Grid, RunEnd};
use script_lang::{Line, LineRefused, read_line};
use std::alloc::{AllocError, Global};

/// The text behind its first line.
pub(crate) fn behind_first(text: &[u8]) -> &[u8]
    ensures { whole_lines result.now ≡ drop 1 (whole_lines text.now) }
{
    match memchr(b'\n', text) {
        None => text,
        Some(at) => &text[at + 1..],
    }
}

/// The error of a line that is refused for want of memory alone.
fn memory_of(refused: LineRefused) -> Memory
    requires { refused ≡ LineRefused.Memory }
{
    match refused {
        LineRefused::Memory | LineRefused::Why(_) => AllocError,
    }
}

/// Reads a line of the grammar, which isn't refused.
fn read(alloc: Global, text: &[u8], members: u8) -> Result<Line, Memory>
    requires some { 1 ≤ members }
    requires most { members ≤ 8 }
    requires readable { (line : Line) × (line_of false members text.now ≡ Ok line) }
    ensures line { IfOk result (λ line. line_of false members text.now ≡ Ok line) }
    ensures within { IfOk result (λ line. IsWithin members (length text.now) line) }
{
    match read_line(alloc, text, false, members) {
        Ok(line) => Ok(line),
        Err(refused) => Err(memory_of(refused)),
    }
}

/// Runs a line behind the first. What it tells isn't kept.
fn run_line(alloc: Global, number: u32, text: &[u8], grid: &mut Grid) -> Result<(), RunEnd>
    requires { IsNext (boxed form) grid.old number text.now }
    ensures ok { (next : IsNext (boxed form) grid.old number text.now) → OnOk result (StandsAfter (boxed form) grid.new (next.done ++ next.line ∷ [])) }
    ensures full { (next : IsNext (boxed form) grid.old number text.now) → IsErrOf result RunEnds.InFlight → StopsBehind next.done next.line number }
{
    let line = read(alloc, text, grid.members())?;
    grid.run_line(alloc, number, &line, &mut Ready::new(alloc))
}

/// Runs the lines of a text on a grid whose script begins with another line. Tells the line at which the run is given up,
/// if one is, and the watch of each line that has run.
pub(crate) fn run_lines<W: LineWatch>(
    alloc: Global,
    text: &[u8],
    grid: &mut Grid,
    watch: &W,
) -> Result<Option<u32>, Memory>
    requires { (lines : List Line) × IsTextOf text.now lines × (length lines < most_lines) × StandsAfter (boxed form) grid.old [] }
    ensures { (lines : List Line) → IsTextOf text.now lines → IfOk result (λ stop. EndsAs (boxed form) grid.new lines stop) }
{
    let mut rest = text;
    'texts: while let Some(at) = memchr(b'\n', rest) {
        let number = grid.lines() + 1;
        match run_line(alloc, number, &rest[..at], grid) {
            Ok(()) => watch.ran_lines(number),
            Err(RunEnd::InFlight) => return Ok(Some(number)),
            Err(RunEnd::Memory) => return Err(AllocError),
        }
        rest = &rest[at + 1..];
    }
    Ok(None)
}
