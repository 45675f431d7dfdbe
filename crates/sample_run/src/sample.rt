//! The run of the script that is made from a number.

ghost use Rattle.std.specs.Prelude.{[], IfOk};
ghost use Rattle.replay_run.specs.Grids.{boxed};
ghost use Rattle.sample_run.specs.SampleRuns.{StandsAfter};
ghost use Rattle.sample_run.specs.Summaries.{EndsSo, IsCertain};

use crate::lines::{behind_first, run_lines};
use crate::summary::Summary;
use crate::watch::{LineWatch, Unwatched};
use entry_processors::Processor;
use grid_base::Memory;
use replay_run::Grid;
use std::alloc::Global;
use workload_gen::make;

/// With the first line of each script a grid of four members begins, which keep one backup.
const MEMBERS: u8 = 4;

const BACKUPS: u8 = 1;

/// The capacity of its queues.
const CAPACITY: u32 = 100;

/// How the run of a script ended.
#[derive(Clone, Copy, Debug, PartialEq, Eq)]
pub enum Sampled {
    /// Behind its last line.
    Done(Summary),
    /// At that line, of which an event met a partition with too many messages in flight.
    Limit { line: u32 },
}

/// The grid of each script behind its first line. It has no processors.
fn begin(alloc: Global) -> Result<Grid, Memory>
    ensures { IfOk result (λ grid. StandsAfter (boxed form) grid []) }
{
    let processors: Vec<Box<dyn Processor>> = Vec::new(alloc);
    Grid::new(alloc, MEMBERS, BACKUPS, CAPACITY, processors)
}

/// Makes the script of a number, runs each of its lines as a replay of its text does, and tells the summary. What the lines
/// print is dropped. Costs what the replay of 2,013 lines costs; the text of one line at a time is kept.
pub fn replay_sample(alloc: Global, number: u32) -> Result<Sampled, Memory>
    ensures ends { IfOk result (EndsSo number) }
    ensures certain { IfOk result (IsCertain number) }
{
    replay_watched(alloc, number, &Unwatched)
}

/// Runs the script of a number as `replay_sample` does, and tells the watch of each line that has run, from line 2 on.
pub fn replay_watched<W: LineWatch>(
    alloc: Global,
    number: u32,
    watch: &W,
) -> Result<Sampled, Memory>
    ensures ends { IfOk result (EndsSo number) }
    ensures certain { IfOk result (IsCertain number) }
{
    let script = make(alloc, number)?;
    let mut grid = begin(alloc)?;
    match run_lines(alloc, behind_first(script.as_slice()), &mut grid, watch)? {
        None => Ok(Sampled::Done(Summary {
            lines: grid.lines(),
            counts: grid.counts(),
        })),
        Some(line) => Ok(Sampled::Limit { line }),
    }
}
