ghost use Rattle.std.specs.Prelude.{◌≡◌, ◌≢◌, IfOk, string_bytes};
ghost use Rattle.grid_edge.specs.Faults.{Rose};
ghost use Rattle.svg_picture.specs.Markup.{IsDocument};
ghost use Rattle.run_chart.specs.Pictures.{HasPicture, WritesPicture};

use crate::drawing::draw_chart;
use entry_processors::Processor;
use explain_run::{Script, ScriptEnd, Stop, Story, read_script};
use grid_base::Memory;
use grid_cli::Status;
use grid_edge::{Sink, Source, write_all};
use run_tale::LineTold;
use std::alloc::Global;

/// A script's run to its end.
#[derive(Drop)]
struct Run {
    lines: Vec<LineTold>,
    stop: Stop,
}

/// Runs a script to its end.
fn run_to_end(
    alloc: Global,
    script: Script,
    processors: Vec<Box<dyn Processor>>,
) -> Result<Run, Memory> {
    let mut lines = Vec::new(alloc);
    let mut story = Story::new(alloc, script, processors);
    'lines: for _ in 0..u64::MAX {
        match story.next(alloc) {
            Ok(line) => lines.push(line)?,
            Err(stop) => return Ok(Run { lines, stop }),
        }
    }
    let stop = Stop::Done;
    Ok(Run { lines, stop })
}

/// The picture of a run, which says what a transcript says where the run stops, if that says anything.
fn picture_of(alloc: Global, run: &Run, end: ScriptEnd) -> Result<String, Memory>
    ensures { IfOk result (λ picture. IsDocument (string_bytes picture)) }
{
    let mut text = Vec::new(alloc);
    run.stop.push(end, &mut text)?;
    let stopped = String::from_utf8_lossy(alloc, text.as_slice())?;
    draw_chart(alloc, run.lines.as_slice(), stopped.as_str().trim_end())
}

/// Writes the picture of a run that ended with this status.
fn write_picture<K: Sink>(
    alloc: Global,
    run: &Run,
    end: ScriptEnd,
    status: Status,
    out: &mut K,
) -> Status
    requires { HasPicture status }
    ensures picture { WritesPicture result (K.taken out.old) (K.taken out.new) }
    ensures reads { result ≢ Status.ReadFault }
    ensures write_fault { result ≡ Status.WriteFault → Rose (K.faults out.old) (K.faults out.new) }
{
    let Ok(picture) = picture_of(alloc, run, end) else {
        return Status::Memory;
    };
    match write_all(out, picture.as_bytes()) {
        Ok(()) => status,
        Err(_) => Status::WriteFault,
    }
}

/// Runs a script, whose entries these processors process, and writes a picture of the run as SVG once it has ended:
/// `draw_chart` says what it has. Costs what `explain` costs, memory for all that happened, and the picture.
///
/// The status is that of `explain`. Where a line is refused or a limit was passed, the picture has what ran before it, and
/// says so. Where reading failed or memory was wanting, nothing is written. `ReadFault` and `WriteFault` where the source or
/// the sink had one.
pub fn draw_command<S: Source, K: Sink>(
    alloc: Global,
    processors: Vec<Box<dyn Processor>>,
    script: &mut S,
    out: &mut K,
) -> Status
    // What is written is one well-formed element, whatever clients say.
    ensures picture { WritesPicture result (K.taken out.old) (K.taken out.new) }
    // A fault is told only where the source or the sink had one.
    ensures read_fault { result ≡ Status.ReadFault → Rose (S.faults script.old) (S.faults script.new) }
    ensures write_fault { result ≡ Status.WriteFault → Rose (K.faults out.old) (K.faults out.new) }
{
    let Ok(script) = read_script(alloc, script) else {
        return Status::Memory;
    };
    let end = script.end;
    let Ok(run) = run_to_end(alloc, script, processors) else {
        return Status::Memory;
    };
    match run.stop.status(end) {
        Status::ReadFault => Status::ReadFault,
        Status::Memory => Status::Memory,
        status => write_picture(alloc, &run, end, status, out),
    }
}
