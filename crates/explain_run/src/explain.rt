ghost use Rattle.std.specs.Prelude.{◌≡◌, ◌≢◌, ◌≤◌, Err, IsErrOf};
ghost use Rattle.grid_edge.specs.Faults.{Rose};
ghost use Rattle.explain_run.specs.Stories.{GoesOn};

use crate::script::{ScriptEnd, read_script};
use crate::story::{Stop, Story};
use entry_processors::Processor;
use grid_base::Memory;
use grid_cli::Status;
use grid_edge::{Sink, Source, write_all};
use std::alloc::Global;

/// What is written of the next line, or of the run's end.
#[derive(Drop)]
enum Page {
    Line(String),
    Last(Vec<u8>, Stop),
}

/// Runs the next line, and gives what is written of it.
fn next_page(alloc: Global, end: ScriptEnd, story: &mut Story) -> Result<Page, Memory>
    requires { GoesOn form story.old }
    ensures { GoesOn form story.new }
{
    match story.next(alloc) {
        Ok(line) => Ok(Page::Line(line.words(alloc)?)),
        Err(stop) => {
            let mut text = Vec::new(alloc);
            stop.push(end, &mut text)?;
            Ok(Page::Last(text, stop))
        }
    }
}

/// Runs a line and writes what happened. An `Err` is the status with which the run stops there.
fn explain_next<K: Sink>(
    alloc: Global,
    end: ScriptEnd,
    story: &mut Story,
    out: &mut K,
) -> Result<(), Status>
    requires { GoesOn form story.old }
    ensures goes_on { GoesOn form story.new }
    ensures runs { result ≢ Err Status.Usage }
    ensures doorless { result ≢ Err Status.DoorFault }
    ensures reads { IsErrOf result Status.ReadFault → end ≡ ScriptEnd.Fault }
    ensures never_falls { K.faults out.old ≤ K.faults out.new }
    ensures cause { IsErrOf result Status.WriteFault → Rose (K.faults out.old) (K.faults out.new) }
{
    let Ok(page) = next_page(alloc, end, story) else {
        return Err(Status::Memory);
    };
    let (text, stop) = match page {
        Page::Line(words) => (words.into_bytes(), None),
        Page::Last(text, stop) => (text, Some(stop)),
    };
    let Ok(()) = write_all(out, text.as_slice()) else {
        return Err(Status::WriteFault);
    };
    match stop {
        Some(stop) => Err(stop.status(end)),
        None => Ok(()),
    }
}

/// Runs a script's lines, and writes what happened at each before the next one runs.
fn explain_all<K: Sink>(alloc: Global, end: ScriptEnd, story: &mut Story, out: &mut K) -> Status
    requires { GoesOn form story.old }
    ensures runs { result ≢ Status.Usage }
    ensures doorless { result ≢ Status.DoorFault }
    ensures reads { result ≡ Status.ReadFault → end ≡ ScriptEnd.Fault }
    ensures cause { result ≡ Status.WriteFault → Rose (K.faults out.old) (K.faults out.new) }
{
    'lines: for _ in 0..u64::MAX {
        if let Err(status) = explain_next(alloc, end, story, out) {
            return status;
        }
    }
    Status::Done
}

/// Runs a script, whose entries these processors process, and writes what happened in words: each line begins with the
/// number of the script's line. A client's messages are written as `say` lines of `docs/WORDS.md` where these give their
/// bytes again, as `heard` where they have another form, and else as their bytes. A refused line and a limit are told as
/// `replay` tells them, at the same line, and the status is that of `replay`, but for want of memory in a call's words,
/// which ends the run. The script is read whole before its first line runs. Costs what `replay` costs, and the words.
///
/// `ReadFault` and `WriteFault` where the source or the sink had one. After a `ReadFault` the lines are told that were
/// read whole, unless one of them is `end`: that ends the run as ever.
pub fn explain_command<S: Source, K: Sink>(
    alloc: Global,
    processors: Vec<Box<dyn Processor>>,
    script: &mut S,
    out: &mut K,
) -> Status
    ensures runs { result ≢ Status.Usage }
    ensures doorless { result ≢ Status.DoorFault }
    // A fault is told only where the source or the sink had one.
    ensures read_fault { result ≡ Status.ReadFault → Rose (S.faults script.old) (S.faults script.new) }
    ensures write_fault { result ≡ Status.WriteFault → Rose (K.faults out.old) (K.faults out.new) }
{
    let Ok(script) = read_script(alloc, script) else {
        return Status::Memory;
    };
    let end = script.end;
    let mut story = Story::new(alloc, script, processors);
    explain_all(alloc, end, &mut story, out)
}
