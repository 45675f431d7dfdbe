//! The first part of a sample: the run of the script that is made from a number.
ghost use Rattle.std.specs.Prelude.{◌≡◌, ◌≤◌, ◌++◌, OnOk, IfErr, IsErrOf};
ghost use Rattle.grid_edge.specs.Faults.{Rose};
ghost use Rattle.grid_sample.specs.Samples.{sampled_text, IsSummaryText, StopsAtScript, Writes};

use grid_base::Memory;
use grid_cli::{LimitWhat, Status, push_limit};
use grid_edge::{Sink, write_all};
use sample_run::{LineWatch, Sampled, replay_watched, write_summary};
use std::alloc::Global;

/// Appends what is printed of a script's run: its summary, or the line at which it was given up.
fn write_sampled(sampled: &Sampled, text: &mut Vec<u8>) -> Result<(), Memory>
    ensures { OnOk result (text.new.items ≡ text.old.items ++ sampled_text sampled.now) }
{
    match sampled {
        Sampled::Done(summary) => write_summary(summary, text),
        Sampled::Limit { line } => push_limit(text, *line, LimitWhat::InFlight),
    }
}

/// Runs the script of a number, and prints what became of it. Where a line met a partition with too many messages in flight,
/// that is printed, and ends the sample.
pub(crate) fn tell_script<K: Sink, W: LineWatch>(
    alloc: Global,
    number: u32,
    out: &mut K,
    watch: &W,
) -> Result<(), Status>
    ensures told { OnOk result (Writes (K.taken out.old) (K.taken out.new) (IsSummaryText number)) }
    ensures stops { IfErr result (λ status. Writes (K.taken out.old) (K.taken out.new) (StopsAtScript number status)) }
    ensures never_falls { K.faults out.old ≤ K.faults out.new }
    ensures cause { IsErrOf result Status.WriteFault → Rose (K.faults out.old) (K.faults out.new) }
{
    let Ok(sampled) = replay_watched(alloc, number, watch) else {
        return Err(Status::Memory);
    };
    let mut text = Vec::new(alloc);
    let Ok(()) = write_sampled(&sampled, &mut text) else {
        return Err(Status::Memory);
    };
    let Ok(()) = write_all(out, text.as_slice()) else {
        return Err(Status::WriteFault);
    };
    match sampled {
        Sampled::Done(_) => Ok(()),
        Sampled::Limit { .. } => Err(Status::Limit {
            what: LimitWhat::InFlight,
        }),
    }
}
