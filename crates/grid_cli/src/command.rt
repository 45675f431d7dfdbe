ghost use Rattle.std.specs.Prelude.{◌≡◌, ◌≢◌, ◌↔◌, ℕ, List, map, Some, false, true};
ghost use Rattle.grid_edge.specs.Faults.{Rose};
ghost use Rattle.grid_cli.specs.Statuses.{ReadsAndWrites};
ghost use Rattle.grid_cli.specs.Commands.{is_replay, PrintsHistories};
ghost use Rattle.grid_cli.specs.NearHits.{PrintsHits};
ghost use Rattle.grid_cli.specs.Decisions.{PrintsDecisions};
ghost use Rattle.grid_cli.specs.Waits.{PrintsWaits};

use crate::replay::run_script;
use crate::status::Status;
use entry_processors::Processor;
use grid_edge::{Sink, Source};
use std::alloc::Global;

fn is_replay_command(words: &[String]) -> bool
    ensures { result ≡ is_replay words.now }
{
    match words {
        [word] => word.as_bytes() == b"replay".as_slice(),
        _ => false,
    }
}

/// Carries out the command that the words after the program's name give: `replay` reads a script from `script` and
/// writes its transcript to `out`, as `docs/SCRIPTS.md` has them. Calls on maps may name the processors by their
/// numbers, which go from 1. Costs the script's length, and for each line what its call and its printed entries cost.
pub fn replay_command<S: Source, K: Sink>(
    alloc: Global,
    words: &[String],
    processors: Vec<Box<dyn Processor>>,
    script: &mut S,
    out: &mut K,
) -> Status
    // Where the words are no command, the source and the sink are left as they were.
    ensures usage { (result ≡ Status.Usage) ↔ (is_replay words.now ≡ false) }
    ensures unread { result ≡ Status.Usage → script.new ≡ script.old }
    ensures unwritten { result ≡ Status.Usage → out.new ≡ out.old }
    ensures doorless { result ≢ Status.DoorFault }
    // A fault is told only where the source or the sink had one.
    ensures read_fault { result ≡ Status.ReadFault → Rose (S.faults script.old) (S.faults script.new) }
    ensures write_fault { result ≡ Status.WriteFault → Rose (K.faults out.old) (K.faults out.new) }
    // What was written is a transcript, or as much of it as the status says: that of each script that begins with what was
    // read, or of that alone where the source has ended. No piece more was read than the one in which the run came to its end.
    ensures text { ReadsAndWrites (map form processors.items) result (S.given script.old) (S.given script.new) (K.taken out.old) (K.taken out.new) }
    // What is printed for each entry of a map and each queue is the history of one that one thread used, with every answered
    // call in it once.
    // Whatever the status, and whichever line prints it.
    ensures headline { PrintsHistories (map form processors.items) result (S.given script.old) (S.given script.new) (K.taken out.old) (K.taken out.new) }
    // A value that a near client hits is the reply of a get of its own in the key's history, after each write that an
    // invalidation named which it has heard; where it has read all that was sent to it of the key, after each answered write
    // of a version that its member knows.
    ensures hits { PrintsHits (map form processors.items) result (S.given script.old) (S.given script.new) (K.taken out.old) (K.taken out.new) }
    // Where the script's second line has masters run the table service: what the service of each partition did is what its
    // masters published, in order, and that alone gives the partition's row, whoever was master. What is published stays, no
    // version of a row is made twice, and no two live members are master of a partition.
    ensures decisions { PrintsDecisions (map form processors.items) result (S.given script.old) (S.given script.new) (K.taken out.old) (K.taken out.new) }
    // After each line calls wait by the rule: each partition has come to what it is by lines of its machine that bring the
    // waiting calls of the script there and no other, and goes on by more of them; nothing is to be done with whoever still
    // waits; and it has changed nothing: without it the same would have happened to all others.
    ensures waits { PrintsWaits (map form processors.items) result (S.given script.old) (S.given script.new) (K.taken out.old) (K.taken out.new) }
{
    if !is_replay_command(words) {
        return Status::Usage;
    }
    run_script(alloc, processors, script, out)
}
