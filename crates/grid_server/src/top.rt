//! The program's top call.
ghost use Rattle.std.specs.Prelude.{◌≡◌, ℕ, map, false, true, None, Some};
ghost use Rattle.entry_processors.specs.Forms.{form_of};
ghost use Rattle.grid_cli.specs.Commands.{PrintsHistories};
ghost use Rattle.grid_cli.specs.NearHits.{PrintsHits};
ghost use Rattle.grid_cli.specs.Decisions.{PrintsDecisions};
ghost use Rattle.grid_cli.specs.Waits.{PrintsWaits};
ghost use Rattle.grid_server.specs.Commands.{is_serve, sample_of, HasReplayedBy, HasSampledBy, HasEnded, ServesHistories, ServesInOrder};
ghost use Rattle.grid_server.specs.Serving.{operator, at_doors};

use crate::ended::Ended;
use crate::sampling::{sample_command, sample_number};
use crate::serve::serve_command;
use entry_processors::{Form, Processor};
use grid_cli::replay_command;
use grid_edge::{Clock, Doors, Sink, Source};
use grid_sample::Watch;
use std::alloc::Global;
use std::sync::Wait;
use std::thread::Threads;

/// Whether the words are those of a server: `serve`, and options.
fn is_serve_command(words: &[String]) -> bool
    ensures { result ≡ is_serve words.now }
{
    match words {
        [word, ..] => word.as_bytes() == b"serve".as_slice(),
        [] => false,
    }
}

/// Carries out the command that the words after the program's name give. `replay` reads a script from `script` and writes its
/// transcript to `out`, as `docs/SCRIPTS.md` has them. `serve` and its options serve clients that come through the doors, and
/// read a control script meanwhile, as `docs/SERVER.md` has it. `sample` and a number print what became of the number's script
/// and of counted calls, as `docs/SAMPLE.md` has it, and tell the watch how far they are. Calls on maps may name the processors
/// by their numbers, which go from 1; `forms` are their forms.
pub fn grid_top<R, S, K, C, D, W>(
    rt: &R,
    alloc: Global,
    words: &[String],
    processors: Vec<Box<dyn Processor>>,
    forms: &[Form],
    script: &mut S,
    out: &mut K,
    clock: &mut C,
    doors: &mut D,
    watch: &W,
) -> Ended<D>
where
    R: Threads + Wait + Sync,
    S: Source,
    K: Sink,
    C: Clock + Send,
    D: Doors<From: Drop, To: Drop, Waker: Drop>,
    W: Watch,
    requires forms { map form processors.items ≡ map form_of forms.now }
    ensures replayed { is_serve words.now ≡ false → sample_of words.now ≡ None → HasReplayedBy words.now (map form processors.items) result.status
        (operator (S.given script.old) (S.faults script.old) (K.taken out.old) (K.faults out.old))
        (operator (S.given script.new) (S.faults script.new) (K.taken out.new) (K.faults out.new)) }
    // What is printed for each entry of a map and each queue is the history of one that one thread used, with every answered
    // call in it once.
    // Whatever the status, and whichever line prints it.
    ensures headline { is_serve words.now ≡ false → sample_of words.now ≡ None
        → PrintsHistories (map form processors.items) result.status (S.given script.old) (S.given script.new) (K.taken out.old) (K.taken out.new) }
    // A value that a near client hits is the reply of a get of its own in the key's history, after each write that an
    // invalidation named which it has heard; where it has read all that was sent to it of the key, after each answered write
    // of a version that its member knows.
    ensures hits { is_serve words.now ≡ false → sample_of words.now ≡ None
        → PrintsHits (map form processors.items) result.status (S.given script.old) (S.given script.new) (K.taken out.old) (K.taken out.new) }
    // Where the script's second line has masters run the table service: what the service of each partition did is what its
    // masters published, in order, and that alone gives the partition's row, whoever was master. What is published stays, no
    // version of a row is made twice, and no two live members are master of a partition.
    ensures decisions { is_serve words.now ≡ false → sample_of words.now ≡ None
        → PrintsDecisions (map form processors.items) result.status (S.given script.old) (S.given script.new) (K.taken out.old) (K.taken out.new) }
    // After each line calls wait by the rule: each partition has come to what it is by lines of its machine that bring the
    // waiting calls of the script there and no other, and goes on by more of them; nothing is to be done with whoever still
    // waits; and it has changed nothing: without it the same would have happened to all others.
    ensures waits { is_serve words.now ≡ false → sample_of words.now ≡ None
        → PrintsWaits (map form processors.items) result.status (S.given script.old) (S.given script.new) (K.taken out.old) (K.taken out.new) }
    // The control script was run on the grid that is handed back, in the histories that its pass has seen; and each client that
    // came was answered by these. Where no grid was made, the words, the doors or memory are the cause. The closing that is handed
    // back was seen since: all were let in who had come by then.
    ensures served { is_serve words.now ≡ true → HasEnded D.empty_looks words.now forms.now (C.given clock.new)
        (operator (S.given script.old) (S.faults script.old) (K.taken out.old) (K.faults out.old))
        (operator (S.given script.new) (S.faults script.new) (K.taken out.new) (K.faults out.new))
        (at_doors (D.book doors.old) (D.empty_looks doors.old) (D.faults doors.old))
        (at_doors (D.book doors.new) (D.empty_looks doors.new) (D.faults doors.new)) result }
    // What the pass that is handed back has seen of each object is the history of one that one thread used, with every answered
    // call in it once, and the reply that its client was sent for it. Each call in it is one message's of a client that came.
    ensures histories { is_serve words.now ≡ true → ServesHistories (C.given clock.new) result.journal (D.book doors.new) result.grid }
    // Of two calls of one partition, of any clients: where some byte of the answer to the one was written before the last byte
    // of the other was read, its event stands first in what the pass that is handed back has seen. The journal that is handed back
    // has all that was read from clients and written to them, in the order in which it was.
    ensures in_order { is_serve words.now ≡ true → ServesInOrder (C.given clock.new) result.journal (D.book doors.new) result.grid }
    // The summary of the number's script was printed, and behind it what was counted on the grid that is handed back; or as much
    // of it as the status says. No script was read, and no door was opened.
    ensures sampled { (number : ℕ) → sample_of words.now ≡ Some number → HasSampledBy number forms.now
        (operator (S.given script.old) (S.faults script.old) (K.taken out.old) (K.faults out.old))
        (operator (S.given script.new) (S.faults script.new) (K.taken out.new) (K.faults out.new))
        (at_doors (D.book doors.old) (D.empty_looks doors.old) (D.faults doors.old))
        (at_doors (D.book doors.new) (D.empty_looks doors.new) (D.faults doors.new)) result }
{
    if let Some(number) = sample_number(words) {
        return sample_command(rt, alloc, number, processors, forms, out, watch);
    }
    if is_serve_command(words) {
        return serve_command(
            rt, alloc, words, processors, forms, script, out, clock, doors,
        );
    }
    Ended::without_grid(replay_command(alloc, words, processors, script, out))
}
