//! The command `sample`.
ghost use Rattle.std.specs.Prelude.{◌≡◌, map};
ghost use Rattle.entry_processors.specs.Forms.{form_of};
ghost use Rattle.grid_sample.specs.Samples.{HasSampled};
ghost use Rattle.script_lang.specs.Words.{number_within};
ghost use Rattle.grid_server.specs.Commands.{sample_of};

use crate::ended::Ended;
use call_engine::GridEnv;
use entry_processors::{Form, Processor, Registry};
use grid_edge::Sink;
use grid_sample::{CAPACITY, Watch, run_sample};
use loop_journal::Journal;
use script_lang::number_within as read_within;
use std::alloc::Global;
use std::sync::Wait;
use std::thread::Threads;

/// The largest number of a sample.
const MOST: u64 = 4_294_967_295;

/// The number that a word spells in decimal digits without a leading zero, where it is a sample's.
fn number_of(word: &[u8]) -> Option<u32>
    ensures { result ≡ number_within 0 4294967295 word.now }
{
    let number = read_within(word, 0, MOST)?;
    Some(number as u32)
}

/// The number of the sample that the words ask for: `sample`, and the number.
pub(crate) fn sample_number(words: &[String]) -> Option<u32>
    ensures { result ≡ sample_of words.now }
{
    match words {
        [command, word] => {
            if command.as_bytes() == b"sample".as_slice() {
                number_of(word.as_bytes())
            } else {
                None
            }
        }
        _ => None,
    }
}

/// Prints what became of the script that is made from the number, and then what four sessions' calls come to on a live grid
/// with these processors. Where it is done it hands the grid back.
pub fn sample_command<R, K, W, D>(
    rt: &R,
    alloc: Global,
    number: u32,
    processors: Vec<Box<dyn Processor>>,
    forms: &[Form],
    out: &mut K,
    watch: &W,
) -> Ended<D>
where
    R: Threads + Wait + Sync,
    K: Sink,
    W: Watch,
    requires forms { map form processors.items ≡ map form_of forms.now }
    ensures { HasSampled number forms.now result.status result.grid (K.taken out.old) (K.taken out.new) (K.faults out.old) (K.faults out.new) }
{
    let env = GridEnv {
        registry: Registry::new(processors),
        capacity: CAPACITY,
    };
    let (status, grid) = run_sample(rt, alloc, number, env, forms, out, watch);
    Ended {
        status,
        grid,
        journal: Journal::new(),
        closed: None,
    }
}
