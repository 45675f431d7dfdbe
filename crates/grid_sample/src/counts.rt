//! The second part of a sample: the calls that are counted.
ghost use Rattle.std.specs.Prelude.{◌≡◌, ◌≤◌, ◌++◌, OnOk, IfOk, IfErr, IsErrOf};
ghost use Rattle.grid_base.specs.Limits.{FitsFrame};
ghost use Rattle.grid_edge.specs.Faults.{Rose};
ghost use Rattle.live_grid.specs.Plans.{settings_in};
ghost use Rattle.grid_sample.specs.Samples.{counted_text, HasCountedAs, StopsAtCounts, Writes};

use crate::watched::{Watch, Watched};
use counted_calls::{Counted, count_calls};
use entry_processors::Form;
use grid_base::{Bytes, Memory};
use grid_cli::Status;
use grid_edge::{Sink, write_all};
use itoa::Buffer;
use live_grid::{Environment, GridPass, LiveGrid, Shared};
use std::alloc::Global;
use std::sync::Wait;
use std::thread::Threads;

/// The capacity of the queues of the live grid, of which the counted calls use none.
pub const CAPACITY: u32 = 1000;

/// The key of the counted calls: the hash 5, the type of a byte array's content, and a byte.
pub const KEY: [u8; 9] = [0, 0, 0, 5, 0xff, 0xff, 0xff, 0xf5, b'k'];

/// Appends two lines: how many of the calls were answered, and the number that is then stored, 0 where none is.
pub fn write_counts(counts: &Counted, text: &mut Vec<u8>) -> Result<(), Memory>
    ensures { OnOk result (text.new.items ≡ text.old.items ++ counted_text counts.now) }
{
    text.extend_from_slice(b"counted ")?;
    text.extend_from_slice(Buffer::new().format(counts.answered).as_bytes())?;
    text.extend_from_slice(b"\ntotal ")?;
    text.extend_from_slice(Buffer::new().format(counts.total.unwrap_or(0)).as_bytes())?;
    text.extend_from_slice(b"\n")?;
    Ok(())
}

/// Has four sessions make their calls on a live grid, and prints what they came to. Hands back the grid, and its pass.
pub(crate) fn tell_counts<N, R, K, W>(
    rt: &R,
    alloc: Global,
    env: N,
    forms: &[Form],
    out: &mut K,
    watch: &W,
) -> Result<(LiveGrid, GridPass), Status>
where
    N: Environment,
    R: Threads + Wait + Sync,
    K: Sink,
    W: Watch,
    requires { N.settings env ≡ settings_in forms.now CAPACITY }
    ensures told { IfOk result (λ held. Writes (K.taken out.old) (K.taken out.new) (HasCountedAs forms.now held.0 held.1)) }
    ensures stops { IfErr result (λ status. Writes (K.taken out.old) (K.taken out.new) (StopsAtCounts forms.now status)) }
    ensures never_falls { K.faults out.old ≤ K.faults out.new }
    ensures cause { IsErrOf result Status.WriteFault → Rose (K.faults out.old) (K.faults out.new) }
{
    let Ok(key) = Bytes::copied_from(alloc, &KEY) else {
        return Err(Status::Memory);
    };
    let env = Shared {
        env: Watched { env, watch },
    };
    let Ok((grid, pass, counts)) = count_calls(rt, alloc, env, forms, CAPACITY, key) else {
        return Err(Status::Memory);
    };
    let mut text = Vec::new(alloc);
    let Ok(()) = write_counts(&counts, &mut text) else {
        return Err(Status::Memory);
    };
    let Ok(()) = write_all(out, text.as_slice()) else {
        return Err(Status::WriteFault);
    };
    Ok((grid, pass))
}
