//! A sample.
ghost use Rattle.std.specs.Prelude.{◌≡◌};
ghost use Rattle.live_grid.specs.Plans.{settings_in};
ghost use Rattle.grid_sample.specs.Samples.{HasSampled};

use crate::counts::{CAPACITY, tell_counts};
use crate::numbered::tell_script;
use crate::watched::Watch;
use entry_processors::Form;
use grid_cli::Status;
use grid_edge::Sink;
use live_grid::{Environment, GridPass, LiveGrid};
use std::alloc::Global;
use std::sync::Wait;
use std::thread::Threads;

/// Runs the script of a number and prints its summary, eight lines; then has four sessions make 1,000 calls on a live grid,
/// whose processors have these forms, and prints two lines of them. Where it is done it hands back the grid, and its pass.
/// Each part is printed as a whole once it is known. The watch is told how far both have come. Waits for the threads that it
/// starts.
pub fn run_sample<N, R, K, W>(
    rt: &R,
    alloc: Global,
    number: u32,
    env: N,
    forms: &[Form],
    out: &mut K,
    watch: &W,
) -> (Status, Option<(LiveGrid, GridPass)>)
where
    N: Environment,
    R: Threads + Wait + Sync,
    K: Sink,
    W: Watch,
    requires { N.settings env ≡ settings_in forms.now CAPACITY }
    ensures { HasSampled number forms.now result.0 result.1 (K.taken out.old) (K.taken out.new) (K.faults out.old) (K.faults out.new) }
{
    if let Err(status) = tell_script(alloc, number, out, watch) {
        return (status, None);
    }
    match tell_counts(rt, alloc, env, forms, out, watch) {
        Ok(held) => (Status::Done, Some(held)),
        Err(status) => (status, None),
    }
}
