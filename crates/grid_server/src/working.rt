//! How a grid's workers run.
ghost use Rattle.live_grid.specs.Grids.{place_of};
ghost use Rattle.grid_server.specs.Settings.{IsWorker};

use crate::setting::Worker;
use crate::stage::Stage;
use live_grid::Environment;
use partition_threads::{Gate, worker as work};
use std::sync::Wait;

/// Runs a worker until the grid is stopped.
pub(crate) fn run_worker<N: Environment, W, G: Gate, R: Wait>(
    rt: &R,
    stage: &Stage<N, W>,
    gate: &G,
    worker: Worker,
)
    requires { IsWorker (place_of stage.now.grid) worker }
{
    let Worker { number, tokens } = worker;
    let place = stage.grid.workplace();
    work(rt, stage.alloc, number, place, &stage.env, gate, tokens);
}
