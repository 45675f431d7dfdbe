//! The live grid.
ghost use Rattle.std.specs.Prelude.{◌≡◌, ◌≤◌, ◌*◌, IfOk, All, map, vec_len};
ghost use Rattle.hand_cell.specs.Calls.{plan_of, first_pass};
ghost use Rattle.partition_threads.specs.Workplaces.{AreTokensAt};
ghost use Rattle.live_grid.specs.Plans.{settings_in, settings_for};
ghost use Rattle.live_grid.specs.Control.{IsPassOfGrid, HasControl};
ghost use Rattle.live_grid.specs.Grids.{AreCells, IsGridPassOf, place_of};

use crate::opening::make_cells;
use crate::world::LiveWorld;
use call_engine::GridShelf;
use entry_processors::Form;
use grid_base::{Executes, Memory};
use hand_cell::Pass;
use job_queues::QueuePass;
use partition_threads::{THREADS, Workplace};
use std::alloc::Global;

/// How many jobs the queue of a worker holds: as many as a server has connections, each with one call under way at most.
const JOBS: usize = 1024;

/// A grid whose partitions are run by threads: a cell of each partition, and four workers of each member.
#[derive(Drop)]
pub struct LiveGrid {
    place: Workplace<LiveWorld>,
}

/// A pass of each cell, and a token of each worker's queue.
#[derive(Drop)]
pub struct GridPass {
    pub passes: Vec<Pass<LiveWorld>>,
    pub tokens: Vec<QueuePass<LiveWorld>>,
}

impl LiveGrid {
    /// A grid where nothing has happened, and its first pass. The environment, in which calls are to be run, has
    /// processors of these forms in their order, and queues of that capacity. Takes memory for each partition's world
    /// and for each worker's queue.
    pub fn new<N>(
        alloc: Global,
        members: u8,
        backups: u8,
        env: &N,
        forms: &[Form],
        capacity: u32,
    ) -> Result<(LiveGrid, GridPass), Memory>
    where
        GridShelf: Executes<N>,
        requires some { 1 ≤ members }
        requires most { members ≤ 8 }
        requires env { ⟦<GridShelf as Executes<N>>⟧.plan_of env.now ≡ settings_in forms.now capacity }
        ensures cells { IfOk result (λ made. AreCells members backups forms.now capacity (place_of made.0).cells.items) }
        ensures count { IfOk result (λ made. vec_len (place_of made.0).cells ≡ 271) }
        ensures passes { IfOk result (λ made. made.1.passes.items ≡ map (λ cell. first_pass cell) (place_of made.0).cells.items) }
        ensures of_grid { IfOk result (λ made. IsPassOfGrid made.0 made.1) }
        ensures control { IfOk result (λ made. HasControl made.1) }
        ensures means { IfOk result (λ made. All (λ cell. ⟦<GridShelf as Executes<N>>⟧.plan_of env.now ≡ settings_for (plan_of cell)) (place_of made.0).cells.items) }
        ensures workers { IfOk result (λ made. vec_len made.1.tokens ≡ 4 * members) }
        ensures tokens { IfOk result (λ made. AreTokensAt (place_of made.0) made.1.tokens.items) }
        ensures whole { IfOk result (λ made. IsGridPassOf made.0 made.1) }
    {
        let _ = env;
        let (cells, passes) = make_cells(alloc, members, backups, forms, capacity)?;
        let workers = THREADS * usize::from(members);
        let (place, tokens) = Workplace::new(alloc, cells, workers, JOBS)?;
        Ok((LiveGrid { place }, GridPass { passes, tokens }))
    }

    /// The cells and the workers' queues, to start calls and to run them.
    pub fn workplace(&self) -> &Workplace<LiveWorld>
        ensures { result.now ≡ place_of self.now }
    {
        &self.place
    }
}
