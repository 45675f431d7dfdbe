//! What the threads of a count share.
ghost use Rattle.std.specs.Prelude.{◌≡◌, All};
ghost use Rattle.std.proofs.Props.{props};
ghost use Rattle.hand_cell.specs.Calls.{plan_of};
ghost use Rattle.live_grid.specs.Grids.{place_of};
ghost use Rattle.live_grid.specs.Plans.{settings_for};

use grid_base::Bytes;
use live_grid::{Environment, LiveGrid, Shared};
use std::alloc::Global;

/// What the threads of a count share: memory, the grid, the environment in which calls are run, which means what the grid's
/// cells were made for, and the key that the calls are on.
#[derive(Drop)]
pub(crate) struct Stage<N: Environment> {
    pub(crate) alloc: Global,
    pub(crate) grid: LiveGrid,
    pub(crate) env: Shared<N>,
    pub(crate) key: Bytes,
    ghost means: { All (λ cell. N.settings env.env ≡ settings_for (plan_of cell)) (place_of grid).cells.items } by { Prim.hlevel props },
}

impl<N: Environment> Stage<N> {
    /// The environment means what the cells were made for.
    pub(crate) fn new(alloc: Global, grid: LiveGrid, env: Shared<N>, key: Bytes) -> Self
        requires { All (λ cell. N.settings env.env ≡ settings_for (plan_of cell)) (place_of grid).cells.items }
        ensures grid { result.grid ≡ grid }
        ensures key { result.key ≡ key }
    {
        Stage {
            alloc,
            grid,
            env,
            key,
        }
    }

    /// The grid.
    pub(crate) fn into_grid(self) -> LiveGrid
        ensures { result ≡ self.grid }
    {
        let Stage { grid, .. } = self;
        grid
    }
}
