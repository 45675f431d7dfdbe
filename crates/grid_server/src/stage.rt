//! What the threads of a server share.
ghost use Rattle.std.specs.Prelude.{◌≡◌, All};
ghost use Rattle.std.proofs.Props.{props};
ghost use Rattle.hand_cell.specs.Calls.{plan_of};
ghost use Rattle.live_grid.specs.Grids.{place_of};
ghost use Rattle.live_grid.specs.Plans.{settings_for};

use live_grid::{Environment, LiveGrid, Shared};
use live_server::Closing;
use serve_options::ServeOptions;
use std::alloc::Global;

/// What the threads of a server share: memory, how it is set up, its grid, the environment in which calls are run, which means what
/// the grid's cells were made for, and what ends it.
#[derive(Drop)]
pub(crate) struct Stage<N: Environment, W> {
    pub(crate) alloc: Global,
    pub(crate) options: ServeOptions,
    pub(crate) grid: LiveGrid,
    pub(crate) env: Shared<N>,
    pub(crate) closing: Closing,
    pub(crate) waker: W,
    ghost means: { All (λ cell. N.settings env.env ≡ settings_for (plan_of cell)) (place_of grid).cells.items } by { Prim.hlevel props },
}

impl<N: Environment, W> Stage<N, W> {
    /// The environment means what the cells were made for.
    pub(crate) fn new(
        alloc: Global,
        options: ServeOptions,
        grid: LiveGrid,
        env: Shared<N>,
        waker: W,
    ) -> Self
        requires { All (λ cell. N.settings env.env ≡ settings_for (plan_of cell)) (place_of grid).cells.items }
        ensures grid { result.grid ≡ grid }
        ensures options { result.options ≡ options }
    {
        Stage {
            alloc,
            options,
            grid,
            env,
            closing: Closing::new(),
            waker,
        }
    }

    /// The grid.
    pub(crate) fn into_grid(self) -> LiveGrid
    where
        W: Drop,
        ensures { result ≡ self.grid }
    {
        let Stage { grid, .. } = self;
        grid
    }
}
