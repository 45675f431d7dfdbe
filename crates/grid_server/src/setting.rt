//! What a server is made of.
ghost use Rattle.std.specs.Prelude.{◌≡◌, ◌≤◌, ◌*◌, ◌+◌, All, IfOk, length};
ghost use Rattle.hand_cell.specs.Calls.{plan_of};
ghost use Rattle.live_grid.specs.Grids.{IsGridPassOf, place_of};
ghost use Rattle.live_grid.specs.Plans.{settings_for, settings_in};
ghost use Rattle.grid_server.specs.Settings.{AreWorkers, IsSetting};

use entry_processors::Form;
use grid_base::Memory;
use hand_cell::Names;
use live_grid::{Environment, GridPass, LiveGrid, LiveWorld, Shared};
use live_server::Connections;
use partition_threads::WorkerTokens;
use serve_options::ServeOptions;
use std::alloc::{AllocError, Global};

/// How many workers a member has.
const THREADS: u8 = partition_threads::THREADS as u8;

/// What one worker of a grid needs: its number, and what it holds.
#[derive(Drop)]
pub(crate) struct Worker {
    pub(crate) number: usize,
    pub(crate) tokens: WorkerTokens<LiveWorld>,
}

/// A grid with all that its threads need: what each worker holds, the operator's pass, and the connections with theirs.
#[derive(Drop)]
pub(crate) struct Setting<F, K> {
    pub(crate) grid: LiveGrid,
    pub(crate) pass: GridPass,
    pub(crate) workers: Vec<Worker>,
    pub(crate) connections: Connections<LiveWorld, F, K>,
}

/// The grid's workers, in their order.
fn workers_of(
    alloc: Global,
    grid: &LiveGrid,
    pass: &mut GridPass,
    workers: u8,
) -> Result<Vec<Worker>, Memory>
    requires pass { IsGridPassOf grid.now pass.old }
    requires workers { length pass.old.tokens.items ≡ workers }
    ensures workers { IfOk result (λ made. AreWorkers (place_of grid.now) made.items) }
    ensures passes_stay { pass.new.passes.items ≡ pass.old.passes.items }
    ensures tokens_stay { pass.new.tokens.items ≡ pass.old.tokens.items }
{
    let mut made = Vec::with_capacity(alloc, usize::from(workers))?;
    for number in 0..workers {
        let (member, thread) = (number / THREADS, number % THREADS);
        let tokens = grid.tokens(alloc, pass, member, thread)?;
        made.push(Worker {
            number: usize::from(number),
            tokens,
        })?;
    }
    Ok(made)
}

impl<F, K> Setting<F, K> {
    /// A grid of these options, in which nothing has happened, and calls are run in this environment. Takes memory for all
    /// that a server keeps but its data.
    pub(crate) fn new<N: Environment>(
        alloc: Global,
        options: ServeOptions,
        env: &Shared<N>,
        forms: &[Form],
    ) -> Result<Setting<F, K>, Memory>
        requires some { 1 ≤ options.members }
        requires most { options.members ≤ 8 }
        requires env { N.settings env.now.env ≡ settings_in forms.now options.capacity }
        ensures setting { IfOk result (λ setting. IsSetting options forms.now setting) }
        ensures means { IfOk result (λ setting. All (λ cell. N.settings env.now.env ≡ settings_for (plan_of cell)) (place_of setting.grid).cells.items) }
    {
        let ServeOptions {
            members,
            backups,
            capacity,
            ..
        } = options;
        let (grid, mut pass) = LiveGrid::new(alloc, members, backups, env, forms, capacity)?;
        let workers = workers_of(alloc, &grid, &mut pass, THREADS * members)?;
        let GridPass { passes, tokens } = grid.split(alloc, &mut pass, Names::Every)?;
        let connections = match Connections::new(alloc, passes, tokens) {
            Ok(connections) => connections,
            Err(_) => return Err(AllocError),
        };
        Ok(Setting {
            grid,
            pass,
            workers,
            connections,
        })
    }
}
