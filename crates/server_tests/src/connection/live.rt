//! A live grid of three members, and a session of a connection to member 2, which leads partition 5.
ghost use Rattle.std.specs.Prelude.{◌≡◌, [], ◌<◌, All, map, Some, IfOk, length, vec_len};
ghost use Rattle.call_engine.specs.Limits.{RequestFits};
ghost use Rattle.hand_cell.specs.Calls.{first_pass, plan_of};
ghost use Rattle.live_grid.specs.Grids.{place_of};
ghost use Rattle.live_grid.specs.Histories.{live_key};
ghost use Rattle.live_grid.specs.Plans.{settings_in, settings_for};
ghost use Rattle.live_session.specs.Connections.{IsFresh, ServesCalls};
ghost use Rattle.partition_threads.specs.Workplaces.{IsTokenAt, AreTokensAt};
ghost use Rattle.server_tests.specs.Sessions.{AreTokensOfMember, none_seen};

use call_engine::{GridEnv, GridShelf};
use entry_processors::Registry;
use grid_base::{Executes, MemberId, Memory};
use hand_cell::Pass;
use job_queues::QueuePass;
use live_grid::{GridPass, LiveGrid, LiveWorld};
use partition_threads::WorkerTokens;
use session_calls::SessionPass;
use std::alloc::Global;

/// The member of the session.
const MEMBER: MemberId = 2;

/// The worker that runs the member's calls in partition 5.
pub(crate) const WORKER: usize = 9;

/// What calls are run in: they may name no processor, and a queue holds ten values.
pub(crate) fn environment(alloc: Global) -> GridEnv
    ensures { ⟦<GridShelf as Executes<GridEnv>>⟧.plan_of result ≡ settings_in [] 10 }
{
    GridEnv {
        registry: Registry::new(Vec::new(alloc)),
        capacity: 10,
    }
}

/// A grid, a session of connection 0, and what the worker needs.
pub(crate) struct Live {
    pub(crate) grid: LiveGrid,
    pub(crate) session: SessionPass<LiveWorld>,
    pub(crate) tokens: WorkerTokens<LiveWorld>,
}

impl Live {
    pub(crate) fn open(alloc: Global) -> Result<Live, Memory>
        ensures fresh { IfOk result (λ live. IsFresh live_key (place_of live.grid) live.session none_seen) }
        ensures serves { IfOk result (λ live. ServesCalls RequestFits (place_of live.grid)) }
        ensures token { IfOk result (λ live. IsTokenAt (place_of live.grid) 9 live.tokens.queue) }
        ensures none_held { IfOk result (λ live. live.tokens.held.items ≡ []) }
        ensures plans { IfOk result (λ live. All (λ cell. settings_for (plan_of cell) ≡ settings_in [] 10) (place_of live.grid).cells.items) }
    {
        let env = environment(alloc);
        let (grid, pass) = LiveGrid::new(alloc, 3, 1, &env, &[], 10)?;
        let GridPass { passes, mut tokens } = pass;
        let queue = token_at(&grid, WORKER, &mut tokens);
        let session = session_with(alloc, &grid, passes, &mut tokens)?;
        let tokens = WorkerTokens::new(alloc, queue, 4)?;
        Ok(Live {
            grid,
            session,
            tokens,
        })
    }
}

/// A session with all passes of a new grid.
fn session_with(
    alloc: Global,
    grid: &LiveGrid,
    passes: Vec<Pass<LiveWorld>>,
    tokens: &mut Vec<QueuePass<LiveWorld>>,
) -> Result<SessionPass<LiveWorld>, Memory>
    requires passes { passes.items ≡ map (λ cell. first_pass cell) (place_of grid.now).cells.items }
    requires many { vec_len tokens.old ≡ 12 }
    requires tokens { AreTokensAt (place_of grid.now) tokens.old.items }
    ensures { IfOk result (λ session. IsFresh live_key (place_of grid.now) session none_seen) }
{
    Ok(SessionPass {
        conn: 0,
        member: MEMBER,
        passes: places_of(alloc, passes)?,
        tokens: member_tokens(alloc, grid, tokens)?,
    })
}

/// The passes, each in its place.
fn places_of(
    alloc: Global,
    passes: Vec<Pass<LiveWorld>>,
) -> Result<Vec<Option<Pass<LiveWorld>>>, Memory>
    ensures { IfOk result (λ places. places.items ≡ map (λ pass. Some pass) passes.items) }
{
    passes.into_iter().map(|pass| Some(pass)).collect(alloc)
}

/// A token of each of the member's workers.
fn member_tokens(
    alloc: Global,
    grid: &LiveGrid,
    tokens: &mut Vec<QueuePass<LiveWorld>>,
) -> Result<Vec<QueuePass<LiveWorld>>, Memory>
    requires many { vec_len tokens.old ≡ 12 }
    requires tokens { AreTokensAt (place_of grid.now) tokens.old.items }
    ensures { IfOk result (λ four. AreTokensOfMember (place_of grid.now) 2 four.items) }
{
    let first = token_at(grid, 8, tokens);
    let second = token_at(grid, 9, tokens);
    let third = token_at(grid, 10, tokens);
    let fourth = token_at(grid, 11, tokens);
    Ok(vec![in alloc; first, second, third, fourth]?)
}

/// A token of a worker's queue.
fn token_at(
    grid: &LiveGrid,
    worker: usize,
    tokens: &mut Vec<QueuePass<LiveWorld>>,
) -> QueuePass<LiveWorld>
    requires there { worker < vec_len tokens.old }
    requires tokens { AreTokensAt (place_of grid.now) tokens.old.items }
    ensures token { IsTokenAt (place_of grid.now) worker result }
    ensures kept { tokens.new.items ≡ tokens.old.items }
{
    grid.workplace().split_token(worker, &mut tokens[worker])
}
