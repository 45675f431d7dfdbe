//! The threads of the count: one for each session, and the worker that runs their calls.
ghost use Rattle.std.specs.Prelude.{◌≡◌, ℕ, length, OnOk};
ghost use Rattle.grid_base.specs.Limits.{FitsFrame};
ghost use Rattle.live_grid.specs.Grids.{place_of};
ghost use Rattle.counted_calls.specs.Callers.{MayMake, HasMadeAll, MayAllMake, HaveAllMade, IsWorker};

use crate::calling::make_calls;
use crate::requests::{LEADER, SESSIONS, THREAD};
use crate::stage::Stage;
use grid_base::Memory;
use live_grid::{Environment, LiveWorld};
use partition_threads::{OpenGate, THREADS, WorkerTokens, worker};
use session_calls::SessionPass;
use std::alloc::AllocError;
use std::sync::Wait;
use std::thread::{self, Threads};
use thread_crew::join_told;

/// How many threads a count takes beside the one at hand, on which a session makes its calls: the other sessions', and the worker's.
pub(crate) const OTHERS: usize = SESSIONS as usize;

/// A session that makes calls, and how many of them were answered by their object.
#[derive(Drop)]
pub(crate) struct Caller {
    pub(crate) session: SessionPass<LiveWorld>,
    pub(crate) came: Result<u32, Memory>,
}

/// Makes the calls of one session.
fn call_one<N: Environment, R: Wait>(rt: &R, stage: &Stage<N>, caller: &mut Caller)
    requires key { FitsFrame stage.now.key }
    requires made { (conn : ℕ) × MayMake stage.now.grid stage.now.key conn caller.old }
    ensures { (conn : ℕ) → MayMake stage.now.grid stage.now.key conn caller.old → HasMadeAll stage.now.grid stage.now.key conn caller.new }
{
    caller.came = make_calls(
        rt,
        stage.alloc,
        &stage.grid,
        &mut caller.session,
        &stage.key,
    );
}

/// Has each session make its calls on a thread of its own.
fn call_each<N: Environment, R: Threads + Wait + Sync>(
    rt: &R,
    stage: &Stage<N>,
    callers: &mut Vec<Caller>,
)
    requires key { FitsFrame stage.now.key }
    requires callers { MayAllMake stage.now.grid stage.now.key callers.old.items }
    ensures made { HaveAllMade stage.now.grid stage.now.key callers.new.items }
    ensures many { length callers.new.items ≡ length callers.old.items }
{
    let call = |conn: usize, caller: &mut Caller|
        requires { FitsFrame stage.now.key × MayMake stage.now.grid stage.now.key conn caller.now }
        ensures { HasMadeAll stage.entry.now.grid stage.entry.now.key conn caller.exit.now }
    { call_one(rt, stage, caller) };
    thread::for_each_mut(rt, callers.as_mut_slice(), SESSIONS as usize, &call);
}

/// Has the sessions make their calls, if the worker runs beside them, and then the worker end.
fn call_all<N: Environment, R: Threads + Wait + Sync>(
    rt: &R,
    stage: &Stage<N>,
    callers: &mut Vec<Caller>,
    is_served: bool,
) -> Result<(), Memory>
    requires key { FitsFrame stage.now.key }
    requires callers { MayAllMake stage.now.grid stage.now.key callers.old.items }
    ensures made { OnOk result (HaveAllMade stage.now.grid stage.now.key callers.new.items) }
    ensures many { length callers.new.items ≡ length callers.old.items }
{
    let called = if is_served {
        call_each(rt, stage, callers);
        Ok(())
    } else {
        Err(AllocError)
    };
    stage.grid.workplace().stop();
    called
}

/// Runs the worker of the calls' partition at its leader until the grid is stopped, if its tokens are there.
fn run_worker<N: Environment, R: Wait>(
    rt: &R,
    stage: &Stage<N>,
    slot: &mut Option<WorkerTokens<LiveWorld>>,
)
    requires { IsWorker (place_of stage.now.grid) 9 slot.old }
{
    if let Some(tokens) = slot.take() {
        let number = THREADS * usize::from(LEADER) + usize::from(THREAD);
        let place = stage.grid.workplace();
        worker(
            rt,
            stage.alloc,
            number,
            place,
            &stage.env,
            &OpenGate,
            tokens,
        );
    }
}

/// Runs the worker beside the sessions. Where no thread can be made for it no call is made, and that is told as want of memory.
pub(crate) fn run_threads<N: Environment, R: Threads + Wait + Sync>(
    rt: &R,
    stage: &Stage<N>,
    slot: &mut Option<WorkerTokens<LiveWorld>>,
    callers: &mut Vec<Caller>,
) -> Result<(), Memory>
    requires key { FitsFrame stage.now.key }
    requires worker { IsWorker (place_of stage.now.grid) 9 slot.old }
    requires callers { MayAllMake stage.now.grid stage.now.key callers.old.items }
    ensures made { OnOk result (HaveAllMade stage.now.grid stage.now.key callers.new.items) }
    ensures many { length callers.new.items ≡ length callers.old.items }
{
    let mut working = ||
        requires { IsWorker (place_of stage.now.grid) 9 slot.now }
    { run_worker(rt, stage, slot) };
    let mut calling = |is_served: bool| -> Result<(), Memory>
        requires { FitsFrame stage.now.key × MayAllMake stage.now.grid stage.now.key callers.now.items }
    { call_all(rt, stage, callers, is_served) };
    let (_, (), called) = join_told(rt, &mut working, &mut calling);
    called
}
