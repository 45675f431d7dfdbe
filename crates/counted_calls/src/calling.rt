//! The calls of one session.
ghost use Rattle.std.specs.Prelude.{◌≡◌, ◌≢◌, ℕ, ◌+◌, ◌≤◌, IfOk};
ghost use Rattle.grid_base.specs.declared.calls.Request.{Request as RequestOf};
ghost use Rattle.grid_base.specs.Limits.{FitsFrame};
ghost use Rattle.hand_cell.specs.declared.outcome.LiveOutcome.TheVariants.{Memory as NoMemory};
ghost use Rattle.job_queues.specs.Terms.{Terms};
ghost use Rattle.partition_world.specs.declared.event.Event.{Event};
ghost use Rattle.session_calls.specs.Calls.{IsReady, MayFinish};
ghost use Rattle.session_calls.specs.Sessions.{IsSessionOf};
ghost use Rattle.live_grid.specs.declared.plan.GridPlan.{GridPlan};
ghost use Rattle.live_grid.specs.Histories.{live_key};
ghost use Rattle.live_grid.specs.Outcomes.{LiveTells};
ghost use Rattle.counted_calls.specs.Callers.{IsFree, WasStarted};
ghost use Rattle.counted_calls.specs.Sessions.{HasMade, counting};

use crate::requests::{CALLS, request};
use grid_base::{Bytes, Memory};
use hand_cell::LiveOutcome;
use live_grid::{LiveGrid, LiveWorld};
use partition_threads::{Obstacle, Workplace};
use session_calls::{Finished, SessionPass, Started};
use std::alloc::{AllocError, Global};
use std::sync::Wait;
use std::thread;

/// Starts a call. One that finds its worker's queue full has made no event, and is made again.
fn start_call<R: Wait>(
    rt: &R,
    alloc: Global,
    place: &Workplace<LiveWorld>,
    session: &mut SessionPass<LiveWorld>,
    key: &Bytes,
    number: u32,
) -> Result<Started<LiveWorld>, Memory>
    requires key { FitsFrame key.now }
    requires session { IsSessionOf place.now session.old }
    requires free { IsFree number session.old }
    ensures started { IfOk result (λ started. WasStarted place.now key.now number session.old session.new started) }
    ensures kept { IsSessionOf place.now session.new }
{
    for _ in rt.forever() {
        let request = request(alloc, key, session.conn, number)?;
        match session.start(rt, alloc, place, request, 0) {
            Ok(started) => return Ok(started),
            Err(Obstacle::Busy) => thread::yield_now(),
            Err(Obstacle::Memory) => return Err(AllocError),
        }
    }
    unreachable!()
}

/// Waits for the outcome of a call.
fn finish_call<R: Wait>(
    rt: &R,
    place: &Workplace<LiveWorld>,
    session: &mut SessionPass<LiveWorld>,
    started: Started<LiveWorld>,
) -> LiveOutcome
    requires session { IsSessionOf place.now session.old }
    requires may { (terms : Terms GridPlan (Event RequestOf)) × MayFinish live_key place.now terms session.old started }
    ensures ready { (terms : Terms GridPlan (Event RequestOf)) → MayFinish live_key place.now terms session.old started
        → IsReady live_key LiveTells terms started session.old session.new result }
    ensures kept { IsSessionOf place.now session.new }
{
    let mut going = started;
    for _ in rt.forever() {
        match session.finish(rt, place, going) {
            Finished::Ready(outcome) => return outcome,
            Finished::NotYet(again) => going = again,
        }
        thread::yield_now();
    }
    unreachable!()
}

/// How much an outcome counts: 1 where the call was answered by its object. Want of memory is an error.
fn counted(outcome: &LiveOutcome) -> Result<u32, Memory>
    ensures count { IfOk result (λ count. count ≡ counting outcome.now) }
    ensures memory { IfOk result (λ count. outcome.now ≢ NoMemory) }
    ensures most { IfOk result (λ count. count ≤ 1) }
{
    match outcome {
        LiveOutcome::Replied(_) => Ok(1),
        LiveOutcome::Memory => Err(AllocError),
        _ => Ok(0),
    }
}

/// Makes a call of a session, and waits for its outcome. Tells how much it counts. Finds no memory where this thread or
/// the worker finds none.
fn make_call<R: Wait>(
    rt: &R,
    alloc: Global,
    grid: &LiveGrid,
    session: &mut SessionPass<LiveWorld>,
    key: &Bytes,
    number: u32,
) -> Result<u32, Memory>
    requires key { FitsFrame key.now }
    requires made { (conn : ℕ) × (answered : ℕ) × HasMade grid.now key.now conn number answered session.old }
    ensures made { (conn answered : ℕ) → HasMade grid.now key.now conn number answered session.old
        → IfOk result (λ count. HasMade grid.now key.now conn (number + 1) (answered + count) session.new) }
    ensures most { IfOk result (λ count. count ≤ 1) }
{
    let place = grid.workplace();
    let started = start_call(rt, alloc, place, session, key, number)?;
    let outcome = finish_call(rt, place, session, started);
    counted(&outcome)
}

/// Makes the calls of a session, one after another. Tells how many were answered by their object. It ends with the first
/// that finds no memory, be it here or at the worker.
pub(crate) fn make_calls<R: Wait>(
    rt: &R,
    alloc: Global,
    grid: &LiveGrid,
    session: &mut SessionPass<LiveWorld>,
    key: &Bytes,
) -> Result<u32, Memory>
    requires key { FitsFrame key.now }
    requires made { (conn : ℕ) × HasMade grid.now key.now conn 0 0 session.old }
    ensures { (conn : ℕ) → HasMade grid.now key.now conn 0 0 session.old
        → IfOk result (λ answered. HasMade grid.now key.now conn CALLS answered session.new) }
{
    let mut answered = 0;
    for number in 0..CALLS {
        let count = make_call(rt, alloc, grid, session, key, number)?;
        answered += count;
    }
    Ok(answered)
}
