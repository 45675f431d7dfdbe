//! A worker.
ghost use Rattle.std.specs.Prelude.{◌≡◌, ◌<◌, [], None, All, IfOk, IfSome};
ghost use Rattle.hand_cell.specs.Calls.{plan_of};
ghost use Rattle.job_queues.specs.Roster.{roster_of};
ghost use Rattle.job_queues.specs.Jobs.{IsJobFor};
ghost use Rattle.partition_threads.specs.Calls.{IsHeld, AreHeld};
ghost use Rattle.partition_threads.specs.Workplaces.{IsTokenAt};
ghost use Rattle.partition_threads.specs.Workers.{HasLooked};

use crate::calls::{HeldCall, answer};
use crate::gate::Gate;
use crate::turns::{Step, call_turn, delivery_turn};
use crate::workplace::Workplace;
use grid_base::Memory;
use hand_cell::{Runs, Served};
use job_queues::{Job, QueuePass, Work};
use std::alloc::Global;
use std::sync::Wait;
use std::thread;

/// What a worker holds: the token of its queue, and the calls that it holds, with room for as many as it may.
#[derive(Drop)]
pub struct WorkerTokens<T: Served> {
    pub queue: QueuePass<T>,
    pub held: Vec<HeldCall<T>>,
}

impl<T: Served> WorkerTokens<T> {
    /// The tokens of a worker that holds no call yet, with room for so many. While it holds as many it takes no job.
    pub fn new(alloc: Global, queue: QueuePass<T>, calls: usize) -> Result<WorkerTokens<T>, Memory>
        ensures queue { IfOk result (λ tokens. tokens.queue ≡ queue) }
        ensures held { IfOk result (λ tokens. tokens.held.items ≡ []) }
    {
        Ok(WorkerTokens {
            queue,
            held: Vec::with_capacity(alloc, calls)?,
        })
    }
}

/// Delivers what is in flight in a call's partition, a message a turn, until the call's outcome is known. The call
/// comes back where nothing is in flight and the outcome isn't known, or for want of memory.
fn go_on<T: Served + Runs<N>, N, G: Gate, R: Wait>(
    rt: &R,
    alloc: Global,
    place: &Workplace<T>,
    env: &N,
    gate: &G,
    held: HeldCall<T>,
) -> Option<HeldCall<T>>
    requires call { IsHeld T.key_of T.tells T.call_of (roster_of place.now.cells.items) held }
    requires env { All (λ cell. T.means env.now (plan_of cell)) place.now.cells.items }
    ensures { IfSome result (λ held. IsHeld T.key_of T.tells T.call_of (roster_of place.now.cells.items) held) }
{
    let HeldCall { call, parcel, end } = held;
    let mut going = call;
    for _ in rt.forever() {
        match delivery_turn(rt, alloc, place, env, going) {
            Step::Known(call, outcome) => {
                answer(rt, gate, HeldCall { call, parcel, end }, outcome);
                return None;
            }
            Step::Rests(call) => return Some(HeldCall { call, parcel, end }),
            Step::Delivered(call) => going = call,
        }
    }
    unreachable!()
}

/// Runs a job's call, if it hasn't run, and delivers what it sent. The call comes back where it is held.
fn run_job<T: Served + Runs<N>, N, G: Gate, R: Wait>(
    rt: &R,
    alloc: Global,
    place: &Workplace<T>,
    env: &N,
    gate: &G,
    job: Job<T>,
) -> Option<HeldCall<T>>
    requires job { IsJobFor T.key_of T.tells T.call_of T.fits (roster_of place.now.cells.items) job }
    requires env { All (λ cell. T.means env.now (plan_of cell)) place.now.cells.items }
    ensures { IfSome result (λ held. IsHeld T.key_of T.tells T.call_of (roster_of place.now.cells.items) held) }
{
    let Job { work, parcel, end } = job;
    match work {
        Work::New(call) => {
            let (call, outcome) = call_turn(rt, alloc, place, env, gate, call);
            let held = HeldCall { call, parcel, end };
            match outcome {
                Some(outcome) => {
                    answer(rt, gate, held, outcome);
                    None
                }
                None => go_on(rt, alloc, place, env, gate, held),
            }
        }
        Work::Begun(call) => Some(HeldCall { call, parcel, end }),
    }
}

/// Goes on with each held call in whose partition an event has run since it was looked at.
fn look_again<T: Served + Runs<N>, N, G: Gate, R: Wait>(
    rt: &R,
    alloc: Global,
    place: &Workplace<T>,
    env: &N,
    gate: &G,
    held: &mut Vec<HeldCall<T>>,
)
    requires held { AreHeld T.key_of T.tells T.call_of (roster_of place.now.cells.items) held.old.items }
    requires env { All (λ cell. T.means env.now (plan_of cell)) place.now.cells.items }
    ensures held { AreHeld T.key_of T.tells T.call_of (roster_of place.now.cells.items) held.new.items }
{
    let mut next = 0;
    for _ in 0..held.len() {
        if next >= held.len() {
            return;
        }
        if has_news(place, &held[next]) {
            let call = held.remove(next);
            let partition = call.call.partition;
            match go_on(rt, alloc, place, env, gate, call) {
                Some(call) => held.push_reserved(call),
                None => place.release(partition),
            }
        } else {
            next += 1;
        }
    }
}

/// Whether a held call is to be looked at.
fn has_news<T: Served>(place: &Workplace<T>, held: &HeldCall<T>) -> bool {
    match held.call.looked {
        Some(events) => events != place.events(held.call.partition),
        None => true,
    }
}

/// Whether a held call wasn't gone on with for want of memory.
fn lacks_memory<T: Served>(held: &[HeldCall<T>]) -> bool {
    for call in held.iter() {
        if call.call.looked.is_none() {
            return true;
        }
    }
    false
}

/// What a worker did in a look at its queue.
#[derive(Clone, Copy, Debug)]
enum Looked {
    /// It ran a job.
    Ran,
    /// There was none.
    Empty,
    /// It has no room for a call, and didn't look.
    NoRoom,
}

/// Takes a job of the queue and does it, if there is one, and room to hold its call.
fn take_job<T: Served + Runs<N>, N, G: Gate, R: Wait>(
    rt: &R,
    alloc: Global,
    number: usize,
    place: &Workplace<T>,
    env: &N,
    gate: &G,
    queue: &mut QueuePass<T>,
    held: &mut Vec<HeldCall<T>>,
) -> Looked
    requires token { IsTokenAt place.now number queue.old }
    requires held { AreHeld T.key_of T.tells T.call_of (roster_of place.now.cells.items) held.old.items }
    requires env { All (λ cell. T.means env.now (plan_of cell)) place.now.cells.items }
    ensures held { AreHeld T.key_of T.tells T.call_of (roster_of place.now.cells.items) held.new.items }
    ensures token { HasLooked result queue.old queue.new }
{
    if held.len() >= held.capacity() {
        return Looked::NoRoom;
    }
    let Some(job) = place.queues[number].take(rt, queue) else {
        return Looked::Empty;
    };
    if let Some(call) = run_job(rt, alloc, place, env, gate, job) {
        place.hold(call.call.partition);
        held.push_reserved(call);
    }
    Looked::Ran
}

/// Runs the jobs of the worker's queue until the place is stopped, all that was submitted before is done, and no call
/// is held; its queue was then empty at a moment, so its token's count of empty looks rose.
///
/// A call whose outcome isn't known keeps it from no other job: it is looked at again once an event has run in its
/// partition. Where there is nothing to do the worker sleeps, until a job or `stop` comes or such an event has run. A
/// job takes memory only for its event and its deliveries.
pub fn worker<T: Served + Runs<N>, N, G: Gate, R: Wait>(
    rt: &R,
    alloc: Global,
    number: usize,
    place: &Workplace<T>,
    env: &N,
    gate: &G,
    tokens: WorkerTokens<T>,
) -> WorkerTokens<T>
    requires token { IsTokenAt place.now number tokens.queue }
    requires held { AreHeld T.key_of T.tells T.call_of (roster_of place.now.cells.items) tokens.held.items }
    requires env { All (λ cell. T.means env.now (plan_of cell)) place.now.cells.items }
    ensures token { IsTokenAt place.now number result.queue }
    ensures emptied { tokens.queue.empty < 18446744073709551615 → tokens.queue.empty < result.queue.empty }
    ensures none_held { result.held.items ≡ [] }
{
    let WorkerTokens {
        mut queue,
        mut held,
    } = tokens;
    let mut idle: u32 = 0;
    for _ in rt.forever() {
        let rings = place.rings(number);
        let stopped = place.is_stopped();
        look_again(rt, alloc, place, env, gate, &mut held);
        match take_job(rt, alloc, number, place, env, gate, &mut queue, &mut held) {
            Looked::Ran => idle = 0,
            Looked::Empty if stopped && held.is_empty() => {
                return WorkerTokens { queue, held };
            }
            Looked::Empty | Looked::NoRoom => {
                idle = if lacks_memory(held.as_slice()) {
                    thread::yield_now();
                    0
                } else {
                    place.rest(rt, number, rings, idle)
                };
            }
        }
    }
    unreachable!()
}
