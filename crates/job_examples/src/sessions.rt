//! Sessions whose calls are started and finished by one thread, which is the worker in between.
ghost use Rattle.std.specs.Prelude.{◌≡◌, IfOk, OnErr, length};
ghost use Rattle.partition_threads.specs.Workplaces.{IsTokenAt};
ghost use Rattle.session_calls.specs.Openings.{HasAllPasses};
ghost use Rattle.session_calls.specs.Sessions.{IsSessionOf};
ghost use Rattle.job_examples.specs.Sessions.{IsNewSession, AreOpened, IsAwaited, IfNotYet, IfReady};

use crate::relay::{Relay, SENDS};
use crate::requests::first_request;
use crate::serving::{number_in, token_at};
use grid_base::Memory;
use hand_cell::{Cell, Pass};
use job_queues::QueuePass;
use partition_threads::{Obstacle, OpenGate, THREADS, WorkerTokens, Workplace, worker};
use session_calls::{Finished, SessionPass, Started};
use std::alloc::{AllocError, Global};
use std::sync::Wait;

/// What came of the first calls of two sessions, whose worker has a queue of one place.
#[derive(Clone, Copy)]
pub struct Story {
    /// The first call was found not yet ended before its worker worked.
    pub not_yet: bool,
    /// The second call found the queue full, and its pass stayed.
    pub busy: bool,
    /// The number in the first call's reply, where its pass came back with it.
    pub replied: Option<u32>,
}

/// A workplace over one cell, what is left of the cell's pass, two sessions of member 0, and a token of its first
/// worker's queue.
struct Opened {
    place: Workplace<Relay>,
    passes: Vec<Pass<Relay>>,
    first: SessionPass<Relay>,
    second: SessionPass<Relay>,
    queue: QueuePass<Relay>,
}

fn open(alloc: Global) -> Result<Opened, Memory>
    ensures { IfOk result AreOpened }
{
    let (cell, pass) = Cell::new(alloc, Relay::new(alloc), &())?;
    let (place, mut tokens) = Workplace::new(alloc, vec![in alloc; cell]?, THREADS, 1)?;
    let mut passes = vec![in alloc; pass]?;
    let first = SessionPass::open(alloc, &place, &mut passes, &mut tokens, 1, 0)?;
    let second = SessionPass::open(alloc, &place, &mut passes, &mut tokens, 2, 0)?;
    let queue = token_at(&place, 0, &mut tokens);
    Ok(Opened {
        place,
        passes,
        first,
        second,
        queue,
    })
}

/// Starts the first call of a session, which sends a message.
fn start<R: Wait>(
    rt: &R,
    alloc: Global,
    place: &Workplace<Relay>,
    session: &mut SessionPass<Relay>,
    conn: u32,
) -> Result<Started<Relay>, Obstacle>
    requires { IsNewSession place.now conn session.old }
    ensures session { IsSessionOf place.now session.new }
    ensures started { IfOk result (λ started. IsAwaited place.now session.new started) }
    ensures back { OnErr result (HasAllPasses session.new) }
{
    session.start(rt, alloc, place, first_request(alloc, conn, SENDS), 0)
}

/// Looks whether a call has ended.
fn finish<R: Wait>(
    rt: &R,
    place: &Workplace<Relay>,
    session: &mut SessionPass<Relay>,
    started: Started<Relay>,
) -> Finished<Relay>
    requires session { IsSessionOf place.now session.old }
    requires one { length place.now.cells.items ≡ 1 }
    requires started { IsAwaited place.now session.old started }
    ensures session { IsSessionOf place.now session.new }
    ensures back { IfReady (HasAllPasses session.new) result }
    ensures again { IfNotYet (λ again. IsAwaited place.now session.new again) result }
{
    session.finish(rt, place, started)
}

/// Runs the jobs of the first worker's queue.
fn work<R: Wait>(
    rt: &R,
    alloc: Global,
    place: &Workplace<Relay>,
    queue: QueuePass<Relay>,
) -> Result<(), Memory>
    requires { IsTokenAt place.now 0 queue }
{
    let tokens = WorkerTokens::new(alloc, queue, 1)?;
    place.stop();
    worker(rt, alloc, 0, place, &(), &OpenGate, tokens);
    Ok(())
}

/// Whether the session's pass is there.
fn has_pass(session: &SessionPass<Relay>) -> bool {
    match session.passes.first() {
        Some(pass) => pass.is_some(),
        None => false,
    }
}

/// Starts a call of each of two sessions, of which the second finds the queue full, and finishes the first. Each session
/// is closed once no call of it is under way.
pub fn call_alone<R: Wait>(rt: &R, alloc: Global) -> Result<Story, Memory> {
    let Opened {
        place,
        mut passes,
        mut first,
        mut second,
        queue,
    } = open(alloc)?;
    let Ok(started) = start(rt, alloc, &place, &mut first, 1) else {
        return Err(AllocError);
    };
    let busy = match start(rt, alloc, &place, &mut second, 2) {
        Err(Obstacle::Busy) => {
            let stayed = has_pass(&second);
            second.close(&place, &mut passes);
            stayed
        }
        _ => false,
    };
    let mut story = Story {
        not_yet: false,
        busy,
        replied: None,
    };
    if let Finished::NotYet(started) = finish(rt, &place, &mut first, started) {
        story.not_yet = !has_pass(&first);
        work(rt, alloc, &place, queue)?;
        if let Finished::Ready(outcome) = finish(rt, &place, &mut first, started)
            && has_pass(&first)
        {
            story.replied = number_in(&outcome);
            first.close(&place, &mut passes);
        }
    }
    Ok(story)
}
