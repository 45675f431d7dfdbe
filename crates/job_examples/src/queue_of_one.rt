//! A queue of one place.
ghost use Rattle.std.specs.Prelude.{◌≡◌, [], true, IfOk};
ghost use Rattle.hand_cell.specs.declared.names.Key.TheVariants.{Call};
ghost use Rattle.hand_cell.specs.Names.{has};
ghost use Rattle.hand_cell.specs.Calls.{IsPassOf};
ghost use Rattle.job_queues.specs.Roster.{Roster, StandsAt};
ghost use Rattle.job_queues.specs.Jobs.{IsJobFor};
ghost use Rattle.job_queues.specs.Tokens.{IsTokenOf};
ghost use Rattle.job_examples.specs.Relays.{key_of, asked_of, first_call};

use crate::relay::Relay;
use crate::requests::first_request;
use grid_base::Memory;
use hand_cell::{Cell, Names, Pass};
use job_queues::{Busy, Job, JobQueue, NewCall, QueuePass, Work};
use std::alloc::{AllocError, Global};
use std::sync::Wait;

/// What a queue of one place did: the connections of the calls, in the order of what was done.
#[derive(Clone, Copy)]
pub struct OneByOne {
    /// Of the second job, which the full queue handed back.
    pub handed_back: u32,
    /// Of what was taken, a job being put between the first and the second.
    pub taken: (Option<u32>, Option<u32>, Option<u32>),
}

fn job_for(
    alloc: Global,
    cell: &Cell<Relay>,
    pass: Pass<Relay>,
    conn: u32,
) -> Result<Job<Relay>, Memory>
    requires cell { IsPassOf cell.now pass }
    requires named { has pass.names (Call (first_call conn)) ≡ true }
    requires unused { pass.seen ≡ [] }
    ensures { (roster : Roster (Unit {0})) → StandsAt roster 0 cell.now → IfOk result (λ job. IsJobFor key_of (λ _ _ _ _. Unit {0}) (λ _ request _. asked_of request) (λ _. Unit {0}) roster job) }
{
    let call = NewCall {
        pass,
        member: 0,
        request: first_request(alloc, conn, 0),
        now: 0,
    };
    match Job::new(alloc, cell, call) {
        Ok((job, _, _)) => Ok(job),
        Err(_) => Err(AllocError),
    }
}

/// The connection whose call a job is for.
fn conn_of(job: &Job<Relay>) -> u32 {
    match &job.work {
        Work::New(call) => call.request.id.conn,
        Work::Begun(call) => call.id.conn,
    }
}

/// A cell, and a job of each of two connections on it.
struct TwoJobs {
    cell: Cell<Relay>,
    first: Job<Relay>,
    second: Job<Relay>,
}

fn two_jobs(alloc: Global) -> Result<TwoJobs, Memory>
    ensures first { (roster : Roster (Unit {0})) → IfOk result (λ made. StandsAt roster 0 made.cell → IsJobFor key_of (λ _ _ _ _. Unit {0}) (λ _ request _. asked_of request) (λ _. Unit {0}) roster made.first) }
    ensures second { (roster : Roster (Unit {0})) → IfOk result (λ made. StandsAt roster 0 made.cell → IsJobFor key_of (λ _ _ _ _. Unit {0}) (λ _ request _. asked_of request) (λ _. Unit {0}) roster made.second) }
{
    let (cell, mut pass) = Cell::new(alloc, Relay::new(alloc), &())?;
    let one = cell.split(&mut pass, Names::One(1));
    let two = cell.split(&mut pass, Names::One(2));
    let first = job_for(alloc, &cell, one, 1)?;
    let second = job_for(alloc, &cell, two, 2)?;
    Ok(TwoJobs {
        cell,
        first,
        second,
    })
}

/// Makes a queue of one place, and puts two jobs into it; takes one, puts the one that was handed back, and takes
/// twice.
pub fn put_one_by_one<R: Wait>(rt: &R, alloc: Global) -> Result<Option<OneByOne>, Memory> {
    let TwoJobs {
        cell,
        first,
        second,
    } = two_jobs(alloc)?;
    let (queue, mut token) = queue_for(alloc, cell)?;
    Ok(put_both(rt, &queue, &mut token, first, second))
}

/// A queue of one place for a cell, at partition 0.
fn queue_for(
    alloc: Global,
    cell: Cell<Relay>,
) -> Result<(JobQueue<Relay>, QueuePass<Relay>), Memory>
    ensures token { IfOk result (λ made. IsTokenOf made.0 made.1) }
    ensures cell { IfOk result (λ made. StandsAt made.1.roster 0 cell) }
{
    let cells = vec![in alloc; cell]?;
    JobQueue::new(alloc, cells.as_slice(), 1)
}

fn put_both<R: Wait>(
    rt: &R,
    queue: &JobQueue<Relay>,
    token: &mut QueuePass<Relay>,
    first: Job<Relay>,
    second: Job<Relay>,
) -> Option<OneByOne>
    requires token { IsTokenOf queue.now token.old }
    requires first { IsJobFor key_of (λ _ _ _ _. Unit {0}) (λ _ request _. asked_of request) (λ _. Unit {0}) token.old.roster first }
    requires second { IsJobFor key_of (λ _ _ _ _. Unit {0}) (λ _ request _. asked_of request) (λ _. Unit {0}) token.old.roster second }
{
    if queue.put(rt, token, first).is_err() {
        return None;
    }
    let Err(Busy { job }) = queue.put(rt, token, second) else {
        return None;
    };
    let handed_back = conn_of(&job);
    let one = queue.take(rt, token);
    if queue.put(rt, token, job).is_err() {
        return None;
    }
    let two = queue.take(rt, token);
    let none = queue.take(rt, token);
    Some(OneByOne {
        handed_back,
        taken: (
            one.as_ref().map(conn_of),
            two.as_ref().map(conn_of),
            none.as_ref().map(conn_of),
        ),
    })
}
