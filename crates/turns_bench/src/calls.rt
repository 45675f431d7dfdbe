//! Calls through a queue of jobs and back, or made where they come from, one after another: one client and one worker.
ghost use Rattle.std.specs.Prelude.{◌≡◌, ◌<◌, ◌+◌, [], true, Some, slice_get, vec_len, IfOk};
ghost use Rattle.hand_cell.specs.declared.names.Key.TheVariants.{Call};
ghost use Rattle.hand_cell.specs.Names.{has};
ghost use Rattle.job_queues.specs.Roster.{roster_of};
ghost use Rattle.partition_threads.specs.Workplaces.{IsTokenAt, AreTokensAt};
ghost use Rattle.turns_bench.specs.Echoes.{first_call};
ghost use Rattle.turns_bench.specs.Calling.{IsBase, MayCall};

use crate::echo::Echo;
use crate::pace::{Pace, nanos_since};
use grid_base::{Bytes, CallId, GridCall, Memory, QueueCall, Request};
use hand_cell::{Cell, Names, Pass};
use job_queues::QueuePass;
use partition_threads::{Made, OpenGate, WorkerTokens, Workplace, worker};
use std::alloc::{AllocError, Global};
use std::io;
use std::rt::Clock;
use std::sync::Wait;
use std::thread::{Threads, join};
use std::time::Instant;

/// How many jobs the queue holds, and how many calls the worker.
const ROOM: usize = 16;

/// Who runs the client's calls.
#[derive(Clone, Copy)]
pub enum Runner {
    /// The worker, to which they are handed over.
    Worker,
    /// The client itself, where nobody is before it.
    Client,
}

/// A workplace over one cell with one worker, what the worker holds, and what the client does.
struct Opened {
    place: Workplace<Echo>,
    theirs: QueuePass<Echo>,
    mine: QueuePass<Echo>,
    base: Pass<Echo>,
}

fn open(alloc: Global) -> Result<Opened, Memory>
    ensures worker { IfOk result (λ opened. IsTokenAt opened.place 0 opened.theirs) }
    ensures client { IfOk result (λ opened. MayCall opened.place opened.mine opened.base) }
{
    let (cell, base) = Cell::new(alloc, Echo { calls: 0 }, &())?;
    let (place, mut tokens) = Workplace::new(alloc, vec![in alloc; cell]?, 1, ROOM)?;
    let theirs = token_at(&place, 0, &mut tokens);
    let mine = token_at(&place, 0, &mut tokens);
    Ok(Opened {
        place,
        theirs,
        mine,
        base,
    })
}

/// A token of a worker's queue.
fn token_at(
    place: &Workplace<Echo>,
    worker: usize,
    tokens: &mut Vec<QueuePass<Echo>>,
) -> QueuePass<Echo>
    requires there { worker < vec_len tokens.old }
    requires tokens { AreTokensAt place.now tokens.old.items }
    ensures token { IsTokenAt place.now worker result }
    ensures kept { tokens.new.items ≡ tokens.old.items }
{
    place.split_token(worker, &mut tokens[worker])
}

fn first_request(alloc: Global, conn: u32) -> Request
    ensures id { result.id ≡ first_call conn }
    ensures partition { result.partition ≡ 0 }
{
    Request {
        id: CallId { conn, number: 0 },
        correlation: 0,
        kind: 0,
        partition: 0,
        call: GridCall::Queue(QueueCall::Size {
            name: Bytes::new(alloc),
        }),
    }
}

/// Hands the first call of a connection over, and waits for its answer.
fn hand_over<R: Wait>(
    rt: &R,
    alloc: Global,
    place: &Workplace<Echo>,
    token: &mut QueuePass<Echo>,
    pass: Pass<Echo>,
    conn: u32,
) -> Result<(), Memory>
    requires token { IsTokenAt place.now 0 token.old }
    requires cell { slice_get (roster_of place.now.cells.items).tables 0 ≡ Some pass.table }
    requires named { has pass.names (Call (first_call conn)) ≡ true }
    requires unused { pass.seen ≡ [] }
    ensures token { IsTokenAt place.now 0 token.new }
{
    match place.start(rt, alloc, token, pass, 0, first_request(alloc, conn), 0) {
        Ok(awaited) => {
            awaited.wait(rt);
            Ok(())
        }
        Err(_) => Err(AllocError),
    }
}

/// Makes the first call of a connection at once, where that can be, and waits for its answer where it was handed over.
fn make<R: Wait>(
    rt: &R,
    alloc: Global,
    place: &Workplace<Echo>,
    token: &mut QueuePass<Echo>,
    pass: Pass<Echo>,
    conn: u32,
) -> Result<(), Memory>
    requires token { IsTokenAt place.now 0 token.old }
    requires cell { slice_get (roster_of place.now.cells.items).tables 0 ≡ Some pass.table }
    requires named { has pass.names (Call (first_call conn)) ≡ true }
    requires unused { pass.seen ≡ [] }
    ensures token { IsTokenAt place.now 0 token.new }
{
    let request = first_request(alloc, conn);
    match place.make(rt, alloc, &(), &OpenGate, token, pass, 0, request, 0) {
        Ok(Made::Done(_)) => Ok(()),
        Ok(Made::Started(awaited)) => {
            awaited.wait(rt);
            Ok(())
        }
        Ok(Made::Kept(_, _)) | Err(_) => Err(AllocError),
    }
}

/// Makes the first call of a connection, and waits for its answer.
fn call<R: Wait>(
    rt: &R,
    alloc: Global,
    place: &Workplace<Echo>,
    token: &mut QueuePass<Echo>,
    pass: Pass<Echo>,
    conn: u32,
    runner: Runner,
) -> Result<(), Memory>
    requires token { IsTokenAt place.now 0 token.old }
    requires cell { slice_get (roster_of place.now.cells.items).tables 0 ≡ Some pass.table }
    requires named { has pass.names (Call (first_call conn)) ≡ true }
    requires unused { pass.seen ≡ [] }
    ensures token { IsTokenAt place.now 0 token.new }
{
    match runner {
        Runner::Worker => hand_over(rt, alloc, place, token, pass, conn),
        Runner::Client => make(rt, alloc, place, token, pass, conn),
    }
}

/// Makes the call of the next connection, and gives how many nanoseconds it took.
fn call_next<R: Wait + Clock>(
    rt: &R,
    alloc: Global,
    place: &Workplace<Echo>,
    token: &mut QueuePass<Echo>,
    base: &mut Pass<Echo>,
    conn: u32,
    runner: Runner,
) -> io::Result<u64>
    requires token { IsTokenAt place.now 0 token.old }
    requires base { IsBase place.now conn base.old }
    ensures token { IsTokenAt place.now 0 token.new }
    ensures base { IsBase place.now (conn + 1) base.new }
{
    let pass = place.cells[0].split(base, Names::One(conn));
    let start = Instant::now(rt)?;
    call(rt, alloc, place, token, pass, conn, runner)?;
    nanos_since(rt, start)
}

/// Makes so many calls, and gives how many nanoseconds each took.
fn call_each<R: Wait + Clock>(
    rt: &R,
    alloc: Global,
    place: &Workplace<Echo>,
    mine: QueuePass<Echo>,
    base: Pass<Echo>,
    pace: Pace,
    runner: Runner,
) -> io::Result<Vec<u64>>
    requires { MayCall place.now mine base }
{
    let mut token = mine;
    let mut base = base;
    let mut times = Vec::new(alloc);
    for conn in 0..pace.calls {
        pace.rest(rt);
        times.push(call_next(rt, alloc, place, &mut token, &mut base, conn, runner)?)?;
    }
    Ok(times)
}

/// Runs the calls of the queue until the place is stopped.
fn work<R: Wait>(rt: &R, alloc: Global, place: &Workplace<Echo>, queue: QueuePass<Echo>)
    requires { IsTokenAt place.now 0 queue }
{
    if let Ok(tokens) = WorkerTokens::new(alloc, queue, ROOM) {
        worker(rt, alloc, 0, place, &(), &OpenGate, tokens);
    }
}

/// Makes so many calls, while a worker stands by, and gives how many nanoseconds each took.
pub fn one_by_one<R: Threads + Wait + Clock + Sync>(
    rt: &R,
    alloc: Global,
    pace: Pace,
    runner: Runner,
) -> io::Result<Vec<u64>> {
    let Opened {
        place,
        theirs,
        mine,
        base,
    } = open(alloc)?;
    let (times, _) = join(
        rt,
        || -> io::Result<Vec<u64>>
            requires { MayCall place mine base }
        {
            let times = call_each(rt, alloc, &place, mine, base, pace, runner);
            place.stop();
            times
        },
        || -> ()
            requires { IsTokenAt place 0 theirs }
        { work(rt, alloc, &place, theirs) },
    );
    times
}
