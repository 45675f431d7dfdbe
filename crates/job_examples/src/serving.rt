//! Calls that workers of two members serve.
ghost use Rattle.std.specs.Prelude.{◌≡◌, ◌<◌, ◌*◌, [], true, Some, slice_get, vec_len, IfOk};
ghost use Rattle.hand_cell.specs.declared.names.Key.TheVariants.{Call};
ghost use Rattle.hand_cell.specs.Names.{has};
ghost use Rattle.job_queues.specs.Roster.{roster_of};
ghost use Rattle.partition_threads.specs.Workplaces.{IsTokenAt, AreTokensAt};
ghost use Rattle.job_examples.specs.Relays.{first_call};
ghost use Rattle.job_examples.specs.Serving.{MayCall, IsUnderWay, IsOpened};

use crate::relay::{Relay, SENDS};
use crate::requests::first_request;
use grid_base::{CallId, MemberId, Memory, PartitionId};
use hand_cell::{Cell, LiveOutcome, Names, Pass};
use job_queues::QueuePass;
use partition_threads::{Awaited, Gate, WorkerTokens, Workplace, worker};
use std::alloc::{AllocError, Global};
use std::sync::Wait;
use std::sync::atomic::{AtomicU64, Ordering};
use std::thread;
use std::thread::{Threads, join};

/// How many jobs a queue holds, and how many calls a worker.
const ROOM: usize = 4;

/// A gate that lets others run so often inside each call's turn, and counts the calls.
#[derive(Drop)]
struct Turnstile {
    pauses: u32,
    passed: AtomicU64,
}

impl Gate for Turnstile {
    fn inside(&self, _member: MemberId, _partition: PartitionId, _id: CallId) {
        pause(self.pauses);
        self.passed.fetch_add(1, Ordering::SeqCst);
    }

    fn answered(&self, _id: CallId) {}
}

impl Turnstile {
    /// Waits until a call is in its turn.
    fn await_first<R: Wait>(&self, rt: &R) {
        for _ in rt.forever() {
            if self.passed.load(Ordering::SeqCst) > 0 {
                return;
            }
            thread::yield_now();
        }
    }
}

fn pause(times: u32) {
    for _ in 0..times {
        thread::yield_now();
    }
}

/// Starts the first call of a connection at a member.
fn start<R: Wait>(
    rt: &R,
    alloc: Global,
    place: &Workplace<Relay>,
    token: &mut QueuePass<Relay>,
    pass: Pass<Relay>,
    member: MemberId,
    conn: u32,
    kind: u32,
) -> Result<Awaited<Relay>, Memory>
    requires token { IsTokenAt place.now (4 * member) token.old }
    requires cell { slice_get (roster_of place.now.cells.items).tables 0 ≡ Some pass.table }
    requires named { has pass.names (Call (first_call conn)) ≡ true }
    requires unused { pass.seen ≡ [] }
    ensures { IfOk result (λ awaited. IsUnderWay awaited) }
{
    match place.start(
        rt,
        alloc,
        token,
        pass,
        member,
        first_request(alloc, conn, kind),
        0,
    ) {
        Ok(awaited) => Ok(awaited),
        Err(_) => Err(AllocError),
    }
}

/// What two calls were answered, and whether both workers ended with no call held.
#[derive(Clone, Copy)]
pub struct Exchange {
    pub held: Option<u32>,
    pub sent: Option<u32>,
    pub ended: (bool, bool),
}

/// The connection's number that a reply has.
pub fn number_in(outcome: &LiveOutcome) -> Option<u32> {
    match outcome {
        LiveOutcome::Replied(reply) => match reply.as_slice().first_chunk::<4>() {
            Some(bytes) => Some(u32::from_be_bytes(*bytes)),
            None => None,
        },
        _ => None,
    }
}

/// What the caller of both calls holds: a token of each worker's queue, and a pass for each call.
#[derive(Drop)]
pub struct Caller {
    pub first: QueuePass<Relay>,
    pub second: QueuePass<Relay>,
    pub one: Pass<Relay>,
    pub two: Pass<Relay>,
}

/// Starts a call that is held, at member 0, and later one that sends a message, at member 1. Its delivery releases
/// both.
fn call_both<R: Wait>(
    rt: &R,
    alloc: Global,
    place: &Workplace<Relay>,
    caller: Caller,
    gate: &Turnstile,
) -> Result<(Option<u32>, Option<u32>), Memory>
    requires { MayCall place.now caller }
{
    let Caller {
        mut first,
        mut second,
        one,
        two,
    } = caller;
    pause(gate.pauses);
    let held = start(rt, alloc, place, &mut first, one, 0, 1, 0)?;
    gate.await_first(rt);
    pause(gate.pauses);
    let sent = start(rt, alloc, place, &mut second, two, 1, 2, SENDS)?;
    let sent = sent.wait(rt);
    let held = held.wait(rt);
    pause(gate.pauses);
    Ok((number_in(&held.outcome), number_in(&sent.outcome)))
}

/// Whether a worker ended with no call held.
pub fn work<G: Gate, R: Wait>(
    rt: &R,
    alloc: Global,
    number: usize,
    place: &Workplace<Relay>,
    gate: &G,
    queue: QueuePass<Relay>,
) -> bool
    requires { IsTokenAt place.now number queue }
{
    match WorkerTokens::new(alloc, queue, ROOM) {
        Ok(tokens) => {
            let tokens = worker(rt, alloc, number, place, &(), gate, tokens);
            tokens.held.is_empty()
        }
        Err(_) => false,
    }
}

/// A token of a worker's queue.
pub fn token_at(
    place: &Workplace<Relay>,
    worker: usize,
    tokens: &mut Vec<QueuePass<Relay>>,
) -> QueuePass<Relay>
    requires there { worker < vec_len tokens.old }
    requires tokens { AreTokensAt place.now tokens.old.items }
    ensures token { IsTokenAt place.now worker result }
    ensures kept { tokens.new.items ≡ tokens.old.items }
{
    place.split_token(worker, &mut tokens[worker])
}

/// A workplace over one cell, with eight workers, and what is held there.
pub struct Opened {
    pub place: Workplace<Relay>,
    pub caller: Caller,
    pub first: QueuePass<Relay>,
    pub second: QueuePass<Relay>,
}

pub fn open(alloc: Global) -> Result<Opened, Memory>
    ensures { IfOk result (λ opened. IsOpened opened) }
{
    let (cell, mut pass) = Cell::new(alloc, Relay::new(alloc), &())?;
    let one = cell.split(&mut pass, Names::One(1));
    let two = cell.split(&mut pass, Names::One(2));
    let (place, mut tokens) = Workplace::new(alloc, vec![in alloc; cell]?, 8, ROOM)?;
    let first = token_at(&place, 0, &mut tokens);
    let second = token_at(&place, 4, &mut tokens);
    let caller = Caller {
        first: token_at(&place, 0, &mut tokens),
        second: token_at(&place, 4, &mut tokens),
        one,
        two,
    };
    Ok(Opened {
        place,
        caller,
        first,
        second,
    })
}

/// Two workers of two members serve two calls on one cell. The first is held until the events of the second have run,
/// so its worker is woken by these.
pub fn serve_two<R: Threads + Wait + Sync>(
    rt: &R,
    alloc: Global,
    pauses: u32,
) -> Result<Exchange, Memory> {
    let Opened {
        place,
        caller,
        first,
        second,
    } = open(alloc)?;
    let gate = Turnstile {
        pauses,
        passed: AtomicU64::new(0),
    };
    let (answers, ended) = join(
        rt,
        || -> Result<(Option<u32>, Option<u32>), Memory>
            requires { MayCall place caller }
        {
            let answers = call_both(rt, alloc, &place, caller, &gate);
            place.stop();
            answers
        },
        || -> (bool, bool)
            requires { IsTokenAt place 0 first × IsTokenAt place 4 second }
        {
            join(
                rt,
                || -> bool
                    requires { IsTokenAt place 0 first }
                { work(rt, alloc, 0, &place, &gate, first) },
                || -> bool
                    requires { IsTokenAt place 4 second }
                { work(rt, alloc, 4, &place, &gate, second) },
            )
        },
    );
    let (held, sent) = answers?;
    Ok(Exchange { held, sent, ended })
}
