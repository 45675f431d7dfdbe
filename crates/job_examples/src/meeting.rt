//! Two callers make their calls at one partition, at once where they can.
ghost use Rattle.std.specs.Prelude.{◌≡◌, ◌+◌, ◌*◌, [], true, Some, slice_get};
ghost use Rattle.hand_cell.specs.declared.names.Key.TheVariants.{Call};
ghost use Rattle.hand_cell.specs.Names.{has};
ghost use Rattle.job_queues.specs.Roster.{roster_of};
ghost use Rattle.partition_threads.specs.Workplaces.{IsTokenAt};
ghost use Rattle.job_examples.specs.Relays.{first_call};
ghost use Rattle.job_examples.specs.Serving.{MayCall};

use crate::relay::{Relay, SENDS};
use crate::requests::first_request;
use crate::serving::{Caller, Opened, number_in, open, work};
use grid_base::{MemberId, Memory};
use hand_cell::Pass;
use job_queues::QueuePass;
use partition_threads::{Made, OpenGate, Workplace};
use std::alloc::{AllocError, Global};
use std::sync::Wait;
use std::thread::{Threads, join};

/// Makes the first call of a connection at a member, which sends a message, and waits for its answer where it was handed
/// over. Answers the number in its reply.
fn call<R: Wait>(
    rt: &R,
    alloc: Global,
    place: &Workplace<Relay>,
    token: QueuePass<Relay>,
    pass: Pass<Relay>,
    member: MemberId,
    conn: u32,
) -> Result<Option<u32>, Memory>
    requires token { IsTokenAt place.now (4 * member) token }
    requires cell { slice_get (roster_of place.now.cells.items).tables 0 ≡ Some pass.table }
    requires named { has pass.names (Call (first_call conn)) ≡ true }
    requires unused { pass.seen ≡ [] }
{
    let mut token = token;
    let request = first_request(alloc, conn, SENDS);
    let made = place.make(
        rt,
        alloc,
        &(),
        &OpenGate,
        &mut token,
        pass,
        member,
        request,
        0,
    );
    match made {
        Ok(Made::Done(done)) => Ok(number_in(&done.outcome)),
        Ok(Made::Started(awaited)) => Ok(number_in(&awaited.wait(rt).outcome)),
        Ok(Made::Kept(_, _)) | Err(_) => Err(AllocError),
    }
}

/// What two callers were answered that make a call each on one cell, at members 0 and 1, while a worker of each member
/// stands by.
pub fn meet<R: Threads + Wait + Sync>(
    rt: &R,
    alloc: Global,
) -> Result<(Option<u32>, Option<u32>), Memory> {
    let Opened {
        place,
        caller,
        first,
        second,
    } = open(alloc)?;
    let (answers, _) = join(
        rt,
        || -> (Result<Option<u32>, Memory>, Result<Option<u32>, Memory>)
            requires { MayCall place caller }
        {
            let answers = call_both(rt, alloc, &place, caller);
            place.stop();
            answers
        },
        || -> (bool, bool)
            requires { IsTokenAt place 0 first × IsTokenAt place 4 second }
        {
            join(
                rt,
                || -> bool
                    requires { IsTokenAt place 0 first }
                { work(rt, alloc, 0, &place, &OpenGate, first) },
                || -> bool
                    requires { IsTokenAt place 4 second }
                { work(rt, alloc, 4, &place, &OpenGate, second) },
            )
        },
    );
    let (one, two) = answers;
    Ok((one?, two?))
}

/// Makes both calls, on two threads.
fn call_both<R: Threads + Wait + Sync>(
    rt: &R,
    alloc: Global,
    place: &Workplace<Relay>,
    caller: Caller,
) -> (Result<Option<u32>, Memory>, Result<Option<u32>, Memory>)
    requires { MayCall place.now caller }
{
    let Caller {
        first,
        second,
        one,
        two,
    } = caller;
    join(
        rt,
        || -> Result<Option<u32>, Memory>
            requires { IsTokenAt place.now 0 first × (slice_get (roster_of place.now.cells.items).tables 0 ≡ Some one.table)
                × (has one.names (Call (first_call 1)) ≡ true) × (one.seen ≡ []) }
        { call(rt, alloc, place, first, one, 0, 1) },
        || -> Result<Option<u32>, Memory>
            requires { IsTokenAt place.now 4 second × (slice_get (roster_of place.now.cells.items).tables 0 ≡ Some two.table)
                × (has two.names (Call (first_call 2)) ≡ true) × (two.seen ≡ []) }
        { call(rt, alloc, place, second, two, 1, 2) },
    )
}
