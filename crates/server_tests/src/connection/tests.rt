ghost use Rattle.std.specs.Prelude.{◌≡◌, [], All};
ghost use Rattle.call_engine.specs.Limits.{RequestFits};
ghost use Rattle.hand_cell.specs.Calls.{plan_of};
ghost use Rattle.live_grid.specs.Grids.{place_of};
ghost use Rattle.live_grid.specs.Histories.{live_key};
ghost use Rattle.live_grid.specs.Plans.{settings_in, settings_for};
ghost use Rattle.live_session.specs.Connections.{IsFresh, ServesCalls};
ghost use Rattle.partition_threads.specs.Workplaces.{IsTokenAt};
ghost use Rattle.server_tests.specs.Sessions.{none_seen};

use crate::connection::client::{
    ANSWERS, MOST_HEARD, MOST_SAID, answers_in, answers_to, every_other, put_and_get,
};
use crate::connection::live::{Live, WORKER, environment};
use grid_base::Memory;
use grid_edge::{FixedClock, MemoryReady, MemorySink, MemorySource};
use live_grid::{LiveGrid, LiveWorld};
use live_session::{Blocking, Connection, ConnectionEnd, PIECE, Turned, serve_connection};
use loop_journal::Journal;
use partition_threads::{OpenGate, WorkerTokens, Workplace, worker};
use session_calls::SessionPass;
use std::alloc::Global;
use std::sync::Wait;
use std::test::Fail;
use std::thread;
use std::thread::{Threads, join};

type Unready = (MemoryReady<MemorySource>, MemoryReady<MemorySink>);

/// More than the calls of the source, and of the sink, that serve the client.
const CALLS: usize = 32;

/// What the client says, over streams that are unready at every other call and move few bytes at a time.
fn unready_streams(alloc: Global) -> Result<Unready, Memory> {
    let said = MemorySource::in_pieces(put_and_get(alloc)?, Vec::new(alloc), MOST_SAID);
    let heard = MemorySink::in_pieces(Vec::new(alloc), MOST_HEARD);
    Ok((
        MemoryReady::new(said, Vec::new(alloc), every_other(alloc)?),
        MemoryReady::new(heard, Vec::new(alloc), every_other(alloc)?),
    ))
}

/// The same over streams that are always ready, of which these calls fail.
fn failing_streams(alloc: Global, reads: Vec<u64>, writes: Vec<u64>) -> Result<Unready, Memory> {
    let said = MemorySource::in_pieces(put_and_get(alloc)?, Vec::new(alloc), MOST_SAID);
    let heard = MemorySink::in_pieces(Vec::new(alloc), MOST_HEARD);
    Ok((
        MemoryReady::new(said, reads, Vec::new(alloc)),
        MemoryReady::new(heard, writes, Vec::new(alloc)),
    ))
}

/// Gives a connection turns to its end, and then stops the workers. The streams come back.
fn take_turns<R: Wait>(
    rt: &R,
    alloc: Global,
    place: &Workplace<LiveWorld>,
    session: SessionPass<LiveWorld>,
    streams: Unready,
) -> (ConnectionEnd, Unready)
    requires fresh { IsFresh live_key place.now session none_seen }
    requires serves { ServesCalls RequestFits place.now }
    requires plans { All (λ cell. settings_for (plan_of cell) ≡ settings_in [] 10) place.now.cells.items }
{
    let (mut from, mut to) = streams;
    let mut clock = FixedClock::new(7);
    let mut journal = Journal::new();
    let mut connection = Connection::new(alloc, session);
    let env = environment(alloc);
    let mut piece = [0; PIECE];
    for _ in rt.forever() {
        let turn = connection.turn(
            rt,
            alloc,
            place,
            &env,
            &OpenGate,
            &mut piece,
            &mut from,
            &mut to,
            &mut clock,
            &mut journal,
        );
        match turn.came_to {
            Turned::Moved => {}
            Turned::NotYet => thread::yield_now(),
            Turned::Ended(end) => {
                place.stop();
                return (end, (from, to));
            }
        }
    }
    unreachable!()
}

/// Serves a client of the grid by turns.
fn serve_by_turns<R: Wait>(
    rt: &R,
    alloc: Global,
    grid: &LiveGrid,
    session: SessionPass<LiveWorld>,
    streams: Unready,
) -> (ConnectionEnd, Unready)
    requires fresh { IsFresh live_key (place_of grid.now) session none_seen }
    requires serves { ServesCalls RequestFits (place_of grid.now) }
    requires plans { All (λ cell. settings_for (plan_of cell) ≡ settings_in [] 10) (place_of grid.now).cells.items }
{
    take_turns(rt, alloc, grid.workplace(), session, streams)
}

/// Runs the worker of the session's calls.
fn work<R: Wait>(rt: &R, alloc: Global, grid: &LiveGrid, tokens: WorkerTokens<LiveWorld>)
    requires token { IsTokenAt (place_of grid.now) 9 tokens.queue }
    requires none_held { tokens.held.items ≡ [] }
    requires plans { All (λ cell. settings_for (plan_of cell) ≡ settings_in [] 10) (place_of grid.now).cells.items }
{
    let env = environment(alloc);
    let place = grid.workplace();
    worker(rt, alloc, WORKER, place, &env, &OpenGate, tokens);
}

/// Serves a client by turns, beside a worker on another thread.
fn by_turns<R: Threads + Wait + Sync>(
    rt: &R,
    alloc: Global,
    streams: Unready,
) -> Result<(ConnectionEnd, Unready), Memory> {
    let Live {
        grid,
        session,
        tokens,
    } = Live::open(alloc)?;
    let (served, ()) = join(
        rt,
        || serve_by_turns(rt, alloc, &grid, session, streams),
        || -> ()
            requires { IsTokenAt (place_of grid) 9 tokens.queue × (tokens.held.items ≡ []) × All (λ cell. settings_for (plan_of cell) ≡ settings_in [] 10) (place_of grid).cells.items }
        { work(rt, alloc, &grid, tokens) },
    );
    Ok(served)
}

#[test]
fn a_put_and_a_get_over_streams_that_are_often_unready(rt: HostRuntime) -> Result<(), Fail> {
    let (end, (_, to)) = by_turns(&rt, rt.alloc(), unready_streams(rt.alloc())?)?;
    assert!(rt; matches!(end, ConnectionEnd::Ended));
    assert_eq!(rt; to.stream().bytes(), ANSWERS);
    Ok(())
}

/// Serves the client by turns with each call of the source failing in turn, up to the last: does each connection end for that,
/// with exactly the answers to what was read before it? And does the client have all of them behind these, where no call fails?
fn each_read_fails<R: Threads + Wait + Sync>(rt: &R, alloc: Global) -> Result<bool, Memory> {
    let mut held = true;
    for call in 0..CALLS {
        let reads = vec![in alloc; call as u64]?;
        let streams = failing_streams(alloc, reads, Vec::new(alloc))?;
        let (end, (_, to)) = by_turns(rt, alloc, streams)?;
        if !matches!(end, ConnectionEnd::ReadFault) {
            let whole = matches!(end, ConnectionEnd::Ended) && to.stream().bytes() == ANSWERS;
            return Ok(held && whole && 0 < call);
        }
        held &= to.stream().bytes() == answers_to(call);
    }
    Ok(false)
}

/// The same with each call of the sink failing in turn, where exactly what the calls before it took is written.
fn each_write_fails<R: Threads + Wait + Sync>(rt: &R, alloc: Global) -> Result<bool, Memory> {
    let mut held = true;
    for call in 0..CALLS {
        let writes = vec![in alloc; call as u64]?;
        let streams = failing_streams(alloc, Vec::new(alloc), writes)?;
        let (end, (_, to)) = by_turns(rt, alloc, streams)?;
        if !matches!(end, ConnectionEnd::WriteFault) {
            let whole = matches!(end, ConnectionEnd::Ended) && to.stream().bytes() == ANSWERS;
            return Ok(held && whole && 0 < call);
        }
        held &= to.stream().bytes() == answers_in(call);
    }
    Ok(false)
}

#[test]
fn a_connection_ends_at_each_call_that_fails(rt: HostRuntime) -> Result<(), Fail> {
    assert!(rt; each_read_fails(&rt, rt.alloc())?);
    assert!(rt; each_write_fails(&rt, rt.alloc())?);
    Ok(())
}

/// Serves a connection over streams that wait, and then stops the workers. The sink comes back.
fn serve<R: Wait>(
    rt: &R,
    alloc: Global,
    grid: &LiveGrid,
    session: SessionPass<LiveWorld>,
    said: MemorySource,
) -> (ConnectionEnd, Blocking<MemorySink>)
    requires fresh { IsFresh live_key (place_of grid.now) session none_seen }
    requires serves { ServesCalls RequestFits (place_of grid.now) }
    requires plans { All (λ cell. settings_for (plan_of cell) ≡ settings_in [] 10) (place_of grid.now).cells.items }
{
    let mut from = Blocking::new(said);
    let mut to = Blocking::new(MemorySink::in_pieces(Vec::new(alloc), MOST_HEARD));
    let place = grid.workplace();
    let mut clock = FixedClock::new(7);
    let env = environment(alloc);
    let (end, _) = serve_connection(
        rt, alloc, place, &env, &OpenGate, session, &mut from, &mut to, &mut clock,
    );
    place.stop();
    (end, to)
}

/// Serves a connection over streams that wait, beside a worker on another thread.
fn serve_waiting<R: Threads + Wait + Sync>(
    rt: &R,
    alloc: Global,
) -> Result<(ConnectionEnd, Blocking<MemorySink>), Memory> {
    let Live {
        grid,
        session,
        tokens,
    } = Live::open(alloc)?;
    let said = MemorySource::in_pieces(put_and_get(alloc)?, Vec::new(alloc), MOST_SAID);
    let (served, ()) = join(
        rt,
        || serve(rt, alloc, &grid, session, said),
        || -> ()
            requires { IsTokenAt (place_of grid) 9 tokens.queue × (tokens.held.items ≡ []) × All (λ cell. settings_for (plan_of cell) ≡ settings_in [] 10) (place_of grid).cells.items }
        { work(rt, alloc, &grid, tokens) },
    );
    Ok(served)
}

#[test]
fn a_put_and_a_get_over_streams_that_wait(rt: HostRuntime) -> Result<(), Fail> {
    let (end, to) = serve_waiting(&rt, rt.alloc())?;
    assert!(rt; matches!(end, ConnectionEnd::Ended));
    assert_eq!(rt; to.stream().bytes(), ANSWERS);
    Ok(())
}
