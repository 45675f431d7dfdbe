//! The threads of a server.
ghost use Rattle.std.specs.Prelude.{◌≡◌, ◌≤◌, IfSome, IfNone};
ghost use Rattle.call_engine.specs.Limits.{RequestFits};
ghost use Rattle.live_grid.specs.Grids.{place_of};
ghost use Rattle.live_grid.specs.Histories.{live_key};
ghost use Rattle.live_control.specs.Running.{MayServe as MayControl};
ghost use Rattle.live_server.specs.Standing.{MayServe};
ghost use Rattle.live_session.specs.Connections.{ServesCalls};
ghost use Rattle.grid_server.specs.Settings.{IsWorker, AreWorkers};
ghost use Rattle.grid_server.specs.Serving.{operator, at_doors};
ghost use Rattle.grid_server.specs.Tasks.{MayMeet, HasServedClients, HasOperated, HasMet};

use crate::desk::operate;
use crate::hall::serve_hall;
use crate::setting::Worker;
use crate::stage::Stage;
use crate::working::run_worker;
use grid_cli::Status;
use grid_edge::{Clock, DoorFault, Doors, Sink, Source};
use live_grid::{Environment, GridPass, LiveWorld};
use live_server::{Closed, Connections};
use partition_threads::Gate;
use std::sync::Wait;
use std::thread::Threads;
use thread_crew::{join_told, with_crew};

/// Serves clients on a thread of its own, and the operator on this one. Where no such thread can be made the operator isn't heard, and
/// those clients alone are served that have come by then.
fn serve_both<N, R, S, K, C, D, G>(
    rt: &R,
    stage: &Stage<N, D::Waker>,
    clock: &mut C,
    gate: &G,
    connections: &mut Connections<LiveWorld, D::From, D::To>,
    doors: &mut D,
    pass: &mut GridPass,
    script: &mut S,
    out: &mut K,
) -> (Result<Closed<D>, DoorFault>, Status)
where
    N: Environment,
    R: Threads + Wait + Sync,
    S: Source,
    K: Sink,
    C: Clock + Send,
    D: Doors,
    G: Gate,
    requires { MayMeet stage.now.options stage.now.grid (D.book doors.old) connections.old pass.old }
    ensures served { HasServedClients D.empty_looks stage.now.grid (C.given clock.new) connections.new
        (at_doors (D.book doors.old) (D.empty_looks doors.old) (D.faults doors.old))
        (at_doors (D.book doors.new) (D.empty_looks doors.new) (D.faults doors.new)) result.0 }
    ensures operated { HasOperated stage.now.grid stage.now.options.members result.1
        (operator (S.given script.old) (S.faults script.old) (K.taken out.old) (K.faults out.old))
        (operator (S.given script.new) (S.faults script.new) (K.taken out.new) (K.faults out.new))
        pass.old pass.new }
{
    let mut serving = || -> Result<Closed<D>, DoorFault>
        requires { ServesCalls RequestFits (place_of stage.now.grid) × MayServe live_key (place_of stage.now.grid) connections.now (D.book doors.now) }
    { serve_hall(rt, stage, gate, clock, connections, doors) };
    let mut operating = |is_served: bool| -> Status
        requires { (1 ≤ stage.now.options.members) × (stage.now.options.members ≤ 8) × MayControl stage.now.grid pass.now }
    { operate(rt, stage, pass, script, out, is_served) };
    let (_, ended, told) = join_told(rt, &mut serving, &mut operating);
    (ended, told)
}

/// Serves clients and the operator, if each worker runs.
fn serve_if_whole<N, R, S, K, C, D, G>(
    rt: &R,
    stage: &Stage<N, D::Waker>,
    clock: &mut C,
    gate: &G,
    connections: &mut Connections<LiveWorld, D::From, D::To>,
    doors: &mut D,
    pass: &mut GridPass,
    script: &mut S,
    out: &mut K,
    is_whole: bool,
) -> Option<(Result<Closed<D>, DoorFault>, Status)>
where
    N: Environment,
    R: Threads + Wait + Sync,
    S: Source,
    K: Sink,
    C: Clock + Send,
    D: Doors,
    G: Gate,
    requires { MayMeet stage.now.options stage.now.grid (D.book doors.old) connections.old pass.old }
    ensures { HasMet D.empty_looks stage.now.grid (C.given clock.new) stage.now.options.members connections.new
        (at_doors (D.book doors.old) (D.empty_looks doors.old) (D.faults doors.old))
        (at_doors (D.book doors.new) (D.empty_looks doors.new) (D.faults doors.new))
        (operator (S.given script.old) (S.faults script.old) (K.taken out.old) (K.faults out.old))
        (operator (S.given script.new) (S.faults script.new) (K.taken out.new) (K.faults out.new))
        pass.old pass.new result }
{
    if !is_whole {
        return None;
    }
    Some(serve_both(
        rt,
        stage,
        clock,
        gate,
        connections,
        doors,
        pass,
        script,
        out,
    ))
}

/// Serves clients and the operator, if each worker runs, and then has the workers end.
fn serve_front<N, R, S, K, C, D, G>(
    rt: &R,
    stage: &Stage<N, D::Waker>,
    clock: &mut C,
    gate: &G,
    connections: &mut Connections<LiveWorld, D::From, D::To>,
    doors: &mut D,
    pass: &mut GridPass,
    script: &mut S,
    out: &mut K,
    is_whole: bool,
) -> Option<(Result<Closed<D>, DoorFault>, Status)>
where
    N: Environment,
    R: Threads + Wait + Sync,
    S: Source,
    K: Sink,
    C: Clock + Send,
    D: Doors,
    G: Gate,
    requires { MayMeet stage.now.options stage.now.grid (D.book doors.old) connections.old pass.old }
    ensures { HasMet D.empty_looks stage.now.grid (C.given clock.new) stage.now.options.members connections.new
        (at_doors (D.book doors.old) (D.empty_looks doors.old) (D.faults doors.old))
        (at_doors (D.book doors.new) (D.empty_looks doors.new) (D.faults doors.new))
        (operator (S.given script.old) (S.faults script.old) (K.taken out.old) (K.faults out.old))
        (operator (S.given script.new) (S.faults script.new) (K.taken out.new) (K.faults out.new))
        pass.old pass.new result }
{
    let ended = serve_if_whole(
        rt,
        stage,
        clock,
        gate,
        connections,
        doors,
        pass,
        script,
        out,
        is_whole,
    );
    stage.grid.workplace().stop();
    ended
}

/// Runs the workers beside all that meets the outside.
fn run_crew<N, R, S, K, C, D, G>(
    rt: &R,
    stage: &Stage<N, D::Waker>,
    clock: &mut C,
    gate: &G,
    workers: Vec<Worker>,
    connections: &mut Connections<LiveWorld, D::From, D::To>,
    doors: &mut D,
    pass: &mut GridPass,
    script: &mut S,
    out: &mut K,
) -> Option<(Result<Closed<D>, DoorFault>, Status)>
where
    N: Environment,
    R: Threads + Wait + Sync,
    S: Source,
    K: Sink,
    C: Clock + Send,
    D: Doors,
    G: Gate,
    requires workers { AreWorkers (place_of stage.now.grid) workers.items }
    requires front { MayMeet stage.now.options stage.now.grid (D.book doors.old) connections.old pass.old }
    ensures { HasMet D.empty_looks stage.now.grid (C.given clock.new) stage.now.options.members connections.new
        (at_doors (D.book doors.old) (D.empty_looks doors.old) (D.faults doors.old))
        (at_doors (D.book doors.new) (D.empty_looks doors.new) (D.faults doors.new))
        (operator (S.given script.old) (S.faults script.old) (K.taken out.old) (K.faults out.old))
        (operator (S.given script.new) (S.faults script.new) (K.taken out.new) (K.faults out.new))
        pass.old pass.new result }
{
    let work = |worker: Worker|
        requires { IsWorker (place_of stage.now.grid) worker }
    { run_worker(rt, stage, gate, worker) };
    let mut meeting = |is_whole: bool| -> Option<(Result<Closed<D>, DoorFault>, Status)>
        requires { MayMeet stage.now.options stage.now.grid (D.book doors.now) connections.now pass.now }
    {
        serve_front(
            rt,
            stage,
            clock,
            gate,
            connections,
            doors,
            pass,
            script,
            out,
            is_whole,
        )
    };
    let (_, ended) = with_crew(rt, stage.alloc, workers, &work, &mut meeting);
    ended
}

/// Runs the workers beside all that meets the outside. Where a thread can't be made the operator isn't heard, and if it's one of a worker
/// nothing is done.
pub(crate) fn run_threads<N, R, S, K, C, D, G>(
    rt: &R,
    stage: &Stage<N, D::Waker>,
    clock: &mut C,
    gate: &G,
    workers: Vec<Worker>,
    connections: &mut Connections<LiveWorld, D::From, D::To>,
    doors: &mut D,
    pass: &mut GridPass,
    script: &mut S,
    out: &mut K,
) -> Option<(Result<Closed<D>, DoorFault>, Status)>
where
    N: Environment,
    R: Threads + Wait + Sync,
    S: Source,
    K: Sink,
    C: Clock + Send,
    D: Doors,
    G: Gate,
    requires workers { AreWorkers (place_of stage.now.grid) workers.items }
    requires front { MayMeet stage.now.options stage.now.grid (D.book doors.old) connections.old pass.old }
    ensures served { IfSome result (λ ended. HasServedClients D.empty_looks stage.now.grid (C.given clock.new) connections.new
        (at_doors (D.book doors.old) (D.empty_looks doors.old) (D.faults doors.old))
        (at_doors (D.book doors.new) (D.empty_looks doors.new) (D.faults doors.new)) ended.0) }
    ensures operated { IfSome result (λ ended. HasOperated stage.now.grid stage.now.options.members ended.1
        (operator (S.given script.old) (S.faults script.old) (K.taken out.old) (K.faults out.old))
        (operator (S.given script.new) (S.faults script.new) (K.taken out.new) (K.faults out.new))
        pass.old pass.new) }
    ensures untouched { IfNone result (operator (S.given script.new) (S.faults script.new) (K.taken out.new) (K.faults out.new)
        ≡ operator (S.given script.old) (S.faults script.old) (K.taken out.old) (K.faults out.old)) }
    ensures none_came { IfNone result (at_doors (D.book doors.new) (D.empty_looks doors.new) (D.faults doors.new)
        ≡ at_doors (D.book doors.old) (D.empty_looks doors.old) (D.faults doors.old)) }
{
    run_crew(
        rt,
        stage,
        clock,
        gate,
        workers,
        connections,
        doors,
        pass,
        script,
        out,
    )
}
