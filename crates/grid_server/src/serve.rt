//! The command `serve`.
ghost use Rattle.std.specs.Prelude.{◌≡◌, ◌⊎◌, ◌≤◌, ◌+◌, ◌*◌, [], All, List, map, Some, None, OnOk, OnErr, IfOk, IfErr, IsSomeAnd, IfSome, IfNone};
ghost use Rattle.entry_processors.specs.Forms.{form_of};
ghost use Rattle.entry_processors.specs.declared.form.Form.{Form as FormOf};
ghost use Rattle.grid_cli.specs.declared.status.Status.TheVariants.{DoorFault as FaultOfDoors};
ghost use Rattle.grid_edge.specs.Faults.{HasCause};
ghost use Rattle.hand_cell.specs.Calls.{plan_of};
ghost use Rattle.live_grid.specs.Grids.{place_of};
ghost use Rattle.live_grid.specs.Plans.{settings_for};
ghost use Rattle.grid_server.specs.Commands.{HasEnded, IsNoGridFor, IsShut, NoneCame};
ghost use Rattle.grid_server.specs.Serving.{AtDoors, HasServed, IsOpened, operator, at_doors};
ghost use Rattle.grid_server.specs.Settings.{IsSetting};
ghost use Rattle.serve_options.specs.Options.{Words, IsRefusedFor, faults};

use crate::ended::Ended;
use crate::setting::Setting;
use crate::stage::Stage;
use crate::threads::run_threads;
use crate::waking::WakingGate;
use call_engine::GridEnv;
use entry_processors::{Form, Processor, Registry};
use grid_cli::Status;
use grid_edge::{Clock, DoorFault, Doors, Sink, Source};
use live_grid::{Environment, GridPass, LiveWorld, Shared};
use live_server::{
    Closed, every_answer_before_a_call_stands_first, every_noted_order_stays_so,
    every_served_connection_stays_so,
};
use partition_threads::{Gate, OpenGate, THREADS};
use serve_options::{OptionsRefused, ServeOptions, read_options};
use served_history_laws::every_served_call_stands_in_a_legal_history;
use std::alloc::Global;
use std::sync::Wait;
use std::thread::Threads;
use thread_crew::{Room, room_for};

/// How a server ended whose script was told to be done so: as that, with the closing as it was seen, or by a fault of its doors.
fn ending<D>(told: Status, ended: Result<Closed<D>, DoorFault>) -> (Status, Option<Closed<D>>)
    ensures closed { IfOk ended (λ closed. (result.0 ≡ told) × (result.1 ≡ Some closed)) }
    ensures fault { OnErr ended ((result.0 ≡ FaultOfDoors) × (result.1 ≡ None)) }
{
    match ended {
        Ok(closed) => (told, Some(closed)),
        Err(DoorFault) => (Status::DoorFault, None),
    }
}

/// Runs a server on its threads to its end, in a setting in which nothing has happened. The doors were just opened. Where a thread
/// can't be made it doesn't look at the script, and if it's one of a worker it does nothing.
fn run<N, R, S, K, C, D, G>(
    rt: &R,
    alloc: Global,
    options: ServeOptions,
    env: Shared<N>,
    setting: Setting<D::From, D::To>,
    script: &mut S,
    out: &mut K,
    clock: &mut C,
    doors: &mut D,
    gate: &G,
    waker: D::Waker,
) -> Option<Ended<D>>
where
    N: Environment,
    R: Threads + Wait + Sync,
    S: Source,
    K: Sink,
    C: Clock + Send,
    D: Doors<From: Drop, To: Drop, Waker: Drop>,
    G: Gate,
    requires some { 1 ≤ options.members }
    requires most { options.members ≤ 8 }
    requires env { All (λ cell. N.settings env.env ≡ settings_for (plan_of cell)) (place_of setting.grid).cells.items }
    requires setting { (forms : List FormOf) × IsSetting options forms setting }
    requires doors { IsOpened options (D.book doors.old) }
    ensures served { IfSome result (λ ended. (forms : List FormOf) → IsSetting options forms setting → IsSomeAnd ended.grid (λ held.
        HasServed D.empty_looks options forms (C.given clock.new)
        (operator (S.given script.old) (S.faults script.old) (K.taken out.old) (K.faults out.old))
        (operator (S.given script.new) (S.faults script.new) (K.taken out.new) (K.faults out.new))
        (at_doors (D.book doors.old) (D.empty_looks doors.old) (D.faults doors.old))
        (at_doors (D.book doors.new) (D.empty_looks doors.new) (D.faults doors.new))
        ended.status held.0 held.1 ended.journal ended.closed)) }
    ensures untouched { IfNone result (operator (S.given script.new) (S.faults script.new) (K.taken out.new) (K.faults out.new)
        ≡ operator (S.given script.old) (S.faults script.old) (K.taken out.old) (K.faults out.old)) }
    ensures none_came { IfNone result ((D.book doors.new).arrivals ≡ []) }
{
    let Setting {
        grid,
        pass: GridPass { passes, tokens },
        workers,
        mut connections,
    } = setting;
    let mut pass = GridPass {
        passes,
        tokens: Vec::new(alloc),
    };
    let stage = Stage::new(alloc, options, grid, env, waker);
    let waking = WakingGate {
        gate,
        waker: &stage.waker,
    };
    let ran = run_threads(
        rt,
        &stage,
        clock,
        &waking,
        workers,
        &mut connections,
        doors,
        &mut pass,
        script,
        out,
    );
    let Some((ended, told)) = ran else {
        return None;
    };
    let grid = stage.into_grid();
    let GridPass { passes, .. } = pass;
    let mut pass = GridPass { passes, tokens };
    let (passes, tokens, journal) = connections.into_parts();
    grid.gather(&mut pass, GridPass { passes, tokens });
    every_served_connection_stays_so::<LiveWorld>();
    every_noted_order_stays_so::<LiveWorld>();
    every_answer_before_a_call_stands_first::<LiveWorld>();
    every_served_call_stands_in_a_legal_history();
    let (status, closed) = ending(told, ended);
    Some(Ended {
        status,
        grid: Some((grid, pass)),
        journal,
        closed,
    })
}

/// Opens the doors for the members, and gives what wakes who waits there. There is room for the server's threads.
fn open<D: Doors>(doors: &mut D, options: ServeOptions, _room: &Room) -> Result<D::Waker, DoorFault>
    requires room { _room.now.threads ≡ 4 * options.members + 1 }
    requires some { 1 ≤ options.members }
    requires most { options.members ≤ 8 }
    requires port { options.port ≤ 65528 }
    ensures ok { OnOk result (IsOpened options (D.book doors.new)) }
    ensures err { OnErr result (((D.book doors.new).arrivals ≡ []) ⊎ (D.book doors.new ≡ D.book doors.old)) }
    ensures looks { D.empty_looks doors.new ≡ D.empty_looks doors.old }
    ensures cause { HasCause (D.faults doors.old) (D.faults doors.new) result }
{
    doors.open(options.members, options.port)?;
    doors.waker()
}

/// Opens the doors as `open` does, if there is room for the threads of a server beside the one that it begins with: those of its
/// workers, and one for its clients.
fn open_with_room<R: Threads + Wait + Sync, D: Doors>(
    rt: &R,
    alloc: Global,
    doors: &mut D,
    options: ServeOptions,
) -> Result<D::Waker, Status>
    requires some { 1 ≤ options.members }
    requires most { options.members ≤ 8 }
    requires port { options.port ≤ 65528 }
    ensures ok { OnOk result (IsOpened options (D.book doors.new)) }
    ensures looks { D.empty_looks doors.new ≡ D.empty_looks doors.old }
    ensures never_falls { D.faults doors.old ≤ D.faults doors.new }
    ensures none_came { OnErr result (NoneCame
        (at_doors (D.book doors.old) (D.empty_looks doors.old) (D.faults doors.old))
        (at_doors (D.book doors.new) (D.empty_looks doors.new) (D.faults doors.new))) }
    ensures err { IfErr result (λ status. IsShut status
        (at_doors (D.book doors.old) (D.empty_looks doors.old) (D.faults doors.old))
        (at_doors (D.book doors.new) (D.empty_looks doors.new) (D.faults doors.new))) }
{
    let threads = THREADS * usize::from(options.members) + 1;
    let Some(room) = room_for(rt, alloc, threads) else {
        return Err(Status::Memory);
    };
    match open(doors, options, &room) {
        Ok(waker) => Ok(waker),
        Err(DoorFault) => Err(Status::DoorFault),
    }
}

/// How a command ends whose words are no options. Who asks for help is to have it before.
fn status_of(refused: OptionsRefused) -> Status
    ensures { (words : Words) (outside closed : AtDoors) → IsRefusedFor (faults words) refused → IsNoGridFor result words outside closed }
{
    match refused {
        OptionsRefused::Help | OptionsRefused::Usage => Status::Usage,
        OptionsRefused::Memory => Status::Memory,
    }
}

/// Serves clients as `serve_command` does. The gate is called as calls are run.
pub fn serve_gated<R, S, K, C, D, G>(
    rt: &R,
    alloc: Global,
    words: &[String],
    processors: Vec<Box<dyn Processor>>,
    forms: &[Form],
    script: &mut S,
    out: &mut K,
    clock: &mut C,
    doors: &mut D,
    gate: &G,
) -> Ended<D>
where
    R: Threads + Wait + Sync,
    S: Source,
    K: Sink,
    C: Clock + Send,
    D: Doors<From: Drop, To: Drop, Waker: Drop>,
    G: Gate,
    requires forms { map form processors.items ≡ map form_of forms.now }
    ensures { HasEnded D.empty_looks words.now forms.now (C.given clock.new)
        (operator (S.given script.old) (S.faults script.old) (K.taken out.old) (K.faults out.old))
        (operator (S.given script.new) (S.faults script.new) (K.taken out.new) (K.faults out.new))
        (at_doors (D.book doors.old) (D.empty_looks doors.old) (D.faults doors.old))
        (at_doors (D.book doors.new) (D.empty_looks doors.new) (D.faults doors.new)) result }
{
    let options = match read_options(alloc, words) {
        Ok(options) => options,
        Err(refused) => return Ended::without_grid(status_of(refused)),
    };
    let env = Shared {
        env: GridEnv {
            registry: Registry::new(processors),
            capacity: options.capacity,
        },
    };
    let Ok(setting) = Setting::new(alloc, options, &env, forms) else {
        return Ended::without_grid(Status::Memory);
    };
    let waker = match open_with_room(rt, alloc, doors, options) {
        Ok(waker) => waker,
        Err(status) => return Ended::without_grid(status),
    };
    let ran = run(
        rt, alloc, options, env, setting, script, out, clock, doors, gate, waker,
    );
    let Some(ended) = ran else {
        return Ended::without_grid(Status::Memory);
    };
    ended
}

/// Serves clients that come through the doors, and reads a control script meanwhile. The words are `serve` and options.
pub fn serve_command<R, S, K, C, D>(
    rt: &R,
    alloc: Global,
    words: &[String],
    processors: Vec<Box<dyn Processor>>,
    forms: &[Form],
    script: &mut S,
    out: &mut K,
    clock: &mut C,
    doors: &mut D,
) -> Ended<D>
where
    R: Threads + Wait + Sync,
    S: Source,
    K: Sink,
    C: Clock + Send,
    D: Doors<From: Drop, To: Drop, Waker: Drop>,
    requires forms { map form processors.items ≡ map form_of forms.now }
    ensures { HasEnded D.empty_looks words.now forms.now (C.given clock.new)
        (operator (S.given script.old) (S.faults script.old) (K.taken out.old) (K.faults out.old))
        (operator (S.given script.new) (S.faults script.new) (K.taken out.new) (K.faults out.new))
        (at_doors (D.book doors.old) (D.empty_looks doors.old) (D.faults doors.old))
        (at_doors (D.book doors.new) (D.empty_looks doors.new) (D.faults doors.new)) result }
{
    serve_gated(
        rt, alloc, words, processors, forms, script, out, clock, doors, &OpenGate,
    )
}
