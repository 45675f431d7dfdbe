//! The side of a server that its operator meets.
ghost use Rattle.std.specs.Prelude.{◌≤◌};
ghost use Rattle.live_control.specs.Running.{MayServe};
ghost use Rattle.grid_server.specs.Serving.{operator};
ghost use Rattle.grid_server.specs.Tasks.{HasOperated};

use crate::stage::Stage;
use grid_cli::Status;
use grid_edge::{Sink, Source, Wakes};
use live_control::serve_control;
use live_grid::{Environment, GridPass};
use std::sync::Wait;

/// Runs the control script.
fn run_script<N: Environment, S: Source, K: Sink, W: Wakes, R: Wait>(
    rt: &R,
    stage: &Stage<N, W>,
    pass: &mut GridPass,
    script: &mut S,
    out: &mut K,
) -> Status
    requires some { 1 ≤ stage.now.options.members }
    requires most { stage.now.options.members ≤ 8 }
    requires pass { MayServe stage.now.grid pass.old }
    ensures { HasOperated stage.now.grid stage.now.options.members result
        (operator (S.given script.old) (S.faults script.old) (K.taken out.old) (K.faults out.old))
        (operator (S.given script.new) (S.faults script.new) (K.taken out.new) (K.faults out.new))
        pass.old pass.new }
{
    let (grid, members) = (&stage.grid, stage.options.members);
    serve_control(
        rt,
        stage.alloc,
        grid,
        members,
        &stage.env,
        pass,
        script,
        out,
    )
}

/// Runs the control script, if clients are served meanwhile. Where they aren't, it isn't looked at, as where memory is wanting.
fn run_if_served<N: Environment, S: Source, K: Sink, W: Wakes, R: Wait>(
    rt: &R,
    stage: &Stage<N, W>,
    pass: &mut GridPass,
    script: &mut S,
    out: &mut K,
    is_served: bool,
) -> Status
    requires some { 1 ≤ stage.now.options.members }
    requires most { stage.now.options.members ≤ 8 }
    requires pass { MayServe stage.now.grid pass.old }
    ensures { HasOperated stage.now.grid stage.now.options.members result
        (operator (S.given script.old) (S.faults script.old) (K.taken out.old) (K.faults out.old))
        (operator (S.given script.new) (S.faults script.new) (K.taken out.new) (K.faults out.new))
        pass.old pass.new }
{
    if is_served {
        return run_script(rt, stage, pass, script, out);
    }
    Status::Memory
}

/// Hears the operator, as `run_if_served` does, and has the server end behind the script, unless it stays, and at once where no clients
/// are served.
pub(crate) fn operate<N: Environment, S: Source, K: Sink, W: Wakes, R: Wait>(
    rt: &R,
    stage: &Stage<N, W>,
    pass: &mut GridPass,
    script: &mut S,
    out: &mut K,
    is_served: bool,
) -> Status
    requires some { 1 ≤ stage.now.options.members }
    requires most { stage.now.options.members ≤ 8 }
    requires pass { MayServe stage.now.grid pass.old }
    ensures { HasOperated stage.now.grid stage.now.options.members result
        (operator (S.given script.old) (S.faults script.old) (K.taken out.old) (K.faults out.old))
        (operator (S.given script.new) (S.faults script.new) (K.taken out.new) (K.faults out.new))
        pass.old pass.new }
{
    let status = run_if_served(rt, stage, pass, script, out, is_served);
    if !is_served || !stage.options.stays {
        stage.closing.close();
        stage.waker.wake();
    }
    status
}
