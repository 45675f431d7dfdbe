//! How the sessions are opened, and taken back.
ghost use Rattle.std.specs.Prelude.{◌≡◌, ◌≤◌, length, map, IfOk, OnOk};
ghost use Rattle.hand_cell.specs.Calls.{first_pass};
ghost use Rattle.live_grid.specs.Grids.{IsGridPassOf, place_of};
ghost use Rattle.counted_calls.specs.Callers.{MayAllMake, HaveAllMade};
ghost use Rattle.counted_calls.specs.Gathered.{HasGathered};

use crate::requests::{LEADER, SESSIONS};
use crate::stage::Stage;
use crate::threads::Caller;
use grid_base::Memory;
use live_grid::{Environment, GridPass};
use std::alloc::AllocError;

/// A session of each connection at the leader, of a grid in which nothing has happened.
pub(crate) fn open_callers<N: Environment>(
    stage: &Stage<N>,
    pass: &mut GridPass,
) -> Result<Vec<Caller>, Memory>
    requires of_grid { IsGridPassOf stage.now.grid pass.old }
    requires first { pass.old.passes.items ≡ map (λ cell. first_pass cell) (place_of stage.now.grid).cells.items }
    requires count { length (place_of stage.now.grid).cells.items ≡ 271 }
    requires tokens { 12 ≤ length pass.old.tokens.items }
    ensures callers { IfOk result (λ callers. MayAllMake stage.now.grid stage.now.key callers.items) }
    ensures many { IfOk result (λ callers. length callers.items ≡ SESSIONS) }
    ensures none { OnOk result (HasGathered stage.now.grid stage.now.key SESSIONS 0 pass.new) }
    ensures kept { IsGridPassOf stage.now.grid pass.new }
    ensures tokens_stay { pass.new.tokens.items ≡ pass.old.tokens.items }
{
    let mut callers = Vec::with_capacity(stage.alloc, SESSIONS as usize)?;
    for conn in 0..SESSIONS {
        let session = stage.grid.session(stage.alloc, pass, conn, LEADER)?;
        callers.push(Caller {
            session,
            came: Err(AllocError),
        })?;
    }
    Ok(callers)
}

/// Takes the sessions back once all have made their calls. Tells how many calls were answered by their object, if each
/// session found memory.
pub(crate) fn take_back<N: Environment>(
    stage: &Stage<N>,
    pass: &mut GridPass,
    callers: Vec<Caller>,
) -> Result<u32, Memory>
    requires of_grid { IsGridPassOf stage.now.grid pass.old }
    requires none { HasGathered stage.now.grid stage.now.key SESSIONS 0 pass.old }
    requires made { HaveAllMade stage.now.grid stage.now.key callers.items }
    requires many { length callers.items ≡ SESSIONS }
    ensures gathered { IfOk result (λ answered. HasGathered stage.now.grid stage.now.key 0 answered pass.new) }
    ensures kept { IsGridPassOf stage.now.grid pass.new }
{
    let mut answered = 0;
    let mut left = callers;
    while let Some(caller) = left.pop() {
        let Caller { session, came } = caller;
        let count = came?;
        answered += count;
        stage.grid.join(pass, session);
    }
    Ok(answered)
}
