//! How an order is carried out on a live grid.
ghost use Rattle.std.specs.Prelude.{◌≡◌, ◌++◌, ◌<◌, List, ℕ, All, OnOk, OnErr};
ghost use Rattle.grid_base.specs.declared.TheConstants.{PARTITIONS};
ghost use Rattle.hand_cell.specs.Calls.{plan_of};
ghost use Rattle.live_grid.specs.Control.{IsPassOfGrid, HasControl, HasControlAt, CameToAt, CameToInAll};
ghost use Rattle.live_grid.specs.Grids.{place_of};
ghost use Rattle.replay_run.specs.Printing.{words_line};
ghost use Rattle.live_control.specs.Orders.{IsPlaced, event_of_step, event_of_fate};
ghost use Rattle.live_control.specs.Running.{exhausted_words, step_words, everywhere_words, HadMemory, MayServe, HasRun, HasTried};

use crate::orders::{Fate, Order, Step};
use grid_base::{Memory, PartitionId};
use hand_cell::{RunRefused, Runs};
use live_grid::{GridPass, LiveGrid, LiveWorld};
use partition_world::Happened;
use replay_run::{done_word, push_fate, push_happened, push_number, push_ok, push_text};
use std::alloc::{AllocError, Global};
use std::sync::Wait;

/// Runs an event of one partition.
fn run_step<N, R: Wait>(
    rt: &R,
    alloc: Global,
    grid: &LiveGrid,
    env: &N,
    pass: &mut GridPass,
    partition: PartitionId,
    step: Step,
) -> Result<Happened, RunRefused>
where
    LiveWorld: Runs<N>,
    requires placed { partition < PARTITIONS }
    requires env { All (λ cell. ⟦<LiveWorld as Runs<N>>⟧.means env.now (plan_of cell)) (place_of grid.now).cells.items }
    requires pass { MayServe grid.now pass.old }
    ensures came { CameToAt grid.now (event_of_step step) pass.old pass.new partition result }
    ensures kept { MayServe grid.now pass.new }
{
    match step {
        Step::Move { from, to } => grid.begin_move(rt, alloc, env, pass, partition, from, to),
        Step::Join { to } => grid.begin_join(rt, alloc, env, pass, partition, to),
        Step::Handover { from, to } => {
            grid.begin_handover(rt, alloc, env, pass, partition, from, to)
        }
        Step::Advance => grid.advance(rt, alloc, env, pass, partition),
        Step::Reopen => grid.reopen(rt, alloc, env, pass, partition),
        Step::Resend { end } => grid.resend(rt, alloc, env, pass, partition, end),
    }
}

/// Runs an event in all partitions.
fn run_fate<N, R: Wait>(
    rt: &R,
    alloc: Global,
    grid: &LiveGrid,
    env: &N,
    pass: &mut GridPass,
    fate: Fate,
) -> Result<Happened, RunRefused>
where
    LiveWorld: Runs<N>,
    requires env { All (λ cell. ⟦<LiveWorld as Runs<N>>⟧.means env.now (plan_of cell)) (place_of grid.now).cells.items }
    requires pass { MayServe grid.now pass.old }
    ensures came { CameToInAll grid.now (event_of_fate fate) pass.old pass.new result }
    ensures kept { MayServe grid.now pass.new }
{
    match fate {
        Fate::Crash(member) => grid.crash(rt, alloc, env, pass, member),
        Fate::Detect(member) => grid.detect(rt, alloc, env, pass, member),
    }
}

/// Appends that a line's event met a history at its limit.
fn push_exhausted(out: &mut Vec<u8>, number: u32) -> Result<(), Memory>
    ensures { OnOk result (out.new.items ≡ out.old.items ++ words_line number exhausted_words) }
{
    push_number(out, u64::from(number))?;
    push_text(out, b"refused exhausted")?;
    push_text(out, b"\n")
}

/// Appends what an event of one partition came to.
fn push_step(
    out: &mut Vec<u8>,
    number: u32,
    step: Step,
    came: Result<Happened, RunRefused>,
) -> Result<(), Memory>
    ensures text { OnOk result (out.new.items ≡ out.old.items ++ words_line number (step_words step came)) }
    ensures memory { OnOk result (HadMemory came) }
{
    match came {
        Ok(happened) => push_happened(out, number, done_word(&step.event()), happened),
        Err(RunRefused::Exhausted { .. }) => push_exhausted(out, number),
        Err(RunRefused::Memory) => Err(AllocError),
    }
}

/// Appends what an event came to in all partitions.
fn push_everywhere(
    out: &mut Vec<u8>,
    number: u32,
    came: Result<Happened, RunRefused>,
) -> Result<(), Memory>
    ensures text { OnOk result (out.new.items ≡ out.old.items ++ words_line number (everywhere_words came)) }
    ensures memory { OnOk result (HadMemory came) }
{
    match came {
        Ok(happened) => push_fate(out, number, happened),
        Err(RunRefused::Exhausted { .. }) => push_exhausted(out, number),
        Err(RunRefused::Memory) => Err(AllocError),
    }
}

/// Carries out the order of the line with that number, and appends its text.
pub(crate) fn run_order<N, R: Wait>(
    rt: &R,
    alloc: Global,
    grid: &LiveGrid,
    env: &N,
    pass: &mut GridPass,
    number: u32,
    order: Order,
    out: &mut Vec<u8>,
) -> Result<(), Memory>
where
    LiveWorld: Runs<N>,
    requires placed { IsPlaced order }
    requires env { All (λ cell. ⟦<LiveWorld as Runs<N>>⟧.means env.now (plan_of cell)) (place_of grid.now).cells.items }
    requires pass { MayServe grid.now pass.old }
    ensures ran { OnOk result ((own : List ℕ) × (out.new.items ≡ out.old.items ++ own) × HasRun grid.now pass.old pass.new number order own) }
    ensures tried { HasTried grid.now pass.old pass.new order }
    ensures kept { MayServe grid.now pass.new }
{
    match order {
        Order::Comment | Order::End => push_ok(out, number),
        Order::Everywhere(fate) => {
            let came = run_fate(rt, alloc, grid, env, pass, fate);
            push_everywhere(out, number, came)
        }
        Order::In(partition, step) => {
            let came = run_step(rt, alloc, grid, env, pass, partition, step);
            push_step(out, number, step, came)
        }
    }
}
