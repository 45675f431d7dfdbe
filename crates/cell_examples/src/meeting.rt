//! Two calls are held inside their turns on two cells, until each has seen the other there.
ghost use Rattle.std.specs.Prelude.{◌≡◌};
ghost use Rattle.hand_cell.specs.Calls.{IsPassOf};

use crate::counter::Counter;
use grid_base::Memory;
use hand_cell::{Cell, Pass};
use std::alloc::Global;
use std::sync::Wait;
use std::sync::atomic::{AtomicU64, Ordering};
use std::thread;
use std::thread::{Threads, join};

/// How often a call looks for the other before it gives up.
const LOOKS: u32 = 1_000_000;

/// Takes a turn, and stays in it until the other's mark is set or it gives up. Answers whether it saw the other.
fn meet_in_turn<R: Wait>(
    rt: &R,
    cell: &Cell<Counter>,
    pass: Pass<Counter>,
    mine: &AtomicU64,
    other: &AtomicU64,
) -> bool
    requires { IsPassOf cell.now pass }
{
    let turn = cell.enter(rt, pass);
    mine.store(1, Ordering::SeqCst);
    let met = sees(other);
    turn.leave();
    met
}

fn sees(mark: &AtomicU64) -> bool {
    for _ in 0..LOOKS {
        if mark.load(Ordering::SeqCst) == 1 {
            return true;
        }
        thread::yield_now();
    }
    false
}

/// Whether each of two calls, in turns on two cells, saw the other in its turn.
pub fn meet_in_turns<R: Threads + Wait + Sync>(
    rt: &R,
    alloc: Global,
) -> Result<(bool, bool), Memory> {
    let (here, my_pass) = Cell::new(alloc, Counter { count: 0 }, &())?;
    let (there, other_pass) = Cell::new(alloc, Counter { count: 0 }, &())?;
    let mine = AtomicU64::new(0);
    let other = AtomicU64::new(0);
    Ok(join(
        rt,
        || -> bool
            requires { IsPassOf here my_pass }
        { meet_in_turn(rt, &here, my_pass, &mine, &other) },
        || -> bool
            requires { IsPassOf there other_pass }
        { meet_in_turn(rt, &there, other_pass, &other, &mine) },
    ))
}
