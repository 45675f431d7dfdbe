//! Turns by turn cells.
ghost use Rattle.std.specs.Prelude.{◌≡◌};
ghost use Rattle.hand_cell.specs.Calls.{IsPassOf};

use crate::ticks::{Tick, Ticks};
use grid_base::Memory;
use hand_cell::{Cell, Names, Pass};
use std::alloc::Global;
use std::sync::Wait;
use std::thread::{Threads, join};

/// Takes so many turns.
fn take_turns<R: Wait>(rt: &R, alloc: Global, cell: &Cell<Ticks>, pass: Pass<Ticks>, turns: u32)
    requires { IsPassOf cell.now pass }
{
    let mut pass = pass;
    for _ in 0..turns {
        let mut turn = cell.enter(rt, pass);
        let _ = turn.run(alloc, &(), Tick);
        pass = turn.leave();
    }
}

/// Two threads take so many turns each.
fn take_by_two<R: Threads + Wait + Sync>(
    rt: &R,
    alloc: Global,
    one: &Cell<Ticks>,
    pass: Pass<Ticks>,
    two: &Cell<Ticks>,
    other: Pass<Ticks>,
    turns: u32,
)
    requires one { IsPassOf one.now pass }
    requires two { IsPassOf two.now other }
{
    join(
        rt,
        || -> ()
            requires { IsPassOf one.now pass }
        { take_turns(rt, alloc, one, pass, turns) },
        || -> ()
            requires { IsPassOf two.now other }
        { take_turns(rt, alloc, two, other, turns) },
    );
}

/// What the value has counted.
fn counted<R: Wait>(rt: &R, cell: &Cell<Ticks>, pass: Pass<Ticks>) -> u64
    requires { IsPassOf cell.now pass }
{
    let turn = cell.enter(rt, pass);
    let count = turn.value().count;
    turn.leave();
    count
}

/// One thread, on one cell.
pub fn one<R: Wait>(rt: &R, alloc: Global, turns: u32) -> Result<u64, Memory> {
    let (cell, mut pass) = Cell::new(alloc, Ticks { count: 0 }, &())?;
    let mine = cell.split(&mut pass, Names::Nothing);
    take_turns(rt, alloc, &cell, mine, turns);
    Ok(counted(rt, &cell, pass))
}

/// Four threads, on one cell.
pub fn shared<R: Threads + Wait + Sync>(rt: &R, alloc: Global, turns: u32) -> Result<u64, Memory> {
    let (cell, mut pass) = Cell::new(alloc, Ticks { count: 0 }, &())?;
    let a = cell.split(&mut pass, Names::Nothing);
    let b = cell.split(&mut pass, Names::Nothing);
    let c = cell.split(&mut pass, Names::Nothing);
    let d = cell.split(&mut pass, Names::Nothing);
    join(
        rt,
        || -> ()
            requires { IsPassOf cell a × IsPassOf cell b }
        { take_by_two(rt, alloc, &cell, a, &cell, b, turns) },
        || -> ()
            requires { IsPassOf cell c × IsPassOf cell d }
        { take_by_two(rt, alloc, &cell, c, &cell, d, turns) },
    );
    Ok(counted(rt, &cell, pass))
}

/// Two threads, each on its own cell.
fn apart_by_two<R: Threads + Wait + Sync>(
    rt: &R,
    alloc: Global,
    turns: u32,
) -> Result<u64, Memory> {
    let (here, mut my_pass) = Cell::new(alloc, Ticks { count: 0 }, &())?;
    let (there, mut other_pass) = Cell::new(alloc, Ticks { count: 0 }, &())?;
    let mine = here.split(&mut my_pass, Names::Nothing);
    let other = there.split(&mut other_pass, Names::Nothing);
    take_by_two(rt, alloc, &here, mine, &there, other, turns);
    let count = counted(rt, &here, my_pass);
    Ok(count.saturating_add(counted(rt, &there, other_pass)))
}

/// Four threads, each on its own cell.
pub fn apart<R: Threads + Wait + Sync>(rt: &R, alloc: Global, turns: u32) -> Result<u64, Memory> {
    let (a, b) = join(
        rt,
        || apart_by_two(rt, alloc, turns),
        || apart_by_two(rt, alloc, turns),
    );
    Ok(a?.saturating_add(b?))
}
