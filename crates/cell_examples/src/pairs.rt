//! Two threads make one call each on one cell, and both are counted.
ghost use Rattle.std.specs.Prelude.{◌≡◌, ◌+◌, [], true, IfOk};
ghost use Rattle.hand_cell.specs.declared.names.Key.TheVariants.{Call};
ghost use Rattle.hand_cell.specs.Names.{has, IsNewKey};
ghost use Rattle.hand_cell.specs.Calls.{IsPassOf};
ghost use Rattle.cell_examples.specs.Counting.{key_of, Counts, one_if, call_of};

use crate::counter::{Count, Counter};
use grid_base::{CallId, Memory};
use hand_cell::{Cell, Names, Pass};
use std::alloc::Global;
use std::sync::Wait;
use std::thread::{Threads, join};

/// What two threads came to: the count at the end, and whether each one's call was run.
#[derive(Clone, Copy)]
pub struct Tally {
    pub count: u64,
    pub first: bool,
    pub second: bool,
}

/// The first call of a connection.
fn call_of(conn: u32) -> CallId
    ensures { result ≡ call_of conn }
{
    CallId { conn, number: 0 }
}

/// Makes one call in a turn of its own, and says whether it was run.
fn make_call<R: Wait>(
    rt: &R,
    alloc: Global,
    cell: &Cell<Counter>,
    pass: Pass<Counter>,
    call: CallId,
) -> (Pass<Counter>, bool)
    requires cell { IsPassOf cell.now pass }
    requires named { has pass.names (Call call) ≡ true }
    requires unused { IsNewKey key_of (Call call) pass.seen }
    ensures { Counts pass call result.1 result.0 }
{
    let mut turn = cell.enter(rt, pass);
    let ran = turn.run(alloc, &(), Count { call }).is_ok();
    (turn.leave(), ran)
}

/// Two threads make one call each on one cell; then their passes are joined, and the value is looked at.
pub fn count_both<R: Threads + Wait + Sync>(rt: &R, alloc: Global) -> Result<Tally, Memory>
    ensures { IfOk result (λ tally. tally.count ≡ one_if tally.first + one_if tally.second) }
{
    let (cell, mut pass) = Cell::new(alloc, Counter { count: 0 }, &())?;
    let one = cell.split(&mut pass, Names::One(1));
    let two = cell.split(&mut pass, Names::One(2));
    let ((one, first), (two, second)) = join(
        rt,
        || -> (Pass<Counter>, bool)
            requires { IsPassOf cell one × (has one.names (Call (call_of 1)) ≡ true) × (one.seen ≡ []) }
            ensures { Counts one (call_of 1) result.1 result.0 }
        { make_call(rt, alloc, &cell, one, call_of(1)) },
        || -> (Pass<Counter>, bool)
            requires { IsPassOf cell two × (has two.names (Call (call_of 2)) ≡ true) × (two.seen ≡ []) }
            ensures { Counts two (call_of 2) result.1 result.0 }
        { make_call(rt, alloc, &cell, two, call_of(2)) },
    );
    cell.join(&mut pass, one);
    cell.join(&mut pass, two);
    let turn = cell.enter(rt, pass);
    let count = turn.value().count;
    turn.leave();
    Ok(Tally {
        count,
        first,
        second,
    })
}
