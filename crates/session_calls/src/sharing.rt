//! Passes of all cells of a workplace, and tokens of its workers, shared out and taken back place by place.
ghost use Rattle.std.specs.Prelude.{◌≡◌, ℕ, ◌<◌, ◌≤◌, ◌+◌, length, map, Some, slice_get, vec_len, IfOk, OnOk, OnErr};
ghost use Rattle.job_queues.specs.Roster.{roster_of};
ghost use Rattle.partition_threads.specs.Workplaces.{AreTokensAt};
ghost use Rattle.session_calls.specs.Passes.{ArePassesOf, MayGiveAt, HasSplitAt, HasJoinedAt, AreJoinedWith, AreTokensFrom, giving_up, given};

use grid_base::Memory;
use hand_cell::{Names, Pass, Served};
use job_queues::QueuePass;
use partition_threads::Workplace;
use std::alloc::Global;

/// Splits a second pass off each of these, one of each cell. It has seen as much, and gets these names, which the first
/// loses. Takes memory for as many passes, and without it nothing has changed. Costs the cells.
pub fn split_passes<T: Served>(
    alloc: Global,
    place: &Workplace<T>,
    passes: &mut Vec<Pass<T>>,
    names: Names,
) -> Result<Vec<Pass<T>>, Memory>
    requires passes { ArePassesOf place.now.cells.items passes.old.items }
    requires may { (at : ℕ) → MayGiveAt names passes.old.items at }
    ensures parts { IfOk result (λ parts. parts.items ≡ map (given names) passes.old.items) }
    ensures left { OnOk result (passes.new.items ≡ map (giving_up names) passes.old.items) }
    ensures err { OnErr result (passes.new.items ≡ passes.old.items) }
    ensures of_cells { IfOk result (λ parts. ArePassesOf place.now.cells.items parts.items) }
    ensures kept { ArePassesOf place.now.cells.items passes.new.items }
{
    let mut parts = Vec::with_capacity(alloc, passes.len())?;
    for at in 0..passes.len() {
        parts.push_reserved(split_at(place, passes, at, names));
    }
    Ok(parts)
}

/// Joins other passes, one of each cell, to these, each to the one of its cell, as `Cell::join` does. Takes no memory.
/// Costs the cells, and waits for nobody.
pub fn join_passes<T: Served>(place: &Workplace<T>, passes: &mut Vec<Pass<T>>, others: Vec<Pass<T>>)
    requires passes { ArePassesOf place.now.cells.items passes.old.items }
    requires others { ArePassesOf place.now.cells.items others.items }
    ensures joined { AreJoinedWith T.key_of passes.old.items (map (λ other. Some other) others.items) passes.new.items }
    ensures kept { ArePassesOf place.now.cells.items passes.new.items }
{
    let mut left = others;
    while let Some(other) = left.pop() {
        join_at(place, passes, left.len(), other);
    }
}

/// A second token of the queue of each of so many workers, from a first one on. Takes memory for as many tokens.
pub fn split_tokens<T: Served>(
    alloc: Global,
    place: &Workplace<T>,
    tokens: &mut Vec<QueuePass<T>>,
    first: usize,
    count: usize,
) -> Result<Vec<QueuePass<T>>, Memory>
    requires tokens { AreTokensAt place.now tokens.old.items }
    requires workers { first + count ≤ length tokens.old.items }
    ensures stay { tokens.new.items ≡ tokens.old.items }
    ensures count { IfOk result (λ parts. length parts.items ≡ count) }
    ensures parts { IfOk result (λ parts. AreTokensFrom place.now first parts.items) }
{
    let mut parts = Vec::with_capacity(alloc, count)?;
    for at in 0..count {
        let worker = first + at;
        parts.push_reserved(place.split_token(worker, &mut tokens[worker]));
    }
    Ok(parts)
}

/// Splits a pass off the one at a place.
pub(crate) fn split_at<T: Served>(
    place: &Workplace<T>,
    passes: &mut Vec<Pass<T>>,
    at: usize,
    names: Names,
) -> Pass<T>
    requires passes { ArePassesOf place.now.cells.items passes.old.items }
    requires within { at < vec_len passes.old }
    requires may { MayGiveAt names passes.old.items at }
    ensures { HasSplitAt names at passes.old.items passes.new.items result }
{
    place.cells[at].split(&mut passes[at], names)
}

/// Joins a pass of the same cell to the one at a place.
pub(crate) fn join_at<T: Served>(
    place: &Workplace<T>,
    passes: &mut Vec<Pass<T>>,
    at: usize,
    other: Pass<T>,
)
    requires passes { ArePassesOf place.now.cells.items passes.old.items }
    requires other { slice_get (roster_of place.now.cells.items).tables at ≡ Some other.table }
    ensures { HasJoinedAt T.key_of at other passes.old.items passes.new.items }
{
    place.cells[at].join(&mut passes[at], other);
}
