ghost use Rattle.std.specs.Prelude.{◌≡◌, ◌++◌, ◌∷◌, [], ◌<◌, ◌≤◌, ◌-◌, not, length, filter, slice_index, slice_range, if◌then◌else◌, OnOk, OnErr};
ghost use Rattle.std.specs.VecDeque.{deque_len};
ghost use Rattle.wait_sets.specs.WaitSets.{is_of, wish};
ghost use Rattle.wait_sets.specs.Runs.{AreRuns, lengthened, shortened, stayed};

use crate::waiter::Waiter;
use grid_base::Memory;
use std::collections::VecDeque;

/// A run of nobody yet, unless a newcomer joins the last one.
pub(crate) fn begin_unless(runs: &mut Vec<usize>, joins: bool) -> Result<(), Memory>
    ensures ok { OnOk result (runs.new.items ≡ (if joins then runs.old.items else runs.old.items ++ 0 ∷ [])) }
    ensures err { OnErr result (runs.new.items ≡ runs.old.items) }
{
    if !joins {
        runs.push(0)?;
    }
    Ok(())
}

/// The last run has one more.
pub(crate) fn lengthen(runs: &mut Vec<usize>)
    requires some { 0 < length runs.old.items }
    requires room { slice_index runs.old.items (length runs.old.items - 1) < usize.MAX }
    ensures { runs.new.items ≡ lengthened runs.old.items }
{
    let last = runs.len() - 1;
    runs[last] += 1;
}

/// The runs without the waiter at that place. A run that had no other goes.
pub(crate) fn shorten(runs: &mut Vec<usize>, place: usize)
    ensures { runs.new.items ≡ shortened runs.old.items place }
{
    let mut left = place;
    for i in 0..runs.len() {
        let run = runs[i];
        if left < run {
            if run == 1 {
                runs.remove(i);
            } else {
                runs[i] = run - 1;
            }
            return;
        }
        left -= run;
    }
}

/// Of each run those that aren't of the connection.
pub(crate) fn keep_others(runs: &mut Vec<usize>, waiting: &VecDeque<Waiter>, conn: u32)
    requires len { deque_len waiting.now ≡ length waiting.now.items }
    requires runs { AreRuns wish runs.old.items waiting.now.items }
    ensures { runs.new.items ≡ stayed (λ waiter. not (is_of conn waiter)) runs.old.items waiting.now.items }
{
    let mut start = 0;
    for i in 0..runs.len() {
        let run = runs[i];
        let end = start + run;
        runs[i] = count_others(waiting, start, end, conn);
        start = end;
    }
}

/// How many of these waiters aren't of the connection.
fn count_others(waiting: &VecDeque<Waiter>, start: usize, end: usize, conn: u32) -> usize
    requires order { start ≤ end }
    requires within { end ≤ deque_len waiting.now }
    ensures { result ≡ length (filter (λ waiter. not (is_of conn waiter)) (slice_range waiting.now.items start end)) }
{
    waiting
        .range(start..end)
        .filter(|waiter| waiter.request.id.conn != conn)
        .count()
}
