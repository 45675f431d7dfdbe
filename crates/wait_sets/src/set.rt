ghost use Rattle.std.specs.Prelude.{◌≡◌, ◌≤◌, ◌<◌, ◌↔◌, [], ◌∷◌, ◌++◌, not, true, filter, length, take, drop, position, remove, slice_get, Some, option_to_list, IsNone, IsTrue, OnOk, OnErr};
ghost use Rattle.std.specs.List.{position_from};
ghost use Rattle.call_engine.specs.Env.{settings_of};
ghost use Rattle.wait_sets.specs.Boxes.{boxed};
ghost use Rattle.wait_sets.specs.WaitSets.{is_its_turn, is_ready_now, is_due, NoneIsDue, is_of, wish};
ghost use Rattle.wait_sets.specs.Runs.{EndsAlike, passes_first};

use crate::runs::{begin_unless, keep_others, lengthen, shorten};
use crate::waiter::{Waiter, wish_the_same};
use call_engine::{GridEnv, GridShelf};
use grid_base::{Memory, Moment};
use std::alloc::Global;
use std::collections::VecDeque;
use std::marker::Model;

/// An owned list of waiters, in order of arrival.
#[derive(Debug, Drop)]
pub struct WaitSet {
    waiting: VecDeque<Waiter>,
    /// How many waiters in a row wish the same, run by run.
    runs: Vec<usize>,
}

impl Model for WaitSet {
    ghost use Rattle.std.specs.Prelude.{◌≡◌, List, length, vec_len};
    ghost use Rattle.std.specs.VecDeque.{deque_len};
    ghost use Rattle.wait_sets.specs.declared.waiter.Waiter.{Waiter};
    ghost use Rattle.wait_sets.specs.WaitSets.{wish};
    ghost use Rattle.wait_sets.specs.Runs.{AreRuns};

    ghost Value = { List Waiter };

    ghost view = { λ s. s.waiting.items };

    ghost invariant = { λ s. (deque_len s.waiting ≡ length s.waiting.items) × (vec_len s.runs ≡ length s.runs.items) × AreRuns wish s.runs.items s.waiting.items };
}

impl WaitSet {
    /// Nobody waits. Takes no memory.
    pub fn new(alloc: Global) -> Self
        ensures { result ≡ [] }
    {
        WaitSet {
            waiting: VecDeque::new(alloc),
            runs: Vec::new(alloc),
        }
    }

    /// The waiter comes last. Want of memory changes nothing, and drops it.
    pub fn add(&mut self, waiter: Waiter) -> Result<(), Memory>
        ensures ok { OnOk result (self.new ≡ self.old ++ waiter ∷ []) }
        ensures err { OnErr result (self.new ≡ self.old) }
    {
        let joins = self.ends_alike(&waiter);
        begin_unless(&mut self.runs, joins)?;
        self.waiting.push_back(waiter)?;
        lengthen(&mut self.runs);
        Ok(())
    }

    /// Whether a waiter wishes what the last one wishes.
    fn ends_alike(&self, waiter: &Waiter) -> bool
        ensures { result ≡ true → EndsAlike wish self.now waiter.now }
    {
        match self.waiting.back() {
            Some(last) => wish_the_same(&last.request.call, &waiter.request.call),
            None => false,
        }
    }

    /// How many wait.
    pub fn len(&self) -> usize
        ensures { result ≡ length self.now }
    {
        self.waiting.len()
    }

    /// Whether nobody waits.
    pub fn is_empty(&self) -> bool
        ensures { IsTrue result ↔ (self.now ≡ []) }
    {
        self.waiting.is_empty()
    }

    /// Where the first stands that is ready or due at that moment; none exactly where nobody is. Takes no memory, and
    /// costs as `next_from` of 0.
    pub fn next(&self, shelf: &GridShelf, env: &GridEnv, now: Moment) -> Option<usize>
        ensures { result ≡ position (is_its_turn (settings_of (boxed form) env.now) shelf.now now) self.now }
    {
        self.next_from(0, shelf, env, now)
    }

    /// As `next`, where it is known that the first `undue` aren't due: all of them, where it was nobody's turn and the
    /// moment is what it was; and those that stood before the last who was taken at this moment.
    ///
    /// Asks one waiter of each run whether it is ready, up to the first that is, and looks at the deadlines from `undue` on,
    /// up to there. Takes no memory.
    pub fn next_from(
        &self,
        undue: usize,
        shelf: &GridShelf,
        env: &GridEnv,
        now: Moment,
    ) -> Option<usize>
        requires { NoneIsDue now (take undue self.now) }
        ensures { result ≡ position (is_its_turn (settings_of (boxed form) env.now) shelf.now now) self.now }
    {
        match self.first_ready(shelf, env, now) {
            Some(ready) => self.first_due(undue, ready, now).or(Some(ready)),
            None => self.first_due(undue, self.waiting.len(), now),
        }
    }

    /// Where the first stands that is ready.
    fn first_ready(&self, shelf: &GridShelf, env: &GridEnv, now: Moment) -> Option<usize>
        ensures { result ≡ position_from (is_ready_now (settings_of (boxed form) env.now) shelf.now now) 0 self.now }
    {
        let mut start = 0;
        for run in self.runs.iter() {
            if self.is_ready_at(start, shelf, env, now) {
                return Some(start);
            }
            start += *run;
        }
        None
    }

    /// Whether somebody stands at that place who is ready.
    fn is_ready_at(&self, place: usize, shelf: &GridShelf, env: &GridEnv, now: Moment) -> bool
        ensures { result ≡ passes_first (is_ready_now (settings_of (boxed form) env.now) shelf.now now) (drop place self.now) }
    {
        match self.waiting.get(place) {
            Some(waiter) => shelf.ready(env, &waiter.request, now),
            None => false,
        }
    }

    /// Where the first stands, before `end`, that is due; the first `undue` aren't.
    fn first_due(&self, undue: usize, end: usize, now: Moment) -> Option<usize>
        requires end { end ≤ length self.now }
        requires undue { NoneIsDue now (take undue self.now) }
        ensures { result ≡ position_from (is_due now) 0 (take end self.now) }
    {
        for place in undue..end {
            if self.waiting[place].is_due(now) {
                return Some(place);
            }
        }
        None
    }

    /// The waiter at that place, which leaves. Costs its distance from the nearer end and the number of runs before it, and
    /// takes no memory.
    pub fn take(&mut self, place: usize) -> Waiter
        requires { place < length self.old }
        ensures taken { slice_get self.old place ≡ Some result }
        ensures others { self.new ≡ remove self.old place }
    {
        let waiter = self.waiting.remove(place).unwrap();
        shorten(&mut self.runs, place);
        waiter
    }

    /// The waiters of that connection leave. Goes over all twice, and takes no memory.
    pub fn drop_conn(&mut self, conn: u32)
        ensures { self.new ≡ filter (λ waiter. not (is_of conn waiter)) self.old }
    {
        keep_others(&mut self.runs, &self.waiting, conn);
        self.waiting.retain(|waiter| waiter.request.id.conn != conn);
        self.runs.retain(|run| *run > 0);
    }

    /// The first, which leaves; none exactly where nobody waits. Takes no memory.
    pub fn drain(&mut self) -> Option<Waiter>
        ensures first { self.old ≡ option_to_list result ++ self.new }
        ensures none { IsNone result ↔ (self.old ≡ []) }
    {
        if self.is_empty() {
            None
        } else {
            Some(self.take(0))
        }
    }
}
