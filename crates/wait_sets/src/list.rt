ghost use Rattle.std.specs.Prelude.{◌≡◌, ◌<◌, ◌≤◌, ◌+◌, ◌↔◌, [], ◌∷◌, ◌++◌, not, filter, length, take, position, option_to_list, IsNone, IsTrue, OnOk, OnErr};
ghost use Rattle.call_engine.specs.Env.{settings_of};
ghost use Rattle.wait_sets.specs.Boxes.{boxed};
ghost use Rattle.wait_sets.specs.WaitSets.{is_its_turn, NoneIsDue, is_of};
ghost use Rattle.wait_sets.specs.Lists.{if_some};
ghost use Rattle.wait_sets.specs.Turns.{TakesNext};

use crate::laws::every_look_says_who_is_undue;
use crate::set::WaitSet;
use crate::waiter::Waiter;
use call_engine::{GridEnv, GridShelf};
use grid_base::{Memory, Moment};
use std::alloc::Global;
use std::marker::Model;

/// So many at the front aren't due, once the one at that place has left: those that weren't before, and those before it.
fn undue_without(undue: usize, place: usize) -> usize
    ensures among { place < undue → result + 1 ≡ undue }
    ensures behind { undue ≤ place → result ≡ place }
{
    if place < undue { undue - 1 } else { place }
}

/// The waiters of one member of one partition, and how many of them weren't due at the last look.
#[derive(Debug, Drop)]
pub(crate) struct WaitList {
    set: WaitSet,
    /// The moment of the last look, if it still says something.
    looked: Option<Moment>,
    /// So many at the front weren't due then.
    undue: usize,
}

impl Model for WaitList {
    ghost use Rattle.std.specs.Prelude.{List};
    ghost use Rattle.wait_sets.specs.declared.waiter.Waiter.{Waiter as WaiterOf};
    ghost use Rattle.wait_sets.specs.Turns.{AreUndue};

    ghost Value = { List WaiterOf };

    ghost view = { λ l. l.set };

    ghost invariant = { λ l. AreUndue l.looked l.undue l.set };
}

impl WaitList {
    /// Nobody waits.
    pub(crate) fn new(alloc: Global) -> Self
        ensures { result ≡ [] }
    {
        WaitList {
            set: WaitSet::new(alloc),
            looked: None,
            undue: 0,
        }
    }

    /// Whether nobody waits.
    fn is_empty(&self) -> bool
        ensures { IsTrue result ↔ (self.now ≡ []) }
    {
        self.set.is_empty()
    }

    /// 1 where somebody waits, else 0.
    pub(crate) fn busy(&self) -> usize
        ensures { result ≡ if_some self.now }
    {
        if self.is_empty() { 0 } else { 1 }
    }

    /// The waiter comes last.
    pub(crate) fn add(&mut self, waiter: Waiter) -> Result<(), Memory>
        ensures ok { OnOk result (self.new ≡ self.old ++ waiter ∷ []) }
        ensures err { OnErr result (self.new ≡ self.old) }
    {
        self.set.add(waiter)?;
        Ok(())
    }

    /// How many at the front are known not to be due at that moment.
    fn known_undue(&self, now: Moment) -> usize
        ensures few { result ≤ length self.now }
        ensures none { NoneIsDue now (take result self.now) }
    {
        if self.looked == Some(now) {
            self.undue
        } else {
            0
        }
    }

    /// The first that is ready or due at that moment, which leaves; none exactly where nobody is.
    pub(crate) fn take_next(
        &mut self,
        shelf: &GridShelf,
        env: &GridEnv,
        now: Moment,
    ) -> Option<Waiter>
        ensures { TakesNext (position (is_its_turn (settings_of (boxed form) env.now) shelf.now now) self.old) self.old result self.new }
    {
        every_look_says_who_is_undue();
        let undue = self.known_undue(now);
        let Some(place) = self.set.next_from(undue, shelf, env, now) else {
            self.undue = self.set.len();
            self.looked = Some(now);
            return None;
        };
        let waiter = self.set.take(place);
        self.undue = undue_without(undue, place);
        self.looked = Some(now);
        Some(waiter)
    }

    /// The first, which leaves; none exactly where nobody waits.
    pub(crate) fn drain(&mut self) -> Option<Waiter>
        ensures first { self.old ≡ option_to_list result ++ self.new }
        ensures none { IsNone result ↔ (self.old ≡ []) }
    {
        self.looked = None;
        self.undue = 0;
        self.set.drain()
    }

    /// The waiters of that connection leave.
    pub(crate) fn drop_conn(&mut self, conn: u32)
        ensures { self.new ≡ filter (λ waiter. not (is_of conn waiter)) self.old }
    {
        self.looked = None;
        self.undue = 0;
        self.set.drop_conn(conn);
    }
}
