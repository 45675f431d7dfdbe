ghost use Rattle.std.specs.Prelude.{◌≡◌, ◌<◌, ◌*◌, ◌↔◌, [], ◌∷◌, ◌++◌, not, filter, map, length, sum_by, replicate, IsTrue, OnOk, OnErr, IfOk, All};
ghost use Rattle.grid_base.specs.declared.TheConstants.{PARTITIONS as partitions};
ghost use Rattle.call_engine.specs.Env.{settings_of};
ghost use Rattle.wait_sets.specs.Boxes.{boxed};
ghost use Rattle.wait_sets.specs.WaitSets.{is_of};
ghost use Rattle.wait_sets.specs.Lists.{place_of, list_at, with_list, if_some};
ghost use Rattle.wait_sets.specs.Turns.{TakesTurn};

use crate::list::WaitList;
use crate::spot::Spot;
use crate::turn::{Standing, Turn};
use crate::waiter::Waiter;
use call_engine::{GridEnv, GridShelf};
use grid_base::{Memory, Moment, PARTITIONS};
use std::alloc::Global;
use std::marker::Model;

/// Who waits at each member of each partition. Contracts see a list for each, by `Spot::place`.
#[derive(Debug, Drop)]
pub struct WaitLists {
    lists: Vec<WaitList>,
    /// In how many lists somebody waits.
    busy: usize,
}

impl Model for WaitLists {
    ghost use Rattle.std.specs.Prelude.{List, ◌≡◌, sum_by};
    ghost use Rattle.wait_sets.specs.declared.waiter.Waiter.{Waiter as WaiterOf};
    ghost use Rattle.wait_sets.specs.Lists.{if_some};

    ghost Value = { List (List WaiterOf) };

    ghost view = { λ l. l.lists.items };

    ghost invariant = { λ l. l.busy ≡ sum_by if_some l.lists.items };
}

impl WaitLists {
    /// Nobody waits at any of so many members.
    pub fn new(alloc: Global, members: u8) -> Result<WaitLists, Memory>
        ensures { IfOk result (λ lists. lists ≡ replicate (members * partitions) []) }
    {
        let all = usize::from(members) * usize::from(PARTITIONS);
        let mut lists = Vec::with_capacity(alloc, all)?;
        for _ in 0..all {
            lists.push(WaitList::new(alloc))?;
        }
        Ok(WaitLists { lists, busy: 0 })
    }

    /// Whether nobody waits anywhere, in constant time.
    pub fn is_idle(&self) -> bool
        ensures { IsTrue result ↔ All (λ list. list ≡ []) self.now }
    {
        self.busy == 0
    }

    /// The waiter comes last in the list of that member and partition. Want of memory changes nothing, and drops it.
    pub fn add(&mut self, at: Spot, waiter: Waiter) -> Result<(), Memory>
        requires { place_of at.member at.partition < length self.old }
        ensures ok { OnOk result (self.new ≡ with_list self.old at.member at.partition (list_at self.old at.member at.partition ++ waiter ∷ [])) }
        ensures err { OnErr result (self.new ≡ self.old) }
    {
        let list = &mut self.lists[at.place()];
        let before = list.busy();
        list.add(waiter)?;
        self.busy += 1 - before;
        Ok(())
    }

    /// Takes the waiter whose turn it is out of the list of that member and partition, where the member stands so and has
    /// this of the partition, and its moment is `now`. None exactly where nothing is to be done with anybody. Takes no
    /// memory.
    ///
    /// Costs a constant where nobody waits there, and where the member doesn't serve; else as `WaitSet::next_from`, for
    /// those of whom it isn't known from the last look that they aren't due.
    pub fn turn(
        &mut self,
        at: Spot,
        standing: Standing,
        shelf: &GridShelf,
        env: &GridEnv,
        now: Moment,
    ) -> Option<Turn>
        requires { place_of at.member at.partition < length self.old }
        ensures turn { TakesTurn (settings_of (boxed form) env.now) shelf.now now standing (list_at self.old at.member at.partition) result (list_at self.new at.member at.partition) }
        ensures others { self.new ≡ with_list self.old at.member at.partition (list_at self.new at.member at.partition) }
    {
        let list = &mut self.lists[at.place()];
        let before = list.busy();
        let turn = turn_in(list, standing, shelf, env, now);
        self.busy = self.busy - before + list.busy();
        turn
    }

    /// The waiters of that connection leave all lists. Goes over all that wait twice, if anybody does, and takes no memory.
    pub fn drop_conn(&mut self, conn: u32)
        ensures { self.new ≡ map (filter (λ waiter. not (is_of conn waiter))) self.old }
    {
        self.busy = drop_from(&mut self.lists, conn);
    }
}

/// Takes the waiter whose turn it is out of a list.
fn turn_in(
    list: &mut WaitList,
    standing: Standing,
    shelf: &GridShelf,
    env: &GridEnv,
    now: Moment,
) -> Option<Turn>
    ensures { TakesTurn (settings_of (boxed form) env.now) shelf.now now standing list.old result list.new }
{
    match standing {
        Standing::Serves => Some(Turn::Call(list.take_next(shelf, env, now)?.request)),
        Standing::Refuses(why) => Some(Turn::Refusal(list.drain()?.request, why)),
        Standing::Gone => Some(Turn::Silence(list.drain()?.request)),
    }
}

/// The waiters of that connection leave these lists; tells in how many of them somebody is left.
fn drop_from(lists: &mut [WaitList], conn: u32) -> usize
    ensures lists { lists.new ≡ map (filter (λ waiter. not (is_of conn waiter))) lists.old }
    ensures busy { result ≡ sum_by if_some lists.new }
{
    let mut busy = 0;
    for list in lists.iter_mut() {
        list.drop_conn(conn);
        busy += list.busy();
    }
    busy
}
