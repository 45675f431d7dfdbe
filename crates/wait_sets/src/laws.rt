//! A set beside the machine of calls that wait, and what is known of a set from one look to the next. These functions
//! compute nothing.

ghost use Rattle.std.specs.Prelude.{ℕ, List, position};
ghost use Rattle.object_store.specs.Partitions.{Partition};
ghost use Rattle.call_engine.specs.Calls.{Settings};
ghost use Rattle.wait_sets.specs.declared.waiter.Waiter.{Waiter as WaiterOf};
ghost use Rattle.wait_sets.specs.WaitSets.{is_its_turn};
ghost use Rattle.wait_sets.specs.Laws.{EveryNextIsItsTurn, EveryClosingIsAlike, NewcomerAlone, StayUndue};

/// At a live member that serves, the waiter that `next` names is the one whose turn it is by the machine, and what `take`
/// leaves is the machine's list without it. Nobody's turn it is where `next` names none.
pub fn every_next_is_its_turn()
    ensures { (settings : Settings) → EveryNextIsItsTurn settings }
{}

/// What `drop_conn` leaves is what the machine keeps as that connection closes.
pub fn every_closing_is_alike()
    ensures { EveryClosingIsAlike }
{}

/// Where it is nobody's turn, whoever comes last is the only one to look at: it is its turn, or nobody's.
pub fn every_newcomer_is_looked_at_alone()
    ensures { (settings : Settings) (s : Partition) (now : ℕ) (waiters : List WaiterOf) (newcomer : WaiterOf) → NewcomerAlone settings s now waiters newcomer }
{}

/// While a member's moment stays, whoever wasn't due isn't: nobody, where it was nobody's turn, and else nobody before the
/// place of the one that has left. That is what `next_from` asks of its caller.
pub fn every_look_says_who_is_undue()
    ensures { (settings : Settings) (s : Partition) (now : ℕ) (waiters : List WaiterOf) → StayUndue now waiters (position (is_its_turn settings s now) waiters) }
{}
