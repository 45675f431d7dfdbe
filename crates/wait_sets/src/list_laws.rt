//! The lists of a partition beside its machine. These functions compute nothing.

ghost use Rattle.call_engine.specs.Calls.{Settings};
ghost use Rattle.wait_sets.specs.ListLaws.{EveryListIsItsOwn, EveryCallJoinsItsList, EveryClosingEmptiesLists, EveryTurnIsItsLists, EveryTurnIsItsPartitions};

/// What changes the list of one member and partition leaves those of all others as they were.
pub fn every_list_is_its_own()
    ensures { EveryListIsItsOwn }
{}

/// A waiting call that arrives joins the list of its member and partition, as the machine has it.
pub fn every_call_joins_its_list()
    ensures { EveryCallJoinsItsList }
{}

/// As a connection closes its waiters leave the lists, as they leave each partition's machine.
pub fn every_closing_empties_lists()
    ensures { EveryClosingEmptiesLists }
{}

/// The turn in a list is that of the first there with which something is to be done by the machine, at the member that
/// stands so: nobody's exactly where there is none, and else that call leaves as the machine says, and the others stay.
pub fn every_turn_is_its_lists()
    ensures { (settings : Settings) → EveryTurnIsItsLists settings }
{}

/// Where only at one member of a partition anything is to be done, as after each line, the turn in that member's list is
/// the machine's: nobody's, or the same call leaves in the same way, and the lists are then those of who is left.
pub fn every_turn_is_its_partitions()
    ensures { (settings : Settings) → EveryTurnIsItsPartitions settings }
{}
