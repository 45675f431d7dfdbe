//! What holds of every run of a script's lines.

ghost use Rattle.replay_run.specs.ByMachine.{EveryPartitionGoesByItsMachine};
ghost use Rattle.replay_run.specs.Counts.{EveryCallCountsOnce};
ghost use Rattle.replay_run.specs.Linearizability.{EveryRunIsLinearizable};
ghost use Rattle.replay_run.specs.SkippedCalls.{EverySkippedCallIsTold, EveryRunThatTellsOfNoSkipHasNone};
ghost use Rattle.replay_run.specs.Staying.{EveryWaiterStays};

/// For every list of lines, whichever calls find no memory: what the run prints for each object is the history of one
/// object used by one thread.
pub fn every_run_is_linearizable()
    ensures { EveryRunIsLinearizable }
{}

/// A call that doesn't wait and finds no memory is refused with error 10, on its connection and at its line, unless the
/// run is given up. No call that finds none makes an event.
pub fn every_skipped_call_is_told()
    ensures { EverySkippedCallIsTold }
{}

/// Where no message is an error 10, the run is the one in which every call found memory.
pub fn every_run_that_tells_of_no_skip_has_none()
    ensures { EveryRunThatTellsOfNoSkipHasNone }
{}

/// Each call that arrived was answered, or refused by a row, or refused for want of memory, or none of these, and so is
/// counted once.
pub fn every_call_counts_once()
    ensures { EveryCallCountsOnce }
{}

/// After each line nothing is to be done with any call that waits, unless the run is given up: its member lives and
/// serves, and it is neither ready nor due.
pub fn every_waiter_stays()
    ensures { EveryWaiterStays }
{}

/// Each partition, with those who wait there, goes by the machine of calls that wait, so all that is proved of that
/// machine holds of it: what has happened is what its lines say, and so are who waits, and the moments of the members.
pub fn every_partition_goes_by_its_machine()
    ensures { EveryPartitionGoesByItsMachine }
{}
