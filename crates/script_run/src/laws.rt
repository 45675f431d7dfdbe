//! What holds of every run of a script's lines. Nothing runs here.

ghost use Rattle.script_run.specs.Laws.{EveryRunIsTheGrids, EveryRunIsLinearizable, EveryCallCountsOnce};
ghost use Rattle.script_run.specs.Laws.{EverySkippedCallIsTold, EveryRunThatTellsOfNoSkipHasNone};
ghost use Rattle.script_run.specs.Masters.{EveryRunIsRuled, EveryServiceServesAsPublished, EveryPublishedListGrows};

/// What the near clients of a script do is, to the grid, bytes that arrive on their connections.
pub fn every_run_is_the_grids()
    ensures { EveryRunIsTheGrids }
{}

/// For every list of lines, whichever calls find no memory: what the run prints for each object is the history of one
/// object used by one thread.
pub fn every_run_is_linearizable()
    ensures { EveryRunIsLinearizable }
{}

/// A call that doesn't wait and finds no memory is refused with error 10, on its connection and at its line, unless the
/// run is given up. No call that finds none makes an event.
pub fn every_skipped_call_is_told()
    ensures { EverySkippedCallIsTold }
{}

/// Where no message is an error 10, the run is the one in which every call found memory.
pub fn every_run_that_tells_of_no_skip_has_none()
    ensures { EveryRunThatTellsOfNoSkipHasNone }
{}

/// Each call that arrived was answered, or refused by a row, or refused for want of memory, or none of these, and so is
/// counted once.
pub fn every_call_counts_once()
    ensures { EveryCallCountsOnce }
{}

/// Where masters run the table service of each partition, what holds of masters holds of those of a script, unless its run
/// is given up.
pub fn every_run_is_ruled()
    ensures { EveryRunIsRuled }
{}

/// The events that the table service of a partition took are what its masters published, in order, and the service alone
/// over that list comes to the same row, move and detected members. At most one live member gathers or serves.
pub fn every_service_serves_as_published()
    ensures { EveryServiceServesAsPublished }
{}

/// What masters published stays at its place, whoever is master later, and no version of a row is made twice.
pub fn every_published_list_grows()
    ensures { EveryPublishedListGrows }
{}
