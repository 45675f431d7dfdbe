//! What holds of every run of a script's lines, whether its table service runs on the members or not. Nothing runs here.

ghost use Rattle.masters_run.specs.Laws.{EveryRuledRunIsARun, EveryRunIsLinearizable, EveryCallCountsOnce, EveryRunIsRuled, EveryServiceServesAsPublished, EveryPublishedListGrows, EveryMastershipIsSound, EveryMastershipAgrees, EverySkippedCallIsTold, EveryRunThatTellsOfNoSkipHasNone, EveryWaiterStays};

/// The run of the grid is a run: masters add no step to those of which runs are made.
pub fn every_ruled_run_is_a_run()
    ensures { EveryRuledRunIsARun }
{}

/// What the run prints for each object is the history of one object used by one thread.
pub fn every_run_is_linearizable()
    ensures { EveryRunIsLinearizable }
{}

/// Each call that arrived is counted once.
pub fn every_call_counts_once()
    ensures { EveryCallCountsOnce }
{}

/// Where there are masters, each partition with its masters stands for a list of what was asked for in it, unless the run
/// is given up: so all that `masters_world` states of such lists holds of it.
pub fn every_run_is_ruled()
    ensures { EveryRunIsRuled }
{}

/// The events that a partition's table service took are the published list of its masters, in order, and the service alone
/// over that list comes to the partition's row, move and detected members, unless the run is given up.
pub fn every_service_serves_as_published()
    ensures { EveryServiceServesAsPublished }
{}

/// What is published stays, at its place, whoever is master, and no version of a row is made twice, unless the run is given
/// up.
pub fn every_published_list_grows()
    ensures { EveryPublishedListGrows }
{}

/// At most one live member of a partition gathers or serves, the lowest that lives, and the published list is the front of
/// each live member's log, unless the run is given up.
pub fn every_mastership_is_sound()
    ensures { EveryMastershipIsSound }
{}

/// What a partition's masters published is the front of each later live member's log, and no two different decisions are
/// ever published at one number, unless the run is given up.
pub fn every_mastership_agrees()
    ensures { EveryMastershipAgrees }
{}

/// A call that doesn't wait and finds no memory is refused with error 10, on its connection and at its line, unless the
/// run is given up. No call that finds none makes an event.
pub fn every_skipped_call_is_told()
    ensures { EverySkippedCallIsTold }
{}

/// Where no message is an error 10, the run is the one in which every call found memory, and so are its masters.
pub fn every_run_that_tells_of_no_skip_has_none()
    ensures { EveryRunThatTellsOfNoSkipHasNone }
{}

/// After each line nothing is to be done with any call that waits, unless the run is given up.
pub fn every_waiter_stays()
    ensures { EveryWaiterStays }
{}
