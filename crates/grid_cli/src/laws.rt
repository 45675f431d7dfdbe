//! What holds of every transcript, and of every claim of a replay. Nothing runs here.

ghost use Rattle.grid_cli.specs.MemoryScripts.{EveryClaimHoldsInMemory};
ghost use Rattle.grid_cli.specs.PrintedRuns.{EveryMessageIsPrinted};
ghost use Rattle.grid_cli.specs.SkippedCalls.{EveryTranscriptThatTellsOfNoSkipHasNone};

/// Each message of the run that a transcript prints stands in its text.
pub fn every_message_is_printed()
    ensures { EveryMessageIsPrinted }
{}

/// Where no message that a transcript prints is an error 10, it is the one of a run in which every call found memory. Of a
/// run that was given up this holds of all that was printed before.
pub fn every_transcript_that_tells_of_no_skip_has_none()
    ensures { EveryTranscriptThatTellsOfNoSkipHasNone }
{}

/// Each claim of a replay that read a source in memory from its begin on is one of the very script that it had: what was read,
/// and what is left.
pub fn every_claim_holds_in_memory()
    ensures { EveryClaimHoldsInMemory }
{}
