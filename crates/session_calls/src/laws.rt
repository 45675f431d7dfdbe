//! What holds of each call of a session. Nothing runs here.
ghost use Rattle.partition_threads.specs.declared.workplace.Workplace.{Workplace};
ghost use Rattle.session_calls.specs.Laws.{StartedMayFinish, UnfinishedMayFinish, KeptMayGoOn, StillKeptMayGoOn, HandedOverMayFinish};
ghost use Rattle.session_calls.specs.Laws.{CallsEndAsStarted, CallsEndOnTheirTerms};
ghost use Rattle.session_calls.specs.Learning.{CallsStandInOrder, ReturnedCallsStandInOrder};

use hand_cell::Served;

/// A call that was started may be finished, and again where it was found not yet ended.
pub fn every_started_call_may_be_finished<T: Served>()
    ensures started { (place : Workplace T T.Plan T.Event T.Outcome) → StartedMayFinish T.key_of T.call_of place }
    ensures unfinished { (place : Workplace T T.Plan T.Event T.Outcome) → UnfinishedMayFinish T.key_of place }
{}

/// A session may go on with a call that it keeps, again where it keeps it still, and may finish it once it was handed over.
pub fn every_kept_call_may_be_gone_on_with<T: Served>()
    ensures kept { (place : Workplace T T.Plan T.Event T.Outcome) → KeptMayGoOn T.key_of T.call_of T.tells place }
    ensures still { (place : Workplace T T.Plan T.Event T.Outcome) → StillKeptMayGoOn T.key_of T.call_of T.tells place }
    ensures handed_over { (place : Workplace T T.Plan T.Event T.Outcome) → HandedOverMayFinish T.key_of T.call_of T.tells place }
{}

/// What `SessionPass::start` and `SessionPass::finish` say together of a call that was started and found ready. What the
/// pass of its partition had seen before the start is a beginning of what the pass has seen that is back. There the
/// event of that request stands once, and the outcome is what became of it; or it stands nowhere, and the outcome is
/// why not.
pub fn every_call_ends_as_it_was_started<T: Served>()
    ensures { (place : Workplace T T.Plan T.Event T.Outcome) → CallsEndAsStarted T.key_of T.call_of T.tells place }
{}

/// The same of each call on its terms, as `SessionPass::make` says them: of one that was made at once, and of one that the
/// session kept before it came to its outcome.
pub fn every_call_ends_on_its_terms<T: Served>()
    ensures { (place : Workplace T T.Plan T.Event T.Outcome) → CallsEndOnTheirTerms T.key_of T.call_of T.tells place }
{}

/// What `SessionPass::teach` and `SessionPass::learn` give two calls of one partition. The first one's session taught
/// passes once the call had its outcome, and the second one's session learned from these before the call was started.
/// Then the first one's event stands before the second one's, or one of them wasn't run. So it is of calls that were started,
/// and of calls that were made at once.
pub fn every_call_stands_after_those_learned_of<T: Served>()
    ensures started { (place : Workplace T T.Plan T.Event T.Outcome) → CallsStandInOrder T.key_of T.call_of T.tells place }
    ensures returned { (place : Workplace T T.Plan T.Event T.Outcome) → ReturnedCallsStandInOrder T.key_of T.call_of T.tells place }
{}
