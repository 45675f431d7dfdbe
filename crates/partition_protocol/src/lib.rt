//! The partition protocol: how the members of a partition and the table service keep one history, as a pure machine.
//!
//! `specs/` has the machine: what is said (`Messages`), what a member knows (`Node`) and how it takes each message
//! (`Replica`), what the service does (`Service`), and what each event does to the whole (`Events`).
//! It moves no contents: what a member has is the state that its pair of a version and a count names (`History`).
//! The functions here and in `laws` compute nothing. Their contracts are what holds of every run, for any calls and any
//! object.
//! `Pair` is the protocol's name of contents as a value of a program, with the test by which a backup takes them.
#![tactic(auto)]

pub mod laws;
mod pair;

ghost use Rattle.grid_base.specs.Objects.{Object};
ghost use Rattle.partition_protocol.specs.Claims.{EveryRunIsSafe, EveryAckHolds, EveryRunExtends, EveryAnswerStays, EveryStateStays, EveryBridgeStays, EveryBeginningIsEmpty};

pub use pair::Pair;

/// Whatever is lost, repeated or late, and whoever crashes: after every list of events in which no two calls have one
/// name, the history by which the partition stands is that of one object used by one thread and emptied at each
/// reopening. It has every answer that was given, and so has every eligible member of the newest row whose contents
/// aren't from before the last reopening. What it has are calls that arrived, in order of arrival, each at most once.
/// A live member that was replaced as primary executes and answers nothing until it adopts a newer row.
///
/// Nothing is said of progress: a lost message stays lost until someone sends it again.
pub fn every_run_is_safe<C, S>()
    ensures { (o : Object C S) → EveryRunIsSafe o }
{}

/// A member that is said to have contents has them, or knows a later row: of every acknowledgement in flight, and of
/// every one that a member counts.
pub fn every_acknowledgement_holds<C, S>()
    ensures { (o : Object C S) → EveryAckHolds o }
{}

/// The log of what was executed and the list of what was answered only grow, at their ends, and no member drops an
/// answer that it holds. So no call stands in a history before one that was answered before it arrived.
pub fn every_run_extends<C, S>()
    ensures extends { (o : Object C S) → EveryRunExtends o }
    ensures answers { (o : Object C S) → EveryAnswerStays o }
{}

/// The contents of a member change only where it takes something that changes them. For an object whose calls without
/// an effect leave the state, no event changes the state that a member's pair names, a bridge joins two names of one
/// state, and a version that is begun anew begins empty.
pub fn every_state_stays<C, S>()
    ensures states { (o : Object C S) → EveryStateStays o }
    ensures bridges { (o : Object C S) → EveryBridgeStays o }
    ensures beginnings { (o : Object C S) → EveryBeginningIsEmpty o }
{}
