//! The mastership of one partition on members in processes of their own: on a network that may lose, delay, reorder and
//! repeat what was sent, and for a life of the partition with no end of decisions. It stands on `masters_protocol`.
//!
//! `specs/` has two machines. In `Repeated` the members are those of `masters_protocol`, with whole logs, and the messages are
//! all that was ever sent: each may be taken any number of times. In `Machine` a member keeps of its log a base, the state
//! that the decisions cut off at its front lead to, and the rest (`Kept`); what is said of a log is what the other lacks
//! (`Members`). `Own` has one member alone. `Stands` says how the second machine stands for the first, `Claims` what holds of
//! every run, and `Examples` has runs that are computed.
//! The functions here compute nothing. Their contracts are what holds of every run, for decisions of any type.
//! docs/MASTERS.md has them in words, as lasting masters. No program runs them yet.
#![tactic(auto)]

ghost use Rattle.lasting_masters.specs.Kept.{Folding};
ghost use Rattle.lasting_masters.specs.Claims.{EveryRepeatedRunAgrees, EveryLastingRunIsARun, EveryOneIsByItself, EveryDecisionGoesOutAlone};

/// Of masters with whole logs, whatever is lost, late, in any order or taken many times, and whoever is master, for any number
/// of members: a published list is the front of every live member's log, and of every list that is published later. At most
/// one live member gathers or serves. Where no live member has, or would still take, a longer log than the published list,
/// what is published from then on was proposed from then on.
///
/// Nothing is said of progress: a crashed member of which its master isn't told stops publishing.
pub fn every_repeated_run_agrees<D>()
    ensures { EveryRepeatedRunAgrees D }
{}

/// Of masters that say of their logs only what the other lacks, and keep of them a base and the rest, for whatever state the
/// decisions lead to: every run is one of masters with whole logs, so all of the above holds of its published list. What a
/// member keeps is exactly a base and the rest of its whole log, and what it has cut off is published. No decision is ever
/// missing between what a member has and a message that was sent to it.
pub fn every_lasting_run_is_a_run<D, S>()
    ensures { (o : Folding D S) → EveryLastingRunIsARun o }
{}

/// A member is what its own list of steps makes of it, and has sent what its own list sends: nothing that others do changes
/// it, but by what it is told and the messages that it takes.
pub fn every_one_is_by_itself<D, S>()
    ensures { (o : Folding D S) → EveryOneIsByItself o }
{}

/// What a proposal costs: to each peer, as all before is stored there, a message with one decision.
pub fn every_decision_goes_out_alone<D, S>()
    ensures { EveryDecisionGoesOutAlone D S }
{}
