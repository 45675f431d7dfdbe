//! Laws of every run of a partition that the claim on hits stands on. They are the partition protocol's, and compute
//! nothing: each contract is what holds of every run.

ghost use Rattle.grid_base.specs.Objects.{Object};
ghost use Rattle.near_protocol.specs.Laws.{EveryAnswerIsOfItsMember, EveryLogRises, EveryVersionIsLedByOne};

/// Versions never fall in the log of executed calls, and the version of a reset is above those of all calls before it.
pub fn every_log_rises<C, S>()
    ensures { (o : Object C S) → EveryLogRises o }
{}

/// Two members that know themselves primary of one version are one.
pub fn every_version_is_led_by_one<C, S>()
    ensures { (o : Object C S) → EveryVersionIsLedByOne o }
{}

/// An answer is held by a member that its call reached, and released by a step of such a member: a call to it, or a
/// message that it takes.
pub fn every_answer_is_of_its_member<C, S>()
    ensures { (o : Object C S) → EveryAnswerIsOfItsMember o }
{}
