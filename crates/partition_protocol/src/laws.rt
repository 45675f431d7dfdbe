//! More laws of every run. As those of the crate's root they compute nothing: each contract is what holds of every run.

ghost use Rattle.grid_base.specs.Objects.{Object};
ghost use Rattle.partition_protocol.specs.Answers.{EveryAnswerIsSingle};
ghost use Rattle.partition_protocol.specs.Bounds.{EveryRunIsWithin};
ghost use Rattle.partition_protocol.specs.WellFormed.{EveryRunIsWellFormed};
ghost use Rattle.partition_protocol.specs.NamedStates.{EveryEffectLeads, EveryNamedStateStays, EveryBridgeJoins};
ghost use Rattle.partition_protocol.specs.Beginnings.{EveryCountIsAnEffect, EveryPrimaryKnowsItsBeginning, EveryCatchUpIsRecent};
ghost use Rattle.partition_protocol.specs.HistorySizes.{EveryHistoryIsOfTheLog, EveryLoggedCallArrived};
ghost use Rattle.partition_protocol.specs.RowRules.{EveryKnownRowGoesOn, EveryLossIsTold, EveryRowIsLostByRule, EveryRowIsLostIfEmpty};
ghost use Rattle.partition_protocol.specs.ReadOff.{EveryFactIsReadOff};
ghost use Rattle.partition_protocol.specs.MadeRows.{EveryRowWasMade, EveryVersionHasOneRow};
ghost use Rattle.partition_protocol.specs.ReleaseRules.{EveryHeldAnswerWaits, EveryReleaseIsInOrder};

/// After `n` events every version and every reset is at most `n + 1`, and every count at most `n`: of rows, of pairs,
/// of acknowledgements, of answers and in messages.
pub fn every_count_is_bounded<C, S>()
    ensures { (o : Object C S) → EveryRunIsWithin o }
{}

/// Where no two calls have one name, an answer is released at most once, and until then it is held by at most one member,
/// there once.
pub fn every_answer_is_single<C, S>()
    ensures { (o : Object C S) → EveryAnswerIsSingle o }
{}

/// An answer is released at the first event at which it can be. Of each answer that a member holds after an event, a
/// backup of the row that it knows hasn't acknowledged yet what the answer saw. In an event one member at most releases
/// answers: the oldest of what it held, in order, once every backup of the row that it then knows has acknowledged what
/// they saw.
pub fn every_answer_is_released_in_time<C, S>()
    ensures held { (o : Object C S) → EveryHeldAnswerWaits o }
    ensures released { (o : Object C S) → EveryReleaseIsInOrder o }
{}

/// There is a node for each member, each row lists members, each once, and each message in flight is between two ends, as
/// its kind has them.
pub fn every_run_is_well_formed<C, S>()
    ensures { (o : Object C S) → EveryRunIsWellFormed o }
{}

/// For an object whose calls without an effect leave the state, what a message in flight says of contents stays so until
/// it comes, whatever happens meanwhile. Each Effect is that of one executed call, the first of its version that saw that
/// count. The states that a Sync, an Effect or a Bridge names keep what they are, and so do those of a member's own pair
/// and of the pairs with which versions began. A Bridge names one state by two pairs.
pub fn every_message_stays_right<C, S>()
    ensures effects { (o : Object C S) → EveryEffectLeads o }
    ensures states { (o : Object C S) → EveryNamedStateStays o }
    ensures bridges { (o : Object C S) → EveryBridgeJoins o }
{}

/// A member never goes back to an earlier row. If it lives, it answers a call that the partition is lost exactly where the
/// row that it knows is lost. A row is lost exactly as the service is told of the crash of its last member that may lead,
/// and a lost row stays the newest until it is reopened. Each row, be it known or in flight, is lost exactly where it has no
/// members.
pub fn every_row_goes_by_rule<C, S>()
    ensures known { (o : Object C S) → EveryKnownRowGoesOn o }
    ensures told { (o : Object C S) → EveryLossIsTold o }
    ensures lost { (o : Object C S) → EveryRowIsLostByRule o }
    ensures empty { (o : Object C S) → EveryRowIsLostIfEmpty o }
{}

/// Each row that a member knows, that is in flight or that the partition stands by is one that the service made: it was
/// the service's row after some of the events, with the same marks. Two rows that the service made in one version have
/// the same members in the same order, and differ at most in which of them may lead.
pub fn every_row_was_made<C, S>()
    ensures made { (o : Object C S) → EveryRowWasMade o }
    ensures one { (o : Object C S) → EveryVersionHasOneRow o }
{}

/// What a member knows is what was handed over to it. Its row is the newest of the initial one and those in its messages,
/// the first of several of one version. What a backup has acknowledged to it is the greatest count in an acknowledgement
/// of that version that it took as the primary of it; in the initial row it is at least 0. It is frozen where a freeze of
/// that version came to it as its primary.
pub fn every_fact_is_read_off<C, S>()
    ensures { (o : Object C S) → EveryFactIsReadOff o }
{}

/// For an object whose calls without an effect leave the state, whatever is counted in a version past the count with which
/// it began is an effect of a call in that version: up to the count of each member that has its contents, and up to that
/// with which another version began from it.
pub fn every_count_is_an_effect<C, S>()
    ensures { (o : Object C S) → EveryCountIsAnEffect o }
{}

/// A member that knows itself primary, by the newest row or an old one, has the contents of that row's version and knows
/// the count with which the version began. What it keeps as acknowledged in the version is no less than that, and no more
/// than it has. Where it was primary of the version before, its own began from that one, and what was acknowledged there is
/// between the counts with which the two began. It has executed no more effects since it last became primary than it counts.
/// For an object whose calls without an effect leave the state, each effect by which it has a backup catch up is one that
/// it counts, and one of the newest that it keeps.
pub fn every_primary_knows_its_beginning<C, S>()
    ensures beginnings { (o : Object C S) → EveryPrimaryKnowsItsBeginning o }
    ensures catch_up { (o : Object C S) → EveryCatchUpIsRecent o }
{}

/// Whatever pair is asked for, its history is of entries of the log, in their order: so it has no entry and no call that the
/// log doesn't have, and is no longer. The log's calls are calls that arrived, in order of arrival, even where calls share a
/// name.
pub fn every_history_is_of_the_log<C, S>()
    ensures histories { (o : Object C S) → EveryHistoryIsOfTheLog o }
    ensures arrivals { (o : Object C S) → EveryLoggedCallArrived o }
{}
