//! More laws of calls that wait. As that of the crate's root they compute nothing: each contract is what holds of every run.

ghost use Rattle.grid_base.specs.Objects.{Object};
ghost use Rattle.waiting_protocol.specs.Claims.{EveryWaiterIsSilent, EarlierOfTwoGoesFirst, EveryOtherEventIsIdle, EveryLeaverIsOfItsLine, EveryClosedConnectionIsLeft};
ghost use Rattle.waiting_protocol.specs.LineClaims.{EveryLineIsOfOneKind, EveryRefusalIsInOrder, EveryLineKeepsOrder};
ghost use Rattle.waiting_protocol.specs.Partitions.{EveryPartitionGoesByItself};

/// Until its turn a waiter changes nothing: without it the same events happen, and the same others leave in the same way.
pub fn every_waiter_is_silent<C, S>()
    ensures { (o : Object C S) → EveryWaiterIsSilent o }
{}

/// Of two waiters at one member with one plain call the later has its turn, where the member serves, only if it is due, the
/// earlier isn't, and neither is ready.
pub fn earlier_of_two_goes_first<C, S>()
    ensures { (o : Object C S) → EarlierOfTwoGoesFirst o }
{}

/// Only a step of its own member changes what is to be done with a waiter.
pub fn every_other_event_is_idle<C, S>()
    ensures { (o : Object C S) → EveryOtherEventIsIdle o }
{}

/// A line makes waiters of one member leave: of a step's member, of the call that arrived, or of the clock.
pub fn every_leaver_is_of_its_line<C, S>()
    ensures { (o : Object C S) → EveryLeaverIsOfItsLine o }
{}

/// Once a connection has closed, nobody of it waits, and none of its waiters runs or is refused, unless one arrives later.
pub fn every_closed_connection_is_left<C, S>()
    ensures { (o : Object C S) → EveryClosedConnectionIsLeft o }
{}

/// All that one line makes leave have their plain calls made, or all are refused alike, or all leave without an answer: by
/// what their member did as the line began with them, which no turn of the line changes.
pub fn every_line_is_of_one_kind<C, S>()
    ensures { (o : Object C S) → EveryLineIsOfOneKind o }
{}

/// At a line of a member that doesn't serve all leave that wait there, in order of arrival, and no event comes of it.
pub fn every_refusal_is_in_order<C, S>()
    ensures { (o : Object C S) → EveryRefusalIsInOrder o }
{}

/// What later lines add comes behind what happened before, and no call that arrives later is among that. Calls that don't
/// wait stand in the order in which they were asked for.
pub fn every_line_keeps_order<C, S>()
    ensures { (o : Object C S) → EveryLineKeepsOrder o }
{}

/// Each partition of a grid goes by its own lines alone. As a member's moment is set, or a connection closes, those who leave
/// go by partition, and within each as that partition's machine says.
pub fn every_partition_goes_by_itself<C, S>()
    ensures { (o : Object C S) → EveryPartitionGoesByItself o }
{}
