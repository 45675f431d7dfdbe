//! What holds of the items of a connection. Nothing runs here.
ghost use Rattle.session_core.specs.Laws as laws;

/// Each message gives one item, at its own place, and later bytes only add items behind it. After the fault that closes the
/// connection they add none.
pub fn each_message_gives_one_item()
    ensures count { laws.each_message_gives_one_item }
    ensures stay { laws.items_stay }
    ensures closed { laws.nothing_is_given_after_a_fault }
{}

/// The client is the one that the last accepted authentication made known. A call that says who makes it is of that
/// client. Before an accepted authentication each message that is none is refused.
pub fn calls_are_authenticated()
    ensures client { laws.the_last_accepted_is_the_client }
    ensures calls { laws.every_call_is_authenticated }
    ensures before { laws.nothing_else_is_served_before }
{}

/// A call is named by its connection and the place of its message, is in the partition that its message states, which
/// for a map's entry is that of its key, and fits frames.
pub fn calls_are_those_of_their_messages()
    ensures numbered { laws.every_call_is_numbered }
    ensures placed { laws.every_call_is_placed }
    ensures stated { laws.every_partition_is_stated }
    ensures fits { laws.every_call_fits }
{}
