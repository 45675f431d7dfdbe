//! What holds of the bytes of a connection and of the messages that are heard of them. Nothing runs here.
ghost use Rattle.std.specs.Prelude.{◌<◌, ◌^◌};
ghost use Rattle.message_frames.specs.Laws as laws;
ghost use Rattle.message_frames.specs.Writing as writing;

/// The bytes of the pieces that a connection takes are heard as the messages that they merge to, without a fault, also
/// where they break off in the midst of a piece. Behind them no other message is heard before a further piece is there.
pub fn the_grammar_is_heard()
    ensures whole { laws.the_grammar_is_heard }
    ensures so_far { laws.a_stream_is_heard_so_far }
    ensures exactly { laws.exactly_the_pieces_are_heard }
{}

/// Whatever the bytes, what is heard of them are the messages of pieces that stand at their front, and the rest begins with no
/// further piece that the connection takes. A fault stands in the rest, and without one no whole piece begins it. Without the
/// prefix nothing is heard.
pub fn what_is_heard_is_in_the_grammar()
    ensures pieces { laws.what_is_heard_is_in_the_grammar }
    ensures prefix { laws.nothing_is_heard_without_the_prefix }
{}

/// More bytes change nothing after a fault, and before it they only add messages. A fault shows only in bytes that begin no
/// stream of the grammar.
pub fn a_fault_stays()
    ensures fault { laws.a_fault_stays }
    ensures messages { laws.messages_stay }
    ensures outside { laws.a_fault_is_outside_the_grammar }
{}

/// The bytes of a stream without a fault are bounded, so their places are small.
pub fn texts_without_fault_are_bounded()
    ensures bound { laws.texts_without_fault_are_bounded }
    ensures small { laws.longest_text < 2 ^ 56 }
{}

/// What `write_message` and `write_fragments` append goes on any stream that has room for the message. It adds that message
/// to those that are heard, and leaves no chain open.
pub fn what_is_written_is_heard()
    ensures message { writing.a_written_message_is_heard }
    ensures fragments { writing.written_fragments_are_heard }
{}

/// Fragments have the frames of their message in order. Each has one, or as many as are within the size together.
pub fn packing_is_full()
    ensures { writing.packing_is_full }
{}
