/// Why the bytes of a stream are outside the grammar. Where one byte shows several faults, the first
/// of them in this order is the stream's.
#[derive(Clone, Copy, Debug, PartialEq, Eq)]
pub enum Why {
    /// One of the first three bytes differs from `CP2`.
    Prefix,
    /// A frame's length is less than that of its header.
    TooShort,
    /// A frame's length is more than a frame may have.
    TooLong,
    /// A frame in a header's place is none, or begins a chain that is open, or continues one that is not.
    BadFragment,
    /// A header would open more chains than a connection may have open.
    OpenFragments,
    /// A message has more frames than it may have.
    ManyFrames,
    /// The lengths of a message's frames pass what they may be together.
    LongMessage,
    /// The first payload of a message is too short for its head.
    ShortStart,
    /// The connection had all the messages that it can number.
    Spent,
}

/// The first fault of a stream, and the place that it shows at, in bytes from the stream's first.
#[derive(Clone, Copy, Debug, PartialEq, Eq)]
pub struct Malformed {
    pub at: u64,
    pub why: Why,
}
