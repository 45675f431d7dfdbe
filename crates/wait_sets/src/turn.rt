use grid_base::{PartitionRefused, Request};

/// What a member would do with a call.
#[derive(Clone, Copy, Debug, PartialEq, Eq)]
pub enum Standing {
    /// It is primary by the row that it knows, and isn't frozen.
    Serves,
    /// It executes none.
    Refuses(PartitionRefused),
    /// It has crashed.
    Gone,
}

/// A waiting call that has left, and what becomes of it.
#[derive(Debug, Drop)]
pub enum Turn {
    /// It is ready or due: its plain call is to be made.
    Call(Request),
    /// It is refused as its plain call would be.
    Refusal(Request, PartitionRefused),
    /// It gets no answer.
    Silence(Request),
}
