use crate::joined::Joined;
use crate::joining::Joining;
use partition_table::Row;

/// A move in a new row, which thaws a source that was frozen.
#[derive(Debug, Drop)]
pub enum Ongoing {
    /// The target waits for the contents.
    Joining(Joining),
    /// The target has the contents, and may lead.
    Joined(Joined),
    /// The target has the contents, and there is no source that would leave.
    Ended(Row),
}

/// A move whose target has got the contents, and may lead from now on.
#[derive(Debug, Drop)]
pub enum Arrived {
    /// The source is to leave.
    Joined(Joined),
    /// There is no source that would leave.
    Ended(Row),
}
