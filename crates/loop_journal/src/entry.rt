//! What stands in a journal.
use grid_base::{CallId, PartitionId};

/// A call, by its name and its partition.
#[derive(Clone, Copy, Debug)]
pub struct NotedCall {
    pub id: CallId,
    pub partition: PartitionId,
}

/// One thing that a thread did for a connection, which stands in it by its number.
#[derive(Clone, Copy, Debug)]
pub enum Entry {
    /// A read gave so many bytes. None of them is the end.
    Read { conn: u32, bytes: usize },
    /// A write took so many bytes.
    Written { conn: u32, bytes: usize },
    /// A call was handed over to its worker.
    Started(NotedCall),
    /// A call's outcome was found, and is answered from then on.
    Finished(NotedCall),
}
