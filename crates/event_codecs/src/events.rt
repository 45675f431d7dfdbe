use crate::seen::SeenRows;
use grid_base::Bytes;

/// What a client is sent unasked. `correlation` is that of the registration that it answers.
#[derive(Debug, Drop)]
pub enum ClientEvent {
    /// An entry's value changed.
    Entry {
        correlation: i64,
        /// The key's partition.
        partition: i32,
        /// How it changed: `ADDED`, `REMOVED`, `UPDATED` or `EXPIRED`.
        kind: i32,
        key: Bytes,
        /// The value that is left, where one is and values are told.
        new: Option<Bytes>,
        /// The value that was kept, where one was and values are told.
        old: Option<Bytes>,
    },
    /// What a near cache has of an entry no longer stands.
    Invalidation {
        correlation: i64,
        /// The key's partition.
        partition: i32,
        /// The version in which the call was executed that changed the entry.
        version: u32,
        /// The count that the call saw there.
        number: u32,
        /// The map's name, a text.
        name: Bytes,
        key: Bytes,
    },
    /// Rows that a member knows.
    Rows {
        correlation: i64,
        rows: SeenRows,
    },
}
