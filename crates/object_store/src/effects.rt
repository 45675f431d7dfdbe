use grid_base::Bytes;
use map_records::MapRecord;

/// What makes the state after a call of the state before it. It carries no more than what the call brought or changed.
#[derive(Debug, Drop)]
pub enum Effect {
    /// The entry of a map has this record, which has a value or a lock.
    SetEntry {
        map: Bytes,
        key: Bytes,
        record: MapRecord,
    },
    /// Nothing is kept of the entry of a map.
    DropEntry {
        map: Bytes,
        key: Bytes,
    },
    /// A value goes to the back of a queue.
    Push {
        queue: Bytes,
        value: Bytes,
    },
    /// The value at the front of a queue goes.
    Pop {
        queue: Bytes,
    },
    /// All values of a queue go.
    Clear {
        queue: Bytes,
    },
}
