use client_codecs::Authentication;
use grid_base::{Bytes, MapCall, Owner, PARTITIONS, PartitionId, QueueCall};

/// A call on a map's entry that may wait.
#[derive(Debug, Drop)]
pub enum MapWait {
    /// For the lock, which is then taken for so many milliseconds.
    Lock {
        name: Bytes,
        key: Bytes,
        owner: Owner,
        lease: i64,
    },
    /// For a lock of another owner to be free. Then the value is put, to live for so many milliseconds.
    Put {
        name: Bytes,
        key: Bytes,
        owner: Owner,
        value: Bytes,
        ttl: i64,
    },
}

/// A call on a queue that may wait.
#[derive(Debug, Drop)]
pub enum QueueWait {
    /// For room.
    Offer { name: Bytes, value: Bytes },
    /// For an element.
    Poll { name: Bytes },
}

/// What a client asks to be told from now on.
#[derive(Debug, Drop)]
pub enum Listening {
    /// How the values of a map's entries change.
    Entries {
        name: Bytes,
        /// Whether it wants to be told the new and the old value.
        with_value: bool,
    },
    /// Which entries of a map a near cache is to give up.
    Invalidations {
        name: Bytes,
    },
    /// Which rows the member adopts.
    Rows,
}

/// What a client says in one message.
#[derive(Debug, Drop)]
pub enum Saying {
    /// It makes itself known.
    Hello(Authentication),
    Ping,
    /// A call on a map's entry, in the partition of its key. Whose call it is the connection says, so of its owner
    /// only the thread is said.
    OnMap(MapCall),
    /// A call on a queue of that partition.
    OnQueue {
        partition: PartitionId,
        call: QueueCall,
    },
    /// Such a call on a map's entry that may wait, for so many milliseconds.
    WaitOnMap {
        wait: MapWait,
        timeout: i64,
    },
    /// Such a call on a queue that may wait, for so many milliseconds.
    WaitOnQueue {
        partition: PartitionId,
        wait: QueueWait,
        timeout: i64,
    },
    /// It listens. Each event repeats the message's correlation.
    Listen(Listening),
}

impl Saying {
    ghost use Rattle.std.specs.Prelude.{◌↔◌, IsTrue};
    ghost use Rattle.compose_words.specs.Sayings.{IsPlaced};

    /// Whether a queue that is called is in one of the grid's partitions.
    pub fn is_placed(&self) -> bool
        ensures { IsTrue result ↔ IsPlaced self.now }
    {
        match self {
            Saying::OnQueue { partition, .. } | Saying::WaitOnQueue { partition, .. } => {
                *partition < PARTITIONS
            }
            Saying::Hello(_)
            | Saying::Ping
            | Saying::OnMap(_)
            | Saying::WaitOnMap { .. }
            | Saying::Listen(_) => true,
        }
    }
}
