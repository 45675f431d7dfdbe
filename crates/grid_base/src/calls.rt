use crate::bytes::Bytes;
use crate::names::{CallId, Owner, PartitionId};

/// A call on one entry of a map, which its map's name and its key name.
///
/// Times to live, leases and max idle times are in milliseconds; one of 0 or less never ends.
#[derive(Debug, Drop)]
pub enum MapCall {
    /// Sets the value and answers the one before.
    Put {
        name: Bytes,
        key: Bytes,
        owner: Owner,
        value: Bytes,
        ttl: i64,
    },
    /// Sets the value.
    Set {
        name: Bytes,
        key: Bytes,
        owner: Owner,
        value: Bytes,
        ttl: i64,
    },
    /// Sets the value where there is none, and answers the one before.
    PutIfAbsent {
        name: Bytes,
        key: Bytes,
        owner: Owner,
        value: Bytes,
        ttl: i64,
    },
    /// Answers the value.
    Get {
        name: Bytes,
        key: Bytes,
        owner: Owner,
    },
    /// Answers whether there is a value.
    ContainsKey {
        name: Bytes,
        key: Bytes,
        owner: Owner,
    },
    /// Takes the value away and answers it.
    Remove {
        name: Bytes,
        key: Bytes,
        owner: Owner,
    },
    /// Takes the value away.
    Delete {
        name: Bytes,
        key: Bytes,
        owner: Owner,
    },
    /// Puts a value in the place of another, with its expiry, and answers the one before.
    Replace {
        name: Bytes,
        key: Bytes,
        owner: Owner,
        value: Bytes,
    },
    /// Puts a value in the place of an equal one of `test`, with its expiry, and answers whether it did.
    ReplaceIfSame {
        name: Bytes,
        key: Bytes,
        owner: Owner,
        test: Bytes,
        value: Bytes,
    },
    /// Takes the value away where it equals `test`, and answers whether it did.
    RemoveIfSame {
        name: Bytes,
        key: Bytes,
        owner: Owner,
        test: Bytes,
    },
    /// Locks the key, also once more for its owner, and answers whether it did.
    TryLock {
        name: Bytes,
        key: Bytes,
        owner: Owner,
        lease: i64,
    },
    /// Releases the owner's lock once.
    Unlock {
        name: Bytes,
        key: Bytes,
        owner: Owner,
    },
    /// Answers whether the key is locked.
    IsLocked {
        name: Bytes,
        key: Bytes,
    },
    /// Takes the lock away, whoever has it.
    ForceUnlock {
        name: Bytes,
        key: Bytes,
    },
    /// Runs the processor of a number on the value and the argument.
    ExecuteOnKey {
        name: Bytes,
        key: Bytes,
        owner: Owner,
        number: i32,
        argument: Bytes,
    },
    /// As `Put`, for a value that also goes once it lies unused so long.
    PutMaxIdle {
        name: Bytes,
        key: Bytes,
        owner: Owner,
        value: Bytes,
        ttl: i64,
        idle: i64,
    },
    /// As `Set`, for a value that also goes once it lies unused so long.
    SetMaxIdle {
        name: Bytes,
        key: Bytes,
        owner: Owner,
        value: Bytes,
        ttl: i64,
        idle: i64,
    },
}

impl MapCall {
    ghost use Rattle.std.specs.Prelude.{◌≡◌};
    ghost use Rattle.grid_base.specs.Names.{map_of, key_of};
    ghost use Rattle.grid_base.specs.Limits.{MapNumbersFit};

    /// The call's numbers are those of their types. Nothing runs here.
    pub fn numbers_fit(&self)
        ensures { MapNumbersFit self.now }
    {
        match self {
            MapCall::Put { owner, ttl, .. }
            | MapCall::Set { owner, ttl, .. }
            | MapCall::PutIfAbsent { owner, ttl, .. }
            | MapCall::TryLock {
                owner,
                lease: ttl,
                ..
            } => {
                let _ttl = *ttl;
                owner.fits();
            }
            MapCall::PutMaxIdle {
                owner,
                ttl,
                idle,
                ..
            }
            | MapCall::SetMaxIdle {
                owner,
                ttl,
                idle,
                ..
            } => {
                let _times = (*ttl, *idle);
                owner.fits();
            }
            _ => {}
        }
    }

    /// The name of the call's map.
    pub fn map(&self) -> &Bytes
        ensures { result.now ≡ map_of self.now }
    {
        match self {
            MapCall::Put { name, .. }
            | MapCall::Set { name, .. }
            | MapCall::PutIfAbsent { name, .. }
            | MapCall::Get { name, .. }
            | MapCall::ContainsKey { name, .. }
            | MapCall::Remove { name, .. }
            | MapCall::Delete { name, .. }
            | MapCall::Replace { name, .. }
            | MapCall::ReplaceIfSame { name, .. }
            | MapCall::RemoveIfSame { name, .. }
            | MapCall::TryLock { name, .. }
            | MapCall::Unlock { name, .. }
            | MapCall::IsLocked { name, .. }
            | MapCall::ForceUnlock { name, .. }
            | MapCall::ExecuteOnKey { name, .. }
            | MapCall::PutMaxIdle { name, .. }
            | MapCall::SetMaxIdle { name, .. } => name,
        }
    }

    /// The key of the call's entry.
    pub fn key(&self) -> &Bytes
        ensures { result.now ≡ key_of self.now }
    {
        match self {
            MapCall::Put { key, .. }
            | MapCall::Set { key, .. }
            | MapCall::PutIfAbsent { key, .. }
            | MapCall::Get { key, .. }
            | MapCall::ContainsKey { key, .. }
            | MapCall::Remove { key, .. }
            | MapCall::Delete { key, .. }
            | MapCall::Replace { key, .. }
            | MapCall::ReplaceIfSame { key, .. }
            | MapCall::RemoveIfSame { key, .. }
            | MapCall::TryLock { key, .. }
            | MapCall::Unlock { key, .. }
            | MapCall::IsLocked { key, .. }
            | MapCall::ForceUnlock { key, .. }
            | MapCall::ExecuteOnKey { key, .. }
            | MapCall::PutMaxIdle { key, .. }
            | MapCall::SetMaxIdle { key, .. } => key,
        }
    }
}

/// A call on a queue.
#[derive(Debug, Drop)]
pub enum QueueCall {
    /// Appends a value at the back, where there is room for one more, and answers whether it did.
    Offer { name: Bytes, value: Bytes },
    /// Takes the value at the front away and answers it, or null where there is none.
    Poll { name: Bytes },
    /// Answers the value at the front, or null where there is none.
    Peek { name: Bytes },
    /// Answers how many values there are.
    Size { name: Bytes },
    /// Answers how many values more there is room for.
    RemainingCapacity { name: Bytes },
    /// Takes all values away.
    Clear { name: Bytes },
}

impl QueueCall {
    ghost use Rattle.std.specs.Prelude.{◌≡◌};
    ghost use Rattle.grid_base.specs.Names.{queue_of};

    /// The name of the call's queue.
    pub fn queue(&self) -> &Bytes
        ensures { result.now ≡ queue_of self.now }
    {
        match self {
            QueueCall::Offer { name, .. }
            | QueueCall::Poll { name }
            | QueueCall::Peek { name }
            | QueueCall::Size { name }
            | QueueCall::RemainingCapacity { name }
            | QueueCall::Clear { name } => name,
        }
    }
}

/// A call on one object of the grid.
#[derive(Debug, Drop)]
pub enum GridCall {
    Map(MapCall),
    Queue(QueueCall),
}

impl GridCall {
    ghost use Rattle.grid_base.specs.Limits.{NumbersFit};

    /// The call's numbers are those of their types. Nothing runs here.
    pub fn numbers_fit(&self)
        ensures { NumbersFit self.now }
    {
        match self {
            GridCall::Map(call) => call.numbers_fit(),
            GridCall::Queue(_) => {}
        }
    }
}

/// A call as a client asked for it: its name, what its reply carries, and where it goes.
#[derive(Debug, Drop)]
pub struct Request {
    pub id: CallId,
    /// The client's own number for it, which the reply repeats.
    pub correlation: i64,
    /// The message type of the request.
    pub kind: u32,
    pub partition: PartitionId,
    pub call: GridCall,
}

/// What a call answers.
#[derive(Debug, Drop)]
pub enum Answer {
    /// It was done.
    Void,
    Flag(bool),
    Number(u32),
    /// A value, or null.
    Maybe(Option<Bytes>),
    /// Another owner has the key's lock.
    KeyLocked,
    /// The caller doesn't have the lock that it releases.
    NotOwner,
    /// No processor has the number.
    UnknownProcessor,
}

/// How a call changed an entry's value.
#[derive(Debug, Drop)]
pub struct Change {
    pub name: Bytes,
    pub key: Bytes,
    pub old: Option<Bytes>,
    pub new: Option<Bytes>,
    /// The old value had expired.
    pub expired: bool,
}

/// What executing a call gave, before anything changed.
#[derive(Debug, Drop)]
pub struct Executed {
    /// The reply message.
    pub reply: Bytes,
    /// What makes the state after the call; none where the call changes nothing.
    pub effect: Option<Bytes>,
    pub change: Option<Change>,
}
