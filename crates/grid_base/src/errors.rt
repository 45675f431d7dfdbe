//! The numbers with which a client's request is refused.

/// The connection made no client known.
pub const NOT_AUTHENTICATED: i32 = 2;

/// No request has the message's type.
pub const UNKNOWN_TYPE: i32 = 3;

/// A field of the message can't be read.
pub const BAD_CALL: i32 = 4;

/// The message states another partition than its key's.
pub const WRONG_PARTITION: i32 = 5;

/// No member has the partition any more.
pub const PARTITION_LOST: i32 = 7;

/// The member isn't the partition's primary.
pub const WRONG_TARGET: i32 = 8;

/// The partition is being handed over.
pub const MIGRATING: i32 = 9;

/// Want of memory.
pub const WANT_OF_MEMORY: i32 = 10;

/// Another owner has the key's lock.
pub const KEY_LOCKED: i32 = 11;

/// The caller doesn't have the lock that it releases.
pub const NOT_OWNER: i32 = 12;

/// No processor has the number.
pub const UNKNOWN_PROCESSOR: i32 = 13;
