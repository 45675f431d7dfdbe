//! The message types of the registrations and the events, and the kinds of change that an entry event tells.

/// The message type of a registration of an entry listener.
pub const ENTRY_LISTENER_KIND: u32 = 0x01_19_00;

/// The message type of a registration of an invalidation listener.
pub const INVALIDATION_LISTENER_KIND: u32 = 0x01_3f_00;

/// The message type of a registration for rows.
pub const CLUSTER_VIEW_KIND: u32 = 0x00_03_00;

/// The message type of an entry event.
pub const ENTRY_EVENT_KIND: u32 = 0x01_19_02;

/// The message type of an invalidation.
pub const INVALIDATION_EVENT_KIND: u32 = 0x01_3f_02;

/// The message type of a rows event.
pub const ROWS_EVENT_KIND: u32 = 0x00_03_03;

/// There was no value.
pub const ADDED: i32 = 1;

/// The value was taken away.
pub const REMOVED: i32 = 2;

/// Another value took the place of the one that was kept, expired or not.
pub const UPDATED: i32 = 4;

/// The value had expired, and no other took its place.
pub const EXPIRED: i32 = 16;
