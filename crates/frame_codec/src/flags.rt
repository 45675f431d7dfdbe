//! The flags of a frame. Other bits have no meaning.

/// The frame begins a fragment chain; with `END_FRAGMENT`, an unfragmented message.
pub const BEGIN_FRAGMENT: u16 = 0x8000;

/// The frame ends a fragment chain; with `BEGIN_FRAGMENT`, it begins an unfragmented message.
pub const END_FRAGMENT: u16 = 0x4000;

/// The first frame of a message that isn't in fragments.
pub const UNFRAGMENTED: u16 = BEGIN_FRAGMENT | END_FRAGMENT;

/// The frame is the last of its message or fragment.
pub const FINAL: u16 = 0x2000;

/// A data structure begins with this frame.
pub const BEGIN_STRUCTURE: u16 = 0x1000;

/// A data structure ends with this frame.
pub const END_STRUCTURE: u16 = 0x0800;

/// The frame stands for null, and its payload is ignored.
pub const NULL: u16 = 0x0400;

/// The message is an event, which answers no request of its own.
pub const EVENT: u16 = 0x0200;

/// The client understands acknowledgements of backups.
pub const BACKUP_AWARE: u16 = 0x0100;

/// The message is an acknowledgement of a backup.
pub const BACKUP_EVENT: u16 = 0x0080;
