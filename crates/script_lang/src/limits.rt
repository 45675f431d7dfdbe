//! How large a script may be.

/// How many bytes a script may have.
pub const MOST_BYTES: usize = 16_777_216;

/// How many lines a script may have.
pub const MOST_LINES: u32 = 200_000;

/// How many bytes a line may have, its newline not counted.
pub const MOST_LINE_BYTES: usize = 65_536;
