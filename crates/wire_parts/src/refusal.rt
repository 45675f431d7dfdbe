ghost use Rattle.std.specs.Prelude.{◌≡◌};
ghost use Rattle.wire_parts.specs.declared.refusal.WireRefused.TheVariants.{Memory};

use std::alloc::{AllocError, AllocFailed};
use thiserror::Error;

/// Why bytes were not read: the first place that fails, from left to right, counted from 0.
#[derive(Clone, Copy, Debug, PartialEq, Eq, Error)]
pub enum WireRefused {
    /// The bytes end inside a number, a byte, or bytes behind their length; it begins at `at`.
    #[error("the bytes end inside what begins at byte {at}")]
    Short { at: usize },
    /// The kind or the mark at `at` is none that there is.
    #[error("no kind or mark is spelled as byte {at} is")]
    Tag { at: usize },
    /// What is at `at` cannot stand there after what came before.
    #[error("what begins at byte {at} is out of order")]
    Order { at: usize },
    /// More bytes follow the last part, from `at` on.
    #[error("bytes are left over from byte {at} on")]
    Rest { at: usize },
    #[error("out of memory")]
    Memory,
}

impl From<AllocError> for WireRefused {
    ghost from_gives = { λ _ e. e ≡ Memory };

    fn from(_: AllocError) -> WireRefused {
        WireRefused::Memory
    }
}

impl<T: Drop> From<AllocFailed<T>> for WireRefused {
    ghost from_gives = { λ _ e. e ≡ Memory };

    fn from(_: AllocFailed<T>) -> WireRefused {
        WireRefused::Memory
    }
}
