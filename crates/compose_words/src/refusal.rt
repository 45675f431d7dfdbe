ghost use Rattle.std.specs.Prelude.{◌≡◌};
ghost use Rattle.compose_words.specs.declared.refusal.SayRefused.TheVariants.{Memory};

use std::alloc::{AllocError, AllocFailed};
use thiserror::Error;

/// Why something can't be said in a message.
#[derive(Clone, Copy, Debug, PartialEq, Eq, Error)]
pub enum SayRefused {
    #[error("a name isn't UTF-8")]
    Name,
    #[error("a key has fewer than eight bytes")]
    Key,
    #[error("the message is longer than one may be")]
    Long,
    #[error("out of memory")]
    Memory,
}

impl From<AllocError> for SayRefused {
    ghost from_gives = { λ _ refused. refused ≡ Memory };

    fn from(_error: AllocError) -> SayRefused {
        SayRefused::Memory
    }
}

impl<T: Drop> From<AllocFailed<T>> for SayRefused {
    ghost from_gives = { λ _ refused. refused ≡ Memory };

    fn from(_error: AllocFailed<T>) -> SayRefused {
        SayRefused::Memory
    }
}
