ghost use Rattle.std.specs.Prelude.{◌≡◌};
ghost use Rattle.master_log.specs.declared.refusal.ProposeRefused.TheVariants.{Memory};

use std::alloc::{AllocError, AllocFailed};
use thiserror::Error;

/// Why a decision wasn't proposed: the first reason that applies.
#[derive(Clone, Copy, Debug, PartialEq, Eq, Error)]
pub enum ProposeRefused {
    #[error("no live master serves")]
    NoMaster,
    /// The master's log, of that length, is longer than the published list.
    #[error("decision {length} isn't published yet")]
    Busy { length: u32 },
    #[error("the log has 10,000 decisions")]
    Full,
    #[error("out of memory")]
    Memory,
}

impl From<AllocError> for ProposeRefused {
    ghost from_gives = { λ _ e. e ≡ Memory };

    fn from(_: AllocError) -> ProposeRefused {
        ProposeRefused::Memory
    }
}
