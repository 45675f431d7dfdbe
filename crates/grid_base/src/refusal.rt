ghost use Rattle.std.specs.Prelude.{◌≡◌};
ghost use Rattle.grid_base.specs.declared.refusal.CallRefused.TheVariants.{Memory};

use crate::errors::{MIGRATING, PARTITION_LOST, WRONG_TARGET};
use std::alloc::{AllocError, AllocFailed};
use thiserror::Error;

/// Why a message was not read as a request.
#[derive(Clone, Copy, Debug, PartialEq, Eq, Error)]
pub enum CallRefused {
    #[error("no request has this type")]
    UnknownType,
    #[error("a field of the request can't be read")]
    BadCall,
    #[error("out of memory")]
    Memory,
}

impl From<AllocError> for CallRefused {
    ghost from_gives = { λ _ refused. refused ≡ Memory };

    fn from(_error: AllocError) -> CallRefused {
        CallRefused::Memory
    }
}

impl<T: Drop> From<AllocFailed<T>> for CallRefused {
    ghost from_gives = { λ _ refused. refused ≡ Memory };

    fn from(_error: AllocFailed<T>) -> CallRefused {
        CallRefused::Memory
    }
}

/// Why a member didn't execute a call that reached it, with the version of the row that it knows.
#[derive(Clone, Copy, Debug, PartialEq, Eq)]
pub enum PartitionRefused {
    /// No member has the partition any more.
    PartitionLost { version: u32 },
    /// Another member is primary.
    WrongTarget { version: u32 },
    /// The member gives the partition up.
    Migrating { version: u32 },
}

impl PartitionRefused {
    ghost use Rattle.std.specs.Prelude.{pos};
    ghost use Rattle.grid_base.specs.Refusals.{code_of, version_of};

    /// The number with which the client is refused.
    pub fn code(self) -> i32
        ensures { result ≡ pos (code_of self) }
    {
        match self {
            PartitionRefused::PartitionLost { .. } => PARTITION_LOST,
            PartitionRefused::WrongTarget { .. } => WRONG_TARGET,
            PartitionRefused::Migrating { .. } => MIGRATING,
        }
    }

    /// The version that the member knows.
    pub fn version(self) -> u32
        ensures { result ≡ version_of self }
    {
        match self {
            PartitionRefused::PartitionLost { version }
            | PartitionRefused::WrongTarget { version }
            | PartitionRefused::Migrating { version } => version,
        }
    }
}
