//! What a client answers and tells.

ghost use Rattle.std.specs.Prelude.{◌≡◌};
ghost use Rattle.grid_client.specs.declared.heard.ClientRefused.TheVariants.{Memory};

use frame_codec::Malformed;
use grid_base::{Bytes, PartitionId};
use std::alloc::{AllocError, AllocFailed};
use thiserror::Error;

/// Why a client doesn't do what it was asked.
#[derive(Clone, Copy, Debug, PartialEq, Eq, Error)]
pub enum ClientRefused {
    #[error("the connection is attached already")]
    Known,
    #[error("no connection is attached")]
    NoConnection,
    #[error("a key has at least 8 bytes")]
    ShortKey,
    #[error("the client has no near cache")]
    NoNear,
    #[error("out of memory")]
    Memory,
}

impl From<AllocError> for ClientRefused {
    ghost from_gives = { λ _ refused. refused ≡ Memory };

    fn from(_error: AllocError) -> ClientRefused {
        ClientRefused::Memory
    }
}

impl<T: Drop> From<AllocFailed<T>> for ClientRefused {
    ghost from_gives = { λ _ refused. refused ≡ Memory };

    fn from(_error: AllocFailed<T>) -> ClientRefused {
        ClientRefused::Memory
    }
}

/// What is to be sent: the bytes of a request, and the connection on which they go.
#[derive(Debug, Drop)]
pub struct Sending {
    pub conn: u32,
    /// By which its answer is told.
    pub correlation: i64,
    pub bytes: Bytes,
}

/// What a look-up finds.
#[derive(Debug, Drop)]
pub enum NearLook {
    /// The value that is kept, which may be null.
    Hit(Option<Bytes>),
    /// Nothing is kept: the get that asks for the value.
    Miss(Sending),
}

/// What a message to the client comes to.
#[derive(Debug, Drop)]
pub enum Heard {
    /// The answer to a call, whose frames are these bytes.
    Answered { correlation: i64, bytes: Bytes },
    /// A look-up brought a value, which is kept.
    Kept,
    /// A look-up brought a value, which isn't kept: since it was opened its key was invalidated, or its partition cleared. The
    /// last one tells the version and the number of its effect there, or the version of its row and the number 0.
    Overtaken { version: u32, number: u32 },
    /// What was kept for a key is gone.
    Invalidated,
    /// What was kept for the keys of a partition is gone.
    Cleared(PartitionId),
    /// A call was answered by an error of this code.
    Refused { correlation: i64, code: i32 },
}

/// What a feed gave: what its messages came to, in order, and the first fault of the connection if it has shown.
#[derive(Debug, Drop)]
pub struct FedClient {
    pub heard: Vec<Heard>,
    pub fault: Option<Malformed>,
}
