use grid_base::{Bytes, CallId, Change};

/// The answer of a call that was executed.
#[derive(Debug, Drop)]
pub struct CallAnswer {
    pub id: CallId,
    /// The version in which the call was executed.
    pub version: u32,
    /// The count of effects that it saw, its own included.
    pub seen: u32,
    pub reply: Bytes,
    /// How it changed a value, if it did.
    pub change: Option<Change>,
}
