ghost use Rattle.std.specs.Prelude.{◌≡◌};
ghost use Rattle.partition_protocol.specs.History.{is_in_pair};
ghost use Rattle.partition_world.specs.RecordedEntries.{entry_of};

use grid_base::{Bytes, CallId, Moment};
use partition_protocol::Pair;

/// What stands in a partition's history.
#[derive(Debug, Drop)]
pub enum Entry<C> {
    /// A call as it was executed.
    Call {
        id: CallId,
        /// The version in which it was executed.
        version: u32,
        /// The count of effects that it saw, its own included.
        seen: u32,
        now: Moment,
        call: C,
        reply: Bytes,
    },
    /// The partition was reopened by the row of that version, and goes on empty.
    Reset {
        version: u32,
    },
}

impl<C> Entry<C> {
    /// Whether it was executed in the pair's version, and is counted by the pair.
    pub(crate) fn is_in(&self, pair: Pair) -> bool
        ensures { result ≡ is_in_pair pair (entry_of self.now) }
    {
        match self {
            Entry::Call { version, seen, .. } => *version == pair.version && *seen <= pair.count,
            Entry::Reset { .. } => false,
        }
    }
}
