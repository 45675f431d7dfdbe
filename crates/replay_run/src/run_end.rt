ghost use Rattle.std.specs.Prelude.{◌≡◌};
ghost use Rattle.replay_run.specs.declared.run_end.RunEnd.TheVariants as RunEnds;

use std::alloc::AllocError;

/// Why a run ended at a line.
#[derive(Clone, Copy, Debug, PartialEq, Eq)]
pub enum RunEnd {
    /// An event other than a loss met a partition with 65,400 messages or more in flight on one link.
    InFlight,
    /// Want of memory.
    Memory,
}

impl From<AllocError> for RunEnd {
    ghost from_gives = { λ _ end. end ≡ RunEnds.Memory };

    fn from(_error: AllocError) -> RunEnd {
        RunEnd::Memory
    }
}
