ghost use Rattle.std.specs.Prelude.{◌≡◌};
ghost use Rattle.running_grid.specs.Ends.{refused_as, given_up_as};
ghost use Rattle.running_grid.specs.declared.run_end.RunEnd.TheVariants as RunEnds;

use script_lang::{LineRefused, LineWhy};
use std::alloc::{AllocError, AllocFailed};

/// Why a watched run ended at a line.
#[derive(Clone, Copy, Debug, PartialEq, Eq)]
pub enum RunEnd {
    /// The line isn't in the language, and ran in no part.
    Refused(LineWhy),
    /// The line is longer than one may be.
    Long,
    /// The grid has run as many lines as a script may have.
    Lines,
    /// An event other than a loss met a partition with 65,400 messages or more in flight on one link.
    InFlight,
    /// Want of memory.
    Memory,
}

impl From<LineRefused> for RunEnd {
    ghost from_gives = { λ refused end. end ≡ refused_as refused };

    fn from(refused: LineRefused) -> RunEnd {
        match refused {
            LineRefused::Why(why) => RunEnd::Refused(why),
            LineRefused::Memory => RunEnd::Memory,
        }
    }
}

impl From<replay_run::RunEnd> for RunEnd {
    ghost from_gives = { λ given_up end. end ≡ given_up_as given_up };

    fn from(end: replay_run::RunEnd) -> RunEnd {
        match end {
            replay_run::RunEnd::InFlight => RunEnd::InFlight,
            replay_run::RunEnd::Memory => RunEnd::Memory,
        }
    }
}

impl From<AllocError> for RunEnd {
    ghost from_gives = { λ _ end. end ≡ RunEnds.Memory };

    fn from(_error: AllocError) -> RunEnd {
        RunEnd::Memory
    }
}

impl<T: Drop> From<AllocFailed<T>> for RunEnd {
    ghost from_gives = { λ _ end. end ≡ RunEnds.Memory };

    fn from(_error: AllocFailed<T>) -> RunEnd {
        RunEnd::Memory
    }
}
