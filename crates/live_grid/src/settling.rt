//! What a call's event tells at once.
ghost use Rattle.std.specs.Prelude.{◌≡◌};
ghost use Rattle.live_grid.specs.Outcomes.{refused_as, settled_as};

use grid_base::PartitionRefused;
use hand_cell::LiveOutcome;
use partition_world::{CallOutcome, Happened};

/// The outcome of a call whose event came to this, if it is known at once: it was refused, or no live member was there.
pub(crate) fn settled_as(outcome: Happened) -> Option<LiveOutcome>
    ensures { result ≡ settled_as outcome }
{
    match outcome {
        Happened::Nothing => Some(LiveOutcome::MemberGone),
        Happened::Called(CallOutcome::Refused(why)) => Some(refused_as(why)),
        _ => None,
    }
}

/// A refusal as an outcome.
fn refused_as(why: PartitionRefused) -> LiveOutcome
    ensures { result ≡ refused_as why }
{
    match why {
        PartitionRefused::PartitionLost { version } => LiveOutcome::PartitionLost { version },
        PartitionRefused::WrongTarget { version } => LiveOutcome::WrongTarget { version },
        PartitionRefused::Migrating { version } => LiveOutcome::Migrating { version },
    }
}
