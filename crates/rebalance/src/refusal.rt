ghost use Rattle.std.specs.Prelude.{◌≡◌};
ghost use Rattle.rebalance.specs.declared.refusal.PlanRefused.TheVariants.{Memory};

use grid_base::PartitionId;
use std::alloc::AllocError;
use thiserror::Error;

/// Why there is no plan: the first of these that holds.
#[derive(Clone, Copy, Debug, PartialEq, Eq, Error)]
pub enum PlanRefused {
    #[error("every member is detected")]
    NoMember,
    /// The first partition that isn't lost and is moving, or has a member that may not lead yet.
    #[error("partition {partition} isn't settled")]
    Unsettled { partition: PartitionId },
    #[error("out of memory")]
    Memory,
}

impl From<AllocError> for PlanRefused {
    ghost from_gives = { λ _ refused. refused ≡ Memory };

    fn from(_error: AllocError) -> PlanRefused {
        PlanRefused::Memory
    }
}
