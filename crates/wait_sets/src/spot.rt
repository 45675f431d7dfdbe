ghost use Rattle.std.specs.Prelude.{◌≡◌, ◌<◌, ℕ};
ghost use Rattle.grid_base.specs.declared.TheConstants.{PARTITIONS as partitions};
ghost use Rattle.wait_sets.specs.Lists.{place_of};

use grid_base::{MemberId, PARTITIONS, PartitionId};

/// Where a call waits: at which member, and in which partition.
#[derive(Clone, Copy, Debug, PartialEq, Eq)]
pub struct Spot {
    pub member: MemberId,
    pub partition: PartitionId,
}

impl Spot {
    /// The place of its list: those of a member are in order of partition, and behind those of the members before it.
    pub(crate) fn place(self) -> usize
        ensures { result ≡ place_of self.member self.partition }
    {
        usize::from(self.member) * usize::from(PARTITIONS) + usize::from(self.partition)
    }
}
