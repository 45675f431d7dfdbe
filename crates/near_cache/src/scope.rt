ghost use Rattle.std.specs.Prelude.{◌≡◌};
ghost use Rattle.near_cache.specs.Scopes.{is_in_partition, is_covered};

use grid_base::{Bytes, PartitionId};
use murmur_partition::{key_hash, partition_of};

/// Which keys go: one, or all of a partition.
#[derive(Clone, Copy)]
pub(crate) enum Scope<'a> {
    Key(&'a Bytes),
    Partition(PartitionId),
}

impl Scope<'_> {
    pub fn covers(&self, key: &Bytes) -> bool
        ensures { result ≡ is_covered self.now key.now }
    {
        match self {
            Scope::Key(this) => *this == key,
            Scope::Partition(partition) => is_in_partition(*partition, key),
        }
    }
}

/// Whether a key is of a partition. One of fewer than eight bytes is of none.
pub(crate) fn is_in_partition(partition: PartitionId, key: &Bytes) -> bool
    ensures { result ≡ is_in_partition partition key.now }
{
    key_hash(key.as_slice()).is_ok_and(|hash| partition_of(hash) == partition)
}
