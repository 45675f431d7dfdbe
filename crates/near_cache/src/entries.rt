//! What a cache keeps: keys with their values, in the order of use.
ghost use Rattle.std.specs.Prelude.{◌≡◌, not, filter, IfOk, OnOk, OnErr};
ghost use Rattle.std.specs.Map.{keys_of};
ghost use Rattle.lru.specs.LruCache.{lru_cache};
ghost use Rattle.near_cache.specs.Scopes.{is_in_partition};

use crate::scope::is_in_partition;
use grid_base::{Bytes, Memory, PartitionId};
use lru::LruCache;
use std::alloc::Global;

pub(crate) type Entries = LruCache<Bytes, Option<Bytes>>;

/// Copies of the keys of a partition.
fn keys_in(alloc: Global, entries: &Entries, partition: PartitionId) -> Result<Vec<Bytes>, Memory>
    ensures { IfOk result (λ keys. keys.items ≡ keys_of (filter (λ e. is_in_partition partition e.0) entries.now.entries)) }
{
    let mut keys = Vec::new(alloc);
    for (key, _) in entries.iter() {
        if is_in_partition(partition, key) {
            keys.push(key.copied(alloc)?)?;
        }
    }
    Ok(keys)
}

/// Takes out the entries of a partition, at the cost of looking at all. Want of memory changes nothing.
pub(crate) fn clear_partition(entries: &mut Entries, partition: PartitionId) -> Result<(), Memory>
    ensures ok { OnOk result (entries.new ≡ lru_cache (filter (λ e. not (is_in_partition partition e.0)) entries.old.entries) entries.old.cap) }
    ensures err { OnErr result (entries.new ≡ entries.old) }
{
    let keys = keys_in(*entries.allocator(), entries, partition)?;
    for key in &keys {
        entries.pop(key);
    }
    Ok(())
}
