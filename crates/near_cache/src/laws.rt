//! What holds of a cache after any calls, by what its methods say. These functions compute nothing.

ghost use Rattle.near_cache.specs.Runs.{EveryCacheIsWithin, EveryFillIsHit, EveryHitWasFilled};

/// A value that is hit is the answer to a look-up of that key; since that was opened, no invalidation of the key came, and
/// no clear of its partition.
pub fn every_hit_was_filled()
    ensures { EveryHitWasFilled }
{}

/// The answer to a look-up that nothing overtook is hit next.
pub fn every_fill_is_hit()
    ensures { EveryFillIsHit }
{}

/// There are never more entries than the capacity, nor two of one key.
pub fn every_cache_is_within()
    ensures { EveryCacheIsWithin }
{}
