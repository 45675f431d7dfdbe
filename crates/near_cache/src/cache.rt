ghost use Rattle.std.specs.Prelude.{◌≡◌, ◌≤◌, None, option_copied, IfOk, OnOk, OnErr, IsErr};
ghost use Rattle.std.specs.Borrow.{sem};
ghost use Rattle.near_cache.specs.Caches.{new_cache, hit, used, opened, closed, answered, overtaken, outcome_of, invalidated, cleared, IsOpen, IsNew};

use crate::entries::{Entries, clear_partition};
use crate::look_up::{Filled, LookUp, Overtaking, Reservation, overtake_all};
use crate::scope::Scope;
use grid_base::{Bytes, Memory, PartitionId};
use lru::LruCache;
use slab::Slab;
use std::alloc::Global;
use std::marker::Model;
use std::num::NonZeroUsize;

/// The values that a client keeps of the keys that it read, at most so many, and its look-ups that wait for answers.
///
/// Its memory is that of the entries, and of the look-ups that were open at once at most.
#[derive(Debug, Drop)]
pub struct NearCache {
    entries: Entries,
    waiting: Slab<LookUp>,
}

impl Model for NearCache {
    ghost use Rattle.std.specs.Prelude.{bytes_eq};
    ghost use Rattle.lru.specs.LruCache.{IsValid};
    ghost use Rattle.near_cache.specs.LookUps.{look_ups_in};
    ghost use Rattle.near_cache.specs.Caches.{Cache};
    ghost use Rattle.near_cache.specs.Codes.{cache_code};

    ghost Value = { Cache };

    ghost coded = { cache_code };

    ghost view = { λ c. record {
      capacity = c.entries.cap;
      entries = c.entries.entries;
      waiting = look_ups_in c.waiting.slots;
    } };

    ghost invariant = { λ c. IsValid bytes_eq c.entries };
}

impl NearCache {
    ghost use Rattle.near_cache.specs.Ends.{EndsAs};

    /// A cache of at most so many entries, without any.
    pub fn new(alloc: Global, capacity: usize) -> Result<NearCache, Memory>
        requires { 1 ≤ capacity }
        ensures { IfOk result (λ cache. cache ≡ new_cache capacity) }
    {
        Ok(NearCache {
            entries: LruCache::sparse(alloc, NonZeroUsize::new(capacity).unwrap())?,
            waiting: Slab::new(alloc),
        })
    }

    /// The value that is kept for a key, if one is, whose entry comes to the front. Takes constant time and no memory.
    pub fn hit(&mut self, key: &Bytes) -> Option<&Option<Bytes>>
        ensures value { option_copied result ≡ hit key.now self.old }
        ensures* after { sem 𝓛 (EndsAs self.entry (used key.now self.old)) }
    {
        self.entries.get(key)
    }

    /// Opens a look-up of a key.
    pub fn reserve(&mut self, key: Bytes) -> Result<Reservation, Memory>
        ensures fresh { IfOk result (λ reservation. IsNew reservation self.old) }
        ensures ok { IfOk result (λ reservation. self.new ≡ opened reservation key self.old) }
        ensures err { OnErr result (self.new ≡ self.old) }
    {
        let number = self.waiting.insert(LookUp {
            key,
            overtaken: None,
        })?;
        Ok(Reservation { number })
    }

    /// Closes an open look-up with its answer, which is kept unless the look-up was overtaken.
    pub fn fill(&mut self, reservation: Reservation, value: Option<Bytes>) -> Result<Filled, Memory>
        requires { IsOpen reservation self.old }
        ensures outcome { IfOk result (λ filled. filled ≡ outcome_of (overtaken reservation self.old)) }
        ensures ok { OnOk result (self.new ≡ answered reservation value self.old) }
        ensures err { OnErr result (self.new ≡ closed reservation self.old) }
        ensures err_to_keep { IsErr result → overtaken reservation self.old ≡ None }
    {
        let look_up = self.waiting.remove(reservation.number);
        if let Some(by) = look_up.overtaken {
            return Ok(Filled::Overtaken {
                version: by.version,
                number: by.number,
            });
        }
        self.entries.put(look_up.key, value)?;
        Ok(Filled::Kept)
    }

    /// Closes an open look-up without an answer. Takes no memory.
    pub fn give_up(&mut self, reservation: Reservation)
        requires { IsOpen reservation self.old }
        ensures { self.new ≡ closed reservation self.old }
    {
        self.waiting.remove(reservation.number);
    }

    /// Takes out what is kept for a key, and overtakes its open look-ups, at a cost in proportion to the most that were ever
    /// open at once. Takes no memory.
    pub fn invalidate(&mut self, key: &Bytes, version: u32, number: u32)
        ensures { self.new ≡ invalidated key.now (record { version = version; number = number }) self.old }
    {
        self.entries.pop(key);
        overtake_all(
            &mut self.waiting,
            &Scope::Key(key),
            Overtaking { version, number },
        );
    }

    /// Takes out the entries of a partition, and overtakes its open look-ups, as a row of that version asks for it, at the
    /// cost of looking at them all. Want of memory changes nothing.
    pub fn clear_partition(&mut self, partition: PartitionId, version: u32) -> Result<(), Memory>
        ensures ok { OnOk result (self.new ≡ cleared partition version self.old) }
        ensures err { OnErr result (self.new ≡ self.old) }
    {
        clear_partition(&mut self.entries, partition)?;
        let row = Overtaking { version, number: 0 };
        overtake_all(&mut self.waiting, &Scope::Partition(partition), row);
        Ok(())
    }
}
