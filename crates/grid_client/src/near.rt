ghost use Rattle.std.specs.Prelude.{◌≡◌, ◌==◌, ◌≤◌, Some, None, Ok, option_map, option_copied, IfOk, OnOk, OnErr};
ghost use Rattle.std.specs.List.{find, position};
ghost use Rattle.grid_client.specs.Lists.{erased_by};
ghost use Rattle.grid_client.specs.Nears.{new_near, hit, used, opened, answered, closed, outcome, invalidated, cleared};

use grid_base::{Bytes, Memory, PartitionId};
use near_cache::{Filled, NearCache, Reservation};
use std::alloc::Global;
use std::marker::Model;

/// A look-up whose get waits for its answer.
#[derive(Debug, Drop)]
pub(crate) struct Awaited {
    pub number: u64,
    pub reservation: Reservation,
}

/// What a client keeps of the map that it listens to, and its look-ups, by the numbers of their gets.
#[derive(Debug, Drop)]
pub(crate) struct NearMap {
    name: Bytes,
    cache: NearCache,
    awaited: Vec<Awaited>,
}

impl Model for NearMap {
    ghost use Rattle.grid_client.specs.Nears.{Near, near_of, AreOpen};

    ghost Value = { Near };

    ghost view = { λ n. near_of n.name n.cache n.awaited.items };

    ghost invariant = { λ n. AreOpen n.cache.waiting n.awaited.items };
}

/// A copy of a value, where there is one.
pub(crate) fn value_copied(alloc: Global, value: Option<&Bytes>) -> Result<Option<Bytes>, Memory>
    ensures { IfOk result (λ copy. copy ≡ option_copied value.entry) }
{
    match value {
        Some(value) => Ok(Some(value.copied(alloc)?)),
        None => Ok(None),
    }
}

/// A copy of a value that is kept.
fn kept_copied(alloc: Global, value: &Option<Bytes>) -> Result<Option<Bytes>, Memory>
    ensures { IfOk result (λ copy. copy ≡ value.now) }
{
    match value {
        Some(value) => Ok(Some(value.copied(alloc)?)),
        None => Ok(None),
    }
}

/// The place of what waits first under a number.
fn awaited_place(awaited: &[Awaited], number: u64) -> Option<usize>
    ensures { result ≡ position (λ a. a.number == number) awaited.now }
{
    awaited.iter().position(|a| a.number == number)
}

/// Takes out what waits first under a number.
fn take_out(awaited: &mut Vec<Awaited>, number: u64) -> Option<Reservation>
    ensures value { result ≡ option_map (λ a. a.reservation) (find (λ a. a.number == number) awaited.old.items) }
    ensures items { awaited.new.items ≡ erased_by (λ a. a.number == number) awaited.old.items }
{
    match awaited_place(awaited.as_slice(), number) {
        Some(place) => Some(awaited.remove(place).reservation),
        None => None,
    }
}

impl NearMap {
    pub fn new(alloc: Global, name: Bytes, capacity: usize) -> Result<Self, Memory>
        requires { 1 ≤ capacity }
        ensures { IfOk result (λ near. near ≡ new_near name capacity) }
    {
        Ok(NearMap {
            name,
            cache: NearCache::new(alloc, capacity)?,
            awaited: Vec::new(alloc),
        })
    }

    pub fn name(&self) -> &Bytes
        ensures { result.now ≡ self.now.name }
    {
        &self.name
    }

    /// A copy of the value that is kept for a key, if one is, whose entry comes to the front, also where there is no memory
    /// for the copy.
    pub fn look(&mut self, alloc: Global, key: &Bytes) -> Result<Option<Option<Bytes>>, Memory>
        ensures value { IfOk result (λ value. value ≡ hit key.now self.old) }
        ensures after { self.new ≡ used key.now self.old }
        ensures missed { result ≡ Ok None → self.new ≡ self.old }
    {
        match self.cache.hit(key) {
            Some(value) => {
                let copy = kept_copied(alloc, value)?;
                Ok(Some(copy))
            }
            None => Ok(None),
        }
    }

    /// Opens a look-up under the number of its get. Want of memory changes nothing.
    pub fn open(&mut self, number: u64, key: Bytes) -> Result<(), Memory>
        ensures ok { OnOk result (self.new ≡ opened number key self.old) }
        ensures err { OnErr result (self.new ≡ self.old) }
    {
        self.awaited.reserve(1)?;
        let reservation = self.cache.reserve(key)?;
        self.awaited.push(Awaited {
            number,
            reservation,
        })?;
        Ok(())
    }

    /// Closes the look-up of that number, where one is open, with the value of its answer, which is kept unless the
    /// look-up was overtaken.
    pub fn fill(&mut self, number: u64, value: Option<Bytes>) -> Result<Option<Filled>, Memory>
        ensures ok { OnOk result (self.new ≡ answered number (Some value) self.old) }
        ensures outcome { IfOk result (λ filled. filled ≡ outcome number (Some value) self.old) }
    {
        match take_out(&mut self.awaited, number) {
            Some(reservation) => Ok(Some(self.cache.fill(reservation, value)?)),
            None => Ok(None),
        }
    }

    /// Closes the look-up of that number, where one is open. Takes no memory.
    pub fn give_up(&mut self, number: u64)
        ensures { self.new ≡ closed number self.old }
    {
        match take_out(&mut self.awaited, number) {
            Some(reservation) => self.cache.give_up(reservation),
            None => {}
        }
    }

    /// Takes out what is kept for a key, and overtakes its open look-ups. Takes no memory.
    pub fn invalidate(&mut self, key: &Bytes, version: u32, number: u32)
        ensures { self.new ≡ invalidated key.now version number self.old }
    {
        self.cache.invalidate(key, version, number);
    }

    /// Takes out the entries of a partition, and overtakes its open look-ups. Want of memory changes nothing.
    pub fn clear(&mut self, partition: PartitionId, version: u32) -> Result<(), Memory>
        ensures ok { OnOk result (self.new ≡ cleared partition version self.old) }
        ensures err { OnErr result (self.new ≡ self.old) }
    {
        self.cache.clear_partition(partition, version)?;
        Ok(())
    }
}
