ghost use Rattle.std.specs.Prelude.{◌≡◌, ◌∷◌, ◌++◌, [], drop, true, map as each, IfOk, OnOk, OnErr};
ghost use Rattle.std.specs.Option.{option_copied};
ghost use Rattle.grid_base.specs.declared.names.ObjectKey.TheVariants.{Entry as EntryOf, Queue as QueueOf};
ghost use Rattle.map_records.specs.MapEntries.{empty_entry};
ghost use Rattle.object_store.specs.Records.{kept_entry, kept_items, items_in, Map as MapRecordOf, Queue as QueueRecordOf};
ghost use Rattle.object_store.specs.Partitions.{record_at, nothing_stored, stored_in, with_record, is_kept};
ghost use Rattle.object_store.specs.Effects.{fits, after_effect};
ghost use Rattle.object_store.specs.Stored.{name_of, record_of};
ghost use Rattle.object_store.specs.Tables.{IsEntryKept, IsQueueKept};

use crate::effects::Effect;
use crate::maps::{self, Maps};
use crate::queue::Queue;
use crate::queues::{self, Queues};
use grid_base::{Bytes, Memory, ObjectKey};
use map_records::MapRecord;
use std::alloc::Global;
use std::collections::HashMap;
use std::marker::Model;

/// What a partition keeps of its objects: of each the record, and nothing of an object that has none.
#[derive(Drop)]
pub struct ObjectStore {
    maps: Maps,
    queues: Queues,
    alloc: Global,
}

/// An object with what is kept of it.
#[derive(Debug, Drop)]
pub(crate) enum Stored {
    Entry {
        map: Bytes,
        key: Bytes,
        record: MapRecord,
    },
    Queue {
        name: Bytes,
        queue: Queue,
    },
}

impl Model for ObjectStore {
    ghost use Rattle.object_store.specs.Partitions.{Partition};
    ghost use Rattle.object_store.specs.Codes.{partition_code};

    ghost Value = { Partition };

    ghost coded = { partition_code };

    ghost use Rattle.object_store.specs.Tables.{partition_in, AreMapsKept, AreQueuesKept};

    ghost view = { λ s. partition_in s.maps s.queues };

    ghost invariant = { λ s. AreMapsKept s.maps × AreQueuesKept s.queues };
}

impl ObjectStore {
    /// A store without objects. Takes no memory.
    pub fn new(alloc: Global) -> Self
        ensures { result ≡ nothing_stored }
    {
        ObjectStore {
            maps: HashMap::new(alloc),
            queues: HashMap::new(alloc),
            alloc,
        }
    }

    /// What is kept of an entry of a map. Takes no memory, and copies nothing.
    pub fn entry(&self, map: &Bytes, key: &Bytes) -> Option<&MapRecord>
        ensures { option_copied result ≡ kept_entry (record_at self.now (EntryOf map.now key.now)) }
    {
        self.maps.get(map)?.get(key)
    }

    /// What is kept of a queue. Takes no memory, and copies nothing.
    pub fn queue(&self, name: &Bytes) -> Option<&Queue>
        ensures { option_copied result ≡ kept_items (record_at self.now (QueueOf name.now)) }
    {
        self.queues.get(name)
    }

    /// The names of the objects that are kept, in the order of a snapshot, at the cost of copying and sorting them.
    pub fn objects(&self, alloc: Global) -> Result<Vec<ObjectKey>, Memory>
        ensures { IfOk result (λ keys. keys.items ≡ each (λ stored. stored.0) (stored_in self.now)) }
    {
        let mut names = Vec::new(alloc);
        maps::push_names(&self.maps, alloc, &mut names)?;
        queues::push_names(&self.queues, alloc, &mut names)?;
        names.sort()?;
        Ok(names)
    }

    /// Changes the object of an effect that fits. The parts of the effect are moved in. Want of memory changes nothing.
    pub fn put_effect(&mut self, effect: Effect) -> Result<(), Memory>
        requires { fits self.old effect ≡ true }
        ensures ok { OnOk result (self.new ≡ after_effect self.old effect) }
        ensures err { OnErr result (self.new ≡ self.old) }
    {
        match effect {
            Effect::SetEntry { map, key, record } => self.set_entry(map, key, record),
            Effect::DropEntry { map, key } => {
                self.drop_entry(&map, &key);
                Ok(())
            }
            Effect::Push { queue, value } => self.push(queue, value),
            Effect::Pop { queue } => {
                self.pop(&queue);
                Ok(())
            }
            Effect::Clear { queue } => {
                self.clear(&queue);
                Ok(())
            }
        }
    }

    /// Keeps this of an object. Want of memory changes nothing.
    pub(crate) fn put_record(&mut self, stored: Stored) -> Result<(), Memory>
        requires { is_kept (name_of stored, record_of stored) ≡ true }
        ensures ok { OnOk result (self.new ≡ with_record self.old (name_of stored) (record_of stored)) }
        ensures err { OnErr result (self.new ≡ self.old) }
    {
        match stored {
            Stored::Entry { map, key, record } => self.set_entry(map, key, record),
            Stored::Queue { name, queue } => self.set_queue(name, queue),
        }
    }

    fn set_entry(&mut self, map: Bytes, key: Bytes, kept: MapRecord) -> Result<(), Memory>
        requires { IsEntryKept kept }
        ensures ok { OnOk result (self.new ≡ with_record self.old (EntryOf map key) (MapRecordOf kept)) }
        ensures err { OnErr result (self.new ≡ self.old) }
    {
        maps::set_entry(&mut self.maps, self.alloc, map, key, kept)
    }

    fn drop_entry(&mut self, map: &Bytes, key: &Bytes)
        ensures { self.new ≡ with_record self.old (EntryOf map.now key.now) (MapRecordOf empty_entry) }
    {
        maps::drop_entry(&mut self.maps, map, key);
    }

    fn set_queue(&mut self, name: Bytes, queue: Queue) -> Result<(), Memory>
        requires { IsQueueKept queue }
        ensures ok { OnOk result (self.new ≡ with_record self.old (QueueOf name) (QueueRecordOf queue)) }
        ensures err { OnErr result (self.new ≡ self.old) }
    {
        queues::set_queue(&mut self.queues, name, queue)
    }

    fn push(&mut self, name: Bytes, value: Bytes) -> Result<(), Memory>
        ensures ok { OnOk result (self.new ≡ with_record self.old (QueueOf name) (QueueRecordOf (items_in (record_at self.old (QueueOf name)) ++ value ∷ []))) }
        ensures err { OnErr result (self.new ≡ self.old) }
    {
        queues::push(&mut self.queues, self.alloc, name, value)
    }

    fn pop(&mut self, name: &Bytes)
        ensures { self.new ≡ with_record self.old (QueueOf name.now) (QueueRecordOf (drop 1 (items_in (record_at self.old (QueueOf name.now))))) }
    {
        queues::pop(&mut self.queues, name);
    }

    fn clear(&mut self, name: &Bytes)
        ensures { self.new ≡ with_record self.old (QueueOf name.now) (QueueRecordOf []) }
    {
        queues::clear(&mut self.queues, name);
    }
}
