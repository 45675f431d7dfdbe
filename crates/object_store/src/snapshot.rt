//! Snapshots of partitions, written and read.

ghost use Rattle.std.specs.Prelude.{◌≡◌, ◌++◌, [], true, map as each, OnOk, IfOk};
ghost use Rattle.std.specs.List.{flat_map};
ghost use Rattle.grid_base.specs.declared.names.ObjectKey.TheVariants.{Entry as EntryOf, Queue as QueueOf};
ghost use Rattle.object_store.specs.Partitions.{record_at, stored_in, is_kept};
ghost use Rattle.object_store.specs.Spelling.{stored_bytes, snapshot_bytes, IsSpelledObject, IsSpelledRecord, IsSpelledPartition};
ghost use Rattle.object_store.specs.Stored.{name_of, record_of as kept_of};
ghost use Rattle.object_store.specs.Names.{objects_at, partition_in};
ghost use Rattle.object_store.specs.Reading.{items_at, kept_queue_at, record_of, snapshot_in};
ghost use Rattle.wire_parts.specs.Parts.{Gives, IsUnlessMemory};

use crate::names::{Name, read_next_object};
use crate::parts::{put_entry, put_entry_name, put_number, put_queue, put_queue_name};
use crate::queue::Queue;
use crate::reading::read_kept_entry;
use crate::store::{ObjectStore, Stored};
use grid_base::{Bytes, Memory, ObjectKey};
use std::alloc::Global;
use wire_parts::{Cursor, WireRefused};

impl ObjectStore {
    /// A snapshot, at the cost of its bytes and of sorting the objects.
    pub fn write_snapshot(&self, alloc: Global) -> Result<Bytes, Memory>
        requires { IsSpelledPartition self.now }
        ensures { IfOk result (λ bytes. bytes ≡ snapshot_bytes self.now) }
    {
        let names = self.objects(alloc)?;
        let mut out = Vec::new(alloc);
        put_number(&mut out, names.len() as u32)?;
        put_objects(&mut out, self, names.as_slice())?;
        Ok(Bytes::from_vec(out))
    }

    /// The partition that the bytes are a snapshot of, all of them; else the first place that fails. Costs their length.
    pub fn read_snapshot(alloc: Global, bytes: &[u8]) -> Result<ObjectStore, WireRefused>
        ensures { IsUnlessMemory result (snapshot_in bytes.now) }
    {
        read_partition(alloc, bytes)
    }
}

fn put_objects(out: &mut Vec<u8>, store: &ObjectStore, names: &[ObjectKey]) -> Result<(), Memory>
    requires names { names.now ≡ each (λ stored. stored.0) (stored_in store.now) }
    requires spelled { IsSpelledPartition store.now }
    ensures { OnOk result (out.new.items ≡ out.old.items ++ flat_map stored_bytes (stored_in store.now)) }
{
    for name in names {
        put_object(out, store, name)?;
    }
    Ok(())
}

/// An object that is kept, and its record.
fn put_object(out: &mut Vec<u8>, store: &ObjectStore, name: &ObjectKey) -> Result<(), Memory>
    requires name { IsSpelledObject name.now }
    requires kept { is_kept (name.now, record_at store.now name.now) ≡ true }
    requires spelled { IsSpelledRecord (record_at store.now name.now) }
    ensures { OnOk result (out.new.items ≡ out.old.items ++ stored_bytes (name.now, record_at store.now name.now)) }
{
    match name {
        ObjectKey::Entry { map, key } => {
            put_entry_name(out, map, key)?;
            match store.entry(map, key) {
                None => Ok(()),
                Some(entry) => put_entry(out, entry),
            }
        }
        ObjectKey::Queue { name } => {
            put_queue_name(out, name)?;
            match store.queue(name) {
                None => Ok(()),
                Some(queue) => put_queue(out, queue.as_slice()),
            }
        }
    }
}

fn read_items(alloc: Global, count: u32, from: &mut Cursor<'_>) -> Result<Queue, WireRefused>
    ensures { Gives (λ queue. (queue, from.new)) result (items_at [] count from.old) }
{
    let mut queue = Queue::new(alloc);
    for _ in 0..count {
        let item = Bytes::copied_from(alloc, from.sized()?)?;
        queue.push(item)?;
    }
    Ok(queue)
}

/// A queue that is kept.
#[tactic(auto, unfolding(crate::specs::Reading::kept_queue_at))]
fn read_kept_queue(alloc: Global, from: &mut Cursor<'_>) -> Result<Queue, WireRefused>
    ensures read { Gives (λ queue. (queue, from.new)) result (kept_queue_at from.old) }
{
    let at = from.at();
    let count = from.number()?;
    if count == 0 {
        Err(WireRefused::Order { at })
    } else {
        read_items(alloc, count, from)
    }
}

/// What is kept of an object.
#[tactic(auto, unfolding(crate::specs::Reading::record_of))]
fn read_stored(alloc: Global, name: &Name<'_>, from: &mut Cursor<'_>) -> Result<Stored, WireRefused>
    ensures name { IfOk result (λ stored. name_of stored ≡ name.now) }
    ensures read { Gives (λ stored. (kept_of stored, from.new)) result (record_of name.now from.old) }
{
    if name.is_queue {
        let queue = read_kept_queue(alloc, from)?;
        let name = Bytes::copied_from(alloc, name.name)?;
        Ok(Stored::Queue { name, queue })
    } else {
        let record = read_kept_entry(alloc, from)?;
        let map = Bytes::copied_from(alloc, name.name)?;
        let key = Bytes::copied_from(alloc, name.key)?;
        Ok(Stored::Entry { map, key, record })
    }
}

/// So many objects, each behind the one before it.
fn read_objects(
    alloc: Global,
    count: u32,
    from: &mut Cursor<'_>,
) -> Result<ObjectStore, WireRefused>
    ensures { Gives (λ store. (store, from.new)) result (objects_at count from.old) }
{
    let mut store = ObjectStore::new(alloc);
    let mut last = None;
    for _ in 0..count {
        let name = read_next_object(&last, from)?;
        let stored = read_stored(alloc, &name, from)?;
        store.put_record(stored)?;
        last = Some(name);
    }
    Ok(store)
}

#[tactic(auto, unfolding(crate::specs::Names::partition_in))]
fn read_partition(alloc: Global, bytes: &[u8]) -> Result<ObjectStore, WireRefused>
    ensures { IsUnlessMemory result (partition_in bytes.now) }
{
    let mut from = Cursor::new(bytes);
    let count = from.number()?;
    let store = read_objects(alloc, count, &mut from)?;
    from.end()?;
    Ok(store)
}
