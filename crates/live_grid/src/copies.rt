//! What is kept of one object, copied.
ghost use Rattle.std.specs.Prelude.{◌≡◌, ◌++◌, take, IfOk};
ghost use Rattle.std.specs.Option.{option_copied, option_map};
ghost use Rattle.object_store.specs.Partitions.{record_at};
ghost use Rattle.live_grid.specs.Stored.{record_of, something_of};
ghost use Rattle.live_grid.specs.declared.copies.Record.TheVariants.{Map as MapOf, Queue as QueueOf};

use grid_base::{Bytes, Memory, ObjectKey};
use map_records::MapRecord;
use object_store::{ObjectStore, Queue};
use std::alloc::Global;

/// A copy of what is kept of one object.
#[derive(Debug, Drop)]
pub enum Record {
    /// Of an entry of a map.
    Map(MapRecord),
    /// The values of a queue, the front first.
    Queue(Queue),
}

/// A value, if there is one, at the cost of its length.
fn value_copied(alloc: Global, value: &Option<Bytes>) -> Result<Option<Bytes>, Memory>
    ensures { IfOk result (λ copy. copy ≡ value.now) }
{
    match value {
        Some(value) => Ok(Some(value.copied(alloc)?)),
        None => Ok(None),
    }
}

/// The same record of an entry, at the cost of its value.
fn entry_copied(alloc: Global, entry: &MapRecord) -> Result<MapRecord, Memory>
    ensures { IfOk result (λ copy. copy ≡ entry.now) }
{
    Ok(MapRecord {
        value: value_copied(alloc, &entry.value)?,
        expires: entry.expires,
        idle: entry.idle,
        lock: entry.lock,
    })
}

/// A queue of the same values, at their cost.
fn queue_copied(alloc: Global, queue: &Queue) -> Result<Queue, Memory>
    ensures { IfOk result (λ copy. copy ≡ queue.now) }
{
    let mut copy = Queue::new(alloc);
    for value in queue.as_slice() {
        copy.push(value.copied(alloc)?)?;
    }
    Ok(copy)
}

/// What is kept of an entry, if it is something.
fn entry_kept(alloc: Global, kept: Option<&MapRecord>) -> Result<Option<Record>, Memory>
    ensures { IfOk result (λ copy. copy ≡ option_map (λ entry. MapOf entry) (option_copied kept.entry)) }
{
    match kept {
        Some(entry) => Ok(Some(Record::Map(entry_copied(alloc, entry)?))),
        None => Ok(None),
    }
}

/// What is kept of a queue, if it is something.
fn queue_kept(alloc: Global, kept: Option<&Queue>) -> Result<Option<Record>, Memory>
    ensures { IfOk result (λ copy. copy ≡ option_map (λ items. QueueOf items) (option_copied kept.entry)) }
{
    match kept {
        Some(queue) => Ok(Some(Record::Queue(queue_copied(alloc, queue)?))),
        None => Ok(None),
    }
}

/// A copy of what is kept of an object, if it is something. Costs the bytes of it.
pub(crate) fn record_kept(
    alloc: Global,
    store: &ObjectStore,
    name: &ObjectKey,
) -> Result<Option<Record>, Memory>
    ensures { IfOk result (λ copy. option_map record_of copy ≡ something_of (record_at store.now name.now)) }
{
    match name {
        ObjectKey::Entry { map, key } => entry_kept(alloc, store.entry(map, key)),
        ObjectKey::Queue { name } => queue_kept(alloc, store.queue(name)),
    }
}
