ghost use Rattle.std.specs.Prelude.{◌≡◌, ◌∷◌, ◌++◌, [], drop, map as each, Some, None, OnOk, OnErr};
ghost use Rattle.object_store.specs.Records.{kept_items, Queue as QueueOf};
ghost use Rattle.object_store.specs.Tables.{AreQueuesKept, IsQueueKept, SetsQueue, HasSameQueues, items_at, queue_stored, names_of};

use crate::queue::Queue;
use grid_base::{Bytes, Memory, ObjectKey};
use std::alloc::Global;
use std::collections::HashMap;

/// The queues that have values, by their names.
pub(crate) type Queues = HashMap<Bytes, Queue>;

/// Keeps a queue, in the place of the one before. Want of memory changes nothing.
pub(crate) fn set_queue(queues: &mut Queues, name: Bytes, queue: Queue) -> Result<(), Memory>
    requires something { IsQueueKept queue }
    requires kept { AreQueuesKept queues.old }
    ensures kept { AreQueuesKept queues.new }
    ensures ok { OnOk result (SetsQueue queues.old queues.new name (Some queue)) }
    ensures err { OnErr result (HasSameQueues queues.old queues.new) }
{
    queues.insert(name, queue)?;
    Ok(())
}

/// Puts a value at the back of a queue. Want of memory changes nothing.
pub(crate) fn push(
    queues: &mut Queues,
    alloc: Global,
    name: Bytes,
    value: Bytes,
) -> Result<(), Memory>
    requires { AreQueuesKept queues.old }
    ensures kept { AreQueuesKept queues.new }
    ensures ok { OnOk result (SetsQueue queues.old queues.new name (Some (items_at queues.old name ++ value ∷ []))) }
    ensures err { OnErr result (HasSameQueues queues.old queues.new) }
{
    match queues.get_mut(&name) {
        Some(queue) => queue.push(value),
        None => {
            let mut queue = Queue::new(alloc);
            queue.push(value)?;
            set_queue(queues, name, queue)
        }
    }
}

/// Takes the value at the front of a queue away, and the queue with its last one.
pub(crate) fn pop(queues: &mut Queues, name: &Bytes)
    requires { AreQueuesKept queues.old }
    ensures kept { AreQueuesKept queues.new }
    ensures rest { SetsQueue queues.old queues.new name.now (kept_items (QueueOf (drop 1 (items_at queues.old name.now)))) }
{
    let Some(queue) = queues.get_mut(name) else {
        return;
    };
    queue.pop();
    if queue.is_empty() {
        queues.remove(name);
    }
}

/// Takes all values of a queue away.
pub(crate) fn clear(queues: &mut Queues, name: &Bytes)
    requires { AreQueuesKept queues.old }
    ensures kept { AreQueuesKept queues.new }
    ensures none { SetsQueue queues.old queues.new name.now None }
{
    queues.remove(name);
}

/// Appends a copy of the name of each queue.
pub(crate) fn push_names(
    queues: &Queues,
    alloc: Global,
    names: &mut Vec<ObjectKey>,
) -> Result<(), Memory>
    ensures { OnOk result (names.new.items ≡ names.old.items ++ names_of (each queue_stored queues.now.entries)) }
{
    for name in queues.keys() {
        names.push(ObjectKey::Queue {
            name: name.copied(alloc)?,
        })?;
    }
    Ok(())
}
