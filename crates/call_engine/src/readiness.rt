ghost use Rattle.std.specs.Prelude.{◌≡◌, ℕ};
ghost use Rattle.grid_base.specs.Names.{map_of, key_of};
ghost use Rattle.call_engine.specs.Env.{settings_of};
ghost use Rattle.call_engine.specs.Readiness.{is_ready, is_granted, entry_wish, queue_wish, lock_at, items_at};

use crate::env::GridEnv;
use crate::shelf::GridShelf;
use grid_base::{Bytes, GridCall, MapCall, Moment, QueueCall, Request};
use key_locks::{Lock, cleaned, may_write, try_lock};
use object_store::ObjectStore;

impl GridShelf {
    /// Whether a call that waits is ready at that moment: whether its plain call would be answered as it wishes. A try of a
    /// lock wishes to take it, a put not to be kept out by one, an offer to get in, a poll to bring a value. No other call
    /// is ever ready.
    ///
    /// Only looks, at the cost of a look-up by the object's name, and takes no memory.
    pub fn ready(&self, env: &GridEnv, call: &Request, now: Moment) -> bool
        ensures { result ≡ is_ready (settings_of form env.now) self.now call.now now }
    {
        match &call.call {
            GridCall::Map(on_entry) => is_entry_ready(self.store(), on_entry, now),
            GridCall::Queue(on_queue) => is_queue_ready(self.store(), on_queue, env.capacity),
        }
    }
}

/// Whether what a call on an entry wishes is so.
fn is_entry_ready(store: &ObjectStore, call: &MapCall, now: Moment) -> bool
    ensures { (capacity : ℕ) → result ≡ is_granted capacity store.now now (entry_wish call.now) }
{
    match call {
        MapCall::TryLock { owner, .. } => try_lock(
            &mut standing_lock(store, call, now),
            owner,
            None,
        ),
        MapCall::Put { owner, .. } => may_write(&standing_lock(store, call, now), owner),
        _ => false,
    }
}

/// The lock of a call's key, without one whose lease has ended.
fn standing_lock(store: &ObjectStore, call: &MapCall, now: Moment) -> Option<Lock>
    ensures { result ≡ lock_at store.now (map_of call.now) (key_of call.now) now }
{
    match store.entry(call.map(), call.key()) {
        Some(kept) => cleaned(kept.lock, now),
        None => None,
    }
}

/// Whether what a call on a queue wishes is so.
fn is_queue_ready(store: &ObjectStore, call: &QueueCall, capacity: u32) -> bool
    ensures { (now : ℕ) → result ≡ is_granted capacity store.now now (queue_wish call.now) }
{
    match call {
        QueueCall::Offer { name, .. } => items_of(store, name).len() < capacity as usize,
        QueueCall::Poll { name } => !items_of(store, name).is_empty(),
        _ => false,
    }
}

/// The values of a queue, the front first.
fn items_of<'a>(store: &'a ObjectStore, name: &Bytes) -> &'a [Bytes]
    ensures { result.now ≡ items_at store.now name.now }
{
    match store.queue(name) {
        Some(queue) => queue.as_slice(),
        None => &[],
    }
}
