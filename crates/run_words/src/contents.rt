//! What members keep, and effects on it, in words.

use client_words::{push_data, push_entry_name, push_hex, push_name};
use grid_base::{Bytes, ClientKey, Memory, ObjectKey, Owner};
use key_locks::Lock;
use map_records::MapRecord;
use object_store::{Effect, ObjectStore, read_effect};
use std::alloc::{AllocError, Global};
use wire_parts::WireRefused;

/// Appends a client, as a lock's owner.
fn push_client(out: &mut String, client: ClientKey) -> Result<(), Memory> {
    match client {
        ClientKey::Known(number) => write!(out, "client {number}"),
        ClientKey::OfConn(conn) => write!(out, "connection {conn}"),
    }
}

/// Appends who has a lock, how often, and until when.
fn push_lock(out: &mut String, lock: &Lock) -> Result<(), Memory> {
    let Owner { client, thread } = lock.owner;
    out.push_str(", locked by ")?;
    push_client(out, client)?;
    write!(out, " thread {thread}")?;
    if lock.count != 1 {
        let count = lock.count;
        write!(out, " {count} times")?;
    }
    match lock.until {
        Some(until) => write!(out, " until {until}"),
        None => Ok(()),
    }
}

/// Appends what is kept of a map's entry.
fn push_record(alloc: Global, out: &mut String, record: &MapRecord) -> Result<(), Memory> {
    match &record.value {
        Some(value) => push_data(alloc, out, value.as_slice())?,
        None => out.push_str("no value")?,
    }
    if let Some(expires) = record.expires {
        write!(out, ", expires at {expires}")?;
    }
    if let Some(idle) = record.idle {
        let (span, end) = (idle.span, idle.end);
        write!(out, ", goes at {end} when {span} idle")?;
    }
    match &record.lock {
        Some(lock) => push_lock(out, lock),
        None => Ok(()),
    }
}

/// Appends what an effect does.
fn push_effect(alloc: Global, out: &mut String, effect: &Effect) -> Result<(), Memory> {
    match effect {
        Effect::SetEntry { map, key, record } => {
            push_entry_name(alloc, out, map, key)?;
            out.push_str(" = ")?;
            push_record(alloc, out, record)
        }
        Effect::DropEntry { map, key } => {
            push_entry_name(alloc, out, map, key)?;
            out.push_str(" goes")
        }
        Effect::Push { queue, value } => {
            push_name(out, queue.as_slice())?;
            out.push_str(" gets ")?;
            push_data(alloc, out, value.as_slice())
        }
        Effect::Pop { queue } => {
            push_name(out, queue.as_slice())?;
            out.push_str(" loses its front")
        }
        Effect::Clear { queue } => {
            push_name(out, queue.as_slice())?;
            out.push_str(" is cleared")
        }
    }
}

/// Appends the values of a queue, the front first.
fn push_items(alloc: Global, out: &mut String, items: &[Bytes]) -> Result<(), Memory> {
    out.push_str("[")?;
    let mut first = true;
    for item in items {
        out.push_str(if first { "" } else { ", " })?;
        push_data(alloc, out, item.as_slice())?;
        first = false;
    }
    out.push_str("]")
}

/// Appends an object that a store keeps, with what is kept of it.
pub fn push_stored(
    alloc: Global,
    out: &mut String,
    store: &ObjectStore,
    name: &ObjectKey,
) -> Result<(), Memory> {
    match name {
        ObjectKey::Entry { map, key } => {
            push_entry_name(alloc, out, map, key)?;
            out.push_str(" = ")?;
            match store.entry(map, key) {
                Some(record) => push_record(alloc, out, record),
                None => out.push_str("nothing"),
            }
        }
        ObjectKey::Queue { name } => {
            push_name(out, name.as_slice())?;
            out.push_str(" = ")?;
            match store.queue(name) {
                Some(queue) => push_items(alloc, out, queue.as_slice()),
                None => push_items(alloc, out, &[]),
            }
        }
    }
}

/// Appends all that a store keeps.
fn push_store(alloc: Global, out: &mut String, store: &ObjectStore) -> Result<(), Memory> {
    let names = store.objects(alloc)?;
    if names.is_empty() {
        return out.push_str("nothing");
    }
    let mut first = true;
    for name in names.as_slice() {
        out.push_str(if first { "" } else { "; " })?;
        push_stored(alloc, out, store, name)?;
        first = false;
    }
    Ok(())
}

/// Appends what the bytes of an effect do, or the bytes that nothing reads.
pub(crate) fn push_effect_bytes(
    alloc: Global,
    out: &mut String,
    bytes: &Bytes,
) -> Result<(), Memory> {
    match read_effect(alloc, bytes.as_slice()) {
        Ok(effect) => push_effect(alloc, out, &effect),
        Err(WireRefused::Memory) => Err(AllocError),
        Err(_) => push_hex(alloc, out, bytes.as_slice()),
    }
}

/// Appends what the bytes of a snapshot have, or the bytes that nothing reads.
pub(crate) fn push_snapshot(alloc: Global, out: &mut String, bytes: &Bytes) -> Result<(), Memory> {
    match ObjectStore::read_snapshot(alloc, bytes.as_slice()) {
        Ok(store) => push_store(alloc, out, &store),
        Err(WireRefused::Memory) => Err(AllocError),
        Err(_) => push_hex(alloc, out, bytes.as_slice()),
    }
}
