//! The parts of effects and snapshots, written behind what was written before, and how long each is.

ghost use Rattle.std.specs.Prelude.{◌≡◌, ◌<◌, ◌^◌, ◌++◌, length, IfSome, OnOk, All};
ghost use Rattle.std.specs.List.{flat_map};
ghost use Rattle.wire_parts.specs.Parts.{IsNumber, number, sized};
ghost use Rattle.object_store.specs.Spelling.{option_bytes, long, wide, signed, client_bytes, owner_bytes, lock_bytes, idle_bytes, entry_bytes, queue_bytes, object_bytes, IsSized, IsSpelledEntry, IsSpelledQueue};
ghost use Rattle.grid_base.specs.declared.names.ObjectKey.TheVariants.{Entry as EntryOf, Queue as QueueOf};

use crate::tags::{ENTRY_KIND, QUEUE_KIND};
use grid_base::{Bytes, ClientKey, Memory, Owner};
use key_locks::Lock;
use map_records::{Idle, MapRecord};

pub(crate) fn put_number(out: &mut Vec<u8>, n: u32) -> Result<(), Memory>
    ensures { OnOk result (out.new.items ≡ out.old.items ++ number n) }
{
    Ok(out.extend_from_slice(&n.to_le_bytes())?)
}

fn put_long(out: &mut Vec<u8>, n: u64) -> Result<(), Memory>
    ensures { OnOk result (out.new.items ≡ out.old.items ++ long n) }
{
    Ok(out.extend_from_slice(&n.to_le_bytes())?)
}

fn put_wide(out: &mut Vec<u8>, n: u128) -> Result<(), Memory>
    ensures { OnOk result (out.new.items ≡ out.old.items ++ wide n) }
{
    Ok(out.extend_from_slice(&n.to_le_bytes())?)
}

pub(crate) fn put_sized(out: &mut Vec<u8>, bytes: &Bytes) -> Result<(), Memory>
    requires { IsSized bytes.now }
    ensures { OnOk result (out.new.items ≡ out.old.items ++ sized bytes.now) }
{
    put_number(out, bytes.len() as u32)?;
    Ok(out.extend_from_slice(bytes.as_slice())?)
}

fn put_moment(out: &mut Vec<u8>, moment: Option<u64>) -> Result<(), Memory>
    ensures { OnOk result (out.new.items ≡ out.old.items ++ option_bytes long moment) }
{
    match moment {
        None => Ok(out.push(0)?),
        Some(moment) => {
            out.push(1)?;
            put_long(out, moment)
        }
    }
}

fn put_client(out: &mut Vec<u8>, client: ClientKey) -> Result<(), Memory>
    ensures { OnOk result (out.new.items ≡ out.old.items ++ client_bytes client) }
{
    match client {
        ClientKey::Known(number) => {
            out.push(0)?;
            put_wide(out, number)
        }
        ClientKey::OfConn(conn) => {
            out.push(1)?;
            put_wide(out, u128::from(conn))
        }
    }
}

fn put_owner(out: &mut Vec<u8>, owner: Owner) -> Result<(), Memory>
    ensures { OnOk result (out.new.items ≡ out.old.items ++ owner_bytes owner) }
{
    put_client(out, owner.client)?;
    put_long(out, owner.thread.cast_unsigned())
}

fn put_lock(out: &mut Vec<u8>, lock: Option<Lock>) -> Result<(), Memory>
    ensures { OnOk result (out.new.items ≡ out.old.items ++ option_bytes lock_bytes lock) }
{
    match lock {
        None => Ok(out.push(0)?),
        Some(lock) => {
            out.push(1)?;
            put_owner(out, lock.owner)?;
            put_number(out, lock.count)?;
            put_moment(out, lock.until)
        }
    }
}

fn put_idle(out: &mut Vec<u8>, idle: Option<Idle>) -> Result<(), Memory>
    ensures { OnOk result (out.new.items ≡ out.old.items ++ option_bytes idle_bytes idle) }
{
    match idle {
        None => Ok(out.push(0)?),
        Some(idle) => {
            out.push(1)?;
            put_long(out, idle.span)?;
            put_long(out, idle.end)
        }
    }
}

fn put_value(out: &mut Vec<u8>, value: &Option<Bytes>) -> Result<(), Memory>
    requires { IfSome value.now IsSized }
    ensures { OnOk result (out.new.items ≡ out.old.items ++ option_bytes sized value.now) }
{
    match value {
        None => Ok(out.push(0)?),
        Some(value) => {
            out.push(1)?;
            put_sized(out, value)
        }
    }
}

pub(crate) fn put_entry(out: &mut Vec<u8>, entry: &MapRecord) -> Result<(), Memory>
    requires { IsSpelledEntry entry.now }
    ensures { OnOk result (out.new.items ≡ out.old.items ++ entry_bytes entry.now) }
{
    put_value(out, &entry.value)?;
    put_moment(out, entry.expires)?;
    put_idle(out, entry.idle)?;
    put_lock(out, entry.lock)
}

fn put_items(out: &mut Vec<u8>, items: &[Bytes]) -> Result<(), Memory>
    requires { All IsSized items.now }
    ensures { OnOk result (out.new.items ≡ out.old.items ++ flat_map sized items.now) }
{
    for item in items {
        put_sized(out, item)?;
    }
    Ok(())
}

pub(crate) fn put_queue(out: &mut Vec<u8>, items: &[Bytes]) -> Result<(), Memory>
    requires { IsSpelledQueue items.now }
    ensures { OnOk result (out.new.items ≡ out.old.items ++ queue_bytes items.now) }
{
    put_number(out, items.len() as u32)?;
    put_items(out, items)
}

/// The object that an entry of a map is.
pub(crate) fn put_entry_name(out: &mut Vec<u8>, map: &Bytes, key: &Bytes) -> Result<(), Memory>
    requires map { IsSized map.now }
    requires key { IsSized key.now }
    ensures { OnOk result (out.new.items ≡ out.old.items ++ object_bytes (EntryOf map.now key.now)) }
{
    out.push(ENTRY_KIND)?;
    put_sized(out, map)?;
    put_sized(out, key)
}

/// The object that a queue is, which has no key.
pub(crate) fn put_queue_name(out: &mut Vec<u8>, name: &Bytes) -> Result<(), Memory>
    requires { IsSized name.now }
    ensures { OnOk result (out.new.items ≡ out.old.items ++ object_bytes (QueueOf name.now)) }
{
    out.push(QUEUE_KIND)?;
    put_sized(out, name)?;
    put_number(out, 0)
}

fn moment_length(moment: Option<u64>) -> usize
    ensures bytes { result ≡ length (option_bytes long moment) }
    ensures few { result < 2 ^ 8 }
{
    match moment {
        None => 1,
        Some(_) => 9,
    }
}

fn idle_length(idle: Option<Idle>) -> usize
    ensures bytes { result ≡ length (option_bytes idle_bytes idle) }
    ensures few { result < 2 ^ 8 }
{
    match idle {
        None => 1,
        Some(_) => 17,
    }
}

fn lock_length(lock: Option<Lock>) -> usize
    ensures bytes { result ≡ length (option_bytes lock_bytes lock) }
    ensures few { result < 2 ^ 8 }
{
    match lock {
        None => 1,
        Some(lock) => 30 + moment_length(lock.until),
    }
}

fn value_length(value: &Option<Bytes>) -> usize
    requires { IfSome value.now IsSized }
    ensures bytes { result ≡ length (option_bytes sized value.now) }
    ensures few { result < 2 ^ 33 }
{
    match value {
        None => 1,
        Some(value) => 5 + value.len(),
    }
}

/// How many bytes a record is spelled by.
pub(crate) fn entry_length(entry: &MapRecord) -> usize
    requires { IsSpelledEntry entry.now }
    ensures bytes { result ≡ length (entry_bytes entry.now) }
    ensures few { result < 2 ^ 34 }
{
    value_length(&entry.value)
        + moment_length(entry.expires)
        + idle_length(entry.idle)
        + lock_length(entry.lock)
}
