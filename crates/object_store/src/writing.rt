ghost use Rattle.std.specs.Prelude.{◌≡◌, IfOk};
ghost use Rattle.object_store.specs.declared.effects.Effect.TheVariants as made;
ghost use Rattle.object_store.specs.Spelling.{effect_bytes, IsSpelledEffect};

use crate::effects::Effect;
use crate::parts::{entry_length, put_entry, put_entry_name, put_queue_name, put_sized};
use crate::tags::{CLEAR, DROP_ENTRY, POP, PUSH, SET_ENTRY};
use grid_base::{Bytes, Memory};
use map_records::MapRecord;
use std::alloc::Global;

/// An effect that sets an entry, in one piece of memory, at the cost of its bytes.
pub fn write_set_entry(
    alloc: Global,
    map: &Bytes,
    key: &Bytes,
    entry: &MapRecord,
) -> Result<Bytes, Memory>
    requires { IsSpelledEffect (made.SetEntry map.now key.now entry.now) }
    ensures { IfOk result (λ bytes. bytes ≡ effect_bytes (made.SetEntry map.now key.now entry.now)) }
{
    let length = 10 + map.len() + key.len() + entry_length(entry);
    let mut out = Vec::with_capacity(alloc, length)?;
    out.push(SET_ENTRY)?;
    put_entry_name(&mut out, map, key)?;
    put_entry(&mut out, entry)?;
    Ok(Bytes::from_vec(out))
}

/// An effect that drops an entry, in one piece of memory, at the cost of its bytes.
pub fn write_drop_entry(alloc: Global, map: &Bytes, key: &Bytes) -> Result<Bytes, Memory>
    requires { IsSpelledEffect (made.DropEntry map.now key.now) }
    ensures { IfOk result (λ bytes. bytes ≡ effect_bytes (made.DropEntry map.now key.now)) }
{
    let mut out = Vec::with_capacity(alloc, 10 + map.len() + key.len())?;
    out.push(DROP_ENTRY)?;
    put_entry_name(&mut out, map, key)?;
    Ok(Bytes::from_vec(out))
}

/// An effect that puts a value into a queue, in one piece of memory, at the cost of its bytes.
pub fn write_push(alloc: Global, queue: &Bytes, value: &Bytes) -> Result<Bytes, Memory>
    requires { IsSpelledEffect (made.Push queue.now value.now) }
    ensures { IfOk result (λ bytes. bytes ≡ effect_bytes (made.Push queue.now value.now)) }
{
    let mut out = Vec::with_capacity(alloc, 14 + queue.len() + value.len())?;
    out.push(PUSH)?;
    put_queue_name(&mut out, queue)?;
    put_sized(&mut out, value)?;
    Ok(Bytes::from_vec(out))
}

/// An effect that takes a value from a queue, in one piece of memory, at the cost of its bytes.
pub fn write_pop(alloc: Global, queue: &Bytes) -> Result<Bytes, Memory>
    requires { IsSpelledEffect (made.Pop queue.now) }
    ensures { IfOk result (λ bytes. bytes ≡ effect_bytes (made.Pop queue.now)) }
{
    let mut out = Vec::with_capacity(alloc, 10 + queue.len())?;
    out.push(POP)?;
    put_queue_name(&mut out, queue)?;
    Ok(Bytes::from_vec(out))
}

/// An effect that empties a queue, in one piece of memory, at the cost of its bytes.
pub fn write_clear(alloc: Global, queue: &Bytes) -> Result<Bytes, Memory>
    requires { IsSpelledEffect (made.Clear queue.now) }
    ensures { IfOk result (λ bytes. bytes ≡ effect_bytes (made.Clear queue.now)) }
{
    let mut out = Vec::with_capacity(alloc, 10 + queue.len())?;
    out.push(CLEAR)?;
    put_queue_name(&mut out, queue)?;
    Ok(Bytes::from_vec(out))
}

/// An effect, in one piece of memory, at the cost of its bytes.
pub fn write_effect(alloc: Global, effect: &Effect) -> Result<Bytes, Memory>
    requires { IsSpelledEffect effect.now }
    ensures { IfOk result (λ bytes. bytes ≡ effect_bytes effect.now) }
{
    match effect {
        Effect::SetEntry { map, key, record } => write_set_entry(alloc, map, key, record),
        Effect::DropEntry { map, key } => write_drop_entry(alloc, map, key),
        Effect::Push { queue, value } => write_push(alloc, queue, value),
        Effect::Pop { queue } => write_pop(alloc, queue),
        Effect::Clear { queue } => write_clear(alloc, queue),
    }
}
