ghost use Rattle.std.specs.Prelude.{◌≡◌};
ghost use Rattle.std.specs.Int.{w64};
ghost use Rattle.wire_parts.specs.Parts.{Gives, IsUnlessMemory, number_at, sized_at};
ghost use Rattle.object_store.specs.Records.{has_value_or_lock as is_kept};
ghost use Rattle.object_store.specs.Reading.{queue_at, option_at, signed_at, conn_at, client_behind, owner_at, lock_at, idle_at, entry_at, kept_entry_at, items_at, kept_queue_at, set_entry_at, drop_entry_at, push_at, pop_at, clear_at, effect_behind, effect_at, effect_in};

use crate::effects::Effect;
use crate::names::{read_map_key, read_queue_name};
use crate::queue::Queue;
use crate::tags::{CLEAR, DROP_ENTRY, POP, PUSH, SET_ENTRY};
use grid_base::{Bytes, ClientKey, Owner};
use key_locks::Lock;
use map_records::{Idle, MapRecord};
use std::alloc::Global;
use wire_parts::{Cursor, WireRefused};

fn read_value(alloc: Global, from: &mut Cursor<'_>) -> Result<Option<Bytes>, WireRefused>
    ensures { Gives (λ value. (value, from.new)) result (option_at sized_at from.old) }
{
    match from.mark()? {
        false => Ok(None),
        true => Ok(Some(Bytes::copied_from(alloc, from.sized()?)?)),
    }
}

fn read_moment(from: &mut Cursor<'_>) -> Result<Option<u64>, WireRefused>
    ensures { Gives (λ moment. (moment, from.new)) result (option_at (number_at w64) from.old) }
{
    match from.mark()? {
        false => Ok(None),
        true => Ok(Some(from.long()?)),
    }
}

#[tactic(auto, unfolding(crate::specs::Reading::idle_at))]
fn read_idle(from: &mut Cursor<'_>) -> Result<Option<Idle>, WireRefused>
    ensures { Gives (λ idle. (idle, from.new)) result (option_at idle_at from.old) }
{
    match from.mark()? {
        false => Ok(None),
        true => {
            let span = from.long()?;
            let end = from.long()?;
            Ok(Some(Idle { span, end }))
        }
    }
}

#[tactic(auto, unfolding(crate::specs::Reading::conn_at))]
fn read_conn(from: &mut Cursor<'_>) -> Result<ClientKey, WireRefused>
    ensures { Gives (λ client. (client, from.new)) result (conn_at from.old) }
{
    let at = from.at();
    let number = from.wide()?;
    if number < 1 << 32 {
        Ok(ClientKey::OfConn(number as u32))
    } else {
        Err(WireRefused::Tag { at })
    }
}

#[tactic(auto, unfolding(crate::specs::Reading::known_at))]
fn read_client(of_conn: bool, from: &mut Cursor<'_>) -> Result<ClientKey, WireRefused>
    ensures { Gives (λ client. (client, from.new)) result (client_behind of_conn from.old) }
{
    match of_conn {
        false => Ok(ClientKey::Known(from.wide()?)),
        true => read_conn(from),
    }
}

#[tactic(auto, unfolding(crate::specs::Reading::signed_at))]
fn read_signed(from: &mut Cursor<'_>) -> Result<i64, WireRefused>
    ensures { Gives (λ number. (number, from.new)) result (signed_at from.old) }
{
    Ok(from.long()?.cast_signed())
}

#[tactic(auto, unfolding(crate::specs::Reading::owner_at))]
fn read_owner(from: &mut Cursor<'_>) -> Result<Owner, WireRefused>
    ensures { Gives (λ owner. (owner, from.new)) result (owner_at from.old) }
{
    let of_conn = from.mark()?;
    let client = read_client(of_conn, from)?;
    let thread = read_signed(from)?;
    Ok(Owner { client, thread })
}

#[tactic(auto, unfolding(crate::specs::Reading::lock_at))]
fn read_held(from: &mut Cursor<'_>) -> Result<Lock, WireRefused>
    ensures { Gives (λ lock. (lock, from.new)) result (lock_at from.old) }
{
    let owner = read_owner(from)?;
    let count = from.number()?;
    let until = read_moment(from)?;
    Ok(Lock {
        owner,
        count,
        until,
    })
}

fn read_lock(from: &mut Cursor<'_>) -> Result<Option<Lock>, WireRefused>
    ensures { Gives (λ lock. (lock, from.new)) result (option_at lock_at from.old) }
{
    match from.mark()? {
        false => Ok(None),
        true => Ok(Some(read_held(from)?)),
    }
}

#[tactic(auto, unfolding(crate::specs::Reading::entry_at))]
fn read_entry(alloc: Global, from: &mut Cursor<'_>) -> Result<MapRecord, WireRefused>
    ensures { Gives (λ entry. (entry, from.new)) result (entry_at from.old) }
{
    let value = read_value(alloc, from)?;
    let expires = read_moment(from)?;
    let idle = read_idle(from)?;
    let lock = read_lock(from)?;
    Ok(MapRecord {
        value,
        expires,
        idle,
        lock,
    })
}

fn has_value_or_lock(entry: &MapRecord) -> bool
    ensures { result ≡ is_kept entry.now }
{
    entry.value.is_some() || entry.lock.is_some()
}

/// The record of an entry that is kept.
#[tactic(auto, unfolding(crate::specs::Reading::kept_entry_at))]
pub(crate) fn read_kept_entry(
    alloc: Global,
    from: &mut Cursor<'_>,
) -> Result<MapRecord, WireRefused>
    ensures { Gives (λ entry. (entry, from.new)) result (kept_entry_at from.old) }
{
    let at = from.at();
    let entry = read_entry(alloc, from)?;
    if has_value_or_lock(&entry) {
        Ok(entry)
    } else {
        Err(WireRefused::Order { at })
    }
}

#[tactic(auto, unfolding(crate::specs::Reading::set_entry_at))]
fn read_set_entry(alloc: Global, from: &mut Cursor<'_>) -> Result<Effect, WireRefused>
    ensures { Gives (λ effect. (effect, from.new)) result (set_entry_at from.old) }
{
    let (map, key) = read_map_key(from)?;
    let record = read_kept_entry(alloc, from)?;
    let map = Bytes::copied_from(alloc, map)?;
    let key = Bytes::copied_from(alloc, key)?;
    Ok(Effect::SetEntry { map, key, record })
}

#[tactic(auto, unfolding(crate::specs::Reading::drop_entry_at))]
fn read_drop_entry(alloc: Global, from: &mut Cursor<'_>) -> Result<Effect, WireRefused>
    ensures { Gives (λ effect. (effect, from.new)) result (drop_entry_at from.old) }
{
    let (map, key) = read_map_key(from)?;
    let map = Bytes::copied_from(alloc, map)?;
    let key = Bytes::copied_from(alloc, key)?;
    Ok(Effect::DropEntry { map, key })
}

fn read_queue(alloc: Global, from: &mut Cursor<'_>) -> Result<Bytes, WireRefused>
    ensures { Gives (λ queue. (queue, from.new)) result (queue_at from.old) }
{
    Ok(Bytes::copied_from(alloc, read_queue_name(from)?)?)
}

#[tactic(auto, unfolding(crate::specs::Reading::push_at))]
fn read_push(alloc: Global, from: &mut Cursor<'_>) -> Result<Effect, WireRefused>
    ensures { Gives (λ effect. (effect, from.new)) result (push_at from.old) }
{
    let queue = read_queue(alloc, from)?;
    let value = Bytes::copied_from(alloc, from.sized()?)?;
    Ok(Effect::Push { queue, value })
}

#[tactic(auto, unfolding(crate::specs::Reading::pop_at))]
fn read_pop(alloc: Global, from: &mut Cursor<'_>) -> Result<Effect, WireRefused>
    ensures { Gives (λ effect. (effect, from.new)) result (pop_at from.old) }
{
    let queue = read_queue(alloc, from)?;
    Ok(Effect::Pop { queue })
}

#[tactic(auto, unfolding(crate::specs::Reading::clear_at))]
fn read_clear(alloc: Global, from: &mut Cursor<'_>) -> Result<Effect, WireRefused>
    ensures { Gives (λ effect. (effect, from.new)) result (clear_at from.old) }
{
    let queue = read_queue(alloc, from)?;
    Ok(Effect::Clear { queue })
}

/// What stands behind a tag, whose place is given.
fn read_behind(
    alloc: Global,
    at: usize,
    tag: u8,
    from: &mut Cursor<'_>,
) -> Result<Effect, WireRefused>
    ensures { Gives (λ effect. (effect, from.new)) result (effect_behind at tag from.old) }
{
    match tag {
        SET_ENTRY => read_set_entry(alloc, from),
        DROP_ENTRY => read_drop_entry(alloc, from),
        PUSH => read_push(alloc, from),
        POP => read_pop(alloc, from),
        CLEAR => read_clear(alloc, from),
        _ => Err(WireRefused::Tag { at }),
    }
}

#[tactic(auto, unfolding(crate::specs::Reading::effect_at))]
fn read_tagged(alloc: Global, from: &mut Cursor<'_>) -> Result<Effect, WireRefused>
    ensures { Gives (λ effect. (effect, from.new)) result (effect_at from.old) }
{
    let at = from.at();
    let tag = from.byte()?;
    read_behind(alloc, at, tag, from)
}

/// The effect that the bytes spell, all of them; else the first place that fails. Costs their length.
#[tactic(auto, unfolding(crate::specs::Reading::effect_in))]
pub fn read_effect(alloc: Global, bytes: &[u8]) -> Result<Effect, WireRefused>
    ensures { IsUnlessMemory result (effect_in bytes.now) }
{
    let mut from = Cursor::new(bytes);
    let effect = read_tagged(alloc, &mut from)?;
    from.end()?;
    Ok(effect)
}
