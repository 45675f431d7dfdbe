ghost use Rattle.std.specs.Prelude.{◌≡◌, ◌↔◌, drop, Some, None, IfOk, IfErr, OnOk};
ghost use Rattle.std.specs.Option.{ok_or, option_copied};
ghost use Rattle.fixed_fields.specs.Requests.{IsReadAs, reader_of};
ghost use Rattle.event_codecs.specs.Events.{key_in, entry_in, invalidation_in, rows_event_in, events, event_by, event_of};
ghost use Rattle.event_codecs.specs.SpelledEvents.{HasOtherKind, SpellsNone};

use crate::events::ClientEvent;
use crate::fields::number_at;
use crate::kinds::{ENTRY_EVENT_KIND, INVALIDATION_EVENT_KIND, ROWS_EVENT_KIND};
use crate::rows::read_rows;
use fixed_fields::{Cursor, int32_at, int64_at, kind_of};
use frame_codec::Frame;
use grid_base::{Bytes, CallRefused, Memory};
use message_frames::Message;
use std::alloc::Global;

/// Where the first payload of an event has the correlation of its registration.
const CORRELATION_OFFSET: usize = 4;

/// Where it has the partition.
const PARTITION_OFFSET: usize = 12;

/// Where an entry event has the kind of its change, and an invalidation the version.
const FIELDS_OFFSET: usize = 16;

/// Where an invalidation has the number.
const NUMBER_OFFSET: usize = 20;

/// How many bytes a key has at least: those before its content.
const SHORTEST_KEY: usize = 8;

/// Passes a key.
fn read_key<'a>(cursor: &mut Cursor<'a>) -> Result<&'a Bytes, CallRefused>
    ensures read { IfOk result (λ key. key_in cursor.old ≡ Some key.now) }
    ensures passed { OnOk result (cursor.new ≡ drop 1 cursor.old) }
    ensures bad { IfErr result (λ why. (why ≡ CallRefused.BadCall) × (key_in cursor.old ≡ None)) }
{
    let key = cursor.data()?;
    if key.len() < SHORTEST_KEY {
        return Err(CallRefused::BadCall);
    }
    Ok(key)
}

/// A copy of a value, where there is one.
fn value_copied(alloc: Global, value: Option<&Bytes>) -> Result<Option<Bytes>, Memory>
    ensures { IfOk result (λ copy. copy ≡ option_copied value.entry) }
{
    match value {
        Some(value) => Ok(Some(value.copied(alloc)?)),
        None => Ok(None),
    }
}

/// Reads how an entry's value changed.
fn read_entry(alloc: Global, first: &Frame, frames: &[Frame]) -> Result<ClientEvent, CallRefused>
    ensures { IsReadAs result (ok_or (entry_in first.now.payload frames.now) CallRefused.BadCall) }
{
    let mut cursor = Cursor::new(frames);
    let correlation = int64_at(first, CORRELATION_OFFSET)?;
    let partition = int32_at(first, PARTITION_OFFSET)?;
    let kind = int32_at(first, FIELDS_OFFSET)?;
    let key = read_key(&mut cursor)?;
    let new = cursor.nullable()?;
    let old = cursor.nullable()?;
    Ok(ClientEvent::Entry {
        correlation,
        partition,
        kind,
        key: key.copied(alloc)?,
        new: value_copied(alloc, new)?,
        old: value_copied(alloc, old)?,
    })
}

/// Reads that an entry of a near cache no longer stands.
fn read_invalidation(
    alloc: Global,
    first: &Frame,
    frames: &[Frame],
) -> Result<ClientEvent, CallRefused>
    ensures { IsReadAs result (ok_or (invalidation_in first.now.payload frames.now) CallRefused.BadCall) }
{
    let mut cursor = Cursor::new(frames);
    let correlation = int64_at(first, CORRELATION_OFFSET)?;
    let partition = int32_at(first, PARTITION_OFFSET)?;
    let version = number_at(first, FIELDS_OFFSET)?;
    let number = number_at(first, NUMBER_OFFSET)?;
    let name = cursor.text()?;
    let key = read_key(&mut cursor)?;
    Ok(ClientEvent::Invalidation {
        correlation,
        partition,
        version,
        number,
        name: name.copied(alloc)?,
        key: key.copied(alloc)?,
    })
}

/// Reads the rows that a member tells.
fn read_rows_event(
    alloc: Global,
    first: &Frame,
    frames: &[Frame],
) -> Result<ClientEvent, CallRefused>
    ensures { IsReadAs result (ok_or (rows_event_in first.now.payload frames.now) CallRefused.BadCall) }
{
    let correlation = int64_at(first, CORRELATION_OFFSET)?;
    int32_at(first, PARTITION_OFFSET)?;
    let rows = read_rows(alloc, frames)?;
    Ok(ClientEvent::Rows { correlation, rows })
}

/// The event of that type which begins with this frame, and goes on with those behind it.
fn read_kind(
    alloc: Global,
    kind: u32,
    first: &Frame,
    frames: &[Frame],
) -> Result<ClientEvent, CallRefused>
    ensures read { IsReadAs result (event_by first.now.payload frames.now (reader_of kind events)) }
    ensures unknown { (result ≡ Err CallRefused.UnknownType) ↔ (reader_of kind events ≡ None) }
{
    match kind {
        ENTRY_EVENT_KIND => read_entry(alloc, first, frames),
        INVALIDATION_EVENT_KIND => read_invalidation(alloc, first, frames),
        ROWS_EVENT_KIND => read_rows_event(alloc, first, frames),
        _ => Err(CallRefused::UnknownType),
    }
}

/// The event that a message is. Its flags aren't looked at.
///
/// `UnknownType` where the message's type is none of the three events'. `BadCall` where the
/// correlation, the partition or a field of the first payload isn't wholly there; where the frames
/// behind it aren't those of the event, of which a name is UTF-8, a key has at least eight bytes, and
/// only a value may be null; and where a list of rows isn't begun or ended, or one of its frames isn't
/// a row: a partition up to 270, the version, a byte 0 or 1, the number of members and as many bytes.
/// What follows these fields and frames is ignored. Costs the frames that the event has, each copied
/// once.
#[tactic(auto, unfolding(crate::specs::Events::event_of))]
pub fn read_event(alloc: Global, message: &Message) -> Result<ClientEvent, CallRefused>
    ensures read { IsReadAs result (event_of message.now) }
    ensures unknown { (result ≡ Err CallRefused.UnknownType) ↔ HasOtherKind message.now }
    ensures bad { result ≡ Err CallRefused.BadCall → SpellsNone message.now }
{
    let Some((first, frames)) = message.frames.as_slice().split_first() else {
        return Err(CallRefused::UnknownType);
    };
    match kind_of(first) {
        Some(kind) => read_kind(alloc, kind, first, frames),
        None => Err(CallRefused::UnknownType),
    }
}
