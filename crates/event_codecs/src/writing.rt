ghost use Rattle.std.specs.Prelude.{◌≡◌, pos, All, map, OnOk, IfOk};
ghost use Rattle.std.specs.Option.{option_copied};
ghost use Rattle.frame_codec.specs.Laws.{IsWithinLimits, spelled};
ghost use Rattle.event_codecs.specs.Writing.{Appended, row_frame, kind_of_change as change_kind, told, entry_frames, invalidation_frames, rows_frames, IsCounted};

use crate::kinds::{
    ADDED, ENTRY_EVENT_KIND, EXPIRED, INVALIDATION_EVENT_KIND, REMOVED, ROWS_EVENT_KIND, UPDATED,
};
use crate::parts::{begun, write_part, write_row, write_value};
use fixed_fields::write_int32;
use frame_codec::flags::{BEGIN_STRUCTURE, END_STRUCTURE, EVENT, FINAL, UNFRAGMENTED};
use grid_base::{Bytes, Change, Memory, PartitionId};
use partition_table::Row;
use std::alloc::Global;

/// The flags of an event's first frame.
const FIRST: u16 = UNFRAGMENTED | EVENT;

/// What stands for the partition where an event is of many.
const NO_PARTITION: i32 = -1;

/// How the value changed, as a number.
fn kind_of_change(change: &Change) -> i32
    ensures { result ≡ pos (change_kind change.now) }
{
    match (&change.old, &change.new) {
        (None, _) => ADDED,
        (Some(_), Some(_)) => UPDATED,
        (Some(_), None) if change.expired => EXPIRED,
        (Some(_), None) => REMOVED,
    }
}

/// What a listener that wants values, or none, is told of a value.
fn told(with_value: bool, value: &Option<Bytes>) -> Option<&Bytes>
    ensures { option_copied result ≡ told with_value value.now }
{
    if with_value { value.as_ref() } else { None }
}

/// The event that tells a listener how an entry's value changed: the kind of the change, the key, and
/// the new and the old value, where there is one and the listener wants values, else null. Copies the
/// key and the values once. A key or a value that is longer than a frame can be is answered as want
/// of memory.
pub fn write_entry_event(
    alloc: Global,
    correlation: i64,
    partition: PartitionId,
    change: &Change,
    with_value: bool,
) -> Result<Bytes, Memory>
    ensures bytes { IfOk result (λ event. event ≡ spelled (entry_frames correlation partition change.now with_value)) }
    ensures limits { OnOk result (All IsWithinLimits (entry_frames correlation partition change.now with_value)) }
{
    let mut first = begun(alloc, ENTRY_EVENT_KIND, correlation, i32::from(partition))?;
    write_int32(kind_of_change(change), &mut first)?;
    let mut event = Vec::new(alloc);
    write_part(FIRST, first.as_slice(), &mut event)?;
    write_part(0, change.key.as_slice(), &mut event)?;
    write_value(0, told(with_value, &change.new), &mut event)?;
    write_value(FINAL, told(with_value, &change.old), &mut event)?;
    Ok(Bytes::from_vec(event))
}

/// The event that tells a near cache to give up an entry: the version in which the call was executed
/// that changed it, the number of the call there, the map's name and the key, each copied once. A
/// name or a key that is longer than a frame can be is answered as want of memory.
pub fn write_invalidation(
    alloc: Global,
    correlation: i64,
    partition: PartitionId,
    version: u32,
    number: u32,
    name: &Bytes,
    key: &Bytes,
) -> Result<Bytes, Memory>
    ensures bytes { IfOk result (λ event. event ≡ spelled (invalidation_frames correlation partition version number name.now key.now)) }
    ensures limits { OnOk result (All IsWithinLimits (invalidation_frames correlation partition version number name.now key.now)) }
{
    let partition = i32::from(partition);
    let mut first = begun(alloc, INVALIDATION_EVENT_KIND, correlation, partition)?;
    first.extend_from_slice(&version.to_le_bytes())?;
    first.extend_from_slice(&number.to_le_bytes())?;
    let mut event = Vec::new(alloc);
    write_part(FIRST, first.as_slice(), &mut event)?;
    write_part(0, name.as_slice(), &mut event)?;
    write_part(FINAL, key.as_slice(), &mut event)?;
    Ok(Bytes::from_vec(event))
}

/// Appends a frame for each of the rows.
fn write_row_frames(
    alloc: Global,
    rows: &[(PartitionId, Row)],
    out: &mut Vec<u8>,
) -> Result<(), Memory>
    ensures frames { OnOk result (Appended out.old.items out.new.items (map row_frame rows.now)) }
    ensures counted { OnOk result (All IsCounted rows.now) }
{
    let mut payload = Vec::new(alloc);
    for placed in rows {
        payload.clear();
        write_row(placed, &mut payload)?;
        write_part(0, payload.as_slice(), out)?;
    }
    Ok(())
}

/// The event that tells a client rows of partitions, in their order: of each the partition, the
/// version, whether it is lost, and its members by number. Costs as many steps as there are rows and
/// members. A row of more than 255 members is answered as want of memory.
pub fn write_rows(
    alloc: Global,
    correlation: i64,
    rows: &[(PartitionId, Row)],
) -> Result<Bytes, Memory>
    ensures bytes { IfOk result (λ event. event ≡ spelled (rows_frames correlation rows.now)) }
    ensures limits { OnOk result (All IsWithinLimits (rows_frames correlation rows.now)) }
    ensures counted { OnOk result (All IsCounted rows.now) }
{
    let first = begun(alloc, ROWS_EVENT_KIND, correlation, NO_PARTITION)?;
    let mut event = Vec::new(alloc);
    write_part(FIRST, first.as_slice(), &mut event)?;
    write_part(BEGIN_STRUCTURE, &[], &mut event)?;
    write_row_frames(alloc, rows, &mut event)?;
    write_part(END_STRUCTURE | FINAL, &[], &mut event)?;
    Ok(Bytes::from_vec(event))
}
