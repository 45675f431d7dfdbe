ghost use Rattle.std.specs.Prelude.{◌≡◌, ◌++◌, ◌∷◌, [], map, OnOk, IfOk};
ghost use Rattle.std.specs.Option.{option_copied};
ghost use Rattle.fixed_fields.specs.Spelled.{request_head};
ghost use Rattle.partition_table.specs.Rows.{number_of};
ghost use Rattle.event_codecs.specs.Writing.{Appended, frame, value_frame, row_bytes, seen, IsCounted};

use fixed_fields::{write_int32, write_int64};
use frame_codec::flags::NULL;
use frame_codec::{MAX_PAYLOAD, write_payload};
use grid_base::{Bytes, Memory, PartitionId};
use partition_table::{Row, RowMember};
use std::alloc::{AllocError, Global};

/// How many bytes the first payload of an event has at most: the head's sixteen, and eight of fields.
const FIRST_LENGTH: usize = 24;

/// The most members that a row's frame counts.
const MAX_COUNT: usize = 255;

/// A first payload that begins as that of an event of that type does.
pub(crate) fn begun(
    alloc: Global,
    kind: u32,
    correlation: i64,
    partition: i32,
) -> Result<Vec<u8>, Memory>
    ensures { IfOk result (λ head. head.items ≡ request_head kind correlation partition) }
{
    let mut head = Vec::with_capacity(alloc, FIRST_LENGTH)?;
    head.extend_from_slice(&kind.to_le_bytes())?;
    write_int64(correlation, &mut head)?;
    write_int32(partition, &mut head)?;
    Ok(head)
}

/// Appends a frame with these flags and this payload. One that is longer than a frame can be is
/// answered as want of memory.
pub(crate) fn write_part(flags: u16, part: &[u8], out: &mut Vec<u8>) -> Result<(), Memory>
    ensures { OnOk result (Appended out.old.items out.new.items (frame flags part.now ∷ [])) }
{
    if part.len() > MAX_PAYLOAD {
        return Err(AllocError);
    }
    write_payload(flags, part, out)
}

/// Appends a frame with a value, or one that stands for null, with these flags.
pub(crate) fn write_value(
    flags: u16,
    value: Option<&Bytes>,
    out: &mut Vec<u8>,
) -> Result<(), Memory>
    ensures { OnOk result (Appended out.old.items out.new.items (value_frame flags (option_copied value.entry) ∷ [])) }
{
    match value {
        Some(value) => write_part(flags, value.as_slice(), out),
        None => write_part(flags | NULL, &[], out),
    }
}

/// Appends the numbers of a row's members.
fn write_members(members: &[RowMember], out: &mut Vec<u8>) -> Result<(), Memory>
    ensures { OnOk result (out.new.items ≡ out.old.items ++ map number_of members.now) }
{
    for listed in members {
        out.push(listed.member)?;
    }
    Ok(())
}

/// Appends what a row's frame holds. A row of more members than a byte counts is answered as want of
/// memory.
pub(crate) fn write_row(placed: &(PartitionId, Row), out: &mut Vec<u8>) -> Result<(), Memory>
    ensures bytes { OnOk result (out.new.items ≡ out.old.items ++ row_bytes (seen placed.now)) }
    ensures counted { OnOk result (IsCounted placed.now) }
{
    let (partition, row) = placed;
    let count = row.members.len();
    if count > MAX_COUNT {
        return Err(AllocError);
    }
    out.extend_from_slice(&u32::from(*partition).to_le_bytes())?;
    out.extend_from_slice(&row.version.to_le_bytes())?;
    out.push(u8::from(row.lost))?;
    out.push(count as u8)?;
    write_members(row.members.as_slice(), out)
}
