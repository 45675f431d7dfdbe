ghost use Rattle.std.specs.Prelude.{◌≡◌};
ghost use Rattle.std.specs.Option.{ok_or};
ghost use Rattle.fixed_fields.specs.Requests.{IsReadAs};
ghost use Rattle.fixed_fields.specs.Structures.{closes};
ghost use Rattle.event_codecs.specs.Events.{row_of, rows_in, rows_until_end};

use crate::fields::{mark_at, number_at};
use crate::seen::{SeenMembers, SeenRow, SeenRows};
use fixed_fields::{Cursor, byte_at};
use frame_codec::Frame;
use frame_codec::flags::{BEGIN_STRUCTURE, END_STRUCTURE};
use grid_base::{CallRefused, PARTITIONS, PartitionId};
use std::alloc::Global;

/// Where a row's frame has the partition.
const PARTITION_OFFSET: usize = 0;

/// Where it has the version.
const VERSION_OFFSET: usize = 4;

/// Where it has the mark of a lost row.
const LOST_OFFSET: usize = 8;

/// Where it has the number of members.
const COUNT_OFFSET: usize = 9;

/// Where it has the members, one byte each.
const MEMBERS_OFFSET: usize = 10;

/// Whether the frame ends a list. One that has both flags of structures begins one.
fn ends_list(frame: &Frame) -> bool
    ensures { result ≡ closes frame.now }
{
    frame.has(END_STRUCTURE) && !frame.has(BEGIN_STRUCTURE)
}

/// The row that the frame's payload spells.
fn read_row(alloc: Global, frame: &Frame) -> Result<SeenRow, CallRefused>
    ensures { IsReadAs result (ok_or (row_of frame.now.payload) CallRefused.BadCall) }
{
    let partition = number_at(frame, PARTITION_OFFSET)?;
    let version = number_at(frame, VERSION_OFFSET)?;
    let lost = mark_at(frame, LOST_OFFSET)?;
    let count = byte_at(frame, COUNT_OFFSET)?;
    let (_, members) = frame.payload.as_slice().split_at(MEMBERS_OFFSET);
    if partition >= u32::from(PARTITIONS) || members.len() != usize::from(count) {
        return Err(CallRefused::BadCall);
    }
    Ok(SeenRow {
        partition: partition as PartitionId,
        version,
        lost,
        members: SeenMembers::copied_from(alloc, members)?,
    })
}

/// The rows of a list that has begun, up to the frame that ends it.
fn read_until_end(alloc: Global, frames: &[Frame]) -> Result<SeenRows, CallRefused>
    ensures { IsReadAs result (ok_or (rows_until_end frames.now) CallRefused.BadCall) }
{
    let mut rows = Vec::new(alloc);
    let mut rest = frames;
    while let Some((frame, behind)) = rest.split_first() {
        if ends_list(frame) {
            return Ok(SeenRows::from_vec(rows));
        }
        Cursor::new(rest).data()?;
        rows.push(read_row(alloc, frame)?)?;
        rest = behind;
    }
    Err(CallRefused::BadCall)
}

/// The rows of the list that comes first.
pub(crate) fn read_rows(alloc: Global, frames: &[Frame]) -> Result<SeenRows, CallRefused>
    ensures { IsReadAs result (ok_or (rows_in frames.now) CallRefused.BadCall) }
{
    match frames.split_first() {
        Some((opening, frames)) if opening.has(BEGIN_STRUCTURE) => read_until_end(alloc, frames),
        _ => Err(CallRefused::BadCall),
    }
}
