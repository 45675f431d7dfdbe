ghost use Rattle.std.specs.Option.{ok_or};
ghost use Rattle.fixed_fields.specs.Requests.{IsReadAs, reader_of};
ghost use Rattle.event_codecs.specs.Registrations.{entries_in, invalidations_in, rows_in, registrations, registration_by, registration_of};

use crate::kinds::{CLUSTER_VIEW_KIND, ENTRY_LISTENER_KIND, INVALIDATION_LISTENER_KIND};
use crate::registration::Registration;
use fixed_fields::{Cursor, byte_at, int32_at, int64_at, kind_of};
use frame_codec::Frame;
use grid_base::CallRefused;
use message_frames::Message;
use std::alloc::Global;

/// Where the first payload of a registration has the correlation.
const CORRELATION_OFFSET: usize = 4;

/// Where it has the partition.
const PARTITION_OFFSET: usize = 12;

/// Where an entry listener says whether it wants values.
const WITH_VALUE_OFFSET: usize = 16;

/// Reads that a client listens to a map's entries.
fn read_entries(alloc: Global, first: &Frame, frames: &[Frame]) -> Result<Registration, CallRefused>
    ensures { IsReadAs result (ok_or (entries_in first.now.payload frames.now) CallRefused.BadCall) }
{
    let mut cursor = Cursor::new(frames);
    let correlation = int64_at(first, CORRELATION_OFFSET)?;
    int32_at(first, PARTITION_OFFSET)?;
    let byte = byte_at(first, WITH_VALUE_OFFSET)?;
    let name = cursor.text()?;
    Ok(Registration::Entries {
        correlation,
        name: name.copied(alloc)?,
        with_value: byte != 0,
    })
}

/// Reads that a client has a near cache of a map.
fn read_invalidations(
    alloc: Global,
    first: &Frame,
    frames: &[Frame],
) -> Result<Registration, CallRefused>
    ensures { IsReadAs result (ok_or (invalidations_in first.now.payload frames.now) CallRefused.BadCall) }
{
    let mut cursor = Cursor::new(frames);
    let correlation = int64_at(first, CORRELATION_OFFSET)?;
    int32_at(first, PARTITION_OFFSET)?;
    let name = cursor.text()?;
    Ok(Registration::Invalidations {
        correlation,
        name: name.copied(alloc)?,
    })
}

/// Reads that a client listens to rows.
fn read_rows(first: &Frame, frames: &[Frame]) -> Result<Registration, CallRefused>
    ensures { IsReadAs result (ok_or (rows_in first.now.payload frames.now) CallRefused.BadCall) }
{
    let correlation = int64_at(first, CORRELATION_OFFSET)?;
    int32_at(first, PARTITION_OFFSET)?;
    Ok(Registration::Rows { correlation })
}

/// The registration of that type which begins with this frame, and goes on with those behind it.
fn read_kind(
    alloc: Global,
    kind: u32,
    first: &Frame,
    frames: &[Frame],
) -> Result<Registration, CallRefused>
    ensures { IsReadAs result (registration_by first.now.payload frames.now (reader_of kind registrations)) }
{
    match kind {
        ENTRY_LISTENER_KIND => read_entries(alloc, first, frames),
        INVALIDATION_LISTENER_KIND => read_invalidations(alloc, first, frames),
        CLUSTER_VIEW_KIND => read_rows(first, frames),
        _ => Err(CallRefused::UnknownType),
    }
}

/// The registration that a message is.
///
/// `UnknownType` where the message's type is none of the three registrations'. `BadCall` where the
/// correlation, the partition or an entry listener's byte isn't wholly there, or where the next frame
/// isn't the map's name, which is UTF-8, where there has to be one. What follows these is ignored, and
/// the partition isn't looked at. Costs the name, which is copied once.
#[tactic(auto, unfolding(crate::specs::Registrations::registration_of))]
pub fn read_registration(alloc: Global, message: &Message) -> Result<Registration, CallRefused>
    ensures { IsReadAs result (registration_of message.now) }
{
    let Some((first, frames)) = message.frames.as_slice().split_first() else {
        return Err(CallRefused::UnknownType);
    };
    match kind_of(first) {
        Some(kind) => read_kind(alloc, kind, first, frames),
        None => Err(CallRefused::UnknownType),
    }
}
