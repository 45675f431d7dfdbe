ghost use Rattle.std.specs.Prelude.{◌≡◌};
ghost use Rattle.std.specs.Option.{ok_or};
ghost use Rattle.fixed_fields.specs.Requests.{IsReadAs, reader_of};
ghost use Rattle.message_frames.specs.Assembly.{first_payload};
ghost use Rattle.queue_codecs.specs.Calls.{partition_of, partition_in, named_in, offer_in, placed_in, queue_calls, call_by, queue_call_of};
ghost use Rattle.queue_codecs.specs.Shapes.{named_call};

use crate::kinds::{
    CLEAR_KIND, OFFER_KIND, PEEK_KIND, POLL_KIND, REMAINING_CAPACITY_KIND, SIZE_KIND,
};
use fixed_fields::{Cursor, int32_at, kind_of};
use frame_codec::Frame;
use grid_base::{CallRefused, PARTITIONS, PartitionId, QueueCall};
use message_frames::Message;
use std::alloc::Global;

/// Where the first payload of a call has the partition.
const PARTITION_OFFSET: usize = 12;

/// A call of a queue alone.
#[derive(Clone, Copy)]
pub(crate) enum Named {
    Size,
    Poll,
    Peek,
    Clear,
    RemainingCapacity,
}

/// The partition of a number.
fn partition_of(number: i32) -> Option<PartitionId>
    ensures { result ≡ partition_of number }
{
    match u16::try_from(number) {
        Ok(partition) if partition < PARTITIONS => Some(partition),
        _ => None,
    }
}

/// The partition of the call that begins with this frame.
fn read_partition(first: &Frame) -> Result<PartitionId, CallRefused>
    ensures { result ≡ ok_or (partition_in first.now.payload) CallRefused.BadCall }
{
    let number = int32_at(first, PARTITION_OFFSET)?;
    partition_of(number).ok_or(CallRefused::BadCall)
}

pub(crate) fn read_named(
    alloc: Global,
    which: Named,
    first: &Frame,
    frames: &[Frame],
) -> Result<QueueCall, CallRefused>
    ensures { IsReadAs result (ok_or (placed_in (named_in (named_call which)) first.now.payload frames.now) CallRefused.BadCall) }
{
    read_partition(first)?;
    let mut cursor = Cursor::new(frames);
    let name = cursor.text()?;
    let name = name.copied(alloc)?;
    Ok(match which {
        Named::Size => QueueCall::Size { name },
        Named::Poll => QueueCall::Poll { name },
        Named::Peek => QueueCall::Peek { name },
        Named::Clear => QueueCall::Clear { name },
        Named::RemainingCapacity => QueueCall::RemainingCapacity { name },
    })
}

pub(crate) fn read_offer(
    alloc: Global,
    first: &Frame,
    frames: &[Frame],
) -> Result<QueueCall, CallRefused>
    ensures { IsReadAs result (ok_or (placed_in offer_in first.now.payload frames.now) CallRefused.BadCall) }
{
    read_partition(first)?;
    let mut cursor = Cursor::new(frames);
    let name = cursor.text()?;
    let value = cursor.data()?;
    Ok(QueueCall::Offer {
        name: name.copied(alloc)?,
        value: value.copied(alloc)?,
    })
}

/// The call of that type which begins with this frame, and goes on with those behind it.
fn read_call(
    alloc: Global,
    kind: u32,
    first: &Frame,
    frames: &[Frame],
) -> Result<QueueCall, CallRefused>
    ensures { IsReadAs result (call_by first.now.payload frames.now (reader_of kind queue_calls)) }
{
    match kind {
        OFFER_KIND => read_offer(alloc, first, frames),
        SIZE_KIND => read_named(alloc, Named::Size, first, frames),
        POLL_KIND => read_named(alloc, Named::Poll, first, frames),
        PEEK_KIND => read_named(alloc, Named::Peek, first, frames),
        CLEAR_KIND => read_named(alloc, Named::Clear, first, frames),
        REMAINING_CAPACITY_KIND => read_named(alloc, Named::RemainingCapacity, first, frames),
        _ => Err(CallRefused::UnknownType),
    }
}

/// The partition that a message states, one from 0 to 270; `None` where it states none.
pub fn stated_partition(message: &Message) -> Option<PartitionId>
    ensures { result ≡ partition_in (first_payload message.now.frames) }
{
    let first = message.frames.as_slice().first()?;
    read_partition(first).ok()
}

/// The call that a message is. Its queue is in the message's partition.
///
/// `UnknownType` where no call on a queue has the message's type. `BadCall` where the partition isn't
/// one from 0 to 270, or the frames behind the first aren't the queue's name, which is UTF-8, and of an
/// offer the value. What follows these frames is ignored. Costs the name and the value, each copied
/// once.
#[tactic(auto, unfolding(crate::specs::Calls::queue_call_of))]
pub fn read_queue_call(alloc: Global, message: &Message) -> Result<QueueCall, CallRefused>
    ensures { IsReadAs result (queue_call_of message.now) }
{
    let Some((first, frames)) = message.frames.as_slice().split_first() else {
        return Err(CallRefused::UnknownType);
    };
    match kind_of(first) {
        Some(kind) => read_call(alloc, kind, first, frames),
        None => Err(CallRefused::UnknownType),
    }
}
