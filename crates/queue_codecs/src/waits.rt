ghost use Rattle.std.specs.Prelude.{◌≡◌};
ghost use Rattle.std.specs.Option.{ok_or};
ghost use Rattle.fixed_fields.specs.Fields.{int64_at};
ghost use Rattle.fixed_fields.specs.Requests.{IsReadAs, reader_of};
ghost use Rattle.queue_codecs.specs.Calls.{named_in, offer_in};
ghost use Rattle.queue_codecs.specs.Waits.{waiting_in, queue_waits, wait_by, queue_wait_of};

use crate::calls::{Named, read_named, read_offer};
use crate::kinds::{OFFER_WAIT_KIND, POLL_WAIT_KIND};
use fixed_fields::{int64_at, kind_of};
use frame_codec::Frame;
use grid_base::{CallRefused, QueueCall};
use message_frames::Message;
use std::alloc::Global;

/// Where the first payload of a waiting call has the timeout.
const TIMEOUT_OFFSET: usize = 16;

/// The timeout of the waiting call that begins with this frame.
fn read_timeout(first: &Frame) -> Result<i64, CallRefused>
    ensures { result ≡ ok_or (int64_at first.now.payload 16) CallRefused.BadCall }
{
    Ok(int64_at(first, TIMEOUT_OFFSET)?)
}

/// Reads the offer that may wait for room.
fn read_offer_wait(
    alloc: Global,
    first: &Frame,
    frames: &[Frame],
) -> Result<(QueueCall, i64), CallRefused>
    ensures { IsReadAs result (ok_or (waiting_in offer_in first.now.payload frames.now) CallRefused.BadCall) }
{
    let timeout = read_timeout(first)?;
    let call = read_offer(alloc, first, frames)?;
    Ok((call, timeout))
}

/// Reads the poll that may wait for an element.
fn read_poll_wait(
    alloc: Global,
    first: &Frame,
    frames: &[Frame],
) -> Result<(QueueCall, i64), CallRefused>
    ensures { IsReadAs result (ok_or (waiting_in (named_in QueueCall.Poll) first.now.payload frames.now) CallRefused.BadCall) }
{
    let timeout = read_timeout(first)?;
    let call = read_named(alloc, Named::Poll, first, frames)?;
    Ok((call, timeout))
}

/// The waiting call of that type which begins with this frame, and goes on with those behind it.
fn read_wait(
    alloc: Global,
    kind: u32,
    first: &Frame,
    frames: &[Frame],
) -> Result<(QueueCall, i64), CallRefused>
    ensures { IsReadAs result (wait_by first.now.payload frames.now (reader_of kind queue_waits)) }
{
    match kind {
        OFFER_WAIT_KIND => read_offer_wait(alloc, first, frames),
        POLL_WAIT_KIND => read_poll_wait(alloc, first, frames),
        _ => Err(CallRefused::UnknownType),
    }
}

/// The call that a message has wait, and the timeout, for how many milliseconds it may wait. Its queue is
/// in the message's partition.
///
/// `UnknownType` where the message's type is neither that of an offer nor that of a poll that may wait.
/// `BadCall` where the plain call can't be read, or the timeout isn't wholly there behind the partition.
/// What follows is ignored. Costs what reading the plain call costs.
#[tactic(auto, unfolding(crate::specs::Waits::queue_wait_of))]
pub fn read_queue_wait(alloc: Global, message: &Message) -> Result<(QueueCall, i64), CallRefused>
    ensures { IsReadAs result (queue_wait_of message.now) }
{
    let Some((first, frames)) = message.frames.as_slice().split_first() else {
        return Err(CallRefused::UnknownType);
    };
    match kind_of(first) {
        Some(kind) => read_wait(alloc, kind, first, frames),
        None => Err(CallRefused::UnknownType),
    }
}
