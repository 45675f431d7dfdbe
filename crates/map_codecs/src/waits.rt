ghost use Rattle.std.specs.Prelude.{◌≡◌};
ghost use Rattle.std.specs.Option.{ok_or};
ghost use Rattle.fixed_fields.specs.Fields.{int64_at};
ghost use Rattle.fixed_fields.specs.Requests.{IsReadAs, reader_of};
ghost use Rattle.map_codecs.specs.Calls.{leased_in, stored_in};
ghost use Rattle.map_codecs.specs.Waits.{waiting_in, map_waits, wait_by, map_wait_of};

use crate::kinds::{LOCK_WAIT_KIND, PUT_WAIT_KIND};
use crate::shapes::{Stored, read_leased, read_stored};
use fixed_fields::{int64_at, kind_of};
use frame_codec::Frame;
use grid_base::{CallRefused, ClientKey, MapCall};
use message_frames::Message;
use std::alloc::Global;

/// Where the first payload of a waiting call has the timeout.
const TIMEOUT_OFFSET: usize = 32;

/// The timeout of the waiting call that begins with this frame.
fn read_timeout(first: &Frame) -> Result<i64, CallRefused>
    ensures { result ≡ ok_or (int64_at first.now.payload 32) CallRefused.BadCall }
{
    Ok(int64_at(first, TIMEOUT_OFFSET)?)
}

/// Reads the try for a lock that may wait for it.
fn read_lock_wait(
    alloc: Global,
    client: ClientKey,
    first: &Frame,
    frames: &[Frame],
) -> Result<(MapCall, i64), CallRefused>
    ensures { IsReadAs result (ok_or (waiting_in (leased_in MapCall.TryLock) client first.now.payload frames.now) CallRefused.BadCall) }
{
    let timeout = read_timeout(first)?;
    let call = read_leased(alloc, client, first, frames)?;
    Ok((call, timeout))
}

/// Reads the put that may wait for a lock to go.
fn read_put_wait(
    alloc: Global,
    client: ClientKey,
    first: &Frame,
    frames: &[Frame],
) -> Result<(MapCall, i64), CallRefused>
    ensures { IsReadAs result (ok_or (waiting_in (stored_in MapCall.Put) client first.now.payload frames.now) CallRefused.BadCall) }
{
    let timeout = read_timeout(first)?;
    let call = read_stored(alloc, Stored::Put, client, first, frames)?;
    Ok((call, timeout))
}

/// The waiting call of that type which begins with this frame, and goes on with those behind it.
fn read_wait(
    alloc: Global,
    kind: u32,
    client: ClientKey,
    first: &Frame,
    frames: &[Frame],
) -> Result<(MapCall, i64), CallRefused>
    ensures { IsReadAs result (wait_by client first.now.payload frames.now (reader_of kind map_waits)) }
{
    match kind {
        LOCK_WAIT_KIND => read_lock_wait(alloc, client, first, frames),
        PUT_WAIT_KIND => read_put_wait(alloc, client, first, frames),
        _ => Err(CallRefused::UnknownType),
    }
}

/// The call that a message has wait, made by a thread of the client `owner`, and the timeout, for how many
/// milliseconds it may wait.
///
/// `UnknownType` where the message's type is neither that of a lock nor that of a put that may wait.
/// `BadCall` where the plain call can't be read, or the timeout isn't wholly there behind its fields. What
/// follows is ignored, and the partition isn't looked at. Costs what reading the plain call costs.
#[tactic(auto, unfolding(crate::specs::Waits::map_wait_of))]
pub fn read_map_wait(
    alloc: Global,
    message: &Message,
    owner: ClientKey,
) -> Result<(MapCall, i64), CallRefused>
    ensures { IsReadAs result (map_wait_of owner message.now) }
{
    let Some((first, frames)) = message.frames.as_slice().split_first() else {
        return Err(CallRefused::UnknownType);
    };
    match kind_of(first) {
        Some(kind) => read_wait(alloc, kind, owner, first, frames),
        None => Err(CallRefused::UnknownType),
    }
}
