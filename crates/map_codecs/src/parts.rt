ghost use Rattle.std.specs.Prelude.{◌≡◌, drop, Some, None, IfOk, IfErr, OnOk};
ghost use Rattle.std.specs.Option.{ok_or};
ghost use Rattle.fixed_fields.specs.Fields.{int64_at};
ghost use Rattle.map_codecs.specs.Calls.{Processor, owner_in, key_in, processor_in};

use fixed_fields::{Cursor, int64_at};
use frame_codec::Frame;
use grid_base::{Bytes, CallRefused, ClientKey, Owner};

/// Where the first payload of a call has the caller's thread.
const THREAD_OFFSET: usize = 16;

/// Where it has the time to live of a value, or the lease of a lock.
const TTL_OFFSET: usize = 24;

/// Where it has the max idle time of a value.
const IDLE_OFFSET: usize = 32;

/// How many bytes a key has at least: those before its content.
const SHORTEST_KEY: usize = 8;

/// Who makes the call that begins with this frame.
pub(crate) fn read_owner(client: ClientKey, first: &Frame) -> Result<Owner, CallRefused>
    ensures { result ≡ ok_or (owner_in client first.now.payload) CallRefused.BadCall }
{
    let thread = int64_at(first, THREAD_OFFSET)?;
    Ok(Owner { client, thread })
}

/// The time to live or the lease of the call that begins with this frame.
pub(crate) fn read_ttl(first: &Frame) -> Result<i64, CallRefused>
    ensures { result ≡ ok_or (int64_at first.now.payload 24) CallRefused.BadCall }
{
    Ok(int64_at(first, TTL_OFFSET)?)
}

/// The max idle time of the call that begins with this frame.
pub(crate) fn read_idle(first: &Frame) -> Result<i64, CallRefused>
    ensures { result ≡ ok_or (int64_at first.now.payload 32) CallRefused.BadCall }
{
    Ok(int64_at(first, IDLE_OFFSET)?)
}

/// Passes a key.
pub(crate) fn read_key<'a>(cursor: &mut Cursor<'a>) -> Result<&'a Bytes, CallRefused>
    ensures read { IfOk result (λ key. key_in cursor.old ≡ Some key.now) }
    ensures passed { OnOk result (cursor.new ≡ drop 1 cursor.old) }
    ensures bad { IfErr result (λ why. (why ≡ CallRefused.BadCall) × (key_in cursor.old ≡ None)) }
{
    let key = cursor.data()?;
    if key.len() < SHORTEST_KEY {
        return Err(CallRefused::BadCall);
    }
    Ok(key)
}

/// Passes a processor's number and what the processor is given.
pub(crate) fn read_processor<'a>(cursor: &mut Cursor<'a>) -> Result<(i32, &'a [u8]), CallRefused>
    ensures read { IfOk result (λ read. processor_in cursor.old ≡ Some (record { number = read.0; argument = read.1.now })) }
    ensures passed { OnOk result (cursor.new ≡ drop 1 cursor.old) }
    ensures bad { IfErr result (λ why. (why ≡ CallRefused.BadCall) × (processor_in cursor.old ≡ None)) }
{
    let bytes = cursor.data()?;
    match bytes.as_slice().split_first_chunk() {
        Some((number, argument)) => Ok((i32::from_le_bytes(*number), argument)),
        None => Err(CallRefused::BadCall),
    }
}
