ghost use Rattle.std.specs.Prelude.{◌≡◌, ◌++◌, ◌≤◌, length, IfOk};
ghost use Rattle.fixed_fields.specs.Responses.{single, framed, head_bytes, response_head, response_of, void_bytes, error_bytes};

use crate::writers::{write_int32, write_int64};
use frame_codec::flags::{FINAL, UNFRAGMENTED};
use frame_codec::write_payload;
use grid_base::{Bytes, Memory};
use std::alloc::Global;

/// The type of an error.
const ERROR_KIND: u32 = 0;

/// How many bytes a response's head has: the type, the correlation, and the count of acknowledgements.
const HEAD_LENGTH: usize = 13;

/// A payload that begins as the head of a message of that type does.
fn begun(alloc: Global, kind: u32, correlation: i64) -> Result<Vec<u8>, Memory>
    ensures { IfOk result (λ head. head.items ≡ head_bytes kind correlation) }
{
    let mut head = Vec::with_capacity(alloc, HEAD_LENGTH)?;
    head.extend_from_slice(&kind.to_le_bytes())?;
    write_int64(correlation, &mut head)?;
    head.push(0)?;
    Ok(head)
}

/// The head of the response to a request of that type, behind which the response's fixed fields follow.
pub fn response_head(alloc: Global, kind: u32, correlation: i64) -> Result<Vec<u8>, Memory>
    ensures { IfOk result (λ head. head.items ≡ response_head kind correlation) }
{
    begun(alloc, kind.wrapping_add(1), correlation)
}

/// A message of one frame, with that payload. Copies it once.
pub fn write_single(alloc: Global, payload: &[u8]) -> Result<Bytes, Memory>
    requires { length payload.now ≤ 1048570 }
    ensures { IfOk result (λ message. message ≡ framed single payload.now) }
{
    let mut message = Vec::new(alloc);
    write_payload(UNFRAGMENTED | FINAL, payload, &mut message)?;
    Ok(Bytes::from_vec(message))
}

/// The response to a request of that type which says no more than that it was done.
pub fn write_void(alloc: Global, kind: u32, correlation: i64) -> Result<Bytes, Memory>
    ensures { IfOk result (λ void. void ≡ void_bytes kind correlation) }
{
    let head = response_head(alloc, kind, correlation)?;
    write_single(alloc, head.as_slice())
}

/// The error that answers a request: its number, and two numbers that say more of it.
pub fn write_error(
    alloc: Global,
    correlation: i64,
    code: i32,
    first: i32,
    second: i32,
) -> Result<Bytes, Memory>
    ensures { IfOk result (λ error. error ≡ error_bytes correlation code first second) }
{
    let mut payload = begun(alloc, ERROR_KIND, correlation)?;
    write_int32(code, &mut payload)?;
    write_int32(first, &mut payload)?;
    write_int32(second, &mut payload)?;
    write_single(alloc, payload.as_slice())
}
