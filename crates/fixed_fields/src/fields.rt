ghost use Rattle.std.specs.Prelude.{◌≡◌, length, MatchResult, Some, None};
ghost use Rattle.std.specs.Option.{ok_or};
ghost use Rattle.fixed_fields.specs.Fields.{field_at, byte_at, int32_at, int64_at, uuid_at, joined_halves};

use crate::refusal::FieldRefused;
use frame_codec::Frame;

/// How many bytes a UUID has: one that says whether there is one, and two halves.
pub(crate) const UUID_LENGTH: usize = 17;

/// The bytes of the field of this size at a place.
fn field_at<const SIZE: usize>(frame: &Frame, at: usize) -> Result<&[u8; SIZE], FieldRefused>
    ensures { MatchResult result (λ field. field_at SIZE frame.now.payload at ≡ Some field.now)
        (λ why. (why ≡ FieldRefused.Short) × (field_at SIZE frame.now.payload at ≡ None)) }
{
    let Some((_, behind)) = frame.payload.as_slice().split_at_checked(at) else {
        return Err(FieldRefused::Short);
    };
    let Some(field) = behind.first_chunk::<SIZE>() else {
        return Err(FieldRefused::Short);
    };
    Ok(field)
}

/// The byte at a place; `Short` where the payload ends before it. Takes no memory.
pub fn byte_at(frame: &Frame, at: usize) -> Result<u8, FieldRefused>
    ensures { result ≡ ok_or (byte_at frame.now.payload at) FieldRefused.Short }
{
    match frame.payload.as_slice().get(at) {
        Some(byte) => Ok(*byte),
        None => Err(FieldRefused::Short),
    }
}

/// The number in the four bytes at a place, low byte first, in two's complement; `Short` where the
/// payload ends before the last of them. Takes no memory.
pub fn int32_at(frame: &Frame, at: usize) -> Result<i32, FieldRefused>
    ensures { result ≡ ok_or (int32_at frame.now.payload at) FieldRefused.Short }
{
    let field = field_at(frame, at)?;
    Ok(i32::from_le_bytes(*field))
}

/// The number in the eight bytes at a place, low byte first, in two's complement; `Short` where the
/// payload ends before the last of them. Takes no memory.
pub fn int64_at(frame: &Frame, at: usize) -> Result<i64, FieldRefused>
    ensures { result ≡ ok_or (int64_at frame.now.payload at) FieldRefused.Short }
{
    let field = field_at(frame, at)?;
    Ok(i64::from_le_bytes(*field))
}

/// The UUID in the 17 bytes at a place, or `None` where its first byte says that there is none;
/// `Short` where the payload ends before the last of them. Takes no memory.
pub fn uuid_at(frame: &Frame, at: usize) -> Result<Option<u128>, FieldRefused>
    ensures { result ≡ ok_or (uuid_at frame.now.payload at) FieldRefused.Short }
{
    let field = field_at::<UUID_LENGTH>(frame, at)?;
    if field[0] != 0 {
        return Ok(None);
    }
    Ok(Some(joined(&field[1..])))
}

/// The number of 128 bits whose high half comes first, each half low byte first.
fn joined(halves: &[u8]) -> u128
    requires { length halves.now ≡ 16 }
    ensures { result ≡ joined_halves halves.now }
{
    let (high, low) = halves.split_at(8);
    let high = u64::from_le_bytes([
        high[0], high[1], high[2], high[3], high[4], high[5], high[6], high[7],
    ]);
    let low = u64::from_le_bytes([
        low[0], low[1], low[2], low[3], low[4], low[5], low[6], low[7],
    ]);
    (u128::from(high) << 64) + u128::from(low)
}
