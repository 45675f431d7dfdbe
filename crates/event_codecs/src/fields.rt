ghost use Rattle.std.specs.Prelude.{◌≡◌};
ghost use Rattle.std.specs.Option.{ok_or};
ghost use Rattle.event_codecs.specs.Events.{number_at, mark_at};

use fixed_fields::{FieldRefused, byte_at, int32_at};
use frame_codec::Frame;
use grid_base::CallRefused;

/// The number without a sign in the four bytes at a place.
pub(crate) fn number_at(frame: &Frame, at: usize) -> Result<u32, FieldRefused>
    ensures { result ≡ ok_or (number_at frame.now.payload at) FieldRefused.Short }
{
    Ok(int32_at(frame, at)?.cast_unsigned())
}

/// The byte 1 for yes or 0 for no at a place.
pub(crate) fn mark_at(frame: &Frame, at: usize) -> Result<bool, CallRefused>
    ensures { result ≡ ok_or (mark_at frame.now.payload at) CallRefused.BadCall }
{
    match byte_at(frame, at)? {
        0 => Ok(false),
        1 => Ok(true),
        _ => Err(CallRefused::BadCall),
    }
}
