ghost use Rattle.std.specs.Prelude.{◌≡◌};
ghost use Rattle.fixed_fields.specs.Requests.{kind_of};

use crate::fields::int32_at;
use frame_codec::Frame;

/// Where the first payload of a message has the message's type.
const KIND_OFFSET: usize = 0;

/// The type of the message that begins with this frame; `None` where the payload has fewer than four
/// bytes. Takes no memory.
pub fn kind_of(first: &Frame) -> Option<u32>
    ensures { result ≡ kind_of first.now.payload }
{
    let kind = int32_at(first, KIND_OFFSET).ok()?;
    Some(kind.cast_unsigned())
}
