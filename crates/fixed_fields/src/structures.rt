ghost use Rattle.std.specs.Prelude.{◌≡◌};
ghost use Rattle.std.specs.Option.{option_copied};
ghost use Rattle.fixed_fields.specs.Structures.{has_flag, opens, closes, is_plain, after_structure};

use frame_codec::Frame;
use frame_codec::flags::{BEGIN_STRUCTURE, END_STRUCTURE};

pub(crate) fn has_flag(flag: u16, frame: &Frame) -> bool
    ensures { result ≡ has_flag flag frame.now }
{
    frame.flags & flag != 0
}

/// A frame with both flags of structures opens one, and closes none.
fn opens(frame: &Frame) -> bool
    ensures { result ≡ opens frame.now }
{
    has_flag(BEGIN_STRUCTURE, frame)
}

fn closes(frame: &Frame) -> bool
    ensures { result ≡ closes frame.now }
{
    has_flag(END_STRUCTURE, frame) && !opens(frame)
}

pub(crate) fn is_plain(frame: &Frame) -> bool
    ensures { result ≡ is_plain frame.now }
{
    !(opens(frame) || closes(frame))
}

/// The frames behind the structure that comes first; `None` where a structure doesn't come first, or
/// isn't closed. Costs as many steps as the structure has frames.
pub(crate) fn after_structure(frames: &[Frame]) -> Option<&[Frame]>
    ensures { option_copied result ≡ after_structure frames.now }
{
    let (first, mut rest) = frames.split_first()?;
    if !opens(first) {
        return None;
    }
    let mut depth = 1usize;
    'frames: while let Some((frame, behind)) = rest.split_first() {
        rest = behind;
        if opens(frame) {
            depth += 1;
        } else if closes(frame) {
            depth -= 1;
            if depth == 0 {
                return Some(rest);
            }
        }
    }
    None
}
