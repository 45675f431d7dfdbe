//! Frames as bytes.
ghost use Rattle.std.specs.Prelude.{◌≡◌, ◌≤◌, ◌++◌, length, All, IfOk, OnOk};
ghost use Rattle.frame_codec.specs.Frames.{frame_bytes};
ghost use Rattle.frame_codec.specs.Laws.{IsWithinLimits, spelled};

use frame_codec::{Frame, MAX_PAYLOAD, write_frame};
use grid_base::Memory;
use std::alloc::Global;

/// Appends the bytes of a frame. Of one that is longer than any that is read, only the payload is told.
fn push_frame(frame: &Frame, out: &mut Vec<u8>) -> Result<(), Memory>
    ensures { OnOk result (length frame.now.payload ≤ MAX_PAYLOAD → out.new.items ≡ out.old.items ++ frame_bytes frame.now) }
{
    if frame.payload.len() > MAX_PAYLOAD {
        return out.extend_from_slice(frame.payload.as_slice());
    }
    write_frame(frame, out)
}

/// The bytes of frames, one behind the other.
pub(crate) fn spelled(alloc: Global, frames: &[Frame]) -> Result<Vec<u8>, Memory>
    ensures { IfOk result (λ bytes. All IsWithinLimits frames.now → bytes.items ≡ spelled frames.now) }
{
    let mut bytes = Vec::new(alloc);
    for frame in frames {
        push_frame(frame, &mut bytes)?;
    }
    Ok(bytes)
}
