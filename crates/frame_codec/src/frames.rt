ghost use Rattle.std.specs.Prelude.{◌≡◌, ◌≤◌, ◌++◌, length, OnOk, OnErr};
ghost use Rattle.frame_codec.specs.Flags.{has_flag, without_flag};
ghost use Rattle.frame_codec.specs.Frames.{frame_bytes};

use grid_base::{Bytes, Memory};

/// How many bytes of a frame stand before its payload: four of the length, two of the flags.
pub const HEADER_LENGTH: usize = 6;

/// The greatest length of a frame, its header counted.
pub const MAX_FRAME_LENGTH: usize = 1_048_576;

/// The greatest length of a payload.
pub const MAX_PAYLOAD: usize = MAX_FRAME_LENGTH - HEADER_LENGTH;

/// One part of a message.
#[derive(Debug, Drop)]
pub struct Frame {
    pub flags: u16,
    pub payload: Bytes,
}

impl Frame {
    /// Whether the frame has a flag, one bit of `flags`.
    pub fn has(&self, flag: u16) -> bool
        ensures { result ≡ has_flag flag self.now }
    {
        self.flags & flag != 0
    }

    /// Takes a flag away, if the frame has it.
    pub fn clear(&mut self, flag: u16)
        ensures { self.new ≡ without_flag flag self.old }
    {
        self.flags &= !flag;
    }
}

/// A frame, and the place of its first byte in its stream.
#[derive(Debug, Drop)]
pub struct PlacedFrame {
    pub at: u64,
    pub frame: Frame,
}

/// Appends the bytes of a frame, at the cost of their number. Want of memory appends nothing.
pub fn write_frame(frame: &Frame, out: &mut Vec<u8>) -> Result<(), Memory>
    requires { length frame.now.payload ≤ MAX_PAYLOAD }
    ensures ok { OnOk result (out.new.items ≡ out.old.items ++ frame_bytes frame.now) }
    ensures err { OnErr result (out.new.items ≡ out.old.items) }
{
    write_payload(frame.flags, frame.payload.as_slice(), out)
}

/// Appends the bytes of the frame with these flags and this payload, which need not lie in a `Frame`.
/// Costs and fails as `write_frame`.
pub fn write_payload(flags: u16, payload: &[u8], out: &mut Vec<u8>) -> Result<(), Memory>
    requires { length payload.now ≤ MAX_PAYLOAD }
    ensures ok { OnOk result (out.new.items
        ≡ out.old.items ++ frame_bytes (record { flags = flags; payload = payload.now })) }
    ensures err { OnErr result (out.new.items ≡ out.old.items) }
{
    let length = HEADER_LENGTH + payload.len();
    out.reserve(length)?;
    out.extend_from_slice(&(length as u32).to_le_bytes())
        .unwrap();
    out.extend_from_slice(&flags.to_le_bytes()).unwrap();
    out.extend_from_slice(payload).unwrap();
    Ok(())
}
