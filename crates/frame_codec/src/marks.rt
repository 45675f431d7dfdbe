//! Small copies of a reader's state, to go back by.
ghost use Rattle.std.specs.Prelude.{◌≡◌, ◌+◌, ◌<◌, ◌≤◌, length};
ghost use Rattle.frame_codec.specs.Reading.{stated_length};
ghost use Rattle.frame_codec.specs.FrameReaders.{HasRoom};
ghost use Rattle.frame_codec.specs.declared.frames.TheConstants.{HEADER_LENGTH};

use crate::frames::HEADER_LENGTH;

/// What goes back to a frame's first bytes, where their payload is the front of another.
#[derive(Clone, Copy, Debug)]
pub struct PartialMark {
    pub(crate) header: [u8; HEADER_LENGTH],
    /// How many bytes of the header were there.
    pub(crate) count: usize,
    /// How many bytes of the payload were there.
    pub(crate) payload: usize,
    ghost room: { length header ≡ HEADER_LENGTH },
    ghost within: { count ≤ HEADER_LENGTH },
    ghost header_first: { count < HEADER_LENGTH → payload ≡ 0 },
}

/// What a reader of frames goes back by over one feed. It has no payload.
#[derive(Clone, Copy, Debug)]
pub struct FrameMark {
    pub(crate) at: u64,
    pub(crate) partial: PartialMark,
    ghost unfinished: { HasRoom (stated_length partial.header) (partial.count + partial.payload) },
}
