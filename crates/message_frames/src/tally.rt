ghost use Rattle.std.specs.Prelude.{◌≡◌};
ghost use Rattle.message_frames.specs.Tallies.{no_tally, counted};

use frame_codec::{Frame, HEADER_LENGTH, Why};

/// How many frames a message may have.
pub(crate) const MOST_FRAMES: usize = 4096;

/// How many bytes the frames of a message may have together, their headers counted.
pub(crate) const MOST_LENGTH: usize = 2_097_152;

/// What the frames of a message come to.
#[derive(Clone, Copy, Debug, Default)]
pub(crate) struct Tally {
    /// How many there are.
    pub(crate) count: usize,
    /// The sum of their lengths.
    pub(crate) bytes: usize,
    /// The length of the first payload.
    pub(crate) first: usize,
}

impl Tally {
    /// That of no frames.
    pub(crate) fn new() -> Self
        ensures { result ≡ no_tally }
    {
        Tally {
            count: 0,
            bytes: 0,
            first: 0,
        }
    }

    /// One frame more, unless it goes past a limit.
    pub(crate) fn with(&self, frame: &Frame) -> Result<Self, Why>
        ensures { result ≡ counted frame.now self.now }
    {
        if self.count >= MOST_FRAMES {
            return Err(Why::ManyFrames);
        }
        let room = MOST_LENGTH.saturating_sub(self.bytes);
        if room < HEADER_LENGTH || room - HEADER_LENGTH < frame.payload.len() {
            return Err(Why::LongMessage);
        }
        let first = if self.count == 0 {
            frame.payload.len()
        } else {
            self.first
        };
        Ok(Tally {
            count: self.count + 1,
            bytes: self.bytes + HEADER_LENGTH + frame.payload.len(),
            first,
        })
    }
}
