ghost use Rattle.std.specs.Prelude.{◌≡◌, ℕ, ◌+◌, ◌^◌, ◌<◌, ◌≤◌, List, [], ◌++◌, length, None, IfOk, OnOk, OnErr};
ghost use Rattle.frame_codec.specs.FrameReaders.{next_place, in_progress, StandsFor, frames_of, fault_of};
ghost use Rattle.frame_codec.specs.Feeding.{Takes, TakesSome};
ghost use Rattle.frame_codec.specs.Marks.{IsMarkOf, IsFedSince, first_frame, back_at};

use crate::frames::{Frame, HEADER_LENGTH, MAX_FRAME_LENGTH, PlacedFrame};
use crate::malformed::{Malformed, Why};
use crate::marks::FrameMark;
use crate::partial::{LENGTH_BYTES, PartialFrame};
use grid_base::Memory;
use std::alloc::Global;
use std::marker::Model;

/// What a feed gave: the frames that its piece completed, and the first fault of the stream if it has shown.
#[derive(Debug, Drop)]
pub struct FedFrames {
    pub frames: Vec<PlacedFrame>,
    pub fault: Option<Malformed>,
}

/// A reader of frames, whose stream comes in any pieces.
#[derive(Debug, Drop)]
pub struct FrameReader {
    at: u64,
    partial: PartialFrame,
}

impl Model for FrameReader {
    ghost use Rattle.frame_codec.specs.FrameReaders.{InProgress, in_progress, IsUnfinished};

    ghost Value = { InProgress };

    ghost view = { λ r. in_progress r.at r.partial };

    ghost invariant = { λ r. IsUnfinished r.partial };
}

impl FrameReader {
    /// A reader whose stream's first byte has that place. Takes no memory.
    pub fn new(alloc: Global, at: u64) -> Self
        ensures nothing_yet { result ≡ in_progress at [] }
        ensures stands { StandsFor result at [] }
    {
        FrameReader {
            at,
            partial: PartialFrame::new(alloc),
        }
    }

    /// The first fault of the stream, if it has shown.
    pub fn fault(&self) -> Option<Malformed>
        ensures { result ≡ self.now.fault }
    {
        if self.partial.len() != LENGTH_BYTES {
            return None;
        }
        let length = self.partial.stated_length();
        let why = if length < HEADER_LENGTH {
            Why::TooShort
        } else if length > MAX_FRAME_LENGTH {
            Why::TooLong
        } else {
            return None;
        };
        Some(Malformed { at: self.at, why })
    }

    /// Takes the next piece of the stream, at the cost of its length, and gives the frames that it completes.
    /// After the stream's first fault each feed gives no frame and that fault. Want of memory changes nothing.
    pub fn feed(&mut self, alloc: Global, piece: &[u8]) -> Result<FedFrames, Memory>
        // The places of the stream's bytes are numbers of 64 bits.
        requires { next_place self.old + length piece.now < 2 ^ 64 }

        // Whatever bytes the reader stood for, the piece follows them, and all that is given is what is read of all bytes.
        ensures stands { OnOk result ((at : ℕ) (text : List ℕ) → StandsFor self.old at text → StandsFor self.new at (text ++ piece.now)) }
        ensures frames { IfOk result (λ fed. (at : ℕ) (text : List ℕ) → StandsFor self.old at text →
            frames_of at text ++ fed.frames.items ≡ frames_of at (text ++ piece.now)) }
        ensures fault { IfOk result (λ fed. (at : ℕ) (text : List ℕ) → StandsFor self.old at text →
            fed.fault ≡ fault_of at (text ++ piece.now)) }
        ensures err { OnErr result (self.new ≡ self.old) }

        // The stream goes on by the piece's bytes at most.
        ensures places { next_place self.new ≤ next_place self.old + length piece.now }
    {
        let mark = self.mark();
        let mut frames = Vec::new(alloc);
        if let Err(memory) = self.take_all(alloc, piece, &mut frames) {
            self.put_back(
                mark,
                FedFrames {
                    frames,
                    fault: None,
                },
            );
            return Err(memory);
        }
        let fault = self.fault();
        Ok(FedFrames { frames, fault })
    }

    /// A mark, to go back over the next feed by. Takes no memory.
    pub fn mark(&self) -> FrameMark
        ensures mark { IsMarkOf result self.now }
        // A reader stands for the bytes of the frame in progress, if for no others.
        ensures stands { StandsFor self.now self.now.at self.now.bytes }
    {
        FrameMark {
            at: self.at,
            partial: self.partial.mark(),
        }
    }

    /// Goes back over the feed since a mark, which gave these frames: the reader is as it was. Takes no memory.
    pub fn put_back(&mut self, mark: FrameMark, fed: FedFrames)
        ensures { (at : ℕ) (text piece : List ℕ) → IsFedSince mark self.old fed.frames.items at text piece → StandsFor self.new at text }
    {
        self.go_back(mark, first_of(fed.frames));
    }

    /// Goes back over the feed since a mark, of whose frames this one came first; its payload counts alone. Takes no memory.
    /// The reader is as it was where the frame came with that feed, as `put_back` has it.
    pub fn go_back(&mut self, mark: FrameMark, first: Option<Frame>)
        ensures { self.new ≡ back_at mark first self.old }
    {
        self.partial.put_back(mark.partial, first);
        self.at = mark.at;
    }

    /// Takes the bytes of a piece to its end or to the first fault, and adds each frame that is whole now.
    /// Want of memory may come after a part of the piece.
    fn take_all(
        &mut self,
        alloc: Global,
        piece: &[u8],
        frames: &mut Vec<PlacedFrame>,
    ) -> Result<(), Memory>
        requires { next_place self.old + length piece.now < 2 ^ 64 }
        ensures ok { OnOk result (Takes self.old frames.old.items self.new frames.new.items piece.now (length piece.now)) }
        ensures err { OnErr result (TakesSome self.old frames.old.items self.new frames.new.items piece.now) }
    {
        let mut taken = 0;
        while taken < piece.len() && self.fault().is_none() {
            taken += self.take_some(alloc, &piece[taken..], frames)?;
        }
        Ok(())
    }

    /// Takes bytes up to the end of the length, or then to the end of the frame, as far as they are there.
    /// Answers how many. Want of memory changes nothing.
    fn take_some(
        &mut self,
        alloc: Global,
        bytes: &[u8],
        frames: &mut Vec<PlacedFrame>,
    ) -> Result<usize, Memory>
        requires sound { self.old.fault ≡ None }
        requires some { 0 < length bytes.now }
        requires places { next_place self.old + length bytes.now < 2 ^ 64 }
        ensures count { IfOk result (λ n. (0 < n) × (n ≤ length bytes.now)) }
        ensures ok { IfOk result (λ n. Takes self.old frames.old.items self.new frames.new.items bytes.now n) }
        ensures place { IfOk result (λ n. next_place self.new ≡ next_place self.old + n) }
        ensures err { OnErr result ((self.new ≡ self.old) × (frames.new.items ≡ frames.old.items)) }
    {
        let have = self.partial.len();
        if have < LENGTH_BYTES {
            let taken = bytes.len().min(LENGTH_BYTES - have);
            self.partial.append(&bytes[..taken])?;
            return Ok(taken);
        }
        let wanted = self.partial.stated_length() - have;
        if bytes.len() < wanted {
            self.partial.append(bytes)?;
            return Ok(bytes.len());
        }
        frames.reserve(1)?;
        self.partial.append(&bytes[..wanted])?;
        let frame = self.partial.take_frame(alloc);
        let at = self.at;
        self.at = at + (have + wanted) as u64;
        frames.push_reserved(PlacedFrame { at, frame });
        Ok(wanted)
    }
}

/// The first of the frames, if there is one. The others are dropped.
fn first_of(frames: Vec<PlacedFrame>) -> Option<Frame>
    ensures { result ≡ first_frame frames.items }
{
    let first = frames.into_iter().next()?;
    Some(first.frame)
}
