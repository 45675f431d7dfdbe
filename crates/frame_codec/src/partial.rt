ghost use Rattle.std.specs.Prelude.{◌≡◌, ℕ, ◌+◌, ◌<◌, ◌≤◌, List, [], ◌++◌, length, take, OnOk, OnErr};
ghost use Rattle.frame_codec.specs.Reading.{stated_length, frame_of};
ghost use Rattle.frame_codec.specs.Marks.{IsPartialMarkOf, bytes_at, payload_since};

use crate::frames::{Frame, HEADER_LENGTH};
use crate::marks::PartialMark;
use grid_base::{Bytes, Memory};
use std::alloc::Global;
use std::marker::Model;
use std::mem;

/// How many bytes of a header state the frame's length.
pub(crate) const LENGTH_BYTES: usize = 4;

/// The first bytes of a frame. Those of the payload lie where they stay.
#[derive(Debug, Drop)]
pub(crate) struct PartialFrame {
    header: [u8; HEADER_LENGTH],
    /// How many bytes of the header are there. The payload begins after the last.
    count: usize,
    payload: Vec<u8>,
}

impl Model for PartialFrame {
    ghost use Rattle.std.specs.Prelude.{ℕ, List};
    ghost use Rattle.frame_codec.specs.Layout.{IsLaidOut, laid_out};

    ghost Value = { List ℕ };

    ghost view = { λ f. laid_out f.header f.count f.payload.items };

    ghost invariant = { λ f. IsLaidOut f.header f.count f.payload.items };
}

impl PartialFrame {
    /// No bytes. Takes no memory.
    pub fn new(alloc: Global) -> Self
        ensures { result ≡ [] }
    {
        PartialFrame {
            header: [0; HEADER_LENGTH],
            count: 0,
            payload: Vec::new(alloc),
        }
    }

    pub fn len(&self) -> usize
        ensures { result ≡ length self.now }
    {
        let header = &self.header[..self.count];
        header.len() + self.payload.as_slice().len()
    }

    /// The length of the whole frame, as the first bytes state it.
    pub fn stated_length(&self) -> usize
        requires { LENGTH_BYTES ≤ length self.now }
        ensures { result ≡ stated_length self.now }
    {
        let [a, b, c, d, _, _] = self.header;
        u32::from_le_bytes([a, b, c, d]) as usize
    }

    /// Takes the next bytes, at the cost of their number. Want of memory takes none.
    pub fn append(&mut self, bytes: &[u8]) -> Result<(), Memory>
        ensures ok { OnOk result (self.new ≡ self.old ++ bytes.now) }
        ensures err { OnErr result (self.new ≡ self.old) }
    {
        let missing = HEADER_LENGTH - self.count;
        let (header, payload) = bytes.split_at(missing.min(bytes.len()));
        self.payload.extend_from_slice(payload)?;
        self.header[self.count..self.count + header.len()].copy_from_slice(header);
        self.count += header.len();
        Ok(())
    }

    /// The frame, whose bytes are all there, and no bytes are left. Takes no memory.
    pub fn take_frame(&mut self, alloc: Global) -> Frame
        requires header { HEADER_LENGTH ≤ length self.old }
        requires whole { length self.old ≡ stated_length self.old }
        ensures frame { result ≡ frame_of self.old }
        ensures none_left { self.new ≡ [] }
    {
        let [_, _, _, _, low, high] = self.header;
        self.count = 0;
        let payload = mem::replace(&mut self.payload, Vec::new(alloc));
        Frame {
            flags: u16::from_le_bytes([low, high]),
            payload: Bytes::from_vec(payload),
        }
    }

    /// A mark, to go back to these bytes by.
    pub fn mark(&self) -> PartialMark
        ensures { IsPartialMarkOf result self.now }
    {
        PartialMark {
            header: self.header,
            count: self.count,
            payload: self.payload.as_slice().len(),
        }
    }

    /// Goes back to the bytes at a mark. The payload then is the front of that of the frame that was taken
    /// first since then, or of the payload here.
    pub fn put_back(&mut self, mark: PartialMark, first: Option<Frame>)
        ensures { self.new ≡ bytes_at mark (payload_since first self.old) }
    {
        if let Some(frame) = first {
            self.payload = frame.payload.into_vec();
        }
        self.payload.truncate(mark.payload);
        let header = mark.header;
        self.header = header;
        self.count = mark.count;
    }
}
