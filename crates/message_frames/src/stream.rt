//! The state of a reader of messages: what it has heard of its stream, and what isn't complete.
ghost use Rattle.std.specs.Prelude.{◌≡◌, ℕ, ◌+◌, ◌^◌, ◌<◌, ◌≤◌, Bool, List, [], ◌++◌, length, vec_len, drop, min, None, Some, All, IfOk, IfErr, OnOk, OnErr};
ghost use Rattle.frame_codec.specs.FrameReaders.{next_place, StandsFor as FramesStandFor};
ghost use Rattle.message_frames.specs.Messages.{prefix_of, shortest_start, differing, or_else, messages_of};
ghost use Rattle.message_frames.specs.Lists.{IsSound};
ghost use Rattle.message_frames.specs.Assemblers.{state_of, IsSoundAssembler, HoldsLists, HasFewLists};
ghost use Rattle.message_frames.specs.FedFrames.{Gives};
ghost use Rattle.message_frames.specs.MessageReaders.{StandsFor};
ghost use Rattle.message_frames.specs.Streams.{heard_by, IsHearing, IsAtRest, IsMarkOfStream, LeadsBack, GoesBack, IsPending, heard_before};
ghost use Rattle.message_frames.specs.Tracks.{taken_back, LeadsBelow};

use crate::assembler::{Assembler, Taken};
use crate::control::Control;
use frame_codec::{Frame, FrameMark, FrameReader, Malformed, Why};
use grid_base::Memory;
use std::alloc::Global;

/// What a stream to a member begins with.
const PREFIX: &[u8] = b"CP2";

/// What is heard of a stream so far.
#[derive(Debug, Drop)]
pub(crate) struct Stream {
    pub(crate) prefix: bool,
    /// How many bytes of the prefix have come.
    pub(crate) begun: usize,
    pub(crate) frames: FrameReader,
    pub(crate) assembler: Assembler,
    pub(crate) fault: Option<Malformed>,
}

/// What a stream goes back by over one piece. It has no payload and no frame.
#[derive(Debug, Drop)]
pub(crate) struct StreamMark {
    pub(crate) begun: usize,
    pub(crate) frames: FrameMark,
    pub(crate) control: Control,
    pub(crate) fault: Option<Malformed>,
}

/// A stream, and the mark of where it stood before its last piece.
#[derive(Debug, Drop)]
pub(crate) struct MarkedStream {
    pub(crate) stream: Stream,
    pub(crate) mark: StreamMark,
}

/// The bytes of the prefix that are awaited.
fn prefix_bytes(prefix: bool) -> &'static [u8]
    ensures { result.now ≡ prefix_of prefix }
{
    if prefix { PREFIX } else { &PREFIX[..0] }
}

/// How many bytes a first payload has at least: those of a request's head, or of a response's.
fn shortest_start(prefix: bool) -> usize
    ensures { result ≡ shortest_start prefix }
{
    if prefix { 16 } else { 13 }
}

/// How many bytes of the prefix have come with a piece, of which so many came before it.
/// An `Err` has the place of the first byte that differs.
fn past_prefix(prefix: bool, begun: usize, piece: &[u8]) -> Result<usize, usize>
    requires { begun ≤ length (prefix_of prefix) }
    ensures count { IfOk result (λ now. now ≡ min (length (prefix_of prefix)) (begun + length piece.now)) }
    ensures same { IfOk result (λ now. differing begun (drop begun (prefix_of prefix)) piece.now ≡ None) }
    ensures other { IfErr result (λ at. differing begun (drop begun (prefix_of prefix)) piece.now ≡ Some at) }
{
    let wanted = prefix_bytes(prefix);
    let mut now = begun;
    for byte in piece {
        if now == wanted.len() {
            return Ok(now);
        }
        if *byte != wanted[now] {
            return Err(now);
        }
        now += 1;
    }
    Ok(now)
}

/// Takes bytes to frames, and frames to messages, and says what fault has shown then. Want of memory changes nothing.
fn take_frames(
    alloc: Global,
    frames: &mut FrameReader,
    assembler: &mut Assembler,
    fault: &mut Option<Malformed>,
    piece: &[u8],
) -> Result<Taken, Memory>
    requires sound { IsSoundAssembler assembler.old }
    requires few { HasFewLists assembler.old }
    requires places { next_place frames.old + length piece.now < 2 ^ 64 }
    ensures stands { OnOk result ((at : ℕ) (text : List ℕ) → FramesStandFor frames.old at text → FramesStandFor frames.new at (text ++ piece.now)) }
    ensures given { IfOk result (λ given. (at : ℕ) (text : List ℕ) → FramesStandFor frames.old at text →
        Gives at text piece.now assembler.old.shortest (state_of assembler.old) (state_of assembler.new) given.messages.items fault.new) }
    ensures shortest { assembler.new.shortest ≡ assembler.old.shortest }
    ensures sound { IsSoundAssembler assembler.new }
    ensures kept { IfOk result (λ taken. HoldsLists assembler.new taken.kept) }
    ensures back { IfOk result (λ taken. LeadsBack frames.old assembler.old frames.new assembler.new taken) }
    ensures err_frames { OnErr result (frames.new ≡ frames.old) }
    ensures err_state { OnErr result (state_of assembler.new ≡ state_of assembler.old) }
    ensures err_few { OnErr result (HasFewLists assembler.new) }
    ensures err_fault { OnErr result (fault.new ≡ fault.old) }
{
    let mark = frames.mark();
    let fed = frames.feed(alloc, piece)?;
    if fed.frames.is_empty() {
        *fault = frames.fault();
        return Ok(Taken::nothing(alloc));
    }
    match assembler.prepare(alloc, fed.frames.as_slice()) {
        Ok(room) => {
            let (taken, first) = assembler.take(alloc, fed.frames, room);
            *fault = earlier_of(first, frames.fault());
            Ok(taken)
        }
        Err(memory) => {
            frames.put_back(mark, fed);
            Err(memory)
        }
    }
}

/// The first fault, and where there is none the later one.
fn earlier_of(first: Option<Malformed>, later: Option<Malformed>) -> Option<Malformed>
    ensures { result ≡ or_else first later }
{
    match first {
        Some(fault) => Some(fault),
        None => later,
    }
}

impl Stream {
    /// A stream of which nothing has come, with the prefix `CP2` or without one. Takes no memory.
    pub(crate) fn new(alloc: Global, prefix: bool) -> Self
        ensures rest { IsAtRest result }
        ensures stands { StandsFor (heard_by result) prefix [] }
    {
        let at = prefix_bytes(prefix).len();
        Stream {
            prefix,
            begun: 0,
            frames: FrameReader::new(alloc, at as u64),
            assembler: Assembler::new(alloc, shortest_start(prefix)),
            fault: None,
        }
    }

    /// Takes the next piece, and gives the messages that it completes. Want of memory changes nothing.
    pub(crate) fn take_piece(&mut self, alloc: Global, piece: &[u8]) -> Result<Taken, Memory>
        requires { IsAtRest self.old }
        ensures stands { OnOk result ((prefix : Bool) (text : List ℕ) → StandsFor (heard_by self.old) prefix text → StandsFor (heard_by self.new) prefix (text ++ piece.now)) }
        ensures messages { IfOk result (λ taken. (prefix : Bool) (text : List ℕ) → StandsFor (heard_by self.old) prefix text →
            messages_of prefix text ++ taken.messages.items ≡ messages_of prefix (text ++ piece.now)) }
        ensures hearing { IsHearing self.new }
        ensures prefix { self.new.prefix ≡ self.old.prefix }
        ensures kept { IfOk result (λ taken. HoldsLists self.new.assembler taken.kept) }
        ensures back { IfOk result (λ taken. LeadsBack self.old.frames self.old.assembler self.new.frames self.new.assembler taken) }
        ensures err { OnErr result (heard_by self.new ≡ heard_by self.old) }
        ensures err_few { OnErr result (HasFewLists self.new.assembler) }
    {
        if self.fault.is_some() {
            return Ok(Taken::nothing(alloc));
        }
        match past_prefix(self.prefix, self.begun, piece) {
            Ok(begun) => {
                let rest = &piece[begun - self.begun..];
                let taken = take_frames(
                    alloc,
                    &mut self.frames,
                    &mut self.assembler,
                    &mut self.fault,
                    rest,
                )?;
                self.begun = begun;
                Ok(taken)
            }
            Err(at) => {
                self.fault = Some(Malformed {
                    at: at as u64,
                    why: Why::Prefix,
                });
                Ok(Taken::nothing(alloc))
            }
        }
    }

    /// Goes back over the piece since a mark, which gave these. Takes no memory.
    pub(crate) fn put_back(&mut self, mark: &StreamMark, taken: Taken)
        requires hearing { IsHearing self.old }
        requires back { GoesBack self.old mark.now taken }
        ensures before { heard_by self.new ≡ heard_before self.old mark.now taken }
        ensures rest { IsAtRest self.new }
    {
        let first = self
            .assembler
            .put_back(&mark.control, taken.messages, taken.track);
        self.frames.go_back(mark.frames, first);
        self.begun = mark.begun;
        self.fault = mark.fault;
    }
}

impl StreamMark {
    /// A mark of where a stream stands at first. Takes no memory.
    fn at_first(stream: &Stream) -> Self {
        StreamMark {
            begun: 0,
            frames: stream.frames.mark(),
            control: Control::new(),
            fault: None,
        }
    }

    /// Marks where a stream stands, to go back over its next piece by. Takes no memory, and costs a copy of each open
    /// chain.
    fn renew(&mut self, stream: &Stream)
        ensures mark { IsMarkOfStream self.new stream.now }
        ensures stands { FramesStandFor stream.now.frames stream.now.frames.at stream.now.frames.bytes }
    {
        self.begun = stream.begun;
        self.frames = stream.frames.mark();
        self.control.copy_from(&stream.assembler.control);
        self.fault = stream.fault;
    }
}

impl MarkedStream {
    /// A stream of which nothing has come, with the prefix `CP2` or without one. Takes no memory.
    pub(crate) fn new(alloc: Global, prefix: bool) -> Self
        ensures rest { IsAtRest result.stream }
        ensures stands { StandsFor (heard_by result.stream) prefix [] }
    {
        let stream = Stream::new(alloc, prefix);
        let mark = StreamMark::at_first(&stream);
        MarkedStream { stream, mark }
    }

    /// Takes the next piece, and gives the messages that it completes and what goes back over it. Want of memory changes
    /// nothing.
    pub(crate) fn take_piece(&mut self, alloc: Global, piece: &[u8]) -> Result<Taken, Memory>
        requires { IsAtRest self.old.stream }
        ensures stands { OnOk result ((prefix : Bool) (text : List ℕ) → StandsFor (heard_by self.old.stream) prefix text → StandsFor (heard_by self.new.stream) prefix (text ++ piece.now)) }
        ensures messages { IfOk result (λ taken. (prefix : Bool) (text : List ℕ) → StandsFor (heard_by self.old.stream) prefix text →
            messages_of prefix text ++ taken.messages.items ≡ messages_of prefix (text ++ piece.now)) }
        ensures before { IfOk result (λ taken. heard_before self.new.stream self.new.mark taken ≡ heard_by self.old.stream) }
        ensures pending { IfOk result (λ taken. IsPending self.new.stream self.new.mark taken) }
        ensures err { OnErr result (heard_by self.new.stream ≡ heard_by self.old.stream) }
        ensures err_rest { OnErr result (IsAtRest self.new.stream) }
    {
        self.mark.renew(&self.stream);
        self.stream.take_piece(alloc, piece)
    }

    /// Lets the way back over the last piece go. Takes no memory.
    pub(crate) fn keep(&mut self, alloc: Global, kept: Option<Vec<Vec<Frame>>>)
        requires hearing { IsHearing self.old.stream }
        requires kept { HoldsLists self.old.stream.assembler kept }
        ensures same { heard_by self.new.stream ≡ heard_by self.old.stream }
        ensures rest { IsAtRest self.new.stream }
    {
        self.stream.assembler.keep(alloc, kept);
    }

    /// Goes back over the last piece, which gave these. Takes no memory.
    pub(crate) fn put_back(&mut self, taken: Taken)
        requires { IsPending self.old.stream self.old.mark taken }
        ensures before { heard_by self.new.stream ≡ heard_before self.old.stream self.old.mark taken }
        ensures rest { IsAtRest self.new.stream }
    {
        self.stream.put_back(&self.mark, taken);
    }
}
