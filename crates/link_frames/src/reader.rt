ghost use Rattle.std.specs.Prelude.{◌≡◌, ℕ, ◌+◌, ◌≤◌, List, [], ◌++◌, length, drop, None, IfOk, OnOk, OnErr};
ghost use Rattle.link_frames.specs.Readers.{StandsFor, parts_of, fault_of, after_feed};
ghost use Rattle.link_frames.specs.Reading.{reading};
ghost use Rattle.link_frames.specs.declared.parts.Stage.{Stage as StageOf};
ghost use Rattle.link_frames.specs.Feeding.{IsOn, IsDone, HasRead, least_taken};

use crate::fault::LinkFault;
use crate::fronts::{Front, read_front};
use crate::parts::{LinkPart, Stage};
use grid_base::Memory;
use std::alloc::Global;
use std::marker::Model;

/// What a feed gave: the parts that its piece completed, and the fault of the stream if it has shown.
#[derive(Debug, Drop)]
pub struct FedParts {
    pub parts: Vec<LinkPart>,
    pub fault: Option<LinkFault>,
}

/// A reader of what comes over a link, in any pieces. It keeps the bytes of the part in progress, a batch's at most.
#[derive(Debug, Drop)]
pub struct LinkReader {
    stage: Stage,
    fault: Option<LinkFault>,
    pending: Vec<u8>,
}

impl Model for LinkReader {
    ghost use Rattle.link_frames.specs.Readers.{InProgress};

    ghost Value = { InProgress };

    ghost view = { λ r. record { stage = r.stage; fault = r.fault; bytes = r.pending.items } };
}

/// What has been read of some bytes so far.
#[derive(Drop)]
struct Read {
    parts: Vec<LinkPart>,
    stage: Stage,
    fault: Option<LinkFault>,
    /// How many of the bytes the parts have.
    length: usize,
}

impl Read {
    /// Takes the next part of the bytes, and answers whether there was one. Want of memory may come after it.
    fn take_part(&mut self, alloc: Global, bytes: &[u8]) -> Result<bool, Memory>
        requires within { self.old.length ≤ length bytes.now }
        requires sound { self.old.fault ≡ None }
        ensures reads { IfOk result (λ more. (stage : StageOf) → IsOn stage bytes.now self.old → HasRead more stage bytes.now self.new) }
        ensures grows { IfOk result (λ more. self.old.length + least_taken more ≤ self.new.length) }
    {
        match read_front(alloc, self.stage, &bytes[self.length..])? {
            Front::Partial => Ok(false),
            Front::Wrong(fault) => {
                self.fault = Some(fault);
                Ok(false)
            }
            Front::Whole { part, length } => {
                self.parts.push(part)?;
                self.stage = self.stage.next();
                self.length += length;
                Ok(true)
            }
        }
    }
}

/// All parts that the bytes begin with, the first of them at that stage.
fn read_parts(alloc: Global, stage: Stage, bytes: &[u8]) -> Result<Read, Memory>
    ensures { IfOk result (λ read. IsDone stage bytes.now read) }
{
    let mut read = Read {
        parts: Vec::new(alloc),
        stage,
        fault: None,
        length: 0,
    };
    let mut more = true;
    while more {
        more = read.take_part(alloc, bytes)?;
    }
    Ok(read)
}

impl LinkReader {
    /// A reader to whom nothing has come. Takes no memory.
    pub fn new(alloc: Global) -> Self
        ensures { StandsFor result [] }
    {
        LinkReader {
            stage: Stage::Hello,
            fault: None,
            pending: Vec::new(alloc),
        }
    }

    /// The fault of the stream, if it has shown.
    pub fn fault(&self) -> Option<LinkFault>
        ensures { result ≡ self.now.fault }
    {
        self.fault
    }

    /// Takes the next piece of the stream, and gives the parts that it completes. After the fault of the stream each feed
    /// gives no part and that fault. Want of memory changes nothing.
    ///
    /// Costs the length of the piece and of the bytes that the parts carry, and once more that of the part in progress.
    pub fn feed(&mut self, alloc: Global, piece: &[u8]) -> Result<FedParts, Memory>
        // Whatever bytes the reader stood for, the piece follows them, and all that is given is what is read of all bytes.
        ensures stands { OnOk result ((text : List ℕ) → StandsFor self.old text → StandsFor self.new (text ++ piece.now)) }
        ensures parts { IfOk result (λ fed. (text : List ℕ) → StandsFor self.old text → parts_of text ++ fed.parts.items ≡ parts_of (text ++ piece.now)) }
        ensures fault { IfOk result (λ fed. (text : List ℕ) → StandsFor self.old text → fed.fault ≡ fault_of (text ++ piece.now)) }
        ensures err { OnErr result (self.new ≡ self.old) }
    {
        if self.fault.is_some() {
            return Ok(FedParts {
                parts: Vec::new(alloc),
                fault: self.fault,
            });
        }
        self.read_on(alloc, piece)
    }

    /// Takes the next piece of a stream that has shown no fault.
    fn read_on(&mut self, alloc: Global, piece: &[u8]) -> Result<FedParts, Memory>
        requires { self.old.fault ≡ None }
        ensures reader { OnOk result (self.new ≡ after_feed (reading self.old.stage (self.old.bytes ++ piece.now))) }
        ensures parts { IfOk result (λ fed. fed.parts.items ≡ (reading self.old.stage (self.old.bytes ++ piece.now)).parts) }
        ensures fault { IfOk result (λ fed. fed.fault ≡ (reading self.old.stage (self.old.bytes ++ piece.now)).fault) }
        ensures err { OnErr result (self.new ≡ self.old) }
    {
        let before = self.pending.len();
        self.pending.extend_from_slice(piece)?;
        match read_parts(alloc, self.stage, self.pending.as_slice()) {
            Err(memory) => {
                self.pending.truncate(before);
                Err(memory)
            }
            Ok(read) => Ok(self.settle(read)),
        }
    }

    /// Keeps what is left of the bytes in progress behind what was read of them: nothing after a fault.
    fn settle(&mut self, read: Read) -> FedParts
        requires { read.length ≤ length self.old.bytes }
        ensures reader { self.new ≡ after_feed (record { parts = read.parts.items; fault = read.fault; stage = read.stage; rest = drop read.length self.old.bytes }) }
        ensures parts { result.parts.items ≡ read.parts.items }
        ensures fault { result.fault ≡ read.fault }
    {
        self.stage = read.stage;
        self.fault = read.fault;
        if read.fault.is_some() {
            self.pending.clear();
        } else {
            remove_front(&mut self.pending, read.length);
        }
        FedParts {
            parts: read.parts,
            fault: read.fault,
        }
    }
}

/// Lets go of the first bytes, and moves the others to the front.
fn remove_front(bytes: &mut Vec<u8>, count: usize)
    requires { count ≤ length bytes.old.items }
    ensures { bytes.new.items ≡ drop count bytes.old.items }
{
    let left = bytes.len() - count;
    bytes.copy_within(count.., 0);
    bytes.truncate(left);
}
