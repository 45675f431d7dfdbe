ghost use Rattle.std.specs.Prelude.{◌≡◌, ℕ, Bool, List, [], ◌++◌, IfOk, OnOk, OnErr};
ghost use Rattle.message_frames.specs.Messages.{messages_of, fault_of};
ghost use Rattle.message_frames.specs.MessageReaders.{StandsFor, shown_fault};
ghost use Rattle.message_frames.specs.Streams.{heard_by, IsAtRest};

use crate::assembler::Taken;
use crate::message::Message;
use crate::stream::MarkedStream;
use frame_codec::Malformed;
use grid_base::Memory;
use std::alloc::Global;
use std::marker::Model;

/// What a feed gave: the messages that its piece completed, and the first fault of the stream if it has shown.
#[derive(Debug, Drop)]
pub struct FedMessages {
    pub messages: Vec<Message>,
    pub fault: Option<Malformed>,
}

/// A reader of messages, whose stream comes in any pieces.
#[derive(Debug, Drop)]
pub struct MessageReader {
    /// Whether the stream begins with `CP2`.
    prefix: bool,
    /// None where nothing has come, also while a feed has it. It lies on the heap, so that a feed takes it by a pointer.
    heard: Option<Box<MarkedStream>>,
}

impl Model for MessageReader {
    ghost use Rattle.message_frames.specs.MessageReaders.{Hearing};
    ghost use Rattle.message_frames.specs.Streams.{heard_in, RestsIn};

    ghost Value = { Hearing };

    ghost view = { λ r. heard_in r.prefix r.heard };

    ghost invariant = { λ r. RestsIn r.prefix r.heard };
}

/// A feed that isn't settled: the state of its reader, and the way back to the one before it. `MessageReader::commit`
/// takes it, or `MessageReader::cancel`.
#[derive(Drop)]
pub struct PendingFeed {
    heard: Box<MarkedStream>,
    taken: Taken,
}

impl Model for PendingFeed {
    ghost use Rattle.message_frames.specs.Streams.{Pending, pending, IsPending};

    ghost Value = { Pending };

    ghost view = { λ f. pending f.heard.value.stream f.heard.value.mark f.taken };

    ghost invariant = { λ f. IsPending f.heard.value.stream f.heard.value.mark f.taken };
}

impl PendingFeed {
    /// The messages that the piece completed.
    pub fn messages(&self) -> &[Message]
        ensures { result.now ≡ self.now.messages }
    {
        self.taken.messages.as_slice()
    }

    /// The first fault of the stream, if it has shown with this piece or before.
    pub fn fault(&self) -> Option<Malformed>
        ensures { result ≡ shown_fault self.now.after }
    {
        self.heard.stream.fault
    }
}

impl MessageReader {
    /// A reader of a stream that begins with `CP2`, or of one without a prefix. Takes no memory.
    pub fn new(_alloc: Global, prefix: bool) -> Self
        ensures { StandsFor result prefix [] }
    {
        MessageReader {
            prefix,
            heard: None,
        }
    }

    /// The first fault of the stream, if it has shown.
    pub fn fault(&self) -> Option<Malformed>
        ensures shown { result ≡ shown_fault self.now }
        ensures first { (prefix : Bool) (text : List ℕ) → StandsFor self.now prefix text → result ≡ fault_of prefix text }
    {
        match &self.heard {
            Some(heard) => heard.stream.fault,
            None => None,
        }
    }

    /// Takes the next piece of the stream, at the cost of its length, and gives the messages that it completes.
    /// Each byte is copied once, and each frame moved a few times, however the stream is cut.
    /// After the stream's first fault each feed gives no message and that fault. Want of memory changes nothing.
    pub fn feed(&mut self, alloc: Global, piece: &[u8]) -> Result<FedMessages, Memory>
        // Whatever bytes the reader stood for, the piece follows them, and all that is given is what is heard of all bytes.
        ensures stands { OnOk result ((prefix : Bool) (text : List ℕ) → StandsFor self.old prefix text → StandsFor self.new prefix (text ++ piece.now)) }
        ensures messages { IfOk result (λ fed. (prefix : Bool) (text : List ℕ) → StandsFor self.old prefix text →
            messages_of prefix text ++ fed.messages.items ≡ messages_of prefix (text ++ piece.now)) }
        ensures fault { IfOk result (λ fed. (prefix : Bool) (text : List ℕ) → StandsFor self.old prefix text →
            fed.fault ≡ fault_of prefix (text ++ piece.now)) }
        ensures err { OnErr result (self.new ≡ self.old) }
    {
        let pending = self.prepare(alloc, piece)?;
        Ok(self.commit(alloc, pending))
    }

    /// Takes the next piece as `feed` does, but lets the caller see what it gives before the reader stands there: `commit`
    /// settles the feed, `cancel` takes it back. All that needs memory is done here. Want of memory changes nothing.
    /// Until one of the two the reader lends its state to the feed, and stands where a new one of its prefix does. A piece
    /// that completes no frame costs its bytes and a constant; the first piece also takes memory for the state, of a constant
    /// size.
    pub fn prepare(&mut self, alloc: Global, piece: &[u8]) -> Result<PendingFeed, Memory>
        ensures before { IfOk result (λ feed. feed.before ≡ self.old) }
        ensures after { IfOk result (λ feed. (prefix : Bool) (text : List ℕ) → StandsFor self.old prefix text → StandsFor feed.after prefix (text ++ piece.now)) }
        ensures messages { IfOk result (λ feed. (prefix : Bool) (text : List ℕ) → StandsFor self.old prefix text →
            messages_of prefix text ++ feed.messages ≡ messages_of prefix (text ++ piece.now)) }
        ensures fault { IfOk result (λ feed. (prefix : Bool) (text : List ℕ) → StandsFor self.old prefix text →
            shown_fault feed.after ≡ fault_of prefix (text ++ piece.now)) }
        ensures lent { OnOk result ((prefix : Bool) (text : List ℕ) → StandsFor self.old prefix text → StandsFor self.new prefix []) }
        ensures err { OnErr result (self.new ≡ self.old) }
    {
        let mut heard = self.take_heard(alloc)?;
        match heard.take_piece(alloc, piece) {
            Ok(taken) => Ok(PendingFeed { heard, taken }),
            Err(memory) => {
                self.stand_with(heard);
                Err(memory)
            }
        }
    }

    /// What the reader has heard. It then stands where a new one of its prefix does.
    fn take_heard(&mut self, alloc: Global) -> Result<Box<MarkedStream>, Memory>
        ensures heard { IfOk result (λ heard. heard_by heard.value.stream ≡ self.old) }
        ensures rest { IfOk result (λ heard. IsAtRest heard.value.stream) }
        ensures lent { OnOk result ((prefix : Bool) (text : List ℕ) → StandsFor self.old prefix text → StandsFor self.new prefix []) }
        ensures err { OnErr result (self.new ≡ self.old) }
    {
        match self.heard.take() {
            Some(heard) => Ok(heard),
            None => Ok(Box::new(alloc, MarkedStream::new(alloc, self.prefix))?),
        }
    }

    /// The reader stands where this stream does, whose prefix is then its own. Takes no memory.
    fn stand_with(&mut self, heard: Box<MarkedStream>)
        requires { IsAtRest heard.value.stream }
        ensures { self.new ≡ heard_by heard.value.stream }
    {
        self.prefix = heard.stream.prefix;
        self.heard = Some(heard);
    }

    /// Settles a feed: the reader stands after its piece. Takes no memory, and costs no more than a few moves.
    pub fn commit(&mut self, alloc: Global, feed: PendingFeed) -> FedMessages
        ensures after { self.new ≡ feed.after }
        ensures messages { result.messages.items ≡ feed.messages }
        ensures fault { result.fault ≡ shown_fault feed.after }
    {
        let PendingFeed { mut heard, taken } = feed;
        heard.keep(alloc, taken.kept);
        let fault = heard.stream.fault;
        self.stand_with(heard);
        FedMessages {
            messages: taken.messages,
            fault,
        }
    }

    /// Takes a feed back: the reader stands where it stood before its piece. Takes no memory, and costs at most what the
    /// feed cost.
    pub fn cancel(&mut self, feed: PendingFeed)
        ensures { self.new ≡ feed.before }
    {
        let PendingFeed { mut heard, taken } = feed;
        heard.put_back(taken);
        self.stand_with(heard);
    }
}
