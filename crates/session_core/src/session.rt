ghost use Rattle.std.specs.Prelude.{◌≡◌, ◌++◌, ℕ, List, [], true, IfOk, OnOk, OnErr};
ghost use Rattle.message_frames.specs.Messages.{messages_of, fault_of};
ghost use Rattle.session_core.specs.Items.{items_of};
ghost use Rattle.session_core.specs.Sessions.{SessionState, StandsFor, session_after};

use crate::item::Item;
use crate::items::given_by_all;
use frame_codec::Malformed;
use grid_base::{CallId, ClientKey, MemberId, Memory};
use message_frames::MessageReader;
use std::alloc::Global;
use std::marker::Model;

/// What a feed gave: an item for each message that its piece completed, in order, and the fault that closes the
/// connection if it has shown.
#[derive(Debug, Drop)]
pub struct FedSession {
    pub items: Vec<Item>,
    pub closed: Option<Malformed>,
}

/// A client's connection to a member, whose bytes come in any pieces.
#[derive(Debug, Drop)]
pub struct Session {
    conn: u32,
    member: MemberId,
    reader: MessageReader,
    /// The client, once an authentication was accepted.
    identity: Option<ClientKey>,
    /// How many messages were complete.
    count: u32,
}

impl Model for Session {
    ghost use Rattle.std.specs.Prelude.{List, ℕ, ◌≡◌};
    ghost use Rattle.session_core.specs.Sessions.{SessionState, StandsFor};

    ghost Value = { SessionState };

    ghost view = { λ s. record { conn = s.conn; member = s.member; reader = s.reader; identity = s.identity; count = s.count } };

    ghost invariant = { λ s. (text : List ℕ) × StandsFor (record { conn = s.conn; member = s.member; reader = s.reader; identity = s.identity; count = s.count }) text };
}

impl Session {
    /// A connection to a member on which nothing has arrived. Takes no memory.
    pub fn new(alloc: Global, conn: u32, member: MemberId) -> Self
        ensures { result ≡ session_after conn member [] }
    {
        Session {
            conn,
            member,
            reader: MessageReader::new(alloc, true),
            identity: None,
            count: 0,
        }
    }

    pub fn member(&self) -> MemberId
        ensures { result ≡ self.now.member }
    {
        self.member
    }

    /// The fault that closed the connection, if one did.
    pub fn closed(&self) -> Option<Malformed>
        ensures { (text : List ℕ) → StandsFor self.now text → result ≡ fault_of true text }
    {
        self.reader.fault()
    }

    /// Takes the next bytes of the connection, at the cost of their length, and gives an item for each message that
    /// they complete. Each name, key and value of a call is copied once. After the fault that closes the connection
    /// nothing further is given. Want of memory changes nothing.
    pub fn feed(&mut self, alloc: Global, piece: &[u8]) -> Result<FedSession, Memory>
        // Whatever bytes the session stood for, the piece follows them, and all that is given is what all messages give.
        ensures stands { (text : List ℕ) → StandsFor self.old text → OnOk result (self.new ≡ session_after self.old.conn self.old.member (text ++ piece.now)) }
        ensures items { (text : List ℕ) → StandsFor self.old text → IfOk result (λ fed.
            items_of self.old.conn self.old.member (messages_of true text) ++ fed.items.items ≡ items_of self.old.conn self.old.member (messages_of true (text ++ piece.now))) }
        ensures closed { (text : List ℕ) → StandsFor self.old text → IfOk result (λ fed. fed.closed ≡ fault_of true (text ++ piece.now)) }
        ensures err { OnErr result (self.new ≡ self.old) }
    {
        let first = CallId {
            conn: self.conn,
            number: self.count,
        };
        let pending = self.reader.prepare(alloc, piece)?;
        match given_by_all(alloc, self.member, first, self.identity, pending.messages()) {
            Ok(given) => {
                let fed = self.reader.commit(alloc, pending);
                self.identity = given.identity;
                self.count += fed.messages.len() as u32;
                Ok(FedSession {
                    items: given.items,
                    closed: fed.fault,
                })
            }
            Err(memory) => {
                self.reader.cancel(pending);
                Err(memory)
            }
        }
    }
}
