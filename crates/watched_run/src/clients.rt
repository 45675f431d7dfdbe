//! The connections of a run, as its lines show them.

use crate::near_notes::NearNotes;
use client_words::{Spoken, read_spoken};
use grid_base::{Bytes, CallId, MemberId, Memory};
use message_frames::MessageReader;
use std::alloc::Global;
use std::collections::{HashMap, VecDeque};

/// How many connections a script can open.
const CONNECTIONS: usize = 64;

/// A client's message that is complete, and the member that it is for.
#[derive(Drop)]
pub(crate) struct ClientMessage {
    pub(crate) id: CallId,
    pub(crate) member: MemberId,
    pub(crate) spoken: Spoken,
}

/// A connection that was opened.
#[derive(Drop)]
pub(crate) struct Client {
    conn: u32,
    member: MemberId,
    pub(crate) closed: bool,
    /// Whether a byte has arrived.
    pub(crate) has_spoken: bool,
    /// The near client on it, if it has one.
    pub(crate) near: Option<NearNotes>,
    reader: MessageReader,
    /// How many messages were complete.
    count: u32,
    /// The correlation that a `say` line gives by itself.
    next: i64,
    /// The messages that weren't answered, by their correlations.
    waiting: HashMap<i64, VecDeque<u32>>,
}

impl Client {
    fn new(alloc: Global, conn: u32, member: MemberId) -> Self {
        Client {
            conn,
            member,
            closed: false,
            has_spoken: false,
            near: None,
            reader: MessageReader::new(alloc, true),
            count: 0,
            next: 0,
            waiting: HashMap::new(alloc),
        }
    }

    /// A message waits for its answer.
    fn await_answer(&mut self, alloc: Global, correlation: i64, number: u32) -> Result<(), Memory> {
        if let Some(numbers) = self.waiting.get_mut(&correlation) {
            return Ok(numbers.push_back(number)?);
        }
        let mut numbers = VecDeque::new(alloc);
        numbers.push_back(number)?;
        self.waiting.insert(correlation, numbers)?;
        Ok(())
    }

    /// Counts a message, which waits for its answer.
    fn count_message(&mut self, alloc: Global, spoken: Spoken) -> Result<ClientMessage, Memory> {
        let (conn, number) = (self.conn, self.count);
        self.await_answer(alloc, spoken.correlation, number)?;
        self.count = number.saturating_add(1);
        Ok(ClientMessage {
            id: CallId { conn, number },
            member: self.member,
            spoken,
        })
    }

    /// Takes bytes: the messages that they complete.
    fn feed(&mut self, alloc: Global, bytes: &[u8]) -> Result<Vec<ClientMessage>, Memory> {
        self.has_spoken = true;
        let heard = self.reader.feed(alloc, bytes)?;
        let mut messages = Vec::new(alloc);
        for message in heard.messages.as_slice() {
            let spoken = read_spoken(alloc, message, &mut self.next)?;
            messages.push(self.count_message(alloc, spoken)?)?;
        }
        Ok(messages)
    }

    /// The first message of this correlation that wasn't answered, which is answered now.
    fn answer(&mut self, correlation: i64) -> Option<u32> {
        let numbers = self.waiting.get_mut(&correlation)?;
        let number = numbers.pop_front();
        if numbers.is_empty() {
            self.waiting.remove(&correlation);
        }
        number
    }
}

/// The connections by their numbers.
#[derive(Drop)]
pub(crate) struct Clients {
    slots: Vec<Option<Client>>,
}

impl Clients {
    /// None is open.
    pub(crate) fn new(alloc: Global) -> Result<Self, Memory> {
        let mut slots = Vec::with_capacity(alloc, CONNECTIONS)?;
        for _ in 0..CONNECTIONS {
            slots.push(None)?;
        }
        Ok(Clients { slots })
    }

    /// The connection of that number, if it was opened.
    pub(crate) fn get(&self, conn: u32) -> Option<&Client> {
        self.slots.get(conn as usize)?.as_ref()
    }

    /// The same, to be changed.
    fn get_mut(&mut self, conn: u32) -> Option<&mut Client> {
        self.slots.get_mut(conn as usize)?.as_mut()
    }

    /// A connection to a member was opened.
    pub(crate) fn open(&mut self, alloc: Global, conn: u32, member: MemberId) {
        if let Some(slot) = self.slots.get_mut(conn as usize) {
            *slot = Some(Client::new(alloc, conn, member));
        }
    }

    /// A connection closed.
    pub(crate) fn close(&mut self, conn: u32) {
        if let Some(client) = self.get_mut(conn) {
            client.closed = true;
        }
    }

    /// Takes bytes of a connection: the messages that they complete.
    pub(crate) fn feed(
        &mut self,
        alloc: Global,
        conn: u32,
        bytes: &[u8],
    ) -> Result<Vec<ClientMessage>, Memory> {
        match self.get_mut(conn) {
            Some(client) => client.feed(alloc, bytes),
            None => Ok(Vec::new(alloc)),
        }
    }

    /// The first message of a connection with this correlation that wasn't answered, which is answered now.
    pub(crate) fn answer(&mut self, conn: u32, correlation: i64) -> Option<u32> {
        self.get_mut(conn)?.answer(correlation)
    }

    /// A near client begins to keep entries of a map.
    pub(crate) fn begin_near(&mut self, alloc: Global, conn: u32, map: Bytes) {
        if let Some(client) = self.get_mut(conn) {
            client.near = Some(NearNotes::new(alloc, map));
        }
    }

    /// The near client of a connection, if it has one.
    fn near_mut(&mut self, conn: u32) -> Option<&mut NearNotes> {
        self.get_mut(conn)?.near.as_mut()
    }

    /// The get of a key that the near client of a connection sends now.
    pub(crate) fn ask(
        &mut self,
        alloc: Global,
        conn: u32,
        key: &Bytes,
    ) -> Result<Option<Bytes>, Memory> {
        let Some(client) = self.get_mut(conn) else {
            return Ok(None);
        };
        let number = client.count;
        match &mut client.near {
            Some(near) => Ok(Some(near.ask(alloc, number, key)?)),
            None => Ok(None),
        }
    }

    /// A message was answered, which a near client may have sent.
    pub(crate) fn note_answer(
        &mut self,
        alloc: Global,
        id: CallId,
        words: &str,
    ) -> Result<(), Memory> {
        match self.near_mut(id.conn) {
            Some(near) => near.note_answer(alloc, id, words),
            None => Ok(()),
        }
    }

    /// A connection is told something unasked, which may have a near client.
    pub(crate) fn note_event(
        &mut self,
        alloc: Global,
        conn: u32,
        words: &str,
    ) -> Result<(), Memory> {
        match self.near_mut(conn) {
            Some(near) => near.note_event(alloc, words),
            None => Ok(()),
        }
    }

    /// The next of what a near client wasn't handed, in words.
    pub(crate) fn read_near(&mut self, alloc: Global, conn: u32) -> String {
        match self.near_mut(conn) {
            Some(near) => near.read(alloc),
            None => String::new(alloc),
        }
    }
}
