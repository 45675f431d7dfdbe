//! What is known of near clients, as the lines of a run show them.

use client_words::push_data;
use grid_base::{Bytes, CallId, ClientKey, GridCall, MapCall, Memory, Owner};
use murmur_partition::{key_hash, partition_of};
use request_codecs::{FIRST_CORRELATION, write_request};
use std::alloc::Global;
use std::collections::{HashMap, VecDeque};

/// Whose get it is its connection says; a near client has no threads.
const OWNER: Owner = Owner {
    client: ClientKey::OfConn(0),
    thread: 0,
};

/// With what the words of an invalidation begin, and those of an answer that isn't refused.
const INVALIDATION: &str = "event as 2: ";

const ANSWER: &str = "answered: ";

/// What is known of a near client beside its connection.
#[derive(Drop)]
pub(crate) struct NearNotes {
    map: Bytes,
    /// The correlation of its next get.
    next: i64,
    /// The keys that it asked for and that weren't answered, in words, by the numbers of its messages.
    asked: HashMap<u32, String>,
    /// What it wasn't handed yet of the answers to its gets and of the invalidations, in words and in order.
    unread: VecDeque<String>,
}

impl NearNotes {
    /// A client that begins to keep entries of a map.
    pub(crate) fn new(alloc: Global, map: Bytes) -> Self {
        NearNotes {
            map,
            next: FIRST_CORRELATION,
            asked: HashMap::new(alloc),
            unread: VecDeque::new(alloc),
        }
    }

    /// The get of a key that it has as its message of that number, as bytes.
    pub(crate) fn ask(&mut self, alloc: Global, number: u32, key: &Bytes) -> Result<Bytes, Memory> {
        let mut words = String::new(alloc);
        push_data(alloc, &mut words, key.as_slice())?;
        self.asked.insert(number, words)?;
        let correlation = self.next;
        self.next = correlation.saturating_add(1);
        let partition = match key_hash(key.as_slice()) {
            Ok(hash) => partition_of(hash),
            Err(_) => 0,
        };
        let call = GridCall::Map(MapCall::Get {
            name: self.map.copied(alloc)?,
            key: key.copied(alloc)?,
            owner: OWNER,
        });
        write_request(alloc, correlation, partition, &call)
    }

    /// A message was answered: what that says of a key is to be handed to the client.
    pub(crate) fn note_answer(
        &mut self,
        alloc: Global,
        id: CallId,
        words: &str,
    ) -> Result<(), Memory> {
        let Some(key) = self.asked.remove(&id.number) else {
            return Ok(());
        };
        let unread = match words.strip_prefix(ANSWER) {
            Some(value) => format!(in alloc; "{key} = {value}")?,
            None => format!(in alloc; "{key}: {words}")?,
        };
        Ok(self.unread.push_back(unread)?)
    }

    /// The client is told something unasked: an invalidation is to be handed to it.
    pub(crate) fn note_event(&mut self, alloc: Global, words: &str) -> Result<(), Memory> {
        let Some(said) = words.strip_prefix(INVALIDATION) else {
            return Ok(());
        };
        Ok(self.unread.push_back(String::from_str(alloc, said)?)?)
    }

    /// The next of what it wasn't handed, in words.
    pub(crate) fn read(&mut self, alloc: Global) -> String {
        self.unread.pop_front().unwrap_or(String::new(alloc))
    }
}
