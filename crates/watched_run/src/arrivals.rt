//! Bytes that arrive on connections, and what is appended to these.

use crate::clients::ClientMessage;
use crate::notes::Notes;
use crate::printed::{Appended, all_appended, outcome_of};
use crate::waiters::WaitsAt;
use grid_base::{CallId, Memory};
use run_tale::{Happening, Tale};
use run_words::{Output, fault_words};
use running_grid::RunningGrid;
use std::alloc::Global;

/// An answer of a client's message, and whether that is a call that was executed.
#[derive(Clone, Copy)]
struct Answered {
    id: CallId,
    executed: bool,
}

/// What a line appended to connections, in order, and the answers among it.
#[derive(Drop)]
struct Appendings {
    happenings: Vec<Happening>,
    answers: Vec<Answered>,
}

impl Appendings {
    fn new(alloc: Global) -> Self {
        Appendings {
            happenings: Vec::new(alloc),
            answers: Vec::new(alloc),
        }
    }

    /// Adds the answer of a message.
    fn add_answer(&mut self, answered: Answered, words: String) -> Result<(), Memory> {
        let CallId { conn, number } = answered.id;
        self.answers.push(answered)?;
        self.happenings.push(Happening::Answered {
            conn,
            number,
            words,
        })?;
        Ok(())
    }

    /// The answer of a message, if it is among these.
    fn answer_of(&self, id: CallId) -> Option<Answered> {
        self.answers
            .iter()
            .find(|answered| answered.id == id)
            .copied()
    }
}

impl Notes {
    /// Why bytes came to nothing on a connection.
    fn why_unheard(&self, conn: u32) -> &'static str {
        match self.clients.get(conn) {
            None => "the connection isn't open",
            Some(client) if client.closed => "the connection has closed",
            Some(client) if client.near.is_some() => "only its near client sends on the connection",
            Some(_) => "its member has crashed",
        }
    }

    /// Adds what is appended to a connection's output.
    fn add_output(
        &mut self,
        alloc: Global,
        conn: u32,
        output: Output,
        all: &mut Appendings,
    ) -> Result<(), Memory> {
        let (correlation, executed, words) = match output {
            Output::Answer {
                correlation,
                executed,
                words,
            } => (correlation, executed, words),
            Output::Unasked { words } => {
                self.clients.note_event(alloc, conn, words.as_str())?;
                return Ok(all.happenings.push(Happening::Event { conn, words })?);
            }
        };
        match self.clients.answer(conn, correlation) {
            Some(number) => {
                let id = CallId { conn, number };
                self.waiters.remove(&id);
                self.clients.note_answer(alloc, id, words.as_str())?;
                all.add_answer(Answered { id, executed }, words)
            }
            None => Ok(all.happenings.push(Happening::Event { conn, words })?),
        }
    }

    /// What a line appended to connections.
    fn appendings(&mut self, alloc: Global, text: &str) -> Result<Appendings, Memory> {
        let mut all = Appendings::new(alloc);
        for appended in all_appended(alloc, text)? {
            match appended {
                Appended::Output { conn, output } => self.add_output(
                    alloc, conn, output, &mut all,
                )?,
                Appended::Close { conn, at, why } => {
                    self.clients.close(conn);
                    let words = fault_words(why);
                    all.happenings.push(Happening::Closed { conn, at, words })?;
                }
            }
        }
        Ok(all)
    }

    /// Tells what a line appended to connections.
    pub(crate) fn tell_appended(
        &mut self,
        alloc: Global,
        text: &str,
        told: &mut Tale,
    ) -> Result<(), Memory> {
        let all = self.appendings(alloc, text)?;
        told.push_all(all.happenings)
    }

    /// Tells a line of bytes: what arrived on its connection, or why nothing did.
    pub(crate) fn tell_arrival(
        &mut self,
        alloc: Global,
        running: &RunningGrid,
        conn: u32,
        bytes: &[u8],
        text: &str,
        told: &mut Tale,
    ) -> Result<(), Memory> {
        if outcome_of(text).word == "nothing" {
            let why = self.why_unheard(conn);
            return told.push(Happening::Nothing { why });
        }
        self.tell_bytes(alloc, running, conn, bytes, text, told)
    }

    /// Tells the messages that bytes complete which arrived on a connection, and what followed.
    pub(crate) fn tell_bytes(
        &mut self,
        alloc: Global,
        running: &RunningGrid,
        conn: u32,
        bytes: &[u8],
        text: &str,
        told: &mut Tale,
    ) -> Result<(), Memory> {
        let messages = self.clients.feed(alloc, conn, bytes)?;
        if messages.is_empty() {
            let count = bytes.len();
            told.push(Happening::Pieces { conn, count })?;
        }
        let all = self.appendings(alloc, text)?;
        for message in messages {
            let answered = all.answer_of(message.id);
            told.go_on();
            self.tell_heard(alloc, running, message, answered, told)?;
        }
        told.push_all(all.happenings)
    }

    /// Tells a message that was heard, and where it reached its partition what was sent then.
    fn tell_heard(
        &mut self,
        alloc: Global,
        running: &RunningGrid,
        message: ClientMessage,
        answered: Option<Answered>,
        told: &mut Tale,
    ) -> Result<(), Memory> {
        let ClientMessage { id, member, spoken } = message;
        let CallId { conn, number } = id;
        let (partition, waits) = (spoken.partition, spoken.waits);
        told.push(Happening::Heard {
            conn,
            number,
            saying: spoken,
        })?;
        let Some(partition) = partition else {
            return Ok(());
        };
        let at = WaitsAt { partition, member };
        if waits && answered.is_none() && !at.holds(running, id) {
            self.tell_waits(id, at, told)?;
        } else if answered.map_or(true, |answered| answered.executed) {
            told.push(Happening::Reached {
                conn,
                number,
                partition,
                member,
                held: answered.is_none(),
            })?;
        }
        self.tell_sent(alloc, running, partition, member, told)
    }
}
