//! Lines of near clients: what they keep, look up and are handed.

use crate::notes::Notes;
use crate::printed::{Outcome, bytes_in, number_in, outcome_in, outcome_of};
use client_words::{push_data, push_name, push_nullable};
use grid_base::{Bytes, Memory};
use request_codecs::write_opening;
use run_tale::{Happening, Tale};
use running_grid::RunningGrid;
use script_lang::Line;
use std::alloc::Global;

/// The number of the client of connection 0; that of connection C is C more.
const FIRST_CLIENT: u128 = 1000;

/// How many bytes a key has at least.
const SHORTEST_KEY: usize = 8;

/// Why a line came to nothing that needs a near client.
const NO_CLIENT: &str = "the connection has no near client";

/// Appends a value of a transcript, which is `-` where there is none.
fn push_value(alloc: Global, out: &mut String, printed: &str) -> Result<(), Memory> {
    let Some(digits) = printed.strip_prefix("x") else {
        return push_nullable(alloc, out, None);
    };
    let bytes = bytes_in(alloc, digits)?;
    push_nullable(alloc, out, Some(bytes.as_slice()))
}

/// What overtook a look-up, by a transcript's version and number.
fn push_overtaking(out: &mut String, rest: &str) -> Result<(), Memory> {
    match rest.split_once(' ') {
        Some((version, "0")) => write!(out, ", overtaken by row {version}"),
        Some((version, number)) => write!(out, ", overtaken by change {version}.{number}"),
        None => Ok(()),
    }
}

/// Appends what a client makes of what it was handed.
fn push_made(out: &mut String, outcome: Outcome<'_>, unread: &str) -> Result<(), Memory> {
    match outcome.word {
        "kept" => write!(out, "keeps {unread}"),
        "overtaken" => {
            write!(out, "doesn't keep {unread}")?;
            push_overtaking(out, outcome.rest)
        }
        "invalidated" => write!(out, "hears that {unread}"),
        _ => write!(out, "keeps nothing of {unread}"),
    }
}

impl Notes {
    /// Why a connection didn't become a near connection.
    fn why_not_begun(&self, conn: u32) -> &'static str {
        match self.clients.get(conn) {
            None => "the connection isn't open",
            Some(client) if client.near.is_some() => "the connection has a near client",
            Some(client) if client.closed => "the connection has closed",
            Some(client) if client.has_spoken => "bytes have come on the connection",
            Some(_) => "the name isn't UTF-8",
        }
    }

    /// Why a near client didn't look a key up.
    fn why_not_looked_up(&self, conn: u32, key: &Bytes) -> &'static str {
        match self.clients.get(conn) {
            Some(client) if client.near.is_some() => {
                if key.len() < SHORTEST_KEY {
                    "the key has fewer than eight bytes"
                } else {
                    "its member has crashed"
                }
            }
            _ => NO_CLIENT,
        }
    }

    /// Why a line of a near client came to nothing.
    fn why_no_near(&self, line: &Line) -> &'static str {
        match line {
            Line::Near { conn, .. } => self.why_not_begun(*conn),
            Line::NearGet { conn, key } => self.why_not_looked_up(*conn, key),
            _ => NO_CLIENT,
        }
    }

    /// Tells a line of a near client.
    pub(crate) fn tell_near(
        &mut self,
        alloc: Global,
        running: &RunningGrid,
        line: &Line,
        text: &str,
        told: &mut Tale,
    ) -> Result<(), Memory> {
        if outcome_of(text).word == "nothing" {
            let why = self.why_no_near(line);
            return told.push(Happening::Nothing { why });
        }
        match line {
            Line::Near {
                conn,
                name,
                capacity,
            } => self.tell_begun(alloc, running, *conn, name, *capacity, text, told),
            Line::NearGet { conn, key } => {
                self.tell_look_up(alloc, running, *conn, key, text, told)
            }
            Line::NearFeed { conn, .. } => self.tell_fed(alloc, *conn, text, told),
            _ => Ok(()),
        }
    }

    /// Tells that a near client begins, and what it sends first, where its member lives.
    fn tell_begun(
        &mut self,
        alloc: Global,
        running: &RunningGrid,
        conn: u32,
        name: &Bytes,
        capacity: u32,
        text: &str,
        told: &mut Tale,
    ) -> Result<(), Memory> {
        let mut words = String::new(alloc);
        words.push_str("begins to keep entries of ")?;
        push_name(&mut words, name.as_slice())?;
        write!(words, ", {capacity} at most")?;
        told.push(Happening::Near { conn, words })?;
        self.clients.begin_near(alloc, conn, name.copied(alloc)?);
        let (_, brought) = text.split_once('\n').unwrap_or((text, ""));
        if brought.is_empty() {
            return Ok(());
        }
        let number = FIRST_CLIENT + u128::from(conn);
        let opening = write_opening(alloc, number, Some(name))?;
        self.tell_bytes(alloc, running, conn, opening.as_slice(), text, told)
    }

    /// Tells that a near client finds a key among what it keeps, or asks for it.
    fn tell_look_up(
        &mut self,
        alloc: Global,
        running: &RunningGrid,
        conn: u32,
        key: &Bytes,
        text: &str,
        told: &mut Tale,
    ) -> Result<(), Memory> {
        let outcome = outcome_of(text);
        let mut words = String::new(alloc);
        if outcome.word == "hit" {
            words.push_str("hits ")?;
            push_data(alloc, &mut words, key.as_slice())?;
            words.push_str(" = ")?;
            push_value(alloc, &mut words, outcome.rest)?;
            return told.push(Happening::Near { conn, words });
        }
        words.push_str("misses ")?;
        push_data(alloc, &mut words, key.as_slice())?;
        told.push(Happening::Near { conn, words })?;
        match self.clients.ask(alloc, conn, key)? {
            Some(get) => self.tell_bytes(alloc, running, conn, get.as_slice(), text, told),
            None => Ok(()),
        }
    }

    /// Tells how many bytes a near client is handed, and what it makes of the messages that these complete.
    fn tell_fed(
        &mut self,
        alloc: Global,
        conn: u32,
        text: &str,
        told: &mut Tale,
    ) -> Result<(), Memory> {
        for line in text.split('\n') {
            if !line.is_empty() {
                self.tell_made(alloc, conn, outcome_in(line), told)?;
            }
        }
        Ok(())
    }

    /// Tells a line of what a near client was handed.
    fn tell_made(
        &mut self,
        alloc: Global,
        conn: u32,
        outcome: Outcome<'_>,
        told: &mut Tale,
    ) -> Result<(), Memory> {
        let rest = outcome.rest;
        let mut words = String::new(alloc);
        match outcome.word {
            "fed" => {
                let end = if number_in(rest) == 1 { "" } else { "s" };
                write!(words, "is handed {rest} byte{end}")?;
            }
            "cleared" => write!(words, "drops what it has of partition {rest}")?,
            _ => {
                let unread = self.clients.read_near(alloc, conn);
                push_made(&mut words, outcome, unread.as_str())?;
            }
        }
        told.push(Happening::Near { conn, words })
    }
}
