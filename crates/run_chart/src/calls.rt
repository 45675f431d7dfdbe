//! What clients say and are told.

use crate::chart::{Chart, OpenCall, STEP};
use crate::marks::cut;
use grid_base::{CallId, Memory};
use run_tale::Happening;
use std::alloc::Global;
use svg_picture::{Anchor, Look, Point};

/// How the words of an answer look.
fn look_of(words: &str) -> Look {
    if words.starts_with("refused") {
        Look::Bad
    } else {
        Look::Label
    }
}

impl Chart {
    /// Writes words above an arrow, beside the client's lane.
    fn words(
        &mut self,
        alloc: Global,
        look: Look,
        client: Point,
        words: &str,
    ) -> Result<(), Memory> {
        let at = Point {
            x: client.x.saturating_add(12),
            y: client.y.saturating_sub(5),
        };
        let short = cut(alloc, words)?;
        self.text(alloc, look, at, Anchor::Start, short.as_str(), words)
    }

    /// A client's message arrived.
    fn heard(&mut self, alloc: Global, line: u32, id: CallId, words: &str) -> Result<(), Memory> {
        let y = self.next(alloc, line)?;
        let Some((client, member)) = self.cast.client(id.conn) else {
            return Ok(());
        };
        let from = Point { x: client.x, y };
        let head = Point { x: member.x, y };
        self.picture.line(alloc, Look::Call, from, head)?;
        self.words(alloc, Look::Label, from, words)?;
        self.calls.insert(id, OpenCall { conn: id.conn, y })?;
        Ok(())
    }

    /// A member told a client something.
    fn told(&mut self, alloc: Global, line: u32, conn: u32, words: &str) -> Result<(), Memory> {
        let y = self.next(alloc, line)?;
        let Some((client, member)) = self.cast.client(conn) else {
            return Ok(());
        };
        let from = Point { x: member.x, y };
        let head = Point { x: client.x, y };
        self.picture.line(alloc, Look::Answer, from, head)?;
        let short = words.strip_prefix("answered: ").unwrap_or(words);
        self.words(alloc, look_of(words), head, short)
    }

    /// A member answered a client's message: its bar ends.
    fn answered(
        &mut self,
        alloc: Global,
        line: u32,
        id: CallId,
        words: &str,
    ) -> Result<(), Memory> {
        self.told(alloc, line, id.conn, words)?;
        if let (Some(call), Some((client, _))) = (
            self.calls.remove(&id),
            self.cast.client(id.conn),
        ) {
            let top = Point {
                x: client.x,
                y: call.y,
            };
            self.picture.bar(alloc, Look::Bar, top, self.y)?;
        }
        Ok(())
    }

    /// A connection was opened or closed, or its near client did or heard something.
    fn draw_connection(
        &mut self,
        alloc: Global,
        line: u32,
        happening: &Happening,
    ) -> Result<(), Memory> {
        match happening {
            Happening::Opened { conn, member } => {
                let Some((lane, _)) = self.cast.client(*conn) else {
                    return Ok(());
                };
                let text = format!(in alloc; "opens to member {member}")?;
                self.note(alloc, line, Look::Note, lane, text.as_str())
            }
            Happening::Closed { conn, words, .. } => {
                let Some((lane, _)) = self.cast.client(*conn) else {
                    return Ok(());
                };
                let text = format!(in alloc; "closes: {words}")?;
                self.note(alloc, line, Look::Bad, lane, text.as_str())?;
                self.leave(lane)
            }
            Happening::Near { conn, words } => match self.cast.client(*conn) {
                Some((lane, _)) => self.note(alloc, line, Look::Note, lane, words.as_str()),
                None => Ok(()),
            },
            _ => Ok(()),
        }
    }

    /// Draws what became of a call that waits, if that is what happened.
    fn draw_waiter(
        &mut self,
        alloc: Global,
        line: u32,
        happening: &Happening,
    ) -> Result<(), Memory> {
        match happening {
            Happening::Waits { member, .. } => {
                let lane = self.cast.end(*member);
                self.mark(alloc, Look::Note, lane, "waits")
            }
            Happening::Held {
                conn,
                number,
                member,
            } => {
                let text = format!(in alloc; "holds message {number} of connection {conn}")?;
                let lane = self.cast.end(*member);
                self.note(alloc, line, Look::Note, lane, text.as_str())
            }
            Happening::Left { conn, number } => {
                let Some((lane, _)) = self.cast.client(*conn) else {
                    return Ok(());
                };
                let text = format!(in alloc; "message {number} leaves without an answer")?;
                self.note(alloc, line, Look::Bad, lane, text.as_str())
            }
            happening => self.draw_connection(alloc, line, happening),
        }
    }

    /// Draws what happened on a connection, if that is what happened.
    pub(crate) fn draw_client(
        &mut self,
        alloc: Global,
        line: u32,
        happening: &Happening,
    ) -> Result<(), Memory> {
        match happening {
            Happening::Heard {
                conn,
                number,
                saying,
            } => {
                let id = CallId {
                    conn: *conn,
                    number: *number,
                };
                self.heard(alloc, line, id, saying.words.as_str())
            }
            Happening::Answered {
                conn,
                number,
                words,
            } => {
                let id = CallId {
                    conn: *conn,
                    number: *number,
                };
                self.answered(alloc, line, id, words.as_str())
            }
            Happening::Event { conn, words } => self.told(alloc, line, *conn, words.as_str()),
            happening => self.draw_waiter(alloc, line, happening),
        }
    }

    /// Draws the calls that weren't answered: their bars stay open.
    pub(crate) fn draw_open_calls(&mut self, alloc: Global) -> Result<(), Memory> {
        let foot = self.y.saturating_add(STEP);
        for call in self.calls.values() {
            if let Some((client, _)) = self.cast.client(call.conn) {
                let top = Point {
                    x: client.x,
                    y: call.y,
                };
                self.picture.bar(alloc, Look::Open, top, foot)?;
            }
        }
        Ok(())
    }
}
