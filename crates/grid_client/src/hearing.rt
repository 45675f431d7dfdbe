//! What the client makes of what it hears.

ghost use Rattle.std.specs.Prelude.{◌≡◌, ◌++◌, ◌∷◌, [], List, ℕ, is_some, option_map, Some, IfOk, IfErr, OnOk, if◌then◌else◌};
ghost use Rattle.std.specs.Result.{result_ok};
ghost use Rattle.event_codecs.specs.Events.{event_of};
ghost use Rattle.grid_client.specs.Nears.{invalidated, cleared};
ghost use Rattle.grid_client.specs.Messages.{code_of, value_of};
ghost use Rattle.grid_client.specs.States.{IsAttached};
ghost use Rattle.grid_client.specs.Hearing.{HasTold, near_answered, filled_by, answer_told, told_by_answer, is_near_map, told_by_invalidation, told_by_row, told_by_rows, told_by_event, told_otherwise, told_by_message, told_by_messages, clearing, cleared_by, heard_filled, heard_answer, HasHeard, HasFed, HasAnswered};

use crate::calls::settle;
use crate::client::GridClient;
use crate::connections::{read, welcome};
use crate::heard::{ClientRefused, FedClient, Heard};
use crate::messages::{Head, accepted_of, bytes_of, code_of, value_of};
use crate::near::{NearMap, value_copied};
use crate::rows::{know, version_in};
use event_codecs::{ClientEvent, SeenMembers, SeenRow, read_event};
use grid_base::{Bytes, CallRefused, Memory};
use message_frames::Message;
use near_cache::Filled;
use std::alloc::{AllocError, Global};

/// Closes the look-up that an answer is to, if it is to one: with the value that the answer brings, unless it is an error.
fn answer_near(
    near: &mut Option<NearMap>,
    alloc: Global,
    number: u64,
    code: Option<i32>,
    message: &Message,
) -> Result<Option<Filled>, Memory>
    ensures near { OnOk result (near.new ≡ option_map (near_answered number code (value_of message.now)) near.old) }
    ensures filled { IfOk result (λ filled. filled ≡ filled_by number code (value_of message.now) near.old) }
{
    let Some(near) = near else {
        return Ok(None);
    };
    if code.is_none()
        && let Some(value) = value_of(message)
    {
        let value = value_copied(alloc, value)?;
        return near.fill(number, value);
    }
    near.give_up(number);
    Ok(None)
}

/// What became of a look-up's value.
fn heard_filled(filled: Filled) -> Heard
    ensures { result ≡ heard_filled filled }
{
    match filled {
        Filled::Kept => Heard::Kept,
        Filled::Overtaken { version, number } => Heard::Overtaken { version, number },
    }
}

/// What an answer that is no error comes to.
fn heard_answer(
    alloc: Global,
    correlation: i64,
    message: &Message,
    filled: Option<Filled>,
) -> Result<Heard, Memory>
    ensures { IfOk result (λ heard. heard ≡ heard_answer correlation message.now filled) }
{
    match filled {
        Some(filled) => Ok(heard_filled(filled)),
        None => Ok(Heard::Answered {
            correlation,
            bytes: bytes_of(alloc, message)?,
        }),
    }
}

/// What an answer comes to.
fn answer_told(
    alloc: Global,
    correlation: i64,
    code: Option<i32>,
    filled: Option<Filled>,
    message: &Message,
) -> Result<Heard, Memory>
    ensures { IfOk result (λ heard. heard ≡ answer_told correlation code filled message.now) }
{
    match code {
        Some(code) => Ok(Heard::Refused { correlation, code }),
        None => heard_answer(alloc, correlation, message, filled),
    }
}

/// Drops what is kept for a key, where it is of the near map, and says whether it is.
fn invalidate(
    near: &mut Option<NearMap>,
    name: &Bytes,
    key: &Bytes,
    version: u32,
    number: u32,
) -> bool
    ensures near { near.new ≡ (if is_near_map name.now near.old then option_map (invalidated key.now version number) near.old else near.old) }
    ensures is_it { result ≡ is_near_map name.now near.old }
{
    let Some(near) = near else {
        return false;
    };
    if near.name() != name {
        return false;
    }
    near.invalidate(key, version, number);
    true
}

/// Drops what is kept for the keys of a row's partition, where there is a near cache, and says so.
fn clear(near: &mut Option<NearMap>, row: &SeenRow, heard: &mut Vec<Heard>) -> Result<(), Memory>
    ensures near { OnOk result (near.new ≡ option_map (cleared row.now.partition row.now.version) near.old) }
    ensures heard { OnOk result (heard.new.items ≡ heard.old.items ++ cleared_by row.now near.old) }
{
    let Some(near) = near else {
        return Ok(());
    };
    near.clear(row.partition, row.version)?;
    heard.push(Heard::Cleared(row.partition))?;
    Ok(())
}

/// A copy of a row.
fn row_copied(alloc: Global, row: &SeenRow) -> Result<SeenRow, Memory>
    ensures { IfOk result (λ copy. copy ≡ row.now) }
{
    Ok(SeenRow {
        partition: row.partition,
        version: row.version,
        lost: row.lost,
        members: SeenMembers::copied_from(alloc, row.members.as_slice())?,
    })
}

impl GridClient {
    /// The answer to the call of a number, which waits no more.
    fn take_answer(
        &mut self,
        correlation: i64,
        number: u64,
        code: Option<i32>,
        message: &Message,
        heard: &mut Vec<Heard>,
    ) -> Result<(), Memory>
        ensures { OnOk result (HasAnswered correlation number code message.now self.old self.new heard.old.items heard.new.items) }
    {
        let filled = answer_near(&mut self.near, self.alloc, number, code, message)?;
        heard.push(answer_told(self.alloc, correlation, code, filled, message)?)?;
        Ok(())
    }

    /// A row that a member knows.
    fn take_row(&mut self, row: &SeenRow, heard: &mut Vec<Heard>) -> Result<(), Memory>
        ensures { OnOk result (HasTold (told_by_row row.now self.old) self.new heard.old.items heard.new.items) }
    {
        if let Some(version) = version_in(row.partition, &self.rows) {
            if row.version <= version {
                return Ok(());
            }
            clear(&mut self.near, row, heard)?;
        }
        know(&mut self.rows, row_copied(self.alloc, row)?)
    }

    /// The rows of an event, in its order.
    fn take_rows(&mut self, rows: &[SeenRow], heard: &mut Vec<Heard>) -> Result<(), Memory>
        ensures { OnOk result (HasTold (told_by_rows rows.now self.old) self.new heard.old.items heard.new.items) }
    {
        for row in rows {
            self.take_row(row, heard)?;
        }
        Ok(())
    }

    /// An invalidation.
    fn take_invalidation(
        &mut self,
        name: &Bytes,
        key: &Bytes,
        version: u32,
        number: u32,
        heard: &mut Vec<Heard>,
    ) -> Result<(), Memory>
        ensures { OnOk result (HasTold (told_by_invalidation name.now key.now version number self.old) self.new heard.old.items heard.new.items) }
    {
        if invalidate(&mut self.near, name, key, version, number) {
            heard.push(Heard::Invalidated)?;
        }
        Ok(())
    }

    /// An event.
    fn take_event(&mut self, event: &ClientEvent, heard: &mut Vec<Heard>) -> Result<(), Memory>
        ensures { OnOk result (HasTold (told_by_event (Some event.now) self.old) self.new heard.old.items heard.new.items) }
    {
        match event {
            ClientEvent::Invalidation {
                version,
                number,
                name,
                key,
                ..
            } => self.take_invalidation(name, key, *version, *number, heard),
            ClientEvent::Rows { rows, .. } => self.take_rows(rows.as_slice(), heard),
            ClientEvent::Entry { .. } => Ok(()),
        }
    }

    /// A message that answers no call.
    fn take_other(
        &mut self,
        conn: u32,
        head: Head,
        message: &Message,
        heard: &mut Vec<Heard>,
    ) -> Result<(), Memory>
        ensures { OnOk result (HasTold (told_otherwise conn head message.now self.old) self.new heard.old.items heard.new.items) }
    {
        if head.is_welcome() {
            if let Some(uuid) = accepted_of(message) {
                welcome(&mut self.connections, conn, uuid);
            }
            return Ok(());
        }
        match read_event(self.alloc, message) {
            Ok(event) => self.take_event(&event, heard),
            Err(CallRefused::Memory) => Err(AllocError),
            Err(_) => Ok(()),
        }
    }

    /// A message.
    fn take_message(
        &mut self,
        conn: u32,
        message: &Message,
        heard: &mut Vec<Heard>,
    ) -> Result<(), Memory>
        ensures { OnOk result (HasTold (told_by_message conn message.now self.old) self.new heard.old.items heard.new.items) }
    {
        let Some(head) = Head::of(message) else {
            return Ok(());
        };
        let code = code_of(head.kind, message);
        match settle(&mut self.calls, conn, head, code) {
            Some(number) => self.take_answer(head.correlation, number, code, message, heard),
            None => self.take_other(conn, head, message, heard),
        }
    }

    /// The messages of a connection, in order.
    fn take_messages(&mut self, conn: u32, messages: &[Message]) -> Result<Vec<Heard>, Memory>
        ensures { IfOk result (λ heard. HasTold (told_by_messages conn messages.now self.old) self.new [] heard.items) }
    {
        let mut heard = Vec::new(self.alloc);
        for message in messages {
            self.take_message(conn, message, &mut heard)?;
        }
        Ok(heard)
    }

    /// Takes the next bytes of a connection, whatever they are, and tells what the messages come to that they complete, in
    /// order, and the first fault of the connection if it has shown. After it nothing more is heard there. Refused for want of
    /// memory alone: the client is then to be given up.
    pub fn feed(&mut self, conn: u32, piece: &[u8]) -> Result<FedClient, ClientRefused>
        requires { IsAttached conn self.old }
        ensures ok { (text : List ℕ) → HasHeard conn text self.old → IfOk result (λ fed. HasFed conn text piece.now self.old self.new fed) }
        ensures err { IfErr result (λ why. why ≡ ClientRefused.Memory) }
    {
        let fed = read(&mut self.connections, self.alloc, conn, piece)?;
        let heard = self.take_messages(conn, &fed.messages)?;
        Ok(FedClient {
            heard,
            fault: fed.fault,
        })
    }
}
