ghost use Rattle.session_core.specs.Sessions.{StandsFor, session_after};
ghost use Rattle.std.specs.Prelude.{◌≡◌, ◌<◌, ◌++◌, ℕ, List, count_by, None, Some, IfOk, OnOk, OnErr, option_map, option_copied};
ghost use Rattle.replay_run.specs.Runs.{Run, connection_of, is_open};
ghost use Rattle.replay_run.specs.Grids.{HasConnections};
ghost use Rattle.replay_run.specs.Tables.{Opened, Gives, most_connections, no_connections, opened_as, opened_at, lines_of, is_marked, marked_in, answered_count, changed_at, lines_answered, heard, replied, called, answered, with_opened, with_session, with_reply, with_arrival, with_answer};

use grid_base::{CallId, MemberId, Memory};
use session_core::{FedSession, Session};
use std::alloc::Global;
use std::marker::Model;

/// How many connections a script can open.
const CONNECTIONS: usize = 64;

/// At which line a call arrived, and at which line it was answered.
#[derive(Clone, Copy, Debug, PartialEq, Eq)]
pub(crate) struct CallLines {
    pub(crate) arrived: u32,
    pub(crate) answered: Option<u32>,
}

/// A connection that was opened.
#[derive(Debug, Drop)]
pub(crate) struct Connection {
    /// Takes the bytes that arrive.
    pub(crate) session: Session,
    /// For each message, by its number, the lines of the call that it is; none where the session answered it itself.
    pub(crate) calls: Vec<Option<CallLines>>,
}

/// Hands bytes to the session of the connection, if the slot is one's. Want of memory changes nothing.
fn feed_at(
    alloc: Global,
    slot: &mut Option<Connection>,
    bytes: &[u8],
) -> Result<Option<FedSession>, Memory>
    ensures gives { (opened : Opened) (text : List ℕ) → option_map opened_as slot.old ≡ Some opened → StandsFor opened.session text
        → IfOk result (λ fed. Gives fed opened.session.conn opened.session.member text bytes.now) }
    ensures stands { (opened : Opened) (text : List ℕ) → option_map opened_as slot.old ≡ Some opened → StandsFor opened.session text
        → OnOk result (option_map opened_as slot.new ≡ Some (heard (session_after opened.session.conn opened.session.member (text ++ bytes.now)) opened)) }
    ensures err { OnErr result (option_map opened_as slot.new ≡ option_map opened_as slot.old) }
{
    match slot {
        Some(connection) => Ok(Some(connection.session.feed(alloc, bytes)?)),
        None => Ok(None),
    }
}

/// Counts a message that the session answered itself, if the slot is a connection's. Want of memory changes nothing.
fn reply_at(slot: &mut Option<Connection>) -> Result<(), Memory>
    ensures ok { OnOk result (option_map opened_as slot.new ≡ option_map replied (option_map opened_as slot.old)) }
    ensures err { OnErr result (option_map opened_as slot.new ≡ option_map opened_as slot.old) }
{
    if let Some(connection) = slot {
        connection.calls.push(None)?;
    }
    Ok(())
}

/// Counts a call that arrived at a line, if the slot is a connection's. Want of memory changes nothing.
fn arrive_at(slot: &mut Option<Connection>, line: u32) -> Result<(), Memory>
    ensures ok { OnOk result (option_map opened_as slot.new ≡ option_map (called line) (option_map opened_as slot.old)) }
    ensures err { OnErr result (option_map opened_as slot.new ≡ option_map opened_as slot.old) }
{
    if let Some(connection) = slot {
        connection.calls.push(Some(CallLines {
            arrived: line,
            answered: None,
        }))?;
    }
    Ok(())
}

/// Marks a message as answered at a line, if it is a call and was not answered before.
fn mark_call(call: &mut Option<CallLines>, line: u32)
    ensures { call.new ≡ option_map (lines_answered line) call.old }
{
    if let Some(lines) = call {
        lines.answered = lines.answered.or(Some(line));
    }
}

/// Marks the message of that number as answered at a line, if it is a call and was not answered before.
fn mark(calls: &mut Vec<Option<CallLines>>, number: u32, line: u32)
    ensures { calls.new.items ≡ changed_at calls.old.items number (option_map (lines_answered line)) }
{
    if let Some(call) = calls.get_mut(number as usize) {
        mark_call(call, line);
    }
}

/// Marks a call as answered at a line, if the slot is a connection's, the call arrived and was not answered before.
fn answer_at(slot: &mut Option<Connection>, number: u32, line: u32)
    ensures { option_map opened_as slot.new ≡ option_map (answered number line) (option_map opened_as slot.old) }
{
    if let Some(connection) = slot {
        mark(&mut connection.calls, number, line);
    }
}

/// Whether a message is a call that was answered.
fn is_marked(call: &Option<CallLines>) -> bool
    ensures { result ≡ is_marked call.now }
{
    match call {
        Some(lines) => lines.answered.is_some(),
        None => false,
    }
}

/// How many messages are calls that were answered.
fn marked_among(calls: &[Option<CallLines>]) -> usize
    ensures { result ≡ count_by is_marked calls.now }
{
    let mut marked = 0;
    for call in calls {
        if is_marked(call) {
            marked += 1;
        }
    }
    marked
}

/// How many calls of a connection were answered, if the slot is one's.
fn marked_in(slot: &Option<Connection>) -> usize
    ensures { result ≡ marked_in (option_map opened_as slot.now) }
{
    match slot {
        Some(connection) => marked_among(connection.calls.as_slice()),
        None => 0,
    }
}

/// The connections by their numbers, each found in constant time.
#[derive(Debug, Drop)]
pub(crate) struct Connections {
    slots: Vec<Option<Connection>>,
}

impl Model for Connections {
    ghost use Rattle.std.specs.Prelude.{◌≡◌, length};
    ghost use Rattle.replay_run.specs.Tables.{Table, most_connections, slots_as};

    ghost Value = { Table };

    ghost view = { λ connections. slots_as connections.slots.items };

    ghost invariant = { λ connections. length connections.slots.items ≡ most_connections };
}

impl Connections {
    /// No connection is open.
    pub(crate) fn new(alloc: Global) -> Result<Self, Memory>
        ensures { IfOk result (λ connections. connections ≡ no_connections) }
    {
        let mut slots = Vec::with_capacity(alloc, CONNECTIONS)?;
        for _ in 0..CONNECTIONS {
            slots.push(None)?;
        }
        Ok(Connections { slots })
    }

    /// The connection of that number, if it was opened.
    pub(crate) fn get(&self, conn: u32) -> Option<&Connection>
        ensures { option_map opened_as (option_copied result) ≡ opened_at self.now conn }
    {
        self.slots.get(conn as usize)?.as_ref()
    }

    /// Whether answers go to a connection: it was opened, and no fault closed it.
    pub(crate) fn is_open(&self, conn: u32) -> bool
        ensures { (r : Run) → HasConnections self.now r → result ≡ is_open (connection_of r conn) }
    {
        match self.get(conn) {
            None => false,
            Some(connection) => connection.session.closed().is_none(),
        }
    }

    /// At which lines a call arrived and was answered, if it arrived. In constant time.
    pub(crate) fn lines_of(&self, id: CallId) -> Option<CallLines>
        ensures { result ≡ lines_of self.now id }
    {
        *self.get(id.conn)?.calls.get(id.number as usize)?
    }

    /// How many calls were answered, in a pass over the calls of all connections. Takes no memory.
    pub(crate) fn answered(&self) -> u128
        ensures { result ≡ answered_count self.now }
    {
        let mut answered = 0;
        for slot in &self.slots {
            answered += marked_in(slot) as u128;
        }
        answered
    }

    /// Opens a connection to a member. Takes no memory.
    pub(crate) fn open(&mut self, alloc: Global, conn: u32, member: MemberId)
        requires within { conn < most_connections }
        requires closed { opened_at self.old conn ≡ None }
        ensures { self.new ≡ with_opened self.old conn member }
    {
        self.slots[conn as usize] = Some(Connection {
            session: Session::new(alloc, conn, member),
            calls: Vec::new(alloc),
        });
    }

    /// Hands bytes to the session of a connection, if that was opened. Want of memory changes nothing.
    pub(crate) fn feed(
        &mut self,
        alloc: Global,
        conn: u32,
        bytes: &[u8],
    ) -> Result<Option<FedSession>, Memory>
        ensures gives { (opened : Opened) (text : List ℕ) → opened_at self.old conn ≡ Some opened → StandsFor opened.session text
            → IfOk result (λ fed. Gives fed opened.session.conn opened.session.member text bytes.now) }
        ensures stands { (opened : Opened) (text : List ℕ) → opened_at self.old conn ≡ Some opened → StandsFor opened.session text
            → OnOk result (self.new ≡ with_session self.old conn (session_after opened.session.conn opened.session.member (text ++ bytes.now))) }
        ensures err { OnErr result (self.new ≡ self.old) }
    {
        let Some(slot) = self.slots.get_mut(conn as usize) else {
            return Ok(None);
        };
        feed_at(alloc, slot, bytes)
    }

    /// Counts a message on a connection that its session answered itself, if that was opened.
    /// Want of memory changes nothing.
    pub(crate) fn reply(&mut self, conn: u32) -> Result<(), Memory>
        ensures ok { OnOk result (self.new ≡ with_reply self.old conn) }
        ensures err { OnErr result (self.new ≡ self.old) }
    {
        let Some(slot) = self.slots.get_mut(conn as usize) else {
            return Ok(());
        };
        reply_at(slot)
    }

    /// Counts a call that arrived at a line on a connection, if that was opened.
    /// Want of memory changes nothing.
    pub(crate) fn arrive(&mut self, conn: u32, line: u32) -> Result<(), Memory>
        ensures ok { OnOk result (self.new ≡ with_arrival self.old conn line) }
        ensures err { OnErr result (self.new ≡ self.old) }
    {
        let Some(slot) = self.slots.get_mut(conn as usize) else {
            return Ok(());
        };
        arrive_at(slot, line)
    }

    /// Marks a call as answered at a line, if it arrived and was not answered before.
    /// In constant time and with no memory.
    pub(crate) fn answer(&mut self, id: CallId, line: u32)
        ensures { self.new ≡ with_answer self.old id line }
    {
        let Some(slot) = self.slots.get_mut(id.conn as usize) else {
            return;
        };
        answer_at(slot, id.number, line);
    }
}
