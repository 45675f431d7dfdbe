//! The connections of a client, in the order of their numbers.

ghost use Rattle.std.specs.Prelude.{◌≡◌, ◌++◌, List, ℕ, false, length, nat_lt, ◌≤◌, true, Some, option_map, option_copied, IfOk, OnOk, OnErr};
ghost use Rattle.std.specs.List.{find, position, position_or_len, list_any};
ghost use Rattle.message_frames.specs.MessageReaders.{standing};
ghost use Rattle.message_frames.specs.Messages.{fault_of};
ghost use Rattle.grid_client.specs.Connections.{is_conn, new_connection, placed, is_to, first_of, target_of, with_uuid, with_reader};
ghost use Rattle.grid_client.specs.Hearing.{messages_by};
ghost use Rattle.grid_client.specs.declared.connections.Connection.{Connection as ConnectionOf};

use grid_base::{MemberId, Memory};
use message_frames::{FedMessages, MessageReader};
use std::alloc::Global;

/// A connection to a member.
#[derive(Debug, Drop)]
pub(crate) struct Connection {
    pub conn: u32,
    /// What its member told last of itself: its number and 1.
    pub uuid: Option<u128>,
    pub reader: MessageReader,
}

impl Connection {
    /// A connection on which nothing was heard. Takes no memory.
    fn new(alloc: Global, conn: u32) -> Self
        ensures { result ≡ new_connection conn }
    {
        Connection {
            conn,
            uuid: None,
            reader: MessageReader::new(alloc, false),
        }
    }

    /// Whether its member is the one that leads.
    fn is_to(&self, leader: Option<MemberId>) -> bool
        ensures { result ≡ is_to leader self.now }
    {
        match (leader, self.uuid) {
            (Some(member), Some(uuid)) => uuid == u128::from(member) + 1,
            _ => false,
        }
    }
}

/// Whether a connection of that number is there.
pub(crate) fn is_attached(connections: &[Connection], conn: u32) -> bool
    ensures { result ≡ list_any (is_conn conn) connections.now }
{
    connections.iter().any(|c| c.conn == conn)
}

/// The place of the first connection of a greater number, or the end.
fn place_before(connections: &[Connection], conn: u32) -> usize
    ensures place { result ≡ position_or_len (λ (c : ConnectionOf). nat_lt conn c.conn) connections.now }
    ensures within { result ≤ length connections.now }
{
    connections
        .iter()
        .position(|c| conn < c.conn)
        .unwrap_or(connections.len())
}

/// Adds a connection on which nothing was heard. Want of memory changes nothing.
pub(crate) fn attach(
    connections: &mut Vec<Connection>,
    alloc: Global,
    conn: u32,
) -> Result<(), Memory>
    ensures ok { OnOk result (connections.new.items ≡ placed (new_connection conn) connections.old.items) }
    ensures err { OnErr result (connections.new.items ≡ connections.old.items) }
{
    let place = place_before(connections.as_slice(), conn);
    connections.insert(place, Connection::new(alloc, conn))?;
    Ok(())
}

/// The first connection to the member that leads.
fn to_leader(leader: Option<MemberId>, connections: &[Connection]) -> Option<&Connection>
    ensures { option_copied result ≡ find (is_to leader) connections.now }
{
    connections.iter().find(|c| c.is_to(leader))
}

/// The first connection.
pub(crate) fn first_of(connections: &[Connection]) -> Option<u32>
    ensures { result ≡ first_of connections.now }
{
    match connections.first() {
        Some(connection) => Some(connection.conn),
        None => None,
    }
}

/// The connection on which a call goes: the first to the member that leads, or else the first of all, which is given.
pub(crate) fn target_or(leader: Option<MemberId>, connections: &[Connection], first: u32) -> u32
    requires { first_of connections.now ≡ Some first }
    ensures { target_of leader connections.now ≡ Some result }
{
    match to_leader(leader, connections) {
        Some(connection) => connection.conn,
        None => first,
    }
}

/// The connection on which a call goes: the first to the member that leads, or else the first.
pub(crate) fn target_of(leader: Option<MemberId>, connections: &[Connection]) -> Option<u32>
    ensures { result ≡ target_of leader connections.now }
{
    let first = first_of(connections)?;
    Some(target_or(leader, connections, first))
}

/// The place of the connection of a number.
fn place_of(connections: &[Connection], conn: u32) -> Option<usize>
    ensures { result ≡ position (is_conn conn) connections.now }
{
    connections.iter().position(|c| c.conn == conn)
}

/// Notes what a member told of itself.
pub(crate) fn welcome(connections: &mut Vec<Connection>, conn: u32, uuid: Option<u128>)
    ensures { connections.new.items ≡ with_uuid conn uuid connections.old.items }
{
    match place_of(connections.as_slice(), conn) {
        Some(place) => {
            let connection = &mut connections[place];
            connection.uuid = uuid;
        }
        None => {}
    }
}

/// Takes the next bytes of a connection.
pub(crate) fn read(
    connections: &mut Vec<Connection>,
    alloc: Global,
    conn: u32,
    piece: &[u8],
) -> Result<FedMessages, Memory>
    requires { list_any (is_conn conn) connections.old.items ≡ true }
    ensures connections { (text : List ℕ) → option_map (λ (c : ConnectionOf). c.reader) (find (is_conn conn) connections.old.items) ≡ Some (standing false text)
        → OnOk result (connections.new.items ≡ with_reader conn (standing false (text ++ piece.now)) connections.old.items) }
    ensures messages { (text : List ℕ) → option_map (λ (c : ConnectionOf). c.reader) (find (is_conn conn) connections.old.items) ≡ Some (standing false text)
        → IfOk result (λ fed. fed.messages.items ≡ messages_by text piece.now) }
    ensures fault { (text : List ℕ) → option_map (λ (c : ConnectionOf). c.reader) (find (is_conn conn) connections.old.items) ≡ Some (standing false text)
        → IfOk result (λ fed. fed.fault ≡ fault_of false (text ++ piece.now)) }
{
    match place_of(connections.as_slice(), conn) {
        Some(place) => {
            let connection = &mut connections[place];
            connection.reader.feed(alloc, piece)
        }
        None => unreachable!(),
    }
}
