//! The client on a near connection.

ghost use Rattle.std.specs.Prelude.{◌≡◌, ◌*◌, ◌≤◌, ◌++◌, ◌∷◌, ℕ, List, [], drop, length, map, IfOk, OnOk};
ghost use Rattle.grid_client.specs.States.{HasLookedUp};
ghost use Rattle.script_lang.specs.Limits.{most_line_bytes};
ghost use Rattle.script_run.specs.NearClients.{NearClient as NearClientOf, opening_of, new_near, told, fed, piece};
ghost use Rattle.script_run.specs.Grids.{IsNear, AreNear};
ghost use Rattle.script_run.specs.AfterLines.{noting};
ghost use Rattle.script_run.specs.Outputs.{sent_to, message_in, messages_in};

use grid_base::{Bytes, Memory};
use grid_client::{FedClient, GridClient, Heard, NearLook};
use line_told::Told;
use std::alloc::{AllocError, Global};

/// The number of the client of connection 0; that of connection C is C more.
const FIRST_CLIENT: u128 = 1000;

/// The client on a near connection, and the bytes of the connection's output that it wasn't handed yet.
#[derive(Drop)]
pub(crate) struct NearClient {
    pub(crate) conn: u32,
    pub(crate) client: GridClient,
    /// The end of the output.
    pub(crate) output: Vec<u8>,
    /// How many of its bytes the client was handed.
    pub(crate) handed: usize,
}

/// What a client was handed, and what it makes of it.
#[derive(Drop)]
pub(crate) struct Fed {
    /// How many bytes.
    pub(crate) bytes: usize,
    pub(crate) heard: Vec<Heard>,
}

/// The client of a connection, with a near cache of that map and of so many entries, and what it sends first.
fn attached(
    alloc: Global,
    conn: u32,
    name: Bytes,
    capacity: u32,
) -> Result<(GridClient, Bytes), Memory>
    requires { 1 ≤ capacity }
    ensures client { IfOk result (λ begun. begun.0 ≡ (new_near conn name capacity).state) }
    ensures opening { IfOk result (λ begun. begun.1 ≡ opening_of conn name) }
{
    let number = FIRST_CLIENT + u128::from(conn);
    let mut client = GridClient::new(alloc, number, Some((name, capacity as usize)))?;
    let Ok(opening) = client.attach(conn) else {
        return Err(AllocError);
    };
    Ok((client, opening))
}

impl NearClient {
    /// A message that was told is yet to be read, if it was appended to the connection.
    fn note_one(&mut self, told: &Told) -> Result<(), Memory>
        ensures output { OnOk result (self.new.output.items ≡ self.old.output.items ++ sent_to self.old.conn (message_in told.now)) }
        ensures rest { (record self.new { output = self.old.output }) ≡ self.old }
    {
        match told {
            Told::Message(message) if message.conn == self.conn => {
                Ok(self.output.extend_from_slice(message.bytes.as_slice())?)
            }
            _ => Ok(()),
        }
    }

    /// What a line told was appended to the connection is yet to be read.
    pub(crate) fn note(&mut self, told: &[Told]) -> Result<(), Memory>
        ensures output { OnOk result (self.new.output.items ≡ self.old.output.items ++ sent_to self.old.conn (messages_in told.now)) }
        ensures rest { (record self.new { output = self.old.output }) ≡ self.old }
    {
        for one in told {
            self.note_one(one)?;
        }
        Ok(())
    }

    /// The client looks a key up. After an error it is to be given up.
    pub(crate) fn look(&mut self, key: &Bytes) -> Result<NearLook, Memory>
        ensures looks { IfOk result (λ look. HasLookedUp key.now self.old.client self.new.client look) }
        ensures rest { (record self.new { client = self.old.client }) ≡ self.old }
    {
        match self.client.near_get(key) {
            Ok(look) => Ok(look),
            Err(_) => Err(AllocError),
        }
    }

    /// The client was handed the output up to there. Where that is all of it, none is kept.
    fn read_to(&mut self, to: usize)
        requires { to ≤ length self.old.output.items }
        ensures left { drop self.new.handed self.new.output.items ≡ drop to self.old.output.items }
        ensures within { self.new.handed ≤ length self.new.output.items }
        ensures rest { (record self.new { output = self.old.output; handed = self.old.handed }) ≡ self.old }
    {
        if to < self.output.len() {
            self.handed = to;
        } else {
            self.output.clear();
            self.handed = 0;
        }
    }

    /// Hands the client the next bytes of the output, up to so many, and costs what it makes of these. After an error it is to
    /// be given up.
    pub(crate) fn feed(&mut self, most: u32) -> Result<Fed, Memory>
        requires { (n : NearClientOf) × IsNear self.old n }
        ensures after { (n : NearClientOf) → IsNear self.old n → OnOk result (IsNear self.new (fed most n)) }
        ensures bytes { (n : NearClientOf) → IsNear self.old n → IfOk result (λ given. given.bytes ≡ length (piece most n)) }
        ensures heard { (n : NearClientOf) → IsNear self.old n → IfOk result (λ given. given.heard.items ≡ (told most n).heard) }
    {
        let bytes = (self.output.len() - self.handed).min(most as usize);
        let to = self.handed + bytes;
        let piece = &self.output[self.handed..to];
        let Ok(FedClient { heard, .. }) = self.client.feed(self.conn, piece) else {
            return Err(AllocError);
        };
        self.read_to(to);
        Ok(Fed { bytes, heard })
    }
}

/// What a line told was appended to near connections is yet to be read there.
pub(crate) fn note_all(nears: &mut Vec<NearClient>, told: &[Told]) -> Result<(), Memory>
    ensures { (all : List NearClientOf) → AreNear nears.old.items all → OnOk result (AreNear nears.new.items (map (noting (messages_in told.now)) all)) }
{
    for near in nears.iter_mut() {
        near.note(told)?;
    }
    Ok(())
}

/// A client begins on a connection, and what it sends first is given.
pub(crate) fn begin(
    nears: &mut Vec<NearClient>,
    alloc: Global,
    conn: u32,
    name: &Bytes,
    capacity: u32,
) -> Result<Bytes, Memory>
    requires within { conn ≤ 63 }
    requires some { 1 ≤ capacity }
    requires short { 2 * length name.now ≤ most_line_bytes }
    ensures nears { (all : List NearClientOf) → AreNear nears.old.items all
        → OnOk result (AreNear nears.new.items (all ++ new_near conn name.now capacity ∷ [])) }
    ensures opening { IfOk result (λ opening. opening ≡ opening_of conn name.now) }
{
    let (client, opening) = attached(alloc, conn, name.copied(alloc)?, capacity)?;
    nears.push(NearClient {
        conn,
        client,
        output: Vec::new(alloc),
        handed: 0,
    })?;
    Ok(opening)
}
