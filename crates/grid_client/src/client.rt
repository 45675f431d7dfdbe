//! The client, and what it is asked.

ghost use Rattle.std.specs.Prelude.{◌≡◌, ◌≢◌, ◌↔◌, ◌⊎◌, ◌+◌, ◌<◌, ◌^◌, ◌≤◌, [], List, ℕ, length, option_map, option_copied, option_and_then, true, Some, None, Err, IfOk, IfErr, OnOk, OnErr, IsSome};
ghost use Rattle.std.specs.Option.{ForSome};
ghost use Rattle.std.specs.List.{list_any};
ghost use Rattle.request_codecs.specs.Openings.{opening};
ghost use Rattle.grid_client.specs.Nears.{Near, hit};
ghost use Rattle.grid_client.specs.declared.heard.ClientRefused.{ClientRefused as ClientRefusedOf};
ghost use Rattle.grid_client.specs.Calls.{asked_call, number_in};
ghost use Rattle.grid_client.specs.Rows.{known_in};
ghost use Rattle.grid_client.specs.Connections.{is_conn, first_of};
ghost use Rattle.grid_client.specs.States.{new_client, IsAttached, attached, target, asking, near_at_first, HasAsked, get_of, refusal_of, HasLookedUp, HasOpened, looked, opening_look_up, MayHaveRetried, HasRetriedAt};
ghost use Rattle.session_core.specs.Places.{partition_of_key};

use crate::calls::{Call, number_in, refused_place};
use crate::connections::{Connection, attach, first_of, is_attached, target_of, target_or};
use crate::heard::{ClientRefused, NearLook, Sending};
use crate::near::NearMap;
use crate::rows::{known_in, leader_in};
use event_codecs::SeenRow;
use grid_base::{Bytes, ClientKey, GridCall, MapCall, Memory, Owner, PartitionId};
use murmur_partition::{key_hash, partition_of};
use request_codecs::write_opening;
use std::alloc::Global;
use std::marker::Model;

/// The number of the first call: the correlations 1 to 3 are those of the opening.
const FIRST_NUMBER: u64 = 3;

/// A client of the grid, over any number of connections: calls that wait for their answers, the rows that members told, and
/// what is kept of one map.
///
/// It opens no connection: its caller sends the bytes that it gives, and feeds it those that come. What comes may be any
/// bytes. Where it answers `Memory` to a feed it is to be given up.
#[derive(Debug, Drop)]
pub struct GridClient {
    pub(crate) client: u128,
    pub(crate) near: Option<NearMap>,
    pub(crate) connections: Vec<Connection>,
    pub(crate) rows: Vec<SeenRow>,
    pub(crate) calls: Vec<Call>,
    pub(crate) next: u64,
    pub(crate) alloc: Global,
}

impl Model for GridClient {
    ghost use Rattle.grid_client.specs.States.{State};

    ghost Value = { State };

    ghost view = { λ c. record {
      client = c.client;
      near = c.near;
      connections = c.connections.items;
      rows = c.rows.items;
      calls = c.calls.items;
      next = c.next;
    } };
}

/// How the get of a key goes: its partition, and the first connection, on which it goes where none is to the partition's
/// leader.
#[derive(Clone, Copy, Debug)]
struct Route {
    partition: PartitionId,
    first: u32,
}

/// The near cache of a map, of so many entries.
fn near_of(alloc: Global, near: Option<(Bytes, usize)>) -> Result<Option<NearMap>, Memory>
    requires { ForSome near (λ n. 1 ≤ n.1) }
    ensures { IfOk result (λ map. map ≡ near_at_first near) }
{
    match near {
        Some((name, capacity)) => Ok(Some(NearMap::new(alloc, name, capacity)?)),
        None => Ok(None),
    }
}

/// The get of a key, by no thread.
fn get_of(alloc: Global, name: &Bytes, key: &Bytes, client: u128) -> Result<GridCall, Memory>
    ensures { IfOk result (λ call. call ≡ get_of name.now key.now client) }
{
    Ok(GridCall::Map(MapCall::Get {
        name: name.copied(alloc)?,
        key: key.copied(alloc)?,
        owner: Owner {
            client: ClientKey::Known(client),
            thread: 0,
        },
    }))
}

impl GridClient {
    /// A client that makes itself known by this number, without connections. With a map's name and a number of entries it
    /// keeps what it looks up of that map.
    pub fn new(
        alloc: Global,
        client: u128,
        near: Option<(Bytes, usize)>,
    ) -> Result<GridClient, Memory>
        requires { ForSome near (λ n. 1 ≤ n.1) }
        ensures { IfOk result (λ grid. grid ≡ new_client client near) }
    {
        Ok(GridClient {
            client,
            near: near_of(alloc, near)?,
            connections: Vec::new(alloc),
            rows: Vec::new(alloc),
            calls: Vec::new(alloc),
            next: FIRST_NUMBER,
            alloc,
        })
    }

    /// Whether a connection is attached.
    pub fn is_attached(&self, conn: u32) -> bool
        ensures { result ≡ list_any (is_conn conn) self.now.connections }
    {
        is_attached(&self.connections, conn)
    }

    /// The row that is known of a partition: the newest that a member told.
    pub fn known(&self, partition: PartitionId) -> Option<&SeenRow>
        ensures { option_copied result ≡ known_in partition self.now.rows }
    {
        known_in(partition, &self.rows)
    }

    /// The name of the map of which it keeps what it looks up.
    fn near_name(&self) -> Option<&Bytes>
        ensures { option_copied result ≡ option_map (λ n. n.name) self.now.near }
    {
        match &self.near {
            Some(near) => Some(near.name()),
            None => None,
        }
    }

    /// Attaches a connection, and gives what is to be sent on it first. `Known` where it is attached already. What is
    /// refused changes nothing.
    pub fn attach(&mut self, conn: u32) -> Result<Bytes, ClientRefused>
        ensures bytes { IfOk result (λ bytes. bytes ≡ opening self.old.client (option_map (λ n. n.name) self.old.near)) }
        ensures ok { OnOk result (self.new ≡ attached conn self.old) }
        ensures attached { OnOk result (IsAttached conn self.new) }
        ensures err { OnErr result (self.new ≡ self.old) }
        ensures known { (result ≡ Err ClientRefused.Known) ↔ (list_any (is_conn conn) self.old.connections ≡ true) }
    {
        if self.is_attached(conn) {
            return Err(ClientRefused::Known);
        }
        let bytes = write_opening(self.alloc, self.client, self.near_name())?;
        attach(&mut self.connections, self.alloc, conn)?;
        Ok(bytes)
    }

    /// The connection on which the calls of a partition go.
    fn target(&self, partition: PartitionId) -> Option<u32>
        ensures { result ≡ target partition self.now }
    {
        target_of(leader_in(partition, &self.rows), &self.connections)
    }

    /// Has a call wait for its answer. Want of memory changes nothing.
    fn ask(&mut self, call: Call) -> Result<(), Memory>
        requires { self.old.next + 1 < 2 ^ 63 }
        ensures ok { OnOk result (self.new ≡ asking call self.old) }
        ensures err { OnErr result (self.new ≡ self.old) }
    {
        self.calls.push(call)?;
        self.next += 1;
        Ok(())
    }

    /// Asks for a call in a partition: gives what is to be sent, and on which connection. It goes to the first connection to
    /// the member that leads the partition by the known rows, or else to the first. `NoConnection` where none is attached.
    /// What is refused changes nothing. Copies each part of the call twice.
    pub fn request(
        &mut self,
        partition: PartitionId,
        call: &GridCall,
    ) -> Result<Sending, ClientRefused>
        ensures ok { IfOk result (λ sending. HasAsked partition call.now self.old self.new sending) }
        ensures err { OnErr result (self.new ≡ self.old) }
        ensures no_connection { (result ≡ Err ClientRefused.NoConnection) ↔ (self.old.connections ≡ []) }
    {
        let Some(conn) = self.target(partition) else {
            return Err(ClientRefused::NoConnection);
        };
        let asked = Call::asking(self.alloc, self.next, conn, partition, call)?;
        let sending = asked.sending(self.alloc)?;
        self.ask(asked)?;
        Ok(sending)
    }

    /// A copy of the value that is kept for a key, if one is, whose entry comes to the front, also where there is no memory
    /// for the copy.
    fn look(&mut self, key: &Bytes) -> Result<Option<Option<Bytes>>, Memory>
        ensures value { IfOk result (λ value. value ≡ option_and_then (hit key.now) self.old.near) }
        ensures after { self.new ≡ looked key.now self.old }
        ensures missed { result ≡ Ok None → self.new ≡ self.old }
    {
        match &mut self.near {
            Some(near) => near.look(self.alloc, key),
            None => Ok(None),
        }
    }

    /// The call that gets a key, on a connection.
    fn get_call(&self, conn: u32, partition: PartitionId, key: &Bytes) -> Result<Call, Memory>
        requires { IsSome self.now.near }
        ensures call { IfOk result (λ call. (near : Near) → self.now.near ≡ Some near
            → call ≡ asked_call self.now.next conn partition (get_of near.name key.now self.now.client)) }
        ensures below { OnOk result (self.now.next + 1 < 2 ^ 63) }
    {
        let Some(name) = self.near_name() else {
            unreachable!()
        };
        let get = get_of(self.alloc, name, key, self.client)?;
        Call::asking(self.alloc, self.next, conn, partition, &get)
    }

    /// Opens a look-up for a call that waits from now on. Want of memory changes nothing.
    fn open(&mut self, key: Bytes, call: Call) -> Result<(), Memory>
        requires { self.old.next + 1 < 2 ^ 63 }
        ensures ok { OnOk result (self.new ≡ asking call (opening_look_up key self.old)) }
        ensures err { OnErr result (self.new ≡ self.old) }
    {
        self.calls.reserve(1)?;
        if let Some(near) = &mut self.near {
            near.open(self.next, key)?;
        }
        self.calls.push(call)?;
        self.next += 1;
        Ok(())
    }

    /// Asks for the value of a key of which none is kept. Want of memory changes nothing.
    fn miss(&mut self, conn: u32, partition: PartitionId, key: &Bytes) -> Result<Sending, Memory>
        requires { IsSome self.old.near }
        ensures ok { IfOk result (λ sending. HasOpened conn partition key.now self.old self.new sending) }
        ensures err { OnErr result (self.new ≡ self.old) }
    {
        let call = self.get_call(conn, partition, key)?;
        let sending = call.sending(self.alloc)?;
        self.open(key.copied(self.alloc)?, call)?;
        Ok(sending)
    }

    /// How the get of a key would go that can be looked up, or why it can't be. Takes constant time.
    fn route_of(&self, key: &Bytes) -> Result<Route, ClientRefused>
        ensures partition { IfOk result (λ route. route.partition ≡ partition_of_key key.now) }
        ensures first { IfOk result (λ route. first_of self.now.connections ≡ Some route.first) }
        ensures listens { OnOk result (IsSome self.now.near) }
        ensures ok { OnOk result (refusal_of key.now self.now ≡ None) }
        ensures err { IfErr result (λ why. refusal_of key.now self.now ≡ Some why) }
    {
        let Ok(hash) = key_hash(key.as_slice()) else {
            return Err(ClientRefused::ShortKey);
        };
        if self.near.is_none() {
            return Err(ClientRefused::NoNear);
        }
        let Some(first) = first_of(&self.connections) else {
            return Err(ClientRefused::NoConnection);
        };
        let partition = partition_of(hash);
        Ok(Route { partition, first })
    }

    /// The connection on which the calls of a route's partition go.
    fn target_by(&self, route: &Route) -> u32
        requires { first_of self.now.connections ≡ Some route.now.first }
        ensures { target route.now.partition self.now ≡ Some result }
    {
        let leader = leader_in(route.partition, &self.rows);
        target_or(leader, &self.connections, route.first)
    }

    /// Looks a key of the near map up: the value that is kept, or the get that asks for it, whose answer is kept unless it is
    /// overtaken. `ShortKey` where it has fewer than eight bytes, `NoNear` where nothing is kept of any map, `NoConnection`
    /// where no connection is attached. What is refused changes nothing, but that want of memory to copy a value that is kept
    /// brings its entry to the front. A hit costs constant time and a copy of the value; a miss goes over the known rows.
    pub fn near_get(&mut self, key: &Bytes) -> Result<NearLook, ClientRefused>
        ensures ok { IfOk result (λ look. HasLookedUp key.now self.old self.new look) }
        ensures refused { (why : ClientRefusedOf) → refusal_of key.now self.old ≡ Some why → result ≡ Err why }
        ensures why { IfErr result (λ why. (refusal_of key.now self.old ≡ Some why) ⊎ (why ≡ ClientRefused.Memory)) }
        ensures kept { (why : ClientRefusedOf) → refusal_of key.now self.old ≡ Some why → self.new ≡ self.old }
        ensures err { OnErr result ((self.new ≡ self.old) ⊎ (self.new ≡ looked key.now self.old)) }
    {
        let route = self.route_of(key)?;
        let found = self.look(key)?;
        match found {
            Some(value) => Ok(NearLook::Hit(value)),
            None => {
                let conn = self.target_by(&route);
                let sending = self.miss(conn, route.partition, key)?;
                Ok(NearLook::Miss(sending))
            }
        }
    }

    /// Sends the call at a place again.
    fn retry_at(&mut self, place: usize) -> Result<Sending, ClientRefused>
        requires { place < length self.old.calls }
        ensures ok { IfOk result (λ sending. HasRetriedAt place self.old self.new sending) }
        ensures err { OnErr result (self.new ≡ self.old) }
        ensures no_connection { result ≡ Err ClientRefused.NoConnection → self.old.connections ≡ [] }
    {
        let call = &self.calls[place];
        let Some(conn) = self.target(call.partition) else {
            return Err(ClientRefused::NoConnection);
        };
        let again = call.again(self.alloc, self.next, conn)?;
        let sending = again.sending(self.alloc)?;
        self.calls[place] = again;
        self.next += 1;
        Ok(sending)
    }

    /// Sends a call again that was refused since its member doesn't lead its partition, or gives it up: under another
    /// correlation, and to the member that leads by the known rows. `None` where the last answer under that correlation
    /// wasn't such a refusal, or the call was sent again since. A look-up's get is then a plain call. What is refused changes
    /// nothing.
    pub fn retry(&mut self, correlation: i64) -> Result<Option<Sending>, ClientRefused>
        ensures ok { IfOk result (λ sending. MayHaveRetried (number_in correlation) self.old self.new sending) }
        ensures err { OnErr result (self.new ≡ self.old) }
        ensures no_connection { result ≡ Err ClientRefused.NoConnection → self.old.connections ≡ [] }
    {
        let Some(number) = number_in(correlation) else {
            return Ok(None);
        };
        match refused_place(&self.calls, number) {
            Some(place) => Ok(Some(self.retry_at(place)?)),
            None => Ok(None),
        }
    }
}
