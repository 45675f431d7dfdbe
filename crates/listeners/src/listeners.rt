ghost use Rattle.std.specs.Prelude.{◌≡◌, [], List, IfOk, OnOk, OnErr};
ghost use Rattle.std.specs.List.{list_any};
ghost use Rattle.listeners.specs.Standing.{is_about, placed, without};
ghost use Rattle.listeners.specs.Telling.{events_of, rows_of};
ghost use Rattle.listeners.specs.declared.listener.Listener.{Listener as ListenerOf};

use crate::audience::Audience;
use crate::listener::Listener;
use crate::maps::{self, Maps};
use crate::telling::{change_events, row_events};
use event_codecs::Registration;
use grid_base::{Bytes, Memory, PartitionId};
use partition_table::Row;
use primary_hold::CallAnswer;
use std::alloc::Global;
use std::collections::HashMap;

/// Those who listen to a member.
///
/// Its clauses speak of all registrations that stand, in a list (`StandFor`): in order of connection, and those of one
/// connection in the order in which they were made.
#[derive(Debug, Drop)]
pub struct Listeners {
    maps: Maps,
    rows: Audience,
    alloc: Global,
}

impl Listeners {
    ghost use Rattle.listeners.specs.StandsFor.{StandFor};

    /// Nobody listens yet. Takes no memory.
    pub fn new(alloc: Global) -> Self
        ensures { StandFor result [] }
    {
        Listeners {
            maps: HashMap::new(alloc),
            rows: Audience::new(alloc),
            alloc,
        }
    }

    /// Registers a listener, at the cost of the number of those who listen to the same. Want of memory changes nothing.
    pub fn add(&mut self, conn: u32, registration: Registration) -> Result<(), Memory>
        ensures ok { (all : List ListenerOf) → StandFor self.old all →
            OnOk result (StandFor self.new (placed (record { conn = conn; registration = registration }) all)) }
        ensures err { (all : List ListenerOf) → StandFor self.old all → OnErr result (StandFor self.new all) }
    {
        let listener = Listener { conn, registration };
        match listener.registration.map() {
            Some(name) => {
                let name = name.copied(self.alloc)?;
                maps::add(&mut self.maps, self.alloc, name, listener)
            }
            None => self.rows.add(listener),
        }
    }

    /// Drops the registrations of a connection that is closed, at the cost of looking at all. Takes no memory.
    pub fn drop_connection(&mut self, conn: u32)
        ensures { (all : List ListenerOf) → StandFor self.old all → StandFor self.new (without conn all) }
    {
        maps::drop_connection(&mut self.maps, conn);
        self.rows.drop_connection(conn);
    }

    /// Whether anybody listens to a map, in constant time and with no memory.
    pub fn is_heard(&self, map: &Bytes) -> bool
        ensures { (all : List ListenerOf) → StandFor self.now all → result ≡ list_any (is_about map.now) all }
    {
        match self.maps.get(map) {
            Some(audience) => !audience.is_empty(),
            None => false,
        }
    }

    /// The events of a released answer, each with the connection that it goes to: where the call changed a value, one
    /// for each listener of that map, at the cost of writing them.
    pub fn events_of(
        &self,
        partition: PartitionId,
        answer: &CallAnswer,
    ) -> Result<Vec<(u32, Bytes)>, Memory>
        ensures { (all : List ListenerOf) → StandFor self.now all → IfOk result (λ events. events.items ≡ events_of partition answer.now all) }
    {
        let Some(change) = &answer.change else {
            return Ok(Vec::new(self.alloc));
        };
        match self.maps.get(&change.name) {
            Some(audience) => change_events(
                self.alloc,
                partition,
                answer,
                change,
                audience.as_slice(),
            ),
            None => Ok(Vec::new(self.alloc)),
        }
    }

    /// The events that tell rows, each with the connection that it goes to: one for each listener of rows, at the cost
    /// of writing them.
    pub fn rows_of(&self, rows: &[(PartitionId, Row)]) -> Result<Vec<(u32, Bytes)>, Memory>
        ensures { (all : List ListenerOf) → StandFor self.now all → IfOk result (λ events. events.items ≡ rows_of rows.now all) }
    {
        row_events(self.alloc, rows, self.rows.as_slice())
    }
}
