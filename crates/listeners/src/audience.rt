ghost use Rattle.std.specs.Prelude.{◌≡◌, ◌≤◌, ◌↔◌, [], length, IsTrue, OnOk, OnErr, nat_lt};
ghost use Rattle.std.specs.List.{position_or_len};
ghost use Rattle.listeners.specs.Standing.{placed, without};
ghost use Rattle.listeners.specs.declared.listener.Listener.{Listener as ListenerOf};

use crate::listener::Listener;
use grid_base::Memory;
use std::alloc::Global;
use std::marker::Model;

/// Listeners in order of connection, and those of one connection in order of registration.
#[derive(Debug, Drop)]
pub(crate) struct Audience {
    list: Vec<Listener>,
}

impl Model for Audience {
    ghost use Rattle.std.specs.Prelude.{List};
    ghost use Rattle.listeners.specs.declared.listener.Listener.{Listener as ListenerOf};

    ghost Value = { List ListenerOf };

    ghost view = { λ audience. audience.list.items };
}

/// The place of the first listener of a later connection, or the end.
fn place_behind(listeners: &[Listener], conn: u32) -> usize
    ensures place { result ≡ position_or_len (λ (other : ListenerOf). nat_lt conn other.conn) listeners.now }
    ensures within { result ≤ length listeners.now }
{
    listeners
        .iter()
        .position(|other| conn < other.conn)
        .unwrap_or(listeners.len())
}

impl Audience {
    /// Nobody. Takes no memory.
    pub fn new(alloc: Global) -> Self
        ensures { result ≡ [] }
    {
        Audience {
            list: Vec::new(alloc),
        }
    }

    pub fn as_slice(&self) -> &[Listener]
        ensures { result.now ≡ self.now }
    {
        self.list.as_slice()
    }

    pub fn is_empty(&self) -> bool
        ensures { IsTrue result ↔ (self.now ≡ []) }
    {
        self.list.is_empty()
    }

    /// Adds a listener behind those of its connection and of earlier ones, at the cost of their number. Want of memory
    /// changes nothing.
    pub fn add(&mut self, listener: Listener) -> Result<(), Memory>
        ensures ok { OnOk result (self.new ≡ placed listener self.old) }
        ensures err { OnErr result (self.new ≡ self.old) }
    {
        let place = place_behind(self.list.as_slice(), listener.conn);
        self.list.insert(place, listener)?;
        Ok(())
    }

    /// Drops the listeners of a connection. Takes no memory.
    pub fn drop_connection(&mut self, conn: u32)
        ensures { self.new ≡ without conn self.old }
    {
        self.list.retain(|listener| listener.conn != conn);
    }
}
