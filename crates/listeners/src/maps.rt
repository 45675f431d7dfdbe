//! The listeners of maps, by the maps' names.

ghost use Rattle.std.specs.Prelude.{◌≡◌, not, OnOk, OnErr};
ghost use Rattle.partition_table.specs.Rows.{is_empty};
ghost use Rattle.listeners.specs.Standing.{without};
ghost use Rattle.listeners.specs.Tables.{Adds, AreSame, Drops};

use crate::audience::Audience;
use crate::listener::Listener;
use grid_base::{Bytes, Memory};
use std::alloc::Global;
use std::collections::HashMap;

pub(crate) type Maps = HashMap<Bytes, Audience>;

/// Adds a listener of a map. Want of memory changes nothing.
pub(crate) fn add(
    maps: &mut Maps,
    alloc: Global,
    name: Bytes,
    listener: Listener,
) -> Result<(), Memory>
    ensures ok { OnOk result (Adds maps.old maps.new name listener) }
    ensures err { OnErr result (AreSame maps.old maps.new) }
{
    match maps.get_mut(&name) {
        Some(audience) => audience.add(listener),
        None => {
            let mut audience = Audience::new(alloc);
            audience.add(listener)?;
            maps.insert(name, audience)?;
            Ok(())
        }
    }
}

/// Drops the listeners of a connection, and the maps that nobody listens to any more, at the cost of looking at all.
/// Takes no memory.
pub(crate) fn drop_connection(maps: &mut Maps, conn: u32)
    ensures { Drops maps.old maps.new conn }
{
    maps.retain(|_, audience| is_left_without(audience, conn));
}

/// Drops the listeners of a connection, and says whether others are left.
fn is_left_without(audience: &mut Audience, conn: u32) -> bool
    ensures others { audience.new ≡ without conn audience.old }
    ensures left { result ≡ not (is_empty audience.new) }
{
    audience.drop_connection(conn);
    !audience.is_empty()
}
