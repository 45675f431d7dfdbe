ghost use Rattle.std.specs.Prelude.{◌≡◌, ◌<◌, Some, length, slice_get};

use crate::entry::Entry;
use std::marker::Model;

/// The history by which a partition stands.
///
/// To contracts it is the list of its entries, the oldest first.
#[derive(Drop)]
pub struct Trail<'a, C> {
    /// All that was executed.
    pub(crate) log: &'a [Entry<C>],
    /// Where the history's entries stand in it.
    pub(crate) places: Vec<usize>,
}

impl<'a, C> Model for Trail<'a, C> {
    ghost use Rattle.std.specs.Prelude.{◌≡◌, List, length, vec_len};
    ghost use Rattle.partition_world.specs.declared.entry.Entry.{Entry};
    ghost use Rattle.partition_world.specs.Places.{at_places, AreBelow};

    ghost Value = { List (Entry C) };

    ghost view = { λ t. at_places t.log.now t.places.items };

    ghost invariant = { λ t. (vec_len t.places ≡ length t.places.items) × AreBelow (length t.log.now) t.places.items };
}

impl<'a, C> Trail<'a, C> {
    /// How many entries it has. Takes no memory.
    pub fn len(&self) -> usize
        ensures { result ≡ length self.now }
    {
        self.places.len()
    }

    /// The entry at a place, from 0, in constant time and with no memory.
    pub fn at(&self, place: usize) -> &Entry<C>
        requires { place < length self.now }
        ensures { slice_get self.now place ≡ Some result.now }
    {
        let log = self.log;
        &log[self.places[place]]
    }
}
