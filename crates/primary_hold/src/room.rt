ghost use Rattle.std.specs.Prelude.{◌≡◌, []};

use crate::acks::Acks;
use circular_buffer::HeapCircularBuffer;
use grid_base::Bytes;

/// How many of its newest effects a primary keeps.
pub(crate) const RECENT: usize = 64;

/// Memory for the adoption of a row: for the acknowledgements of a primary's backups, and for its newest effects where
/// it doesn't go on with those that it has.
#[derive(Drop)]
pub struct Room {
    pub(crate) acks: Acks,
    pub(crate) effects: HeapCircularBuffer<Bytes>,
    ghost unused: { acks.list ≡ [] },
    ghost empty: { effects.items ≡ [] },
}
