ghost use Rattle.std.specs.Prelude.{ℕ, ◌++◌, ◌∷◌, [], if◌then◌else◌};
ghost use Rattle.partition_table.specs.declared.Row.{Row as RowOf};
ghost use Rattle.partition_protocol.specs.Recorded.{Recorded};
ghost use Rattle.partition_world.specs.RecordedEntries.{entry_of};
ghost use Rattle.partition_world.specs.Recorders.{IsStandingBy, KeepsStanding};

use crate::base::Base;
use crate::entry::Entry;
use crate::records::Records;
use grid_base::{MemberId, Memory};
use partition_protocol::Pair;
use partition_table::Row;
use std::alloc::Global;

/// Of the row by which a partition stands, which is the newest one that isn't lost: its first member and its reset.
///
/// As a world's recorder it keeps no call and no reopening, and never grows.
#[derive(Drop)]
pub struct StandingRow {
    pub(crate) first: Option<MemberId>,
    pub(crate) reset: u32,
}

impl StandingRow {
    pub(crate) fn of(row: &Row) -> StandingRow
        ensures { IsStandingBy result row.now }
    {
        StandingRow {
            first: row.primary(),
            reset: row.reset,
        }
    }

    /// The partition stands by that row from now on, unless it is lost. Takes no memory.
    pub(crate) fn stand_by(&mut self, row: &Row)
        ensures { (before : RowOf) → IsStandingBy self.old before → IsStandingBy self.new (if row.now.lost then before else row.now) }
    {
        if !row.lost {
            *self = StandingRow::of(row);
        }
    }
}

impl<C> Records<C> for StandingRow {
    ghost records = { KeepsStanding };

    ghost has_room = { λ standing. Unit {0} };

    ghost reopens = { λ standing places leader. Unit {0} };

    fn new(_alloc: Global, row: &Row) -> Result<Self, Memory> {
        Ok(StandingRow::of(row))
    }

    fn leader(&self) -> Option<MemberId> {
        self.first
    }

    fn reserve(&mut self) -> Result<(), Memory> {
        Ok(())
    }

    fn record(&mut self, entry: Entry<C>)
    where
        C: Drop,
        ensures { (r : Recorded C) → KeepsStanding self.old r → KeepsStanding self.new (record r { log = r.log ++ entry_of entry ∷ [] }) }
    {}

    fn begin_if(&mut self, _begins: bool, _base: Base) {}

    fn stand(&mut self, row: &Row) {
        self.stand_by(row);
    }

    fn reopening_places(
        &mut self,
        alloc: Global,
        _leader: Option<Pair>,
    ) -> Result<Vec<usize>, Memory> {
        Ok(Vec::new(alloc))
    }

    fn reopen(&mut self, _version: u32, _places: Vec<usize>) {}
}
