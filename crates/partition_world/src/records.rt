ghost use Rattle.std.specs.Prelude.{ℕ, List, ◌≡◌, ◌++◌, ◌∷◌, [], if◌then◌else◌, Option, IfOk, OnOk};
ghost use Rattle.partition_table.specs.Rows.{first_of};
ghost use Rattle.partition_protocol.specs.Node.{Pair};
ghost use Rattle.partition_protocol.specs.Recorded.{Recorded};
ghost use Rattle.partition_world.specs.Recorders.{first_record, with_reopening};
ghost use Rattle.partition_world.specs.RecordedEntries.{entry_of};

use crate::base::Base;
use crate::entry::Entry;
use grid_base::{MemberId, Memory};
use partition_protocol::Pair;
use partition_table::Row;
use std::alloc::Global;

/// How a world records what happens to its partition. No member looks at it.
///
/// `Recorder` keeps all, so that histories can be told, and grows with each executed call. `StandingRow` keeps what a
/// world needs to go on, and never grows.
pub trait Records<C>: Sized + Drop {
    /// It keeps of this what it keeps at all.
    ghost records: { Self → Recorded C → Type 0 };

    /// One entry and one base more take no memory.
    ghost has_room: { Self → Type 0 };

    /// These places are what it keeps of a reopening, where the contents of the standing row's first member have that
    /// pair, and the reopening takes no memory.
    ghost reopens: { Self → List ℕ → Option Pair → Type 0 };

    /// Nothing has happened since this row, which is the first one of the partition.
    fn new(alloc: Global, row: &Row) -> Result<Self, Memory>
        ensures { IfOk result (λ recorder. records recorder (first_record row.now)) };

    /// The first member of the newest row that isn't lost. Takes no memory.
    fn leader(&self) -> Option<MemberId>
        ensures { (r : Recorded C) → records self.now r → result ≡ first_of r.standing.members };

    /// Room for one entry more and one base more.
    fn reserve(&mut self) -> Result<(), Memory>
        ensures records { (r : Recorded C) → records self.old r → records self.new r }
        ensures room { OnOk result (has_room self.new) };

    /// An entry comes last. Takes no memory.
    fn record(&mut self, entry: Entry<C>)
    where
        C: Drop,
        requires { has_room self.old }
        ensures { (r : Recorded C) → records self.old r → records self.new (record r { log = r.log ++ entry_of entry ∷ [] }) };

    /// The primary of a version has begun it, if it has. Takes no memory.
    fn begin_if(&mut self, begins: bool, base: Base)
        requires { has_room self.old }
        ensures { (r : Recorded C) → records self.old r → records self.new (record r { bases = if begins then base ∷ r.bases else r.bases }) };

    /// The partition stands by that row from now on, unless it is lost. Takes no memory.
    fn stand(&mut self, row: &Row)
        ensures { (r : Recorded C) → records self.old r → records self.new (record r { standing = if row.now.lost then r.standing else row.now }) };

    /// What is to be kept of a reopening, where `leader` names the contents of the standing
    /// row's first member. Makes room for the reopening.
    fn reopening_places(
        &mut self,
        alloc: Global,
        leader: Option<Pair>,
    ) -> Result<Vec<usize>, Memory>
        ensures records { (r : Recorded C) → records self.old r → records self.new r }
        ensures reopens { IfOk result (λ places. reopens self.new places.items leader) };

    /// The partition is reopened by the row of that version, and these places are kept of it. Takes no memory.
    fn reopen(&mut self, version: u32, places: Vec<usize>)
        requires { (leader : Option Pair) × reopens self.old places.items leader }
        ensures { (r : Recorded C) (leader : Option Pair) → reopens self.old places.items leader → records self.old r → records self.new (with_reopening version leader r) };
}
