//! A turn in which a partition is looked at, and nothing is run.
ghost use Rattle.std.specs.Prelude.{◌≡◌, ◌<◌, Some, slice_get};
ghost use Rattle.job_queues.specs.Roster.{roster_of};
ghost use Rattle.live_grid.specs.declared.plan.GridPlan.{GridPlan};
ghost use Rattle.live_grid.specs.Control.{IsPassOfGrid, HasControl};
ghost use Rattle.live_grid.specs.Grids.{IsGridPassOf};
ghost use Rattle.live_grid.specs.Stored.{HasLooked, HasLookedAt};

use crate::copies::Record;
use crate::grid::{GridPass, LiveGrid};
use crate::pass_places::{put_pass, take_pass};
use crate::world::LiveWorld;
use grid_base::{Memory, ObjectKey, PARTITIONS, PartitionId};
use hand_cell::Pass;
use partition_threads::Workplace;
use std::alloc::Global;
use std::sync::Wait;

/// Looks in one turn for what is stored of an object.
fn look<R: Wait>(
    rt: &R,
    alloc: Global,
    place: &Workplace<LiveWorld>,
    partition: PartitionId,
    pass: Pass<LiveWorld>,
    key: &ObjectKey,
) -> (Pass<LiveWorld>, Result<Option<Record>, Memory>)
    requires { slice_get (roster_of place.now.cells.items).tables partition ≡ Some pass.table }
    ensures { (plan : GridPlan) → slice_get (roster_of place.now.cells.items).plans partition ≡ Some plan → HasLooked plan key.now pass result.0 result.1 }
{
    let turn = place.cells[usize::from(partition)].enter(rt, pass);
    let found = turn.value().stored(alloc, key);
    (turn.leave(), found)
}

impl LiveGrid {
    /// A copy of what the first member of a partition's newest row has of an object: none where it has nothing of it, or
    /// where the row is lost.
    ///
    /// Runs no event: it waits for one turn, of those who entered before. The pass has then seen the partition's whole
    /// history. Costs the bytes of the copy, which it takes memory for; without it the pass is good for further calls.
    pub fn stored<R: Wait>(
        &self,
        rt: &R,
        alloc: Global,
        pass: &mut GridPass,
        partition: PartitionId,
        key: &ObjectKey,
    ) -> Result<Option<Record>, Memory>
        requires placed { partition < PARTITIONS }
        requires pass { IsPassOfGrid self.now pass.old }
        ensures looked { HasLookedAt self.now key.now pass.old pass.new partition result }
        ensures kept { IsPassOfGrid self.now pass.new }
        ensures control { HasControl pass.old → HasControl pass.new }
        ensures whole { IsGridPassOf self.now pass.old → IsGridPassOf self.now pass.new }
    {
        let slot = usize::from(partition);
        let going = take_pass(&mut pass.passes, slot);
        let (back, found) = look(rt, alloc, self.workplace(), partition, going, key);
        put_pass(&mut pass.passes, slot, back);
        found
    }
}
