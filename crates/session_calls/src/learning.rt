//! How sessions learn of each other's calls, by way of passes that stand between them.
ghost use Rattle.std.specs.Prelude.{◌≡◌, Some, slice_get};
ghost use Rattle.hand_cell.specs.Told.{Told};
ghost use Rattle.job_queues.specs.Roster.{roster_of};
ghost use Rattle.session_calls.specs.Learning.{HasLearnedFrom, HasTaught, HasLearnedAt, HasTaughtAt};
ghost use Rattle.session_calls.specs.Passes.{ArePassesOf};
ghost use Rattle.session_calls.specs.Sessions.{IsSessionOf, pass_at};

use crate::session::SessionPass;
use crate::slots::{put_pass, take_pass};
use grid_base::PartitionId;
use hand_cell::{Pass, Served};
use partition_threads::Workplace;

impl<T: Served> SessionPass<T> {
    /// Lets the session's pass of a partition see all that the one among these passes has seen. A call that is started
    /// after it stands behind all of that. No call of the session is under way there. Costs what `Cell::learn` does.
    pub fn learn(&mut self, place: &Workplace<T>, known: &mut Vec<Pass<T>>, partition: PartitionId)
        requires session { IsSessionOf place.now self.old }
        requires known { ArePassesOf place.now.cells.items known.old.items }
        requires there { (pass : Told T.Event) × (pass_at self.old partition ≡ Some (Some pass)) }
        ensures learned { HasLearnedAt T.key_of known.old.items self.old self.new partition }
        ensures same { known.new.items ≡ known.old.items }
        ensures kept { IsSessionOf place.now self.new }
    {
        let slot = usize::from(partition);
        let mut pass = take_pass(&mut self.passes, slot);
        learn_at(place, known, slot, &mut pass);
        put_pass(&mut self.passes, slot, pass);
    }

    /// Lets the pass of a partition among these see all that the session's has seen. No call of the session is under way
    /// there. Costs what `Cell::learn` does.
    pub fn teach(&mut self, place: &Workplace<T>, known: &mut Vec<Pass<T>>, partition: PartitionId)
        requires session { IsSessionOf place.now self.old }
        requires known { ArePassesOf place.now.cells.items known.old.items }
        requires there { (pass : Told T.Event) × (pass_at self.old partition ≡ Some (Some pass)) }
        ensures taught { HasTaughtAt T.key_of self.old self.new partition known.old.items known.new.items }
        ensures kept { IsSessionOf place.now self.new }
        ensures kept_known { ArePassesOf place.now.cells.items known.new.items }
    {
        let slot = usize::from(partition);
        let mut pass = take_pass(&mut self.passes, slot);
        teach_at(place, known, slot, &mut pass);
        put_pass(&mut self.passes, slot, pass);
    }
}

/// Lets a pass learn from the one of its cell at a place.
fn learn_at<T: Served>(
    place: &Workplace<T>,
    known: &mut Vec<Pass<T>>,
    at: usize,
    pass: &mut Pass<T>,
)
    requires known { ArePassesOf place.now.cells.items known.old.items }
    requires pass { slice_get (roster_of place.now.cells.items).tables at ≡ Some pass.old.table }
    ensures { HasLearnedFrom T.key_of at known.old.items known.new.items pass.old pass.new }
{
    place.cells[at].learn(pass, &mut known[at]);
}

/// Lets the one of its cell at a place learn from a pass.
fn teach_at<T: Served>(
    place: &Workplace<T>,
    known: &mut Vec<Pass<T>>,
    at: usize,
    pass: &mut Pass<T>,
)
    requires known { ArePassesOf place.now.cells.items known.old.items }
    requires pass { slice_get (roster_of place.now.cells.items).tables at ≡ Some pass.old.table }
    ensures { HasTaught T.key_of at pass.old pass.new known.old.items known.new.items }
{
    place.cells[at].learn(&mut known[at], pass);
}
