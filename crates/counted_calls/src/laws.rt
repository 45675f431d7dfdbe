//! What the counted calls come to, as a law of the history that was seen. Nothing runs here.
ghost use Rattle.std.specs.Prelude.{◌≡◌, ℕ, ℤ, List, Option};
ghost use Rattle.entry_processors.specs.declared.form.Form.{Form};
ghost use Rattle.grid_base.specs.declared.calls.Request.{Request};
ghost use Rattle.partition_world.specs.declared.event.Event.{Event};
ghost use Rattle.live_grid.specs.declared.plan.GridPlan.{GridPlan};
ghost use Rattle.live_grid.specs.declared.world.LiveWorld.{LiveWorld};
ghost use Rattle.live_grid.specs.Lives.{LiveStands};
ghost use Rattle.live_grid.specs.Plans.{IsPlanOf};
ghost use Rattle.counted_calls.specs.Counts.{AreCounted, number_stored};
ghost use Rattle.counted_calls.specs.Gathered.{AreGathered};

use crate::requests::PARTITION;
use entry_processors::laws::every_number_has_one_value;
use live_grid::laws::a_member_is_gone_by_a_crash;
use live_history_laws::{
    every_live_history_is_linearizable, no_two_live_calls_have_one_name,
    what_is_stored_is_what_the_history_leaves, without_an_operator_every_call_is_executed,
};

/// Of a grid of three members with one backup, in which no operator's event was run: once all sessions are joined, the
/// calls that were answered are as many as the history has, and what is stored is their number where the first processor
/// adds.
pub fn every_count_is_what_is_stored()
    ensures { (live : LiveWorld) (plan : GridPlan) (forms : List Form) (capacity : ℕ) (key : List ℕ) (history : List (Event Request)) (answered : ℕ) (total : Option ℤ)
        → LiveStands live plan history → IsPlanOf 3 1 forms capacity PARTITION plan → AreGathered plan key 0 answered history
        → total ≡ number_stored plan history key → AreCounted plan key history (record { answered = answered; total = total }) }
{
    every_number_has_one_value();
    a_member_is_gone_by_a_crash();
    no_two_live_calls_have_one_name();
    every_live_history_is_linearizable();
    what_is_stored_is_what_the_history_leaves();
    without_an_operator_every_call_is_executed();
}
