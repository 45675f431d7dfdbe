//! What holds of every plan and history. The functions compute nothing: their contracts are the laws.
ghost use Rattle.std.specs.Prelude.{◌≡◌, ◌==◌, ℕ, ◌<◌, List, [], ◌∷◌, if◌then◌else◌, map, false, Contains, Result, Ok};
ghost use Rattle.grid_base.specs.declared.calls.Request.{Request};
ghost use Rattle.partition_protocol.specs.World.{is_live};
ghost use Rattle.partition_protocol.specs.Events.{Crash};
ghost use Rattle.hand_cell.specs.declared.names.Key.TheVariants.{Control};
ghost use Rattle.hand_cell.specs.declared.stands.RunRefused.{RunRefused};
ghost use Rattle.partition_world.specs.declared.event.Event.{Event};
ghost use Rattle.partition_world.specs.declared.event.Happened.{Happened};
ghost use Rattle.live_grid.specs.declared.grid.GridPass.{GridPass};
ghost use Rattle.live_grid.specs.declared.grid.LiveGrid.{LiveGrid};
ghost use Rattle.partition_world.specs.Events.{event_of};
ghost use Rattle.live_grid.specs.declared.plan.GridPlan.{GridPlan};
ghost use Rattle.live_grid.specs.Control.{CameToAt, CameToInAll, IsPassOfGrid, HasControl, HaveNewControls, run_by};
ghost use Rattle.live_grid.specs.Histories.{cells, live_key};

/// A member of the plan that takes no steps has crashed: the history says so. So a call whose outcome is `MemberGone` was
/// made to a member that crashed, or to a number that is no member's.
pub fn a_member_is_gone_by_a_crash()
    ensures { (plan : GridPlan) (history : List (Event Request)) (member : ℕ) → member < plan.members → is_live (cells plan history) member ≡ false
        → Contains (map event_of history) (Crash member) }
{}

/// What is new to the passes of a grid of an operator's events, once one of them was run in a partition, is that event in
/// that partition, and nothing where it was refused. Once one was run in all partitions, it is that event in each.
pub fn an_operators_event_is_the_only_new_one()
    ensures in_one { (grid : LiveGrid) (event : Event Request) (old new : GridPass) (partition : ℕ) (came : Result Happened RunRefused)
        → live_key event ≡ Control → HasControl old → CameToAt grid event old new partition came
        → HaveNewControls old new (λ p. if p == partition then run_by event came else []) }
    ensures in_all { (grid : LiveGrid) (event : Event Request) (old new : GridPass) (answer : Happened)
        → live_key event ≡ Control → HasControl old → IsPassOfGrid grid old → CameToInAll grid event old new (Ok answer)
        → HaveNewControls old new (λ p. event ∷ []) }
{}
