//! What the outcomes that a live grid tells say together: that each partition, and each map's entry and queue in it, is
//! one object used by one thread. The functions compute nothing: their contracts are the laws.
//!
//! A session is told of a call by what its pass has seen of the cell's history, which is a beginning of it. The laws are of
//! the history, and of all that was told by any beginning of it. They ask that the plan has a member, and that no two calls
//! have one name: a turn's value says both of what was seen.
#![tactic(auto)]

ghost use Rattle.std.specs.Prelude.{◌≡◌, ℕ, ◌≤◌, true, false, List, [], None};
ghost use Rattle.grid_base.specs.declared.names.CallId.{CallId};
ghost use Rattle.grid_base.specs.declared.names.ObjectKey.{ObjectKey};
ghost use Rattle.grid_base.specs.declared.calls.Request.{Request};
ghost use Rattle.object_store.specs.Partitions.{nothing_stored};
ghost use Rattle.call_engine.specs.Objects.{one_object, partition_object};
ghost use Rattle.partition_table.specs.Rows.{initial_row};
ghost use Rattle.partition_protocol.specs.History.{IsLegal};
ghost use Rattle.partition_world.specs.declared.event.Event.{Event};
ghost use Rattle.partition_world.specs.declared.event.Event.TheVariants.{Call};
ghost use Rattle.live_grid.specs.declared.plan.GridPlan.{GridPlan};
ghost use Rattle.live_grid.specs.declared.world.LiveWorld.{LiveWorld};
ghost use Rattle.live_grid.specs.Histories.{cells, outcome_after};
ghost use Rattle.live_grid.specs.Lives.{LiveStands};
ghost use Rattle.live_grid.specs.Plans.{settings_for};
ghost use Rattle.live_grid.specs.Outcomes.{IsRepliedIn};
ghost use Rattle.live_grid.specs.Stored.{stored_in};
ghost use Rattle.live_history_laws.specs.Entries.{HasReply, asks_of, object_trail, trail_of};
ghost use Rattle.live_history_laws.specs.Fitting.{Fits};
ghost use Rattle.live_history_laws.specs.Leaving.{left_of, HasBegun};
ghost use Rattle.live_history_laws.specs.Names.{AreNamedOnce, AreNew};
ghost use Rattle.live_history_laws.specs.Reopenings.{reopened};
ghost use Rattle.live_history_laws.specs.Uncontrolled.{IsUncontrolled, IsExecuted, first_leader};

/// A live world that stands for a history is of a plan with a member, and no two calls of the history have one name: nor
/// have they in any history in which each call's key was new as it came.
pub fn no_two_live_calls_have_one_name()
    ensures stands { (live : LiveWorld) (plan : GridPlan) (history : List (Event Request)) → LiveStands live plan history → (1 ≤ plan.members) × AreNamedOnce history }
    ensures new { (history : List (Event Request)) → AreNew history → AreNamedOnce history }
{}

/// Whatever was lost, repeated or late, and whoever crashed: the history by which a partition stands is that of the
/// partition's object, used by one thread and emptied at each reopening. It has each call that was replied to, with that
/// reply.
pub fn every_live_answer_stands_in_a_legal_history()
    ensures legal { (plan : GridPlan) (history : List (Event Request)) → 1 ≤ plan.members → AreNamedOnce history
        → IsLegal (partition_object (settings_for plan)) nothing_stored (trail_of plan history) }
    ensures answered { (plan : GridPlan) (history : List (Event Request)) (id : CallId) (reply : List ℕ) → 1 ≤ plan.members → AreNamedOnce history
        → IsRepliedIn plan history id reply → HasReply (trail_of plan history) id reply }
{}

/// One thread that used one object could have seen what a partition's history has of it, be it an entry of a map or a
/// queue; and so one that used the whole partition. Each call that was replied to stands in it with that reply, a refused
/// one nowhere, and one whose member is gone once or nowhere. No call stands before one that was replied to before it came,
/// and the object is emptied at each reopening of the partition and at no other place.
pub fn every_live_history_is_linearizable()
    ensures partition { (plan : GridPlan) (history : List (Event Request)) → 1 ≤ plan.members → AreNamedOnce history
        → Fits (partition_object (settings_for plan)) (λ request. true) plan history (trail_of plan history) }
    ensures object { (plan : GridPlan) (history : List (Event Request)) (name : ObjectKey) → 1 ≤ plan.members → AreNamedOnce history
        → Fits (one_object (settings_for plan) name) (asks_of name) plan history (object_trail plan history name) }
{}

/// What a turn finds stored of an object is what the object's own history leaves, the history of the law above: where the
/// newest row isn't lost, in a partition that was never reopened, and in one that was once the row's first member has taken
/// a row that was made since. Of a lost partition nothing is found.
pub fn what_is_stored_is_what_the_history_leaves()
    ensures unreopened { (plan : GridPlan) (history : List (Event Request)) (name : ObjectKey) → 1 ≤ plan.members
        → reopened plan history ≡ [] → (cells plan history).service.row.lost ≡ false → stored_in plan history name ≡ left_of plan history name }
    ensures begun { (plan : GridPlan) (history : List (Event Request)) (name : ObjectKey) (first : ℕ) → 1 ≤ plan.members
        → HasBegun plan history first → stored_in plan history name ≡ left_of plan history name }
    ensures lost { (plan : GridPlan) (history : List (Event Request)) (name : ObjectKey) → 1 ≤ plan.members
        → (cells plan history).service.row.lost ≡ true → stored_in plan history name ≡ None }
{}

/// Where no operator's event was run in a partition, its first row stands and it was never reopened, and each call that
/// reaches the member that leads it is executed.
pub fn without_an_operator_every_call_is_executed()
    ensures row { (plan : GridPlan) (history : List (Event Request)) → IsUncontrolled history
        → (cells plan history).service.row ≡ initial_row plan.partition plan.members plan.backups }
    ensures unreopened { (plan : GridPlan) (history : List (Event Request)) → IsUncontrolled history → reopened plan history ≡ [] }
    ensures executed { (plan : GridPlan) (history : List (Event Request)) (id : CallId) (request : Request) (now : ℕ) → 1 ≤ plan.members
        → IsUncontrolled history → IsExecuted (outcome_after plan history (Call (first_leader plan) id request now)) }
{}
