//! Turns in which an operator's events run.
ghost use Rattle.std.specs.Prelude.{◌≡◌, true, None, Some, All, slice_get};
ghost use Rattle.hand_cell.specs.declared.names.Key.TheVariants.{Control};
ghost use Rattle.hand_cell.specs.Calls.{plan_of};
ghost use Rattle.hand_cell.specs.Names.{has};
ghost use Rattle.job_queues.specs.Roster.{roster_of};
ghost use Rattle.partition_threads.specs.Turns.{Follows, IsFree};
ghost use Rattle.partition_world.specs.Events.{IsWithinLimits};
ghost use Rattle.call_engine.specs.Limits.{RequestFits};
ghost use Rattle.live_grid.specs.declared.plan.GridPlan.{GridPlan};
ghost use Rattle.live_grid.specs.Control.{CameTo};
ghost use Rattle.live_grid.specs.Histories.{live_key};

use crate::world::LiveWorld;
use grid_base::{PartitionId, Request};
use hand_cell::{Pass, RunRefused, Runs, Served, Turn};
use partition_threads::Workplace;
use partition_world::{Event, Happened};
use std::alloc::Global;
use std::sync::Wait;

/// Runs the next delivery in a turn, if there is one, and room and memory for it. Tells whether it ran.
fn deliver<'a, N>(alloc: Global, turn: &mut Turn<'a, LiveWorld>, env: &N) -> bool
where
    LiveWorld: Runs<N>,
    requires first { turn.old.ran ≡ None }
    requires env { ⟦<LiveWorld as Runs<N>>⟧.means env.now turn.old.plan }
    ensures pass { turn.new.pass ≡ turn.old.pass }
    ensures free { IsFree live_key turn.new.ran }
{
    match turn.value().next_event() {
        Some(event) => turn.run(alloc, env, event).is_ok(),
        None => false,
    }
}

/// One turn with a delivery, if there is one. Tells whether it ran.
fn delivery_turn<N, R: Wait>(
    rt: &R,
    alloc: Global,
    place: &Workplace<LiveWorld>,
    env: &N,
    partition: PartitionId,
    pass: Pass<LiveWorld>,
) -> (Pass<LiveWorld>, bool)
where
    LiveWorld: Runs<N>,
    requires cell { slice_get (roster_of place.now.cells.items).tables partition ≡ Some pass.table }
    requires env { All (λ cell. ⟦<LiveWorld as Runs<N>>⟧.means env.now (plan_of cell)) place.now.cells.items }
    ensures { Follows live_key pass result.0 }
{
    let mut turn = place.cells[usize::from(partition)].enter(rt, pass);
    let ran = deliver(alloc, &mut turn, env);
    (turn.leave(), ran)
}

/// Delivers what is in flight in a partition, a message a turn, until nothing is, or there is no memory or no room for
/// an event.
fn deliver_all<N, R: Wait>(
    rt: &R,
    alloc: Global,
    place: &Workplace<LiveWorld>,
    env: &N,
    partition: PartitionId,
    pass: Pass<LiveWorld>,
) -> Pass<LiveWorld>
where
    LiveWorld: Runs<N>,
    requires cell { slice_get (roster_of place.now.cells.items).tables partition ≡ Some pass.table }
    requires env { All (λ cell. ⟦<LiveWorld as Runs<N>>⟧.means env.now (plan_of cell)) place.now.cells.items }
    ensures { Follows live_key pass result }
{
    let mut going = pass;
    for _ in rt.forever() {
        let (pass, ran) = delivery_turn(rt, alloc, place, env, partition, going);
        if !ran {
            return pass;
        }
        place.event_ran(partition);
        going = pass;
    }
    unreachable!()
}

/// Runs an event in one turn.
fn event_turn<N, R: Wait>(
    rt: &R,
    alloc: Global,
    place: &Workplace<LiveWorld>,
    env: &N,
    partition: PartitionId,
    pass: Pass<LiveWorld>,
    event: Event<Request>,
) -> (Pass<LiveWorld>, Result<Happened, RunRefused>)
where
    LiveWorld: Runs<N>,
    requires cell { slice_get (roster_of place.now.cells.items).tables partition ≡ Some pass.table }
    requires env { All (λ cell. ⟦<LiveWorld as Runs<N>>⟧.means env.now (plan_of cell)) place.now.cells.items }
    requires key { live_key event ≡ Control }
    requires named { has pass.names Control ≡ true }
    requires admitted { IsWithinLimits RequestFits event }
    ensures came { (plan : GridPlan) → slice_get (roster_of place.now.cells.items).plans partition ≡ Some plan → CameTo plan event pass result.0 result.1 }
    ensures table { result.0.table ≡ pass.table }
{
    let mut turn = place.cells[usize::from(partition)].enter(rt, pass);
    let came = turn.run(alloc, env, event);
    (turn.leave(), came)
}

/// Runs an event in a partition, and then delivers what is in flight there.
pub(crate) fn run_event<N, R: Wait>(
    rt: &R,
    alloc: Global,
    place: &Workplace<LiveWorld>,
    env: &N,
    partition: PartitionId,
    pass: Pass<LiveWorld>,
    event: Event<Request>,
) -> (Pass<LiveWorld>, Result<Happened, RunRefused>)
where
    LiveWorld: Runs<N>,
    requires cell { slice_get (roster_of place.now.cells.items).tables partition ≡ Some pass.table }
    requires env { All (λ cell. ⟦<LiveWorld as Runs<N>>⟧.means env.now (plan_of cell)) place.now.cells.items }
    requires key { live_key event ≡ Control }
    requires named { has pass.names Control ≡ true }
    requires admitted { IsWithinLimits RequestFits event }
    ensures { (plan : GridPlan) → slice_get (roster_of place.now.cells.items).plans partition ≡ Some plan → CameTo plan event pass result.0 result.1 }
{
    let (pass, came) = event_turn(rt, alloc, place, env, partition, pass, event);
    match came {
        Ok(happened) => {
            place.event_ran(partition);
            let pass = deliver_all(rt, alloc, place, env, partition, pass);
            (pass, Ok(happened))
        }
        Err(why) => (pass, Err(why)),
    }
}
