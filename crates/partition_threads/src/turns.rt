//! Turns in which calls are run, and what they sent is delivered.
ghost use Rattle.std.specs.Prelude.{◌≡◌, true, None, All, IfOk, IfErr};
ghost use Rattle.hand_cell.specs.declared.names.Key.TheVariants.{Call};
ghost use Rattle.hand_cell.specs.Names.{has, IsNewKey};
ghost use Rattle.hand_cell.specs.Calls.{plan_of, Enters};
ghost use Rattle.job_queues.specs.Roster.{roster_of};
ghost use Rattle.job_queues.specs.Calls.{IsNew, IsBegun};
ghost use Rattle.job_queues.specs.Terms.{Terms};
ghost use Rattle.partition_threads.specs.Steps.{IsRun, IsStep};
ghost use Rattle.partition_threads.specs.Turns.{HasServed, HasBegun, HasDelivered, IsFree};

use crate::gate::Gate;
use crate::workplace::Workplace;
use grid_base::{CallId, MemberId, Moment, Request};
use hand_cell::{LiveOutcome, Pass, RunRefused, Runs, Served, Turn};
use job_queues::{BegunCall, NewCall, Noted};
use std::alloc::Global;
use std::sync::Wait;

/// What came of the next delivery.
#[derive(Clone, Copy, Debug)]
pub(crate) enum Delivery {
    /// It was run.
    Ran,
    /// There is none, or the partition has no room for an event.
    Nothing,
    /// There is no memory to run it.
    NoMemory,
}

/// What became of a call in a turn with a delivery.
#[derive(Drop)]
pub(crate) enum Step<T: Served> {
    /// Its outcome is known.
    Known(BegunCall<T>, LiveOutcome),
    /// A message was delivered, so another may be in flight.
    Delivered(BegunCall<T>),
    /// Nothing was.
    Rests(BegunCall<T>),
}

/// Runs a call in a turn. Gives the event that it noted, and the call's outcome, if that is known at once.
fn run_call<'a, T: Served + Runs<N>, N>(
    alloc: Global,
    turn: &mut Turn<'a, T>,
    env: &N,
    member: MemberId,
    request: Request,
    now: Moment,
) -> (Noted<T::Event>, Option<LiveOutcome>)
    requires first { turn.old.ran ≡ None }
    requires env { T.means env.now turn.old.plan }
    requires named { has turn.old.pass.names (Call request.id) ≡ true }
    requires unused { IsNewKey T.key_of (Call request.id) turn.old.pass.seen }
    requires within { T.fits request }
    ensures pass { turn.new.pass ≡ turn.old.pass }
    ensures plan { turn.new.plan ≡ turn.old.plan }
    ensures key { T.key_of (T.call_of member request now) ≡ Call request.id }
    ensures noted { result.0.value ≡ T.call_of member request now }
    ensures served { HasServed T.tells turn.old turn.new (T.call_of member request now) result.1 }
{
    let id = request.id;
    let event = T::call_event(member, request, now);
    let noted = Noted::of(&event);
    let outcome = match turn.run(alloc, env, event) {
        Ok(outcome) => match T::settled(&outcome) {
            Some(outcome) => Some(outcome),
            None => turn.outcome_of(member, id),
        },
        Err(RunRefused::Memory) => Some(LiveOutcome::Memory),
        Err(RunRefused::Exhausted { .. }) => Some(LiveOutcome::Exhausted),
    };
    (noted, outcome)
}

/// Runs a call in a turn that its pass took, and ends the turn. Gives the outcome too, if that is known at once.
fn begin<'a, T: Served + Runs<N>, N, G: Gate>(
    alloc: Global,
    turn: Turn<'a, T>,
    env: &N,
    gate: &G,
    first: Noted<Pass<T>>,
    member: MemberId,
    request: Request,
    now: Moment,
) -> (BegunCall<T>, Option<LiveOutcome>)
    requires turn { Enters T.key_of first.value turn }
    requires env { T.means env.now turn.plan }
    requires named { has first.value.names (Call request.id) ≡ true }
    requires unused { IsNewKey T.key_of (Call request.id) first.value.seen }
    requires within { T.fits request }
    ensures { HasBegun T.key_of T.tells T.call_of turn.entry.plan first.value member request now result.0 result.1 }
{
    let mut turn = turn;
    let id = request.id;
    let partition = request.partition;
    gate.inside(member, partition, id);
    let (event, outcome) = run_call(alloc, &mut turn, env, member, request, now);
    let call = BegunCall {
        pass: turn.leave(),
        member,
        partition,
        id,
        looked: None,
        first,
        event,
    };
    (call, outcome)
}

/// Runs a call in a turn of its own, once that comes. Gives the outcome too, if that is known at once.
pub(crate) fn call_turn<T: Served + Runs<N>, N, G: Gate, R: Wait>(
    rt: &R,
    alloc: Global,
    place: &Workplace<T>,
    env: &N,
    gate: &G,
    call: NewCall<T>,
) -> (BegunCall<T>, Option<LiveOutcome>)
    requires call { (terms : Terms T.Plan T.Event) × IsNew T.key_of T.call_of T.fits (roster_of place.now.cells.items) terms call }
    requires env { All (λ cell. T.means env.now (plan_of cell)) place.now.cells.items }
    ensures { (terms : Terms T.Plan T.Event) → IsNew T.key_of T.call_of T.fits (roster_of place.now.cells.items) terms call
        → IsRun T.key_of T.tells T.call_of (roster_of place.now.cells.items) terms call.member call.request.partition call.request.id result.0 result.1 }
{
    let NewCall {
        pass,
        member,
        request,
        now,
    } = call;
    let first = Noted::of(&pass);
    let turn = place.cells[usize::from(request.partition)].enter(rt, pass);
    let begun = begin(alloc, turn, env, gate, first, member, request, now);
    place.event_ran(begun.0.partition);
    begun
}

/// Runs a call in a turn of its own, where the turn is free. Else the call comes back as it was. Waits for nobody.
pub(crate) fn try_call_turn<T: Served + Runs<N>, N, G: Gate>(
    alloc: Global,
    place: &Workplace<T>,
    env: &N,
    gate: &G,
    call: NewCall<T>,
) -> Result<(BegunCall<T>, Option<LiveOutcome>), NewCall<T>>
    requires call { (terms : Terms T.Plan T.Event) × IsNew T.key_of T.call_of T.fits (roster_of place.now.cells.items) terms call }
    requires env { All (λ cell. T.means env.now (plan_of cell)) place.now.cells.items }
    ensures begun { (terms : Terms T.Plan T.Event) → IsNew T.key_of T.call_of T.fits (roster_of place.now.cells.items) terms call
        → IfOk result (λ begun. IsRun T.key_of T.tells T.call_of (roster_of place.now.cells.items) terms call.member call.request.partition call.request.id begun.0 begun.1) }
    ensures back { IfErr result (λ back. back ≡ call) }
{
    let NewCall {
        pass,
        member,
        request,
        now,
    } = call;
    let first = Noted::of(&pass);
    match place.cells[usize::from(request.partition)].try_enter(pass) {
        Ok(turn) => {
            let begun = begin(alloc, turn, env, gate, first, member, request, now);
            place.event_ran(begun.0.partition);
            Ok(begun)
        }
        Err(pass) => Err(NewCall {
            pass,
            member,
            request,
            now,
        }),
    }
}

/// Runs the next delivery, if there is one.
fn deliver<'a, T: Served + Runs<N>, N>(alloc: Global, turn: &mut Turn<'a, T>, env: &N) -> Delivery
    requires first { turn.old.ran ≡ None }
    requires env { T.means env.now turn.old.plan }
    ensures pass { turn.new.pass ≡ turn.old.pass }
    ensures plan { turn.new.plan ≡ turn.old.plan }
    ensures free { IsFree T.key_of turn.new.ran }
{
    match turn.value().next_event() {
        Some(event) => match turn.run(alloc, env, event) {
            Ok(_) => Delivery::Ran,
            Err(RunRefused::Memory) => Delivery::NoMemory,
            Err(RunRefused::Exhausted { .. }) => Delivery::Nothing,
        },
        None => Delivery::Nothing,
    }
}

/// Runs the next delivery in a turn, if there is one, looks for the outcome of a call, and ends the turn.
fn deliver_and_look<'a, T: Served + Runs<N>, N>(
    alloc: Global,
    turn: Turn<'a, T>,
    env: &N,
    member: MemberId,
    id: CallId,
) -> (Pass<T>, Option<LiveOutcome>, Delivery)
    requires first { turn.ran ≡ None }
    requires env { T.means env.now turn.plan }
    ensures { HasDelivered T.key_of T.tells T.call_of turn.entry member id result.0 result.1 }
{
    let mut turn = turn;
    let delivery = deliver(alloc, &mut turn, env);
    let outcome = turn.outcome_of(member, id);
    (turn.leave(), outcome, delivery)
}

/// What a call comes to by a turn with this delivery, which is told of. `events` were told of before the turn.
fn step_to<T: Served>(
    place: &Workplace<T>,
    call: BegunCall<T>,
    outcome: Option<LiveOutcome>,
    delivery: Delivery,
    events: u64,
) -> Step<T>
    ensures { (terms : Terms T.Plan T.Event) → IsBegun T.key_of T.tells T.call_of (roster_of place.now.cells.items) terms call outcome
        → IsStep T.key_of T.tells T.call_of (roster_of place.now.cells.items) terms call.member call.partition call.id result }
{
    if let Delivery::Ran = delivery {
        place.event_ran(call.partition);
    }
    let mut call = call;
    match outcome {
        Some(outcome) => Step::Known(call, outcome),
        None => match delivery {
            Delivery::Ran => Step::Delivered(call),
            Delivery::Nothing => {
                call.looked = Some(events);
                Step::Rests(call)
            }
            Delivery::NoMemory => {
                call.looked = None;
                Step::Rests(call)
            }
        },
    }
}

/// One turn with a delivery, if there is one, and a look for the outcome of a call, once the turn comes.
pub(crate) fn delivery_turn<T: Served + Runs<N>, N, R: Wait>(
    rt: &R,
    alloc: Global,
    place: &Workplace<T>,
    env: &N,
    call: BegunCall<T>,
) -> Step<T>
    requires call { (terms : Terms T.Plan T.Event) × IsBegun T.key_of T.tells T.call_of (roster_of place.now.cells.items) terms call None }
    requires env { All (λ cell. T.means env.now (plan_of cell)) place.now.cells.items }
    ensures { (terms : Terms T.Plan T.Event) → IsBegun T.key_of T.tells T.call_of (roster_of place.now.cells.items) terms call None
        → IsStep T.key_of T.tells T.call_of (roster_of place.now.cells.items) terms call.member call.partition call.id result }
{
    let BegunCall {
        pass,
        member,
        partition,
        id,
        looked,
        first,
        event,
    } = call;
    let events = place.events(partition);
    let turn = place.cells[usize::from(partition)].enter(rt, pass);
    let (pass, outcome, delivery) = deliver_and_look(alloc, turn, env, member, id);
    let call = BegunCall {
        pass,
        member,
        partition,
        id,
        looked,
        first,
        event,
    };
    step_to(place, call, outcome, delivery, events)
}

/// The same where the turn is free. Else the call rests as it was. Waits for nobody.
pub(crate) fn try_delivery_turn<T: Served + Runs<N>, N>(
    alloc: Global,
    place: &Workplace<T>,
    env: &N,
    call: BegunCall<T>,
) -> Step<T>
    requires call { (terms : Terms T.Plan T.Event) × IsBegun T.key_of T.tells T.call_of (roster_of place.now.cells.items) terms call None }
    requires env { All (λ cell. T.means env.now (plan_of cell)) place.now.cells.items }
    ensures { (terms : Terms T.Plan T.Event) → IsBegun T.key_of T.tells T.call_of (roster_of place.now.cells.items) terms call None
        → IsStep T.key_of T.tells T.call_of (roster_of place.now.cells.items) terms call.member call.partition call.id result }
{
    let BegunCall {
        pass,
        member,
        partition,
        id,
        looked,
        first,
        event,
    } = call;
    let events = place.events(partition);
    match place.cells[usize::from(partition)].try_enter(pass) {
        Ok(turn) => {
            let (pass, outcome, delivery) = deliver_and_look(alloc, turn, env, member, id);
            let call = BegunCall {
                pass,
                member,
                partition,
                id,
                looked,
                first,
                event,
            };
            step_to(place, call, outcome, delivery, events)
        }
        Err(pass) => Step::Rests(BegunCall {
            pass,
            member,
            partition,
            id,
            looked,
            first,
            event,
        }),
    }
}
