//! What each step on a cell's table tells the pass that takes it.
//!
//! A step can't read the table's key or a call's arguments. What it is to know of them stands in a trait with one ghost
//! member, which the call picks.
use crate::stands::Stands;
use crate::view::{Held, View};
use atomic_table::{Join, Play, Split};
use std::marker::{Brand, PhantomData};

/// Draws a ticket.
pub(crate) struct Draw;

impl<T, E> Play<Option<Held<T>>, View<E>> for Draw {
    ghost use Rattle.hand_cell.specs.Rule.{Draws};

    ghost then = { Draws };
}

/// Names the plan of the cell.
pub(crate) trait PlanIs<P> {
    ghost use Rattle.std.specs.Prelude.{Option};

    ghost plan: { Option P };
}

impl<P> PlanIs<P> for Brand {
    ghost use Rattle.std.specs.Prelude.{None};

    ghost plan = { None };
}

/// Looks at the ticket served, and takes the turn where it is the pass's.
pub(crate) struct Look<T, W> {
    value: PhantomData<(T, W)>,
}

impl<T: Stands, W: PlanIs<T::Plan>> Play<Option<Held<T>>, View<T::Event>> for Look<T, W> {
    ghost use Rattle.hand_cell.specs.Rule.{Looks};

    ghost then = { Looks T.stands T.key_of W.plan };
}

/// Finds which ticket is served.
pub(crate) struct Glance;

impl<T, E> Play<Option<Held<T>>, View<E>> for Glance {
    ghost use Rattle.hand_cell.specs.Rule.{Reaches};

    ghost then = { Reaches };
}

/// Draws a ticket that is served already, and takes the turn.
pub(crate) struct Seize<T, W> {
    value: PhantomData<(T, W)>,
}

impl<T: Stands, W: PlanIs<T::Plan>> Play<Option<Held<T>>, View<T::Event>> for Seize<T, W> {
    ghost use Rattle.hand_cell.specs.Rule.{Seizes};

    ghost then = { Seizes T.stands T.key_of W.plan };
}

/// Names the event of a turn, if there was one.
pub(crate) trait EventIs<E> {
    ghost use Rattle.std.specs.Prelude.{Option};

    ghost event: { Option E };
}

impl<E> EventIs<E> for Brand {
    ghost use Rattle.std.specs.Prelude.{None};

    ghost event = { None };
}

/// Ends a turn, and serves the next ticket.
pub(crate) struct PassOn<W> {
    event: PhantomData<W>,
}

impl<T, E, W: EventIs<E>> Play<Option<Held<T>>, View<E>> for PassOn<W> {
    ghost use Rattle.hand_cell.specs.Rule.{PassesOn};

    ghost then = { PassesOn W.event };
}

/// Names what a split hands over.
pub(crate) trait NamesAre {
    ghost use Rattle.hand_cell.specs.declared.names.Names.{Names};

    ghost names: { Names };
}

impl NamesAre for Brand {
    ghost use Rattle.hand_cell.specs.declared.names.Names.TheVariants.{Nothing};

    ghost names = { Nothing };
}

/// Cuts a pass in two, each with its names.
pub(crate) struct HandOver<H> {
    names: PhantomData<H>,
}

impl<E, H: NamesAre> Split<View<E>> for HandOver<H> {
    ghost use Rattle.hand_cell.specs.Names.{left_names, given_names};
    ghost use Rattle.hand_cell.specs.Rule.{named_view, idle_view};

    ghost left = { λ v. named_view v (left_names H.names v.names) };

    ghost right = { λ v. idle_view v.seen (given_names H.names v.names) };
}

/// Takes a pass in.
pub(crate) struct Merge;

impl<E> Join<View<E>> for Merge {
    ghost use Rattle.hand_cell.specs.Rule.{joined_view, spent_view};

    ghost both = { joined_view };

    ghost spent = { spent_view };
}

/// Compares what the two passes of a join had seen.
pub(crate) struct Refresh<T> {
    value: PhantomData<T>,
}

impl<T: Stands> Play<Option<Held<T>>, View<T::Event>> for Refresh<T> {
    ghost use Rattle.hand_cell.specs.Rule.{Refreshes};

    ghost then = { Refreshes T.key_of };
}
