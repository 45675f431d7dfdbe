//! How a turn is drawn, awaited, taken and passed on.
ghost use Rattle.std.specs.Prelude.{◌≡◌, [], Some, IfSome, IfNone};
ghost use Rattle.hand_cell.specs.declared.view.Stage.TheVariants.{Away, Waiting};
ghost use Rattle.hand_cell.specs.Rule.{view_of, at_stage, having_reached, IsSamePass, HasLooked, HasTurn, HasGlanced};
ghost use Rattle.hand_cell.specs.Inside.{IsTurn};
ghost use Rattle.hand_cell.specs.Told.{event_of, after_ran};

use crate::cell::Cell;
use crate::pass::Place;
use crate::stands::Stands;
use crate::steps::{Draw, EventIs, Glance, Look, PassOn, PlanIs, Seize};
use crate::view::Held;
use std::snapshot::Snapshot;
use std::sync::Wait;
use std::{hint, thread};

/// The word of the next ticket.
const NEXT: usize = 0;

/// The word of the ticket that is served.
pub(crate) const SERVED: usize = 1;

/// How often a waiting pass looks at the ticket served before it sleeps.
const LOOKS: u32 = 300;

impl<T: Stands> Cell<T> {
    /// Draws the next ticket. Where all 2^64 - 1 are drawn it waits for ever.
    pub(crate) fn draw<R: Wait>(&self, rt: &R, place: &mut Place<T>) -> u64
        requires cell { place.old.table_id ≡ self.now.table.shared.table_id }
        requires empty { place.old.me.1 ≡ [] }
        requires idle { (view_of place.old).stage ≡ Away }
        ensures cell { IsSamePass place.old place.new }
        ensures drawn { place.new.me ≡ (at_stage (view_of place.old) (Waiting result) (view_of place.old).seen, []) }
    {
        for _ in rt.forever() {
            let next = self.table.shared.peek(NEXT);
            if next == u64::MAX {
                thread::yield_now();
                continue;
            }
            let found = self
                .table
                .shared
                .compare_exchange::<Draw>(place, NEXT, next, next + 1);
            if found == next {
                return next;
            }
        }
        unreachable!()
    }

    /// Draws the next ticket and takes the value, where that ticket is the one served. Else it draws and takes nothing.
    pub(crate) fn seize<W: PlanIs<T::Plan>>(&self, place: &mut Place<T>) -> Option<(u64, Held<T>)>
        requires cell { place.old.table_id ≡ self.now.table.shared.table_id }
        requires plan { W.plan ≡ Some self.now.table.shared.key }
        requires empty { place.old.me.1 ≡ [] }
        requires idle { (view_of place.old).stage ≡ Away }
        ensures cell { IsSamePass place.old place.new }
        ensures taken { IfSome result (λ turn. HasTurn T.stands T.key_of self.now.table.shared.key
            (having_reached (view_of place.old) turn.0) turn.0 turn.1 place.new.me) }
        ensures left { IfNone result (HasGlanced (view_of place.old) place.new.me) }
    {
        let next = self.table.shared.peek(NEXT);
        let served = self.table.shared.load::<Glance>(place, SERVED);
        if served != next || next == u64::MAX {
            return None;
        }
        let found = self
            .table
            .shared
            .compare_exchange::<Seize<T, W>>(place, NEXT, next, next + 1);
        if found != next {
            return None;
        }
        let Some(held) = self.table.shared.exchange(place, 0, None) else {
            unreachable!()
        };
        Some((next, held))
    }

    /// Waits until the ticket is served, and takes the value.
    pub(crate) fn take<W: PlanIs<T::Plan>, R: Wait>(
        &self,
        rt: &R,
        place: &mut Place<T>,
        ticket: u64,
    ) -> Held<T>
        requires cell { place.old.table_id ≡ self.now.table.shared.table_id }
        requires plan { W.plan ≡ Some self.now.table.shared.key }
        requires empty { place.old.me.1 ≡ [] }
        requires waiting { (view_of place.old).stage ≡ Waiting ticket }
        ensures cell { IsSamePass place.old place.new }
        ensures taken { HasTurn T.stands T.key_of self.now.table.shared.key (view_of place.old) ticket result place.new.me }
    {
        for _ in rt.forever() {
            let served = self.spin::<W>(place, ticket);
            if served == ticket {
                let Some(held) = self.table.shared.exchange(place, 0, None) else {
                    unreachable!()
                };
                return held;
            }
            self.table
                .shared
                .park(rt, SERVED, (served % (1 << 32)) as u32);
        }
        unreachable!()
    }

    /// Looks at the ticket served, at most `LOOKS` times, until it is the pass's. Answers the one seen last.
    fn spin<W: PlanIs<T::Plan>>(&self, place: &mut Place<T>, ticket: u64) -> u64
        requires cell { place.old.table_id ≡ self.now.table.shared.table_id }
        requires plan { W.plan ≡ Some self.now.table.shared.key }
        requires waiting { (view_of place.old).stage ≡ Waiting ticket }
        ensures cell { IsSamePass place.old place.new }
        ensures looked { HasLooked T.stands T.key_of W.plan ticket result place.old.me place.new.me }
    {
        for _ in 1..LOOKS {
            let served = self.table.shared.load::<Look<T, W>>(place, SERVED);
            if served == ticket {
                return served;
            }
            hint::spin_loop();
        }
        self.table.shared.load::<Look<T, W>>(place, SERVED)
    }

    /// Puts the value back, and serves the next ticket. The event of the turn, if there was one, is then seen.
    pub(crate) fn pass_on<W: EventIs<T::Event>>(
        &self,
        place: &mut Place<T>,
        ticket: u64,
        held: Held<T>,
        ran: Option<Snapshot<T::Event>>,
    )
        requires ran { W.event ≡ event_of ran }
        requires turn { IsTurn T.stands T.key_of self.now.table.shared.table_id self.now.table.shared.key ticket place.old
            held ran }
        ensures cell { IsSamePass place.old place.new }
        ensures passed { place.new.me ≡ (at_stage (view_of place.old) Away (after_ran (view_of place.old).seen (event_of ran)), []) }
    {
        self.table.shared.exchange(place, 0, Some(held));
        self.table.shared.fetch_add::<PassOn<W>>(place, SERVED, 1);
        let _ = ran;
        self.wake_waiting(ticket);
    }

    /// Wakes those who wait, once the ticket was served: a system call where a later one was drawn, and else none.
    fn wake_waiting(&self, ticket: u64) {
        // No wake is lost: a waiter draws before it looks at the ticket served, and sleeps only while that is what it
        // saw. So whoever sleeps through the step before this look drew before that step, as all orderings are SeqCst.
        let last_drawn = self.table.shared.peek(NEXT).saturating_sub(1);
        if last_drawn > ticket {
            self.table.shared.wake_all(SERVED);
        }
    }
}
