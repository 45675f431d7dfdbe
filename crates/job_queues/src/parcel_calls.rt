//! What threads call on a parcel.
ghost use Rattle.std.specs.Prelude.{◌≡◌, Some, IfOk, IfSome, IfNone};
ghost use Rattle.std.specs.Arc.{arc_value};
ghost use Rattle.crossbeam_queue.specs.Passes.{view, IsPassOf};
ghost use Rattle.job_queues.specs.declared.terms.ParcelSide.TheVariants.{Opening, Sender, Receiver};
ghost use Rattle.job_queues.specs.Terms.{Terms, terms_for, terms_noted};
ghost use Rattle.job_queues.specs.Ends.{IsEndOf, new_end, after_empty_look};
ghost use Rattle.job_queues.specs.Answers.{IsDone};

use crate::bell::Bell;
use crate::call::BegunCall;
use crate::parcel::{Done, Parcel, ParcelEnd};
use crate::parcel_rule::{Gives, Seal, Sends, TermsAre};
use crate::terms::ParcelSide;
use crossbeam_queue::{Pass as Seat, RuledArrayQueue};
use grid_base::{MemberId, Memory, Moment, Request};
use hand_cell::{Cell, Pass, Served};
use std::alloc::{AllocError, Global};
use std::marker::Brand;
use std::sync::{Arc, Wait};

impl<T: Served> Parcel<T> {
    /// An empty parcel for this call and for what the pass has seen, with the sender's end and the receiver's.
    pub fn new(
        alloc: Global,
        cell: &Cell<T>,
        pass: &Pass<T>,
        member: MemberId,
        request: &Request,
        now: Moment,
    ) -> Result<(Arc<Parcel<T>>, ParcelEnd<T>, ParcelEnd<T>), Memory>
        ensures sender { IfOk result (λ made. made.1 ≡ new_end (arc_value made.0) (Sender (terms_for T.call_of cell.now pass.now member request.now now))) }
        ensures receiver { IfOk result (λ made. made.2 ≡ new_end (arc_value made.0) (Receiver (terms_for T.call_of cell.now pass.now member request.now now))) }
    {
        let (parcel, mut sender) = Parcel::unsealed(alloc)?;
        let receiver = parcel.seal::<Brand>(&mut sender, cell, pass, member, request, now);
        parcel.shared(alloc, sender, receiver)
    }

    /// An empty parcel for this call, which has run on the cell, with the sender's end and the receiver's. It is on the terms
    /// that the call noted.
    pub fn noted(
        alloc: Global,
        cell: &Cell<T>,
        call: &BegunCall<T>,
    ) -> Result<(Arc<Parcel<T>>, ParcelEnd<T>, ParcelEnd<T>), Memory>
        ensures sender { IfOk result (λ made. made.1 ≡ new_end (arc_value made.0) (Sender (terms_noted cell.now call.now))) }
        ensures receiver { IfOk result (λ made. made.2 ≡ new_end (arc_value made.0) (Receiver (terms_noted cell.now call.now))) }
    {
        let (parcel, mut sender) = Parcel::unsealed(alloc)?;
        let receiver = parcel.seal_noted::<Brand>(&mut sender, cell, call);
        parcel.shared(alloc, sender, receiver)
    }

    /// An empty parcel that has no terms yet, and its first end.
    fn unsealed(alloc: Global) -> Result<(Parcel<T>, Seat<Done<T>, ParcelSide<T>>), Memory>
        ensures queue { IfOk result (λ made. IsPassOf made.0.queue made.1) }
        ensures first { IfOk result (λ made. view made.1 ≡ Opening) }
    {
        match RuledArrayQueue::ruled(alloc, 1) {
            Ok((queue, seat)) => Ok((
                Parcel {
                    queue,
                    bell: Bell::new(),
                },
                seat,
            )),
            Err(_) => Err(AllocError),
        }
    }

    /// The parcel in shared memory, with both its ends.
    fn shared(
        self,
        alloc: Global,
        sender: Seat<Done<T>, ParcelSide<T>>,
        receiver: Seat<Done<T>, ParcelSide<T>>,
    ) -> Result<(Arc<Parcel<T>>, ParcelEnd<T>, ParcelEnd<T>), Memory>
        requires queue { IsPassOf self.queue sender × IsPassOf self.queue receiver }
        ensures sender { IfOk result (λ made. made.1 ≡ new_end (arc_value made.0) (view sender)) }
        ensures receiver { IfOk result (λ made. made.2 ≡ new_end (arc_value made.0) (view receiver)) }
    {
        Ok((
            Arc::new(alloc, self)?,
            ParcelEnd {
                seat: sender,
                empty: 0,
            },
            ParcelEnd {
                seat: receiver,
                empty: 0,
            },
        ))
    }

    fn seal<W: TermsAre<T::Plan, T::Event>>(
        &self,
        seat: &mut Seat<Done<T>, ParcelSide<T>>,
        cell: &Cell<T>,
        pass: &Pass<T>,
        member: MemberId,
        request: &Request,
        now: Moment,
    ) -> Seat<Done<T>, ParcelSide<T>>
        requires terms { W.terms ≡ Some (terms_for T.call_of cell.now pass.now member request.now now) }
        requires queue { IsPassOf self.now.queue seat.old }
        requires first { view seat.old ≡ Opening }
        ensures queue { IsPassOf self.now.queue seat.new × IsPassOf self.now.queue result }
        ensures sender { view seat.new ≡ Sender (terms_for T.call_of cell.now pass.now member request.now now) }
        ensures receiver { view result ≡ Receiver (terms_for T.call_of cell.now pass.now member request.now now) }
    {
        let _ = cell;
        let _ = pass;
        let _ = member;
        let _ = request;
        let _ = now;
        self.queue.another::<Seal<W>>(seat)
    }

    fn seal_noted<W: TermsAre<T::Plan, T::Event>>(
        &self,
        seat: &mut Seat<Done<T>, ParcelSide<T>>,
        cell: &Cell<T>,
        call: &BegunCall<T>,
    ) -> Seat<Done<T>, ParcelSide<T>>
        requires terms { W.terms ≡ Some (terms_noted cell.now call.now) }
        requires queue { IsPassOf self.now.queue seat.old }
        requires first { view seat.old ≡ Opening }
        ensures queue { IsPassOf self.now.queue seat.new × IsPassOf self.now.queue result }
        ensures sender { view seat.new ≡ Sender (terms_noted cell.now call.now) }
        ensures receiver { view result ≡ Receiver (terms_noted cell.now call.now) }
    {
        let _ = cell;
        let _ = call;
        self.queue.another::<Seal<W>>(seat)
    }

    /// Fills the parcel, and wakes its receiver. It can't be refused. Constant time and no memory; a system call only
    /// where the receiver sleeps.
    pub fn put<R: Wait>(&self, rt: &R, end: ParcelEnd<T>, done: Done<T>)
        requires end { IsEndOf self.now end }
        requires done { (terms : Terms T.Plan T.Event) × (end.side ≡ Sender terms) × IsDone T.key_of T.tells terms done }
    {
        let ParcelEnd { mut seat, .. } = end;
        match self.queue.push_as::<Sends<T>, R>(rt, &mut seat, done) {
            Ok(()) => self.bell.ring(),
            Err(_) => unreachable!(),
        }
    }

    /// The answer, if it has come. None comes only where the parcel was empty at a moment of this call: the count of
    /// empty looks rises then, and nowhere else. Constant time, no memory and no system call.
    pub fn look<R: Wait>(&self, rt: &R, end: &mut ParcelEnd<T>) -> Option<Done<T>>
        requires end { IsEndOf self.now end.old }
        requires receiver { (terms : Terms T.Plan T.Event) × (end.old.side ≡ Receiver terms) }
        ensures done { (terms : Terms T.Plan T.Event) → end.old.side ≡ Receiver terms → IfSome result (λ done. IsDone T.key_of T.tells terms done) }
        ensures rose { IfNone result (end.new ≡ after_empty_look end.old) }
    {
        match self.queue.pop_as::<Gives<T>, R>(rt, &mut end.seat) {
            Some(done) => Some(done),
            None => {
                end.empty = end.empty.saturating_add(1);
                None
            }
        }
    }

    /// Waits for the answer: it sleeps once it has looked often, and makes no system call where the parcel is full.
    pub fn wait<R: Wait>(&self, rt: &R, end: ParcelEnd<T>) -> Done<T>
        requires end { IsEndOf self.now end }
        requires receiver { (terms : Terms T.Plan T.Event) × (end.side ≡ Receiver terms) }
        ensures { (terms : Terms T.Plan T.Event) → end.side ≡ Receiver terms → IsDone T.key_of T.tells terms result }
    {
        let ParcelEnd { mut seat, .. } = end;
        let mut idle: u32 = 0;
        for _ in rt.forever() {
            let rings = self.bell.rings();
            if let Some(done) = self.queue.pop_as::<Gives<T>, R>(rt, &mut seat) {
                return done;
            }
            idle = self.bell.rest(rt, rings, idle);
        }
        unreachable!()
    }
}
