//! The rule of a parcel.
ghost use Rattle.job_queues.specs.Answers.{IsDone};
ghost use Rattle.job_queues.specs.ParcelRule.{Parcelled, sender_of, receiver_of, sees_room, gives};
ghost use Rattle.job_queues.specs.declared.terms.ParcelSide.TheVariants.{Opening};

use crate::parcel::Done;
use crate::terms::ParcelSide;
use crossbeam_queue::protocol::{Lesson, Outcome, Protocol, Split};
use hand_cell::Served;
use std::marker::{Brand, PhantomData};

/// What lies in a parcel is an answer on its terms, and it is empty while its sender's end isn't spent.
pub struct ParcelRule<T> {
    value: PhantomData<T>,
}

impl<T: Served> Protocol<Done<T>, ParcelSide<T>> for ParcelRule<T> {
    ghost holds = { Parcelled (IsDone T.key_of T.tells) };

    ghost first = { Opening };
}

/// Names the terms of a parcel. Each call of a program picks it.
pub(crate) trait TermsAre<P, E> {
    ghost use Rattle.std.specs.Prelude.{Option};
    ghost use Rattle.job_queues.specs.Terms.{Terms};

    ghost terms: { Option (Terms P E) };
}

impl<P, E> TermsAre<P, E> for Brand {
    ghost use Rattle.std.specs.Prelude.{None};

    ghost terms = { None };
}

/// The first end becomes the sender's, and the new one the receiver's.
pub(crate) struct Seal<W> {
    terms: PhantomData<W>,
}

impl<T: Served, W: TermsAre<T::Plan, T::Event>> Split<ParcelSide<T>> for Seal<W> {
    ghost left = { λ _. sender_of W.terms };

    ghost right = { λ _. receiver_of W.terms };
}

/// The sender finds the parcel empty.
pub(crate) struct Sends<T> {
    value: PhantomData<T>,
}

impl<T: Served> Outcome<Done<T>, ParcelSide<T>> for Sends<T> {
    ghost then = { λ v x w. Unit {0} };
}

impl<T: Served> Lesson<Done<T>, ParcelSide<T>> for Sends<T> {
    ghost fact = { sees_room };
}

/// The receiver finds an answer on its terms.
pub(crate) struct Gives<T> {
    value: PhantomData<T>,
}

impl<T: Served> Outcome<Done<T>, ParcelSide<T>> for Gives<T> {
    ghost then = { gives (IsDone T.key_of T.tells) };
}

impl<T: Served> Lesson<Done<T>, ParcelSide<T>> for Gives<T> {
    ghost fact = { λ v items. Unit {0} };
}
