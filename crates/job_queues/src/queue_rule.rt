//! The rule of a queue.
ghost use Rattle.job_queues.specs.Jobs.{IsJobFor};
ghost use Rattle.job_queues.specs.QueueRule.{Queued, knows, were_for};
ghost use Rattle.job_queues.specs.declared.roster.QueueSide.TheVariants.{Opening, Ready, Spent};

use crate::job::Job;
use crate::roster::QueueSide;
use crossbeam_queue::protocol::{Lesson, Outcome, Protocol, Split};
use hand_cell::Served;
use std::marker::{Brand, PhantomData};

/// Each job that waits may be done on the cells that the queue is made for.
pub struct QueueRule<T> {
    job: PhantomData<T>,
}

impl<T: Served> Protocol<Job<T>, QueueSide<T::Plan>> for QueueRule<T> {
    ghost holds = { Queued (IsJobFor T.key_of T.tells T.call_of T.fits) };

    ghost first = { Opening };
}

/// Names the cells that a queue is made for. Each call of a program picks it.
pub(crate) trait RosterIs<P> {
    ghost use Rattle.job_queues.specs.Roster.{Roster};

    ghost roster: { Roster P };
}

impl<P> RosterIs<P> for Brand {
    ghost use Rattle.std.specs.Prelude.{[]};

    ghost roster = { record { tables = []; plans = [] } };
}

/// The first pass learns for which cells the queue is.
pub(crate) struct Open<C> {
    cells: PhantomData<C>,
}

impl<P, C: RosterIs<P>> Split<QueueSide<P>> for Open<C> {
    ghost left = { λ _. Ready C.roster };

    ghost right = { λ _. Spent };
}

/// Both passes know the same.
pub(crate) struct Copied;

impl<P> Split<QueueSide<P>> for Copied {
    ghost left = { λ v. v };

    ghost right = { λ v. v };
}

/// A job is handed over, or found to be for the cells.
pub(crate) struct HandsOver<T> {
    job: PhantomData<T>,
}

impl<T: Served> Outcome<Job<T>, QueueSide<T::Plan>> for HandsOver<T> {
    ghost then = { knows (IsJobFor T.key_of T.tells T.call_of T.fits) };
}

impl<T: Served> Lesson<Job<T>, QueueSide<T::Plan>> for HandsOver<T> {
    ghost fact = { were_for (IsJobFor T.key_of T.tells T.call_of T.fits) };
}
