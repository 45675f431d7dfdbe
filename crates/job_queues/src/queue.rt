//! A queue of jobs, and its passes.
ghost use Rattle.std.specs.Prelude.{◌≡◌, ◌<◌, IfOk, IfErr, OnOk, IfSome, IfNone};
ghost use Rattle.crossbeam_queue.specs.Passes.{view, IsPassOf};
ghost use Rattle.job_queues.specs.declared.roster.QueueSide.TheVariants.{Opening, Ready};
ghost use Rattle.job_queues.specs.Roster.{roster_of};
ghost use Rattle.job_queues.specs.Jobs.{IsJobFor, WasFull};
ghost use Rattle.job_queues.specs.Tokens.{IsTokenOf, IsSameQueue, capacity_of, after_full_look, after_empty_look};

use crate::job::Job;
use crate::queue_rule::{Copied, HandsOver, Open, QueueRule, RosterIs};
use crate::roster::QueueSide;
use crossbeam_queue::{Pass as Seat, RuledArrayQueue};
use grid_base::Memory;
use hand_cell::{Cell, Served};
use std::alloc::{AllocError, Global};
use std::marker::{Brand, Model};
use std::sync::Wait;

/// Jobs that wait for a worker, oldest first. It is made for a list of cells, and any thread may put and take.
#[derive(Drop)]
pub struct JobQueue<T: Served> {
    pub(crate) queue: RuledArrayQueue<Job<T>, QueueSide<T::Plan>, QueueRule<T>, Global>,
}

/// What one holder knows of a queue: for which cells it is, and how often it found the queue full, and empty. The
/// counts stay at 2^64 - 1.
#[derive(Drop)]
pub struct QueuePass<T: Served> {
    pub(crate) seat: Seat<Job<T>, QueueSide<T::Plan>>,
    pub(crate) full: u64,
    pub(crate) empty: u64,
}

impl<T: Served> Model for QueuePass<T> {
    ghost use Rattle.job_queues.specs.Tokens.{Token, token, IsReady};

    ghost Value = { Token T.Plan };

    ghost view = { λ p. token p.seat p.full p.empty };

    ghost invariant = { λ p. IsReady p.seat };
}

/// The queue was full. The job comes back, with its pass.
#[derive(Drop)]
pub struct Busy<T: Served> {
    pub job: Job<T>,
}

impl<T: Served> JobQueue<T> {
    /// An empty queue for these cells, which holds this many jobs, and its first pass. It takes memory for all of them.
    pub fn new(
        alloc: Global,
        cells: &[Cell<T>],
        capacity: usize,
    ) -> Result<(JobQueue<T>, QueuePass<T>), Memory>
        requires some { 0 < capacity }
        ensures capacity { IfOk result (λ q. capacity_of q.0 ≡ capacity) }
        ensures token { IfOk result (λ q. IsTokenOf q.0 q.1) }
        ensures cells { IfOk result (λ q. q.1.roster ≡ roster_of cells.now) }
    {
        match RuledArrayQueue::ruled(alloc, capacity) {
            Ok((ruled, mut seat)) => {
                let queue = JobQueue { queue: ruled };
                queue.open_for::<Brand>(&mut seat, cells);
                Ok((
                    queue,
                    QueuePass {
                        seat,
                        full: 0,
                        empty: 0,
                    },
                ))
            }
            Err(_) => Err(AllocError),
        }
    }

    fn open_for<C: RosterIs<T::Plan>>(
        &self,
        seat: &mut Seat<Job<T>, QueueSide<T::Plan>>,
        cells: &[Cell<T>],
    )
        requires cells { C.roster ≡ roster_of cells.now }
        requires queue { IsPassOf self.now.queue seat.old }
        requires first { view seat.old ≡ Opening }
        ensures queue { IsPassOf self.now.queue seat.new }
        ensures knows { view seat.new ≡ Ready (roster_of cells.now) }
    {
        let _ = cells;
        self.queue.another::<Open<C>>(seat);
    }

    /// A second pass, which begins to count. Takes no memory.
    pub fn split(&self, token: &mut QueuePass<T>) -> QueuePass<T>
        requires { IsTokenOf self.now token.old }
        ensures kept { token.new ≡ token.old }
        ensures token { IsTokenOf self.now result }
        ensures cells { result.roster ≡ token.old.roster }
    {
        QueuePass {
            seat: self.queue.another::<Copied>(&mut token.seat),
            full: 0,
            empty: 0,
        }
    }

    /// Whether no job waited at a moment of this call. It waits for nobody: two loads, no memory and no system call.
    pub fn is_empty(&self, token: &mut QueuePass<T>) -> bool
        requires { IsTokenOf self.now token.old }
        ensures { token.new ≡ token.old }
    {
        self.queue.is_empty_as::<HandsOver<T>>(&mut token.seat)
    }

    /// Puts a job at the end. It comes back as it was only where the queue was full at a moment of this call: the count
    /// of full looks rises then, and nowhere else. Constant time, no memory and no system call; it waits only for a
    /// thread that was stopped in the midst of a `put` or `take` here.
    pub fn put<R: Wait>(&self, rt: &R, token: &mut QueuePass<T>, job: Job<T>) -> Result<(), Busy<T>>
        requires queue { IsTokenOf self.now token.old }
        requires job { IsJobFor T.key_of T.tells T.call_of T.fits token.old.roster job }
        ensures queue { IsSameQueue token.old token.new }
        ensures ok { OnOk result (token.new ≡ token.old) }
        ensures back { IfErr result (λ busy. busy.job ≡ job) }
        ensures rose { IfErr result (λ _. token.new ≡ after_full_look token.old) }
        ensures full { IfErr result (λ _. WasFull T.key_of T.tells T.call_of T.fits token.old.roster self.now) }
    {
        match self
            .queue
            .push_as::<HandsOver<T>, R>(rt, &mut token.seat, job)
        {
            Ok(()) => Ok(()),
            Err(job) => {
                token.full = token.full.saturating_add(1);
                Err(Busy { job })
            }
        }
    }

    /// Takes the oldest job, which meets the condition of `put`. None comes only where the queue was empty at a moment
    /// of this call: the count of empty looks rises then, and nowhere else. Costs what `put` costs.
    pub fn take<R: Wait>(&self, rt: &R, token: &mut QueuePass<T>) -> Option<Job<T>>
        requires { IsTokenOf self.now token.old }
        ensures job { IfSome result (λ job. IsJobFor T.key_of T.tells T.call_of T.fits token.old.roster job) }
        ensures queue { IsSameQueue token.old token.new }
        ensures same { IfSome result (λ _. token.new ≡ token.old) }
        ensures rose { IfNone result (token.new ≡ after_empty_look token.old) }
    {
        match self.queue.pop_as::<HandsOver<T>, R>(rt, &mut token.seat) {
            Some(job) => Some(job),
            None => {
                token.empty = token.empty.saturating_add(1);
                None
            }
        }
    }
}
