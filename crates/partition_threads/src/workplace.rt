//! Where workers work.
ghost use Rattle.std.specs.Prelude.{◌≡◌, ◌<◌, ◌+◌, ◌*◌, ◌%◌, vec_len, IfOk, OnOk, IfErr};
ghost use Rattle.job_queues.specs.Jobs.{IsJobFor, member_of, partition_of};
ghost use Rattle.job_queues.specs.Roster.{roster_of};
ghost use Rattle.job_queues.specs.Tokens.{after_full_look};
ghost use Rattle.partition_threads.specs.Workplaces.{IsTokenAt, AreTokensAt, AreTokensOf};

use crate::watch::Watch;
use grid_base::{MemberId, Memory, PartitionId};
use hand_cell::{Cell, Served};
use job_queues::{Bell, Busy, Job, JobQueue, QueuePass};
use std::alloc::Global;
use std::sync::Wait;
use std::sync::atomic::{AtomicU64, Ordering};

/// How many workers a member has.
pub const THREADS: usize = 4;

/// The number of the worker that runs the calls of a partition at a member.
pub fn worker_of(member: MemberId, partition: PartitionId) -> usize
    ensures { result ≡ 4 * member + partition % 4 }
{
    THREADS * usize::from(member) + usize::from(partition) % THREADS
}

/// A cell for each partition, and a queue of jobs for each worker, made for these cells.
#[derive(Drop)]
pub struct Workplace<T: Served> {
    pub cells: Vec<Cell<T>>,
    pub queues: Vec<JobQueue<T>>,
    /// Each worker sleeps on its own.
    pub(crate) bells: Vec<Bell>,
    /// One of each cell.
    pub(crate) watches: Vec<Watch>,
    pub(crate) stopped: AtomicU64,
}

impl<T: Served> Workplace<T> {
    /// A workplace over these cells, with so many workers whose queues hold so many jobs, and the first token of each
    /// worker's queue, in their order. Takes memory for all queues.
    pub fn new(
        alloc: Global,
        cells: Vec<Cell<T>>,
        workers: usize,
        jobs: usize,
    ) -> Result<(Workplace<T>, Vec<QueuePass<T>>), Memory>
        requires some { 0 < jobs }
        ensures cells { IfOk result (λ made. made.0.cells.items ≡ cells.items) }
        ensures workers { IfOk result (λ made. vec_len made.1 ≡ workers) }
        ensures tokens { IfOk result (λ made. AreTokensAt made.0 made.1.items) }
    {
        let (queues, tokens) = make_queues(alloc, cells.as_slice(), workers, jobs)?;
        let mut bells = Vec::new(alloc);
        for _ in 0..workers {
            bells.push(Bell::new())?;
        }
        let mut watches = Vec::new(alloc);
        for _ in 0..cells.len() {
            watches.push(Watch::new())?;
        }
        let place = Workplace {
            cells,
            queues,
            bells,
            watches,
            stopped: AtomicU64::new(0),
        };
        Ok((place, tokens))
    }

    /// A second token of a worker's queue, which begins to count. Takes no memory.
    pub fn split_token(&self, worker: usize, token: &mut QueuePass<T>) -> QueuePass<T>
        requires { IsTokenAt self.now worker token.old }
        ensures kept { token.new ≡ token.old }
        ensures token { IsTokenAt self.now worker result }
    {
        self.queues[worker].split(token)
    }

    /// Whether no job waited for a worker at a moment of this call. It waits for nobody: two loads, no memory and no system
    /// call.
    pub(crate) fn is_idle(&self, worker: usize, token: &mut QueuePass<T>) -> bool
        requires { IsTokenAt self.now worker token.old }
        ensures { token.new ≡ token.old }
    {
        self.queues[worker].is_empty(token)
    }

    /// Hands a job over to the worker of its partition at its member, and wakes that worker if it sleeps. The job comes
    /// back as it was only where the queue was full at a moment of this call: the token's count of full looks rises
    /// then, and nowhere else. Constant time and no memory; a system call only where the worker sleeps.
    pub fn submit<R: Wait>(
        &self,
        rt: &R,
        token: &mut QueuePass<T>,
        job: Job<T>,
    ) -> Result<(), Busy<T>>
        requires token { IsTokenAt self.now (4 * member_of job.work + partition_of job.work % 4) token.old }
        requires job { IsJobFor T.key_of T.tells T.call_of T.fits (roster_of self.now.cells.items) job }
        ensures ok { OnOk result (token.new ≡ token.old) }
        ensures back { IfErr result (λ busy. busy.job ≡ job) }
        ensures rose { IfErr result (λ _. token.new ≡ after_full_look token.old) }
    {
        let worker = worker_of(job.work.member(), job.work.partition());
        let put = self.queues[worker].put(rt, token, job);
        if put.is_ok() {
            self.ring(worker);
        }
        put
    }

    /// Tells of an event that was run in a partition, so that calls which are held there are looked at again. Who runs
    /// an event in a cell of the place calls it, after the turn. A system call only where a call is held there.
    pub fn event_ran(&self, partition: PartitionId) {
        if let Some(watch) = self.watches.get(usize::from(partition))
            && watch.event_ran()
        {
            self.ring_all(usize::from(partition) % THREADS);
        }
    }

    /// Has each worker end once its queue is empty and it holds no call.
    pub fn stop(&self) {
        self.stopped.store(1, Ordering::SeqCst);
        for thread in 0..THREADS {
            self.ring_all(thread);
        }
    }

    pub(crate) fn is_stopped(&self) -> bool {
        self.stopped.load(Ordering::SeqCst) != 0
    }

    /// Rings the workers that are this thread of their member.
    fn ring_all(&self, thread: usize) {
        for worker in 0..self.bells.len() {
            if worker % THREADS == thread {
                self.ring(worker);
            }
        }
    }

    fn ring(&self, worker: usize) {
        if let Some(bell) = self.bells.get(worker) {
            bell.ring();
        }
    }

    /// How often a worker's bell rang.
    pub(crate) fn rings(&self, worker: usize) -> u64 {
        match self.bells.get(worker) {
            Some(bell) => bell.rings(),
            None => 0,
        }
    }

    /// What a worker does that found no work, as `Bell::rest`.
    pub(crate) fn rest<R: Wait>(&self, rt: &R, worker: usize, rings: u64, idle: u32) -> u32 {
        match self.bells.get(worker) {
            Some(bell) => bell.rest(rt, rings, idle),
            None => 0,
        }
    }

    /// How many events of a partition were told of.
    pub(crate) fn events(&self, partition: PartitionId) -> u64 {
        match self.watches.get(usize::from(partition)) {
            Some(watch) => watch.events(),
            None => 0,
        }
    }

    /// A call of the partition is held from now on.
    pub(crate) fn hold(&self, partition: PartitionId) {
        if let Some(watch) = self.watches.get(usize::from(partition)) {
            watch.hold();
        }
    }

    /// A call of the partition that was held has its outcome.
    pub(crate) fn release(&self, partition: PartitionId) {
        if let Some(watch) = self.watches.get(usize::from(partition)) {
            watch.release();
        }
    }
}

/// So many queues for these cells, and the first token of each.
fn make_queues<T: Served>(
    alloc: Global,
    cells: &[Cell<T>],
    count: usize,
    jobs: usize,
) -> Result<(Vec<JobQueue<T>>, Vec<QueuePass<T>>), Memory>
    requires some { 0 < jobs }
    ensures count { IfOk result (λ made. vec_len made.1 ≡ count) }
    ensures tokens { IfOk result (λ made. AreTokensOf (roster_of cells.now) made.0.items made.1.items) }
{
    let mut queues = Vec::new(alloc);
    let mut tokens = Vec::new(alloc);
    for _ in 0..count {
        let (queue, token) = JobQueue::new(alloc, cells, jobs)?;
        queues.push(queue)?;
        tokens.push(token)?;
    }
    Ok((queues, tokens))
}
