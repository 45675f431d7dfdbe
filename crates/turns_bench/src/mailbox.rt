//! The same calls by a mutex and a condition variable for each way.
use crate::pace::{Pace, nanos_since};
use std::alloc::Global;
use std::io;
use std::rt::Clock;
use std::sync::{Condvar, Mutex, Wait};
use std::thread::{Threads, join};
use std::time::Instant;

/// What lies under the first mutex.
#[derive(Drop)]
struct Waiting {
    job: Option<u32>,
    stopped: bool,
}

/// A place for a job and one for its answer.
#[derive(Drop)]
struct Mailbox {
    waiting: Mutex<Waiting>,
    came: Condvar,
    answer: Mutex<Option<u32>>,
    answered: Condvar,
}

impl Mailbox {
    fn new() -> Mailbox {
        Mailbox {
            waiting: Mutex::new(Waiting {
                job: None,
                stopped: false,
            }),
            came: Condvar::new(),
            answer: Mutex::new(None),
            answered: Condvar::new(),
        }
    }

    /// Hands a job over, and waits for its answer.
    fn call<R: Wait>(&self, rt: &R, job: u32) {
        self.waiting.lock(rt).job = Some(job);
        self.came.notify_one();
        let answer = self.answer.lock(rt);
        let mut answer = self
            .answered
            .wait_while(rt, answer, |answer| answer.is_none());
        *answer = None;
    }

    /// Waits for a job. None comes once the mailbox is stopped.
    fn take<R: Wait>(&self, rt: &R) -> Option<u32> {
        let waiting = self.waiting.lock(rt);
        let mut waiting = self.came.wait_while(rt, waiting, |waiting| {
            waiting.job.is_none() && !waiting.stopped
        });
        waiting.job.take()
    }

    /// Answers each job until the mailbox is stopped.
    fn work<R: Wait>(&self, rt: &R) {
        for _ in rt.forever() {
            let Some(job) = self.take(rt) else {
                return;
            };
            *self.answer.lock(rt) = Some(job);
            self.answered.notify_one();
        }
    }

    fn stop<R: Wait>(&self, rt: &R) {
        self.waiting.lock(rt).stopped = true;
        self.came.notify_one();
    }
}

fn call_each<R: Wait + Clock>(
    rt: &R,
    alloc: Global,
    mailbox: &Mailbox,
    pace: Pace,
) -> io::Result<Vec<u64>> {
    let mut times = Vec::new(alloc);
    for job in 0..pace.calls {
        pace.rest(rt);
        let start = Instant::now(rt)?;
        mailbox.call(rt, job);
        times.push(nanos_since(rt, start)?)?;
    }
    Ok(times)
}

/// Makes so many calls through a mailbox, and gives how many nanoseconds each took.
pub fn through_mailbox<R: Threads + Wait + Clock + Sync>(
    rt: &R,
    alloc: Global,
    pace: Pace,
) -> io::Result<Vec<u64>> {
    let mailbox = Mailbox::new();
    let (times, _) = join(
        rt,
        || {
            let times = call_each(rt, alloc, &mailbox, pace);
            mailbox.stop(rt);
            times
        },
        || mailbox.work(rt),
    );
    times
}
