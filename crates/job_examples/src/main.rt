//! Examples of job queues, workers and sessions: a queue of one place hands a job back, workers serve calls that are
//! held, two callers make their calls at one partition, and sessions start and finish calls without waiting.
#![tactic(auto)]

mod meeting;
mod queue_of_one;
mod relay;
mod requests;
mod serving;
mod sessions;

use grid_base::Memory;
use queue_of_one::OneByOne;
use sessions::Story;
use std::alloc::{AllocError, Global};
use std::io;
use std::sync::Wait;
use std::thread::Threads;

/// How often calls are served while all threads are made to sleep and to be woken.
const ROUNDS: u32 = 50;

/// How often a thread lets others run between two steps: more often than one looks before it sleeps.
const PAUSES: u32 = 400;

/// Whether both calls were answered with their own reply and both workers ended, each time.
fn served_each_time<R: Threads + Wait + Sync>(
    rt: &R,
    alloc: Global,
    rounds: u32,
    pauses: u32,
) -> Result<bool, Memory> {
    for _ in 0..rounds {
        let exchange = serving::serve_two(rt, alloc, pauses)?;
        if exchange.held != Some(1) || exchange.sent != Some(2) || exchange.ended != (true, true) {
            return Ok(false);
        }
    }
    Ok(true)
}

/// Whether two callers at one partition were answered with their own reply, each time.
fn met_each_time<R: Threads + Wait + Sync>(rt: &R, alloc: Global) -> Result<bool, Memory> {
    for _ in 0..ROUNDS {
        if meeting::meet(rt, alloc)? != (Some(1), Some(2)) {
            return Ok(false);
        }
    }
    Ok(true)
}

/// Whether the full queue handed the second job back, and what was taken was what was put, in its order.
fn is_in_order(seen: &OneByOne) -> bool {
    seen.handed_back == 2 && seen.taken == (Some(1), Some(2), None)
}

/// Whether the first call was ended by its worker alone, and the second session found the queue full.
fn is_told(story: &Story) -> bool {
    story.not_yet && story.busy && story.replied == Some(1)
}

fn main(rt: HostRuntime) -> io::Result<()> {
    match queue_of_one::put_one_by_one(&rt, rt.alloc()) {
        Ok(Some(seen)) if is_in_order(&seen) => {
            println!(rt;
                "a queue of one place: the second job came back, and was taken after the first"
            )?
        }
        Ok(_) => println!(rt; "a queue of one place: a job is missing, or too many")?,
        Err(AllocError) => println!(rt; "want of memory")?,
    }
    match sessions::call_alone(&rt, rt.alloc()) {
        Ok(story) if is_told(&story) => {
            println!(rt;
                "two sessions: one call was ended by its worker, the other wasn't started"
            )?
        }
        Ok(_) => println!(rt; "two sessions: an answer is missing, or a pass")?,
        Err(AllocError) => println!(rt; "want of memory")?,
    }
    match met_each_time(&rt, rt.alloc()) {
        Ok(true) => println!(rt; "two callers at one partition: both were answered")?,
        Ok(false) => println!(rt; "two callers at one partition: an answer is missing")?,
        Err(AllocError) => println!(rt; "want of memory")?,
    }
    for pauses in [0, PAUSES] {
        match served_each_time(&rt, rt.alloc(), ROUNDS, pauses) {
            Ok(true) => println!(rt;
                "two workers: a held call was answered once another's event had run"
            )?,
            Ok(false) => println!(rt; "two workers: an answer is missing, or a call was left")?,
            Err(AllocError) => println!(rt; "want of memory")?,
        }
    }
    Ok(())
}
