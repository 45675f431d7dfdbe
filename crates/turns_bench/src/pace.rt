//! How calls follow one another, and what they took.
use std::rt::Clock;
use std::time::{Duration, Instant};
use std::{io, thread};

/// How many calls are made, and whether the worker has gone to sleep before each.
#[derive(Clone, Copy)]
pub struct Pace {
    pub calls: u32,
    pub parked: bool,
}

impl Pace {
    /// Waits until the worker sleeps, where it is to.
    pub fn rest<R: Clock>(self, rt: &R) {
        if self.parked {
            thread::sleep(rt, Duration::from_millis(2));
        }
    }
}

/// How many nanoseconds have gone by since.
pub fn nanos_since<R: Clock>(rt: &R, start: Instant) -> io::Result<u64> {
    Ok(u64::try_from(start.elapsed(rt)?.as_nanos()).unwrap_or(u64::MAX))
}

/// What the calls took, in nanoseconds.
#[derive(Clone, Copy)]
pub struct Summary {
    pub per_second: u64,
    pub half: u64,
    pub most: u64,
}

impl Summary {
    /// Of the time of each call: how many there would be in a second of nothing else, the 50th and the 99th of 100.
    pub fn of(times: Vec<u64>) -> io::Result<Summary> {
        let per_second = per_second(times.as_slice());
        let mut sorted = times;
        sorted.sort()?;
        Ok(Summary {
            per_second,
            half: nth_of_hundred(sorted.as_slice(), 50),
            most: nth_of_hundred(sorted.as_slice(), 99),
        })
    }
}

fn per_second(times: &[u64]) -> u64 {
    let mut whole: u64 = 0;
    for time in times.iter() {
        whole = whole.saturating_add(*time);
    }
    if whole == 0 {
        return 0;
    }
    (times.len() as u64).saturating_mul(1_000_000_000) / whole
}

fn nth_of_hundred(times: &[u64], nth: usize) -> u64 {
    match times.get((times.len() / 100).saturating_mul(nth)) {
        Some(time) => *time,
        None => 0,
    }
}
