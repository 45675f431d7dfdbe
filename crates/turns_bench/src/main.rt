//! Takes turns on counters, for `bench/turns.sh`: by turn cells, and by a mutex with a condition variable.
//!
//! `turns_bench cell|lock one|shared|apart TURNS` has one thread or four take so many turns each, the four on one
//! counter (`shared`) or each on its own (`apart`), and prints how many were counted. With no words it tries each for
//! 100 turns.
//!
//! `turns_bench calls queue|once|lock busy|parked CALLS` has a thread make so many calls, one after another, which another
//! thread answers: through a queue of jobs and parcels, or through a mutex and a condition variable for each way. By `once`
//! the first thread makes them itself, while the worker of the queue stands by. `parked` has the other sleep before each. It
//! prints how many calls a second there were, and what 50 and 99 of 100 took at most.
#![tactic(auto)]

mod calls;
mod cells;
mod echo;
mod locks;
mod mailbox;
mod pace;
mod ticks;

use calls::Runner;
use grid_base::Memory;
use pace::{Pace, Summary};
use std::alloc::{AllocError, Global};
use std::process::ExitCode;
use std::rt::Clock;
use std::sync::Wait;
use std::thread::Threads;
use std::{env, io};

const USAGE: &str =
    "usage: turns_bench [cell|lock one|shared|apart TURNS | calls queue|once|lock busy|parked CALLS]";

/// The turns of each thread where no number is given.
const FEW: u32 = 100;

/// By what threads take turns.
#[derive(Clone, Copy)]
enum Means {
    Cell,
    Lock,
}

impl Means {
    fn named(word: &str) -> Option<Means> {
        match word {
            "cell" => Some(Means::Cell),
            "lock" => Some(Means::Lock),
            _ => None,
        }
    }

    fn name(self) -> &'static str {
        match self {
            Means::Cell => "cell",
            Means::Lock => "lock",
        }
    }
}

/// How many threads take turns, on how many counters.
#[derive(Clone, Copy)]
enum Shape {
    /// One thread on one counter.
    One,
    /// Four threads on one counter.
    Shared,
    /// Four threads, each on its own counter.
    Apart,
}

impl Shape {
    fn named(word: &str) -> Option<Shape> {
        match word {
            "one" => Some(Shape::One),
            "shared" => Some(Shape::Shared),
            "apart" => Some(Shape::Apart),
            _ => None,
        }
    }

    fn name(self) -> &'static str {
        match self {
            Shape::One => "one",
            Shape::Shared => "shared",
            Shape::Apart => "apart",
        }
    }
}

/// A trial: what is timed.
#[derive(Clone, Copy)]
struct Trial {
    means: Means,
    shape: Shape,
    /// Of each thread.
    turns: u32,
}

impl Trial {
    fn of_words(words: &[String]) -> Option<Trial> {
        match words {
            [means, shape, turns] => Some(Trial {
                means: Means::named(means.as_str())?,
                shape: Shape::named(shape.as_str())?,
                turns: turns.as_str().parse::<u32>().ok()?,
            }),
            _ => None,
        }
    }

    /// Takes the turns, and answers how many were counted.
    fn count<R: Threads + Wait + Sync>(self, rt: &R, alloc: Global) -> Result<u64, Memory> {
        match (self.means, self.shape) {
            (Means::Cell, Shape::One) => cells::one(rt, alloc, self.turns),
            (Means::Cell, Shape::Shared) => cells::shared(rt, alloc, self.turns),
            (Means::Cell, Shape::Apart) => cells::apart(rt, alloc, self.turns),
            (Means::Lock, Shape::One) => Ok(locks::one(rt, self.turns)),
            (Means::Lock, Shape::Shared) => Ok(locks::shared(rt, self.turns)),
            (Means::Lock, Shape::Apart) => Ok(locks::apart(rt, self.turns)),
        }
    }
}

/// Takes the turns of a trial, and prints how many were counted.
fn report<R: Threads + Wait + Sync + Print>(rt: &R, alloc: Global, trial: Trial) -> io::Result<()> {
    let (means, shape) = (trial.means.name(), trial.shape.name());
    match trial.count(rt, alloc) {
        Ok(count) => println!(rt; "{means} {shape}: {count} turns"),
        Err(AllocError) => println!(rt; "{means} {shape}: want of memory"),
    }
}

fn report_each<R: Threads + Wait + Sync + Print>(rt: &R, alloc: Global) -> io::Result<()> {
    for means in [Means::Cell, Means::Lock] {
        for shape in [Shape::One, Shape::Shared, Shape::Apart] {
            report(
                rt,
                alloc,
                Trial {
                    means,
                    shape,
                    turns: FEW,
                },
            )?;
        }
    }
    Ok(())
}

/// By what calls go to the other thread and back, if they do.
#[derive(Clone, Copy)]
enum Way {
    Queue,
    /// They are made at once.
    Once,
    Lock,
}

impl Way {
    fn name(self) -> &'static str {
        match self {
            Way::Queue => "queue",
            Way::Once => "once",
            Way::Lock => "lock",
        }
    }
}

/// A trial of calls.
#[derive(Clone, Copy)]
struct CallTrial {
    way: Way,
    pace: Pace,
}

impl CallTrial {
    fn of_words(words: &[String]) -> Option<CallTrial> {
        let [first, way, pace, calls] = words else {
            return None;
        };
        if first.as_str() != "calls" {
            return None;
        }
        let way = match way.as_str() {
            "queue" => Way::Queue,
            "once" => Way::Once,
            "lock" => Way::Lock,
            _ => return None,
        };
        let parked = match pace.as_str() {
            "busy" => false,
            "parked" => true,
            _ => return None,
        };
        let calls = calls.as_str().parse::<u32>().ok()?;
        Some(CallTrial {
            way,
            pace: Pace { calls, parked },
        })
    }

    /// How many nanoseconds each call took.
    fn times<R: Threads + Wait + Clock + Sync>(
        self,
        rt: &R,
        alloc: Global,
    ) -> io::Result<Vec<u64>> {
        match self.way {
            Way::Queue => calls::one_by_one(rt, alloc, self.pace, Runner::Worker),
            Way::Once => calls::one_by_one(rt, alloc, self.pace, Runner::Client),
            Way::Lock => mailbox::through_mailbox(rt, alloc, self.pace),
        }
    }
}

/// Makes the calls of a trial, and prints what they took.
fn report_calls<R: Threads + Wait + Clock + Sync + Print>(
    rt: &R,
    alloc: Global,
    trial: CallTrial,
) -> io::Result<()> {
    let (way, pace) = (
        trial.way.name(),
        if trial.pace.parked { "parked" } else { "busy" },
    );
    let times = trial.times(rt, alloc)?;
    let count = times.len();
    let summary = Summary::of(times)?;
    println!(rt;
        "calls {way} {pace}: {count} calls {} a second p50 {} ns p99 {} ns",
        summary.per_second, summary.half, summary.most
    )
}

/// Makes few calls each way, and prints how many were answered.
fn report_each_way<R: Threads + Wait + Clock + Sync + Print>(
    rt: &R,
    alloc: Global,
) -> io::Result<()> {
    for way in [Way::Queue, Way::Once, Way::Lock] {
        for parked in [false, true] {
            let pace = Pace { calls: FEW, parked };
            let count = CallTrial { way, pace }.times(rt, alloc)?.len();
            let pace = if parked { "parked" } else { "busy" };
            println!(rt; "calls {} {pace}: {count} calls", way.name())?;
        }
    }
    Ok(())
}

fn main(rt: HostRuntime) -> io::Result<ExitCode> {
    let mut words = Vec::new(rt.alloc());
    for word in env::args(&rt)?.skip(1) {
        words.push(word)?;
    }
    if words.is_empty() {
        report_each(&rt, rt.alloc())?;
        report_each_way(&rt, rt.alloc())?;
        return Ok(ExitCode::SUCCESS);
    }
    if let Some(trial) = CallTrial::of_words(words.as_slice()) {
        report_calls(&rt, rt.alloc(), trial)?;
        return Ok(ExitCode::SUCCESS);
    }
    let Some(trial) = Trial::of_words(words.as_slice()) else {
        rt.eprintln(USAGE)?;
        return Ok(ExitCode::FAILURE);
    };
    report(&rt, rt.alloc(), trial)?;
    Ok(ExitCode::SUCCESS)
}
