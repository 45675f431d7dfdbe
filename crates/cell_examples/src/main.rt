//! Two examples of turn cells: calls of two threads are both counted, and turns on two cells run beside one another.
#![tactic(auto)]

mod counter;
mod meeting;
mod pairs;

use grid_base::Memory;
use std::alloc::{AllocError, Global};
use std::io;
use std::sync::Wait;
use std::thread::Threads;

/// How often two threads make a call each.
const ROUNDS: u32 = 100;

/// Whether both calls were counted, each time.
fn counted_each_time<R: Threads + Wait + Sync>(rt: &R, alloc: Global) -> Result<bool, Memory> {
    for _ in 0..ROUNDS {
        let tally = pairs::count_both(rt, alloc)?;
        if !tally.first || !tally.second || tally.count != 2 {
            return Ok(false);
        }
    }
    Ok(true)
}

fn main(rt: HostRuntime) -> io::Result<()> {
    match counted_each_time(&rt, rt.alloc()) {
        Ok(true) => println!(rt; "two threads, a call each: two were counted")?,
        Ok(false) => println!(rt; "two threads, a call each: a call is missing")?,
        Err(AllocError) => println!(rt; "want of memory")?,
    }
    match meeting::meet_in_turns(&rt, rt.alloc()) {
        Ok((true, true)) => println!(rt; "two cells: both calls were in their turns at once")?,
        Ok(_) => println!(rt; "two cells: a call waited for the other's turn to end")?,
        Err(AllocError) => println!(rt; "want of memory")?,
    }
    Ok(())
}
