//! Looks keys up in a near cache that is full, for `bench/near.sh`: `near_bench ENTRIES LOOKS` fills a cache of so many
//! entries, makes so many look-ups of keys that it keeps, in an order that isn't the one in which they were kept, and prints how
//! many of them hit.
#![tactic(auto)]

use grid_base::{Bytes, Memory};
use near_cache::NearCache;
use std::alloc::Global;
use std::process::ExitCode;
use std::{env, io};

const USAGE: &str = "usage: near_bench [ENTRIES LOOKS]";

/// Between the number of a key and that of the next one to be looked up.
const STEP: u32 = 7919;

/// The key of this number. Its first four bytes are a hash, which says its partition, and it has no content.
fn key_of(alloc: Global, number: u32) -> Result<Bytes, Memory> {
    let mut key = Vec::with_capacity(alloc, 8)?;
    key.extend_from_slice(&number.saturating_add(1).to_be_bytes())?;
    key.extend_from_slice(&[0xff, 0xff, 0xff, 0xf5])?;
    Ok(Bytes::from_vec(key))
}

/// Keeps that a key has no value.
fn keep(cache: &mut NearCache, key: Bytes) -> Result<(), Memory> {
    let reservation = cache.reserve(key)?;
    cache.fill(reservation, None)?;
    Ok(())
}

/// A cache that keeps as many entries as it may.
fn filled(alloc: Global, entries: u32) -> Result<NearCache, Memory> {
    let mut cache = NearCache::new(alloc, (entries as usize).max(1))?;
    for number in 0..entries {
        keep(&mut cache, key_of(alloc, number)?)?;
    }
    Ok(cache)
}

/// How many of so many look-ups hit.
fn count_hits(
    alloc: Global,
    cache: &mut NearCache,
    entries: u32,
    looks: u32,
) -> Result<u32, Memory> {
    let mut hits = 0u32;
    let mut number = 0u32;
    for _ in 0..looks {
        if cache.hit(&key_of(alloc, number)?).is_some() {
            hits = hits.saturating_add(1);
        }
        number = number.saturating_add(STEP) % entries.max(1);
    }
    Ok(hits)
}

/// Fills a cache, looks up, and prints how many look-ups hit.
fn run(rt: &HostRuntime, entries: u32, looks: u32) -> io::Result<ExitCode> {
    let alloc = rt.alloc();
    let mut cache = filled(alloc, entries)?;
    let hits = count_hits(alloc, &mut cache, entries, looks)?;
    println!(rt; "{hits} hits")?;
    Ok(ExitCode::from(0))
}

fn main(rt: HostRuntime) -> io::Result<ExitCode> {
    let mut words = Vec::new(rt.alloc());
    for word in env::args(&rt)?.skip(1) {
        words.push(word)?;
    }
    match words.as_slice() {
        [] => run(&rt, 10, 1000),
        [entries, looks] => match (entries.parse::<u32>(), looks.parse::<u32>()) {
            (Ok(entries), Ok(looks)) => run(&rt, entries, looks),
            _ => usage(&rt),
        },
        _ => usage(&rt),
    }
}

fn usage(rt: &HostRuntime) -> io::Result<ExitCode> {
    eprintln!(rt; "{USAGE}")?;
    Ok(ExitCode::from(1))
}
