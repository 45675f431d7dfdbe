//! The count.
ghost use Rattle.std.specs.Prelude.{◌≡◌, IfOk};
ghost use Rattle.std.specs.Option.{option_and_then, option_map};
ghost use Rattle.grid_base.specs.Limits.{FitsFrame};
ghost use Rattle.entry_processors.specs.NumberValues.{number_in};
ghost use Rattle.entry_processors.specs.Processors.{counted};
ghost use Rattle.object_store.specs.Records.{entry_in};
ghost use Rattle.live_grid.specs.Plans.{settings_in};
ghost use Rattle.live_grid.specs.Stored.{record_of};
ghost use Rattle.counted_calls.specs.Counts.{HasCounted};

use crate::laws::every_count_is_what_is_stored;
use crate::opening::{open_callers, take_back};
use crate::requests::{LEADER, PARTITION, THREAD, entry};
use crate::stage::Stage;
use crate::threads::{OTHERS, run_threads};
use entry_processors::Form;
use grid_base::{Bytes, Memory};
use live_grid::{Environment, GridPass, LiveGrid, Record, Shared};
use std::alloc::{AllocError, Global};
use std::sync::Wait;
use std::thread::Threads;
use thread_crew::room_for;

/// What a number value begins with.
const HEADER: [u8; 8] = [0, 0, 0, 0, 0xff, 0xff, 0xff, 0xf8];

/// What the calls came to.
#[derive(Clone, Copy, Debug, PartialEq, Eq)]
pub struct Counted {
    /// How many were answered by their object.
    pub answered: u32,
    /// The number that a turn then found stored of the key, 0 where nothing was; none where what is stored is no number.
    pub total: Option<i64>,
}

/// The number in a value.
fn number_of(value: &[u8]) -> Option<i64>
    ensures { result ≡ number_in value.now }
{
    let (header, digits) = value.split_first_chunk::<8>()?;
    let digits = digits.as_array::<8>()?;
    if *header == HEADER {
        Some(i64::from_be_bytes(*digits))
    } else {
        None
    }
}

/// The number in a value, or 0 where there is none.
fn number_or_nothing(value: &Option<Bytes>) -> Option<i64>
    ensures { result ≡ counted value.now }
{
    match value {
        Some(value) => number_of(value.as_slice()),
        None => Some(0),
    }
}

/// The number in what was found, or 0 where nothing was.
fn number_found(found: &Option<Record>) -> Option<i64>
    ensures { result ≡ counted (option_and_then (λ kept. (entry_in kept).value) (option_map record_of found.now)) }
{
    match found {
        Some(Record::Map(entry)) => number_or_nothing(&entry.value),
        Some(Record::Queue(_)) | None => Some(0),
    }
}

/// Makes a grid of three members with one backup, has four sessions at member 2 make 250 calls each, of the first
/// processor with argument 1 on one key of partition 5, and reads what is stored of the key. Takes memory for the grid,
/// for each session and each call, and four threads beside this one, whose want is told as want of memory; waits for these
/// threads, which wait for turns and answers.
pub fn count_calls<N: Environment, R: Threads + Wait + Sync>(
    rt: &R,
    alloc: Global,
    env: Shared<N>,
    forms: &[Form],
    capacity: u32,
    key: Bytes,
) -> Result<(LiveGrid, GridPass, Counted), Memory>
    requires key { FitsFrame key }
    requires env { N.settings env.env ≡ settings_in forms.now capacity }
    ensures { IfOk result (λ made. HasCounted forms.now capacity key made.0 made.1 made.2) }
{
    room_for(rt, alloc, OTHERS).ok_or(AllocError)?;
    let (grid, mut pass) = LiveGrid::new(alloc, 3, 1, &env, forms, capacity)?;
    let mut slot = Some(grid.tokens(alloc, &mut pass, LEADER, THREAD)?);
    let stage = Stage::new(alloc, grid, env, key);
    let mut callers = open_callers(&stage, &mut pass)?;
    run_threads(rt, &stage, &mut slot, &mut callers)?;
    let answered = take_back(&stage, &mut pass, callers)?;
    let name = entry(alloc, &stage.key)?;
    let found = stage.grid.stored(rt, alloc, &mut pass, PARTITION, &name)?;
    let total = number_found(&found);
    every_count_is_what_is_stored();
    Ok((stage.into_grid(), pass, Counted { answered, total }))
}
