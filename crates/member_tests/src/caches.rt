ghost use Rattle.std.specs.Prelude.{◌≡◌, ℕ};
ghost use Rattle.near_cache.specs.Caches.{used, IsOpen};

use grid_base::{Bytes, Memory};
use near_cache::{Filled, NearCache};
use std::alloc::Global;
use std::process::Abort;
use std::test::Fail;

/// A key of a partition from 1 on, by its name.
#[derive(Clone, Copy, Debug)]
struct Key(u8, u8);

const A: Key = Key(1, 1);

const B: Key = Key(1, 2);

const C: Key = Key(2, 3);

fn bytes_of(alloc: Global, key: Key) -> Result<Bytes, Memory> {
    Bytes::copied_from(alloc, &[0, 0, 0, key.0, 0, 0, 0, 0, key.1])
}

/// A look-up that nothing overtakes, and its answer: 0 is no value.
fn keep(alloc: Global, cache: &mut NearCache, key: Key, byte: u8) -> Result<Filled, Memory> {
    let value = match byte {
        0 => None,
        _ => Some(Bytes::copied_from(alloc, &[byte])?),
    };
    let reservation = cache.reserve(bytes_of(alloc, key)?)?;
    cache.fill(reservation, value)
}

/// What is kept for the key: 0 for no value.
fn kept(cache: &mut NearCache, key: &Bytes) -> Option<u8>
    ensures { cache.new ≡ used key.now cache.old }
{
    let value = cache.hit(key)?;
    match value {
        Some(bytes) => bytes.as_slice().first().copied(),
        None => Some(0),
    }
}

/// A look-up that isn't answered.
fn give_up(alloc: Global, cache: &mut NearCache, key: Key) -> Result<(), Memory> {
    let reservation = cache.reserve(bytes_of(alloc, key)?)?;
    cache.give_up(reservation);
    Ok(())
}

/// What a member tells the client.
#[derive(Clone, Copy, Debug)]
enum Told {
    /// The key was written in that version, by the effect of that number.
    Written(Key, u32, u32),
    /// The partition has a row of that version.
    Row(u16, u32),
}

fn hear(alloc: Global, cache: &mut NearCache, told: Told) -> Result<(), Memory>
    ensures { (n : ℕ) → IsOpen n cache.old → IsOpen n cache.new }
{
    match told {
        Told::Written(key, version, number) => {
            cache.invalidate(&bytes_of(alloc, key)?, version, number);
            Ok(())
        }
        Told::Row(partition, version) => cache.clear_partition(partition, version),
    }
}

#[derive(Clone, Copy, Debug)]
enum Step {
    /// The key is looked up and answered by that byte.
    Keep(Key, u8),
    /// The key is looked up and never answered.
    GiveUp(Key),
    Hear(Told),
    /// The cache is asked for the key, and has that.
    Find(Key, Option<u8>),
}

fn take(rt: &impl Abort, alloc: Global, cache: &mut NearCache, step: Step) -> Result<(), Memory> {
    match step {
        Step::Keep(key, byte) => {
            assert_eq!(rt; keep(alloc, cache, key, byte)?, Filled::Kept);
            Ok(())
        }
        Step::GiveUp(key) => give_up(alloc, cache, key),
        Step::Hear(told) => hear(alloc, cache, told),
        Step::Find(key, expected) => {
            assert_eq!(rt; kept(cache, &bytes_of(alloc, key)?), expected, "{step:?}");
            Ok(())
        }
    }
}

/// Takes the steps with a cache of two entries.
const STEPS: [Step; 15] = [
    Step::Find(A, None),
    Step::Keep(A, 10),
    Step::Keep(B, 20),
    Step::Find(A, Some(10)),
    // The third key takes the place of the one that was used least recently.
    Step::Keep(C, 30),
    Step::Find(B, None),
    Step::Keep(A, 11),
    Step::Find(C, Some(30)),
    Step::Hear(Told::Row(1, 2)),
    Step::Find(A, None),
    Step::Find(C, Some(30)),
    Step::Hear(Told::Written(C, 1, 1)),
    Step::Find(C, None),
    Step::GiveUp(A),
    Step::Find(A, None),
];

#[test]
fn the_least_recently_used_goes(rt: HostRuntime) -> Result<(), Fail> {
    let mut cache = NearCache::new(rt.alloc(), 2)?;
    for step in STEPS {
        take(&rt, rt.alloc(), &mut cache, step)?;
    }
    Ok(())
}

/// What becomes of a look-up of the key `A` that is answered after all this.
fn filled_after(alloc: Global, all: &[Told]) -> Result<Filled, Memory> {
    let mut cache = NearCache::new(alloc, 2)?;
    let reservation = cache.reserve(bytes_of(alloc, A)?)?;
    for told in all {
        hear(alloc, &mut cache, *told)?;
    }
    cache.fill(reservation, None)
}

#[test]
fn what_overtakes_last_is_told(rt: HostRuntime) -> Result<(), Fail> {
    let write = Told::Written(A, 3, 8);
    let row = Told::Row(1, 5);
    let by = |version, number| Filled::Overtaken { version, number };
    let cases: [(&[Told], Filled); 5] = [
        (&[], Filled::Kept),
        (&[Told::Written(B, 3, 8), Told::Row(2, 5)], Filled::Kept),
        (&[write], by(3, 8)),
        (&[row, write], by(3, 8)),
        (&[write, row, Told::Row(2, 6)], by(5, 0)),
    ];
    for (all, filled) in cases {
        assert_eq!(rt; filled_after(rt.alloc(), all)?, filled, "after {all:?}");
    }
    Ok(())
}
