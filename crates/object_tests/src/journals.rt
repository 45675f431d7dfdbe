use grid_base::{Memory, Shelf};
use std::alloc::Global;
use std::test::Fail;
use test_shelf::Journal;

/// A journal of these bytes, and one that is made of its snapshot.
fn twice(alloc: Global, bytes: &[u8]) -> Result<(Journal, Journal), Memory> {
    let journal = Journal::of(alloc, bytes)?;
    let second = Journal::install(alloc, &journal.snapshot(alloc)?)?;
    Ok((journal, second))
}

#[test]
fn a_snapshot_gives_the_same_bytes(rt: HostRuntime) -> Result<(), Fail> {
    let (journal, second) = twice(rt.alloc(), &[1, 2])?;
    assert_eq!(rt; journal.bytes(), [1, 2].as_slice());
    assert_eq!(rt; second.bytes(), [1, 2].as_slice());
    Ok(())
}
