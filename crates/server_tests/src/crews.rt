use std::sync::Barrier;
use std::sync::atomic::{AtomicU64, Ordering};
use std::test::Fail;
use thread_crew::{join_told, room_for, with_crew};

#[test]
fn a_crew_and_its_front_run_at_once(rt: HostRuntime) -> Result<(), Fail> {
    let alloc = rt.alloc();
    let meeting = Barrier::new(4);
    let sum = AtomicU64::new(0);
    let workers = [1u64, 2, 4].to_vec(alloc)?;
    let work = |worker: u64| {
        sum.fetch_add(worker, Ordering::SeqCst);
        meeting.wait(&rt);
    };
    let mut front = |is_whole: bool| -> bool {
        meeting.wait(&rt);
        is_whole
    };
    let (is_whole, was_told) = with_crew(&rt, alloc, workers, &work, &mut front);
    assert!(rt; is_whole);
    assert!(rt; was_told);
    assert_eq!(rt; sum.load(Ordering::SeqCst), 7);
    Ok(())
}

#[test]
fn a_closure_apart_and_its_front_run_at_once(rt: HostRuntime) {
    let meeting = Barrier::new(2);
    let mut apart = || -> u64 {
        meeting.wait(&rt);
        3
    };
    let mut front = |is_apart: bool| -> bool {
        meeting.wait(&rt);
        is_apart
    };
    let (is_apart, given, was_told) = join_told(&rt, &mut apart, &mut front);
    assert!(rt; is_apart);
    assert!(rt; was_told);
    assert_eq!(rt; given, 3);
}

#[test]
fn there_is_room_for_a_few_threads(rt: HostRuntime) {
    assert!(rt; room_for(&rt, rt.alloc(), 0).is_some());
    assert!(rt; room_for(&rt, rt.alloc(), 5).is_some());
}

#[test]
fn there_is_no_room_for_more_threads_than_memory_counts(rt: HostRuntime) {
    assert!(rt; room_for(&rt, rt.alloc(), usize::MAX).is_none());
}
