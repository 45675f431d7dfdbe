use crate::call::{Doorway, LONG, open_somewhere};
use grid_edge::{Doors, Wakes};
use std::sync::Arc;
use std::sync::atomic::{AtomicU64, Ordering};
use std::thread::{self, Threads};
use std::time::{Duration, Instant};
use tcp_edge::{TcpDoors, TcpWaker};

/// How often a thread is woken.
const ROUNDS: u64 = 2000;

/// How long before a thread wakes another, in milliseconds.
const DELAY: u64 = 30;

/// A waker of open doors, which are then opened elsewhere.
fn waker_from_before(doors: &mut Doorway<'_>, rt: &HostRuntime) -> Option<TcpWaker> {
    open_somewhere(doors, rt, 1)?;
    let waker = doors.waker().ok()?;
    open_somewhere(doors, rt, 1)?;
    Some(waker)
}

/// Whether wakes before a wait end it.
fn wake_before_a_wait(doors: &mut Doorway<'_>, rt: &HostRuntime) -> bool {
    let Some(waker) = waker_from_before(doors, rt) else {
        return false;
    };
    waker.wake();
    waker.wake();
    doors.wait(LONG).is_ok()
}

#[test]
fn a_wake_before_a_wait_ends_it(rt: HostRuntime) {
    let mut doors = TcpDoors::new(&rt);
    assert!(rt; wake_before_a_wait(&mut doors, &rt));
}

fn wake_later(rt: &HostRuntime, waker: &TcpWaker) {
    thread::sleep(rt, Duration::from_millis(DELAY));
    waker.wake();
}

/// How long a wait takes that another thread ends.
fn time_to_a_wake<T: Threads>(
    doors: &mut Doorway<'_>,
    rt: &HostRuntime,
    threads: &T,
) -> Option<Duration> {
    let waker = waker_from_before(doors, rt)?;
    let start = Instant::now(rt).ok()?;
    let own = *rt;
    let child = thread::spawn(threads, move || wake_later(&own, &waker)).ok()?;
    let ended = doors.wait(LONG).is_ok();
    child.join(threads);
    if ended { start.elapsed(rt).ok() } else { None }
}

#[test]
fn another_thread_ends_a_wait(rt: HostRuntime) {
    let mut doors = TcpDoors::new(&rt);
    let time = time_to_a_wake(&mut doors, &rt, &rt);
    assert!(rt; time.is_some_and(|time| time >= Duration::from_millis(DELAY)));
}

/// Looks at the word until it is this number.
fn await_number(word: &AtomicU64, number: u64) {
    for _ in 0..u64::MAX {
        if word.load(Ordering::SeqCst) == number {
            break;
        }
        thread::yield_now();
    }
}

/// Raises a word to each odd number, wakes who waits for that, and waits until the word is raised once more.
fn call_again_and_again(word: &AtomicU64, waker: &TcpWaker) {
    for round in 0..ROUNDS {
        word.store(2 * round + 1, Ordering::SeqCst);
        waker.wake();
        await_number(word, 2 * round + 2);
    }
}

/// Waits at the doors until the word is this number. Says whether each wait went well.
fn wait_for(doors: &mut Doorway<'_>, word: &AtomicU64, number: u64) -> bool {
    for _ in 0..u64::MAX {
        if word.load(Ordering::SeqCst) == number {
            return true;
        }
        if doors.wait(LONG).is_err() {
            return false;
        }
    }
    false
}

/// Answers each odd number of the word with the next one.
fn answer_each(doors: &mut Doorway<'_>, word: &AtomicU64) -> bool {
    for round in 0..ROUNDS {
        if !wait_for(doors, word, 2 * round + 1) {
            return false;
        }
        word.store(2 * round + 2, Ordering::SeqCst);
    }
    true
}

/// Whether each of many wakes by another thread ends a wait.
fn wakes_each<T: Threads>(doors: &mut Doorway<'_>, rt: &HostRuntime, threads: &T) -> Option<bool> {
    let waker = waker_from_before(doors, rt)?;
    let word = Arc::new(rt.alloc(), AtomicU64::new(0)).ok()?;
    let same = Arc::try_clone(&word).ok()?;
    let child = thread::spawn(threads, move || call_again_and_again(&same, &waker)).ok()?;
    let answered = answer_each(doors, &word);
    child.join(threads);
    Some(answered)
}

#[test]
fn no_wake_is_lost(rt: HostRuntime) {
    let mut doors = TcpDoors::new(&rt);
    assert_eq!(rt; wakes_each(&mut doors, &rt, &rt), Some(true));
}
