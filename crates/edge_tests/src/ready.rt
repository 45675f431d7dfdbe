//! Of which connections doors tell that they may be ready.
ghost use Rattle.std.specs.Prelude.{length, ◌≡◌};
ghost use Rattle.tcp_edge.specs.TcpDoors.{book_of};

use crate::call::Step::{Reads, ReadsNothing, Says};
use crate::call::{Call, Doorway, LONG, SHORT, let_in, open_somewhere};
use crate::guests::{Guests, Look, doors_for, look_once};
use grid_edge::Doors;
use tcp_edge::TcpDoors;

/// Whether doors tell of just these keys.
fn tells<D: Doors>(doors: &mut D, keys: &[usize]) -> bool
    ensures { D.book doors.new ≡ D.book doors.old }
{
    let mut held = true;
    for key in keys {
        held &= doors.next_ready() == Some(*key);
    }
    held && doors.next_ready().is_none()
}

/// Waits until nothing is told any more.
fn settles(doors: &mut Doorway<'_>) -> bool
    ensures { book_of doors.new ≡ book_of doors.old }
{
    for _ in 0..100 {
        if doors.wait(SHORT).is_err() {
            return false;
        }
        if doors.next_ready().is_none() {
            return true;
        }
    }
    false
}

/// Whether the doors tell of this key alone, once a client has sent a byte, which it is read of.
fn tells_who_speaks(doors: &mut Doorway<'_>, rt: &HostRuntime, call: &mut Call, key: usize) -> bool
    ensures arrivals { length doors.new.listed.arrivals ≡ length doors.old.listed.arrivals }
    ensures returns { doors.new.listed.returns ≡ doors.old.listed.returns }
{
    call.take_all(doors, rt, &[Says(b"x")]).is_none()
        && doors.wait(LONG).is_ok()
        && tells(doors, &[key])
        && call
            .take_all(doors, rt, &[Reads(8, b"x"), ReadsNothing(8)])
            .is_none()
}

/// Whether the doors tell who of three speaks, and then of one who has the key of the first after it.
#[tactic(auto, using(crate::proofs::Returns::kept, crate::proofs::Returns::is_out))]
fn tell_among_three(doors: &mut Doorway<'_>, rt: &HostRuntime) -> Option<bool> {
    let port = open_somewhere(doors, rt, 1)?;
    let mut first = let_in(doors, rt, port, 5)?;
    let mut second = let_in(doors, rt, port, 0)?;
    let mut third = let_in(doors, rt, port, 2)?;
    let held = settles(doors)
        && tells_who_speaks(doors, rt, &mut second, 0)
        && tells_who_speaks(doors, rt, &mut first, 5)
        && tells_who_speaks(doors, rt, &mut third, 2);
    doors.give_back(0, first.from, first.to, false);
    let mut fourth = let_in(doors, rt, port, 5)?;
    Some(held && settles(doors) && tells_who_speaks(doors, rt, &mut fourth, 5))
}

#[test]
fn doors_tell_who_speaks(rt: HostRuntime) {
    let mut doors = TcpDoors::new(&rt);
    assert_eq!(rt; tell_among_three(&mut doors, &rt), Some(true));
}

/// Whether doors that let in one who has the key 3 tell of each key up to it, once for each wait.
fn tell_each_once(doors: &mut Guests) -> bool {
    doors.open(3, 5701).is_ok()
        && tells(doors, &[])
        && look_once(doors, 3) == Look::Came(1)
        && tells(doors, &[0, 1, 2, 3])
        && tells(doors, &[])
        && doors.wait(0).is_ok()
        && tells(doors, &[0, 1, 2, 3])
}

#[test]
fn doors_in_memory_tell_of_each(rt: HostRuntime) {
    let doors = doors_for(rt.alloc(), &[1], &[]);
    assert!(rt; doors.is_some_and(|mut doors| tell_each_once(&mut doors)));
}
