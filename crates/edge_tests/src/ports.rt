ghost use Rattle.std.specs.Prelude.{length, ◌≡◌, ◌≤◌, ◌+◌, IfSome};

use crate::call::Step::{Arrives, Reads, Says, Wait};
use crate::call::{Doorway, LONG, connect, has_heard, let_in, next_caller, open_somewhere};
use grid_edge::{Accepted, DoorFault, Doors};
use std::thread;
use std::time::Duration;
use tcp_edge::TcpDoors;

/// The member of the next connection, which has the key 1 and is closed at once.
fn next_member(doors: &mut Doorway<'_>) -> Option<u8>
    requires { length doors.old.listed.arrivals ≤ 1000 }
    ensures { IfSome result (λ _. length doors.new.listed.arrivals ≡ length doors.old.listed.arrivals + 1) }
{
    let (member, _, _) = next_caller(doors, 1)?;
    Some(member)
}

/// Whether no connection has come.
fn finds_none<D: Doors>(doors: &mut D) -> bool
where
    D::From: Drop,
    D::To: Drop,
    requires { length (D.book doors.old).arrivals ≤ 1000 }
    ensures { length (D.book doors.new).arrivals ≤ length (D.book doors.old).arrivals + 1 }
{
    matches!(doors.accept(1), Ok(Accepted::NotYet))
}

/// The members of the next connections where one has come to the second member and two to the first.
fn three_members(doors: &mut Doorway<'_>, rt: &HostRuntime) -> Option<[u8; 3]> {
    let port = open_somewhere(doors, rt, 2)?;
    let _clients = (connect(rt, port + 1), connect(rt, port), connect(rt, port));
    let first = next_member(doors)?;
    let second = next_member(doors)?;
    let third = next_member(doors)?;
    if finds_none(doors) {
        Some([first, second, third])
    } else {
        None
    }
}

#[test]
fn members_take_turns(rt: HostRuntime) {
    let mut doors = TcpDoors::new(&rt);
    assert_eq!(rt; three_members(&mut doors, &rt), Some([0, 1, 0]));
}

/// Who comes after a look found none: none until a wait has reported that.
fn seen_after_a_wait(doors: &mut Doorway<'_>, rt: &HostRuntime) -> Option<u8> {
    let port = open_somewhere(doors, rt, 2)?;
    let before = finds_none(doors);
    let _client = connect(rt, port + 1);
    thread::sleep(rt, Duration::from_millis(20));
    if before && finds_none(doors) && doors.wait(LONG).is_ok() {
        next_member(doors)
    } else {
        None
    }
}

#[test]
fn who_comes_is_let_in_once_it_is_reported(rt: HostRuntime) {
    let mut doors = TcpDoors::new(&rt);
    assert_eq!(rt; seen_after_a_wait(&mut doors, &rt), Some(1));
}

/// Whether doors that are opened again are open there, and no longer where they were; and who came before stands, and is waited
/// for.
fn move_elsewhere(doors: &mut Doorway<'_>, rt: &HostRuntime) -> Option<bool> {
    let before = open_somewhere(doors, rt, 2)?;
    let mut early = let_in(doors, rt, before + 1, 0)?;
    let port = open_somewhere(doors, rt, 1)?;
    let is_closed = connect(rt, before).is_none();
    let late = connect(rt, port);
    let member = next_member(doors)?;
    let steps = [Says(b"still"), Arrives, Wait(LONG), Reads(8, b"still")];
    let stands = early.take_all(doors, rt, &steps).is_none();
    Some(is_closed && member == 0 && late.is_some() && has_heard(late, b"") && stands)
}

#[test]
fn doors_open_again_elsewhere(rt: HostRuntime) {
    let mut doors = TcpDoors::new(&rt);
    assert_eq!(rt; move_elsewhere(&mut doors, &rt), Some(true));
}

/// Whether doors that were never opened find none, and else have faults.
fn are_closed<D: Doors>(doors: &mut D) -> bool
where
    D::From: Drop,
    D::To: Drop,
    D::Waker: Drop,
    requires { length (D.book doors.old).arrivals ≡ 0 }
{
    finds_none(doors) && doors.wait(0) == Err(DoorFault) && doors.waker().is_err()
}

#[test]
fn closed_doors_have_faults(rt: HostRuntime) {
    let mut doors = TcpDoors::new(&rt);
    assert!(rt; are_closed(&mut doors));
}

/// Who comes to doors after others, and they themselves, were to be opened at the same port, if that failed.
fn opened_twice(doors: &mut Doorway<'_>, rt: &HostRuntime) -> Option<u8> {
    let port = open_somewhere(doors, rt, 1)?;
    let mut others = TcpDoors::new(rt);
    if others.open(1, port) == Err(DoorFault) && doors.open(1, port) == Err(DoorFault) {
        // They stand open as they were.
        let _client = connect(rt, port);
        next_member(doors)
    } else {
        None
    }
}

#[test]
fn ports_in_use_are_a_fault(rt: HostRuntime) {
    let mut doors = TcpDoors::new(&rt);
    assert_eq!(rt; opened_twice(&mut doors, &rt), Some(0));
}
