ghost use Rattle.std.specs.Prelude.{length, ◌≡◌, ◌≤◌};

use crate::call::Step::{
    Arrives, Leaves, ReadFails, Reads, ReadsNothing, Says, Stops, Wait, WaitInVain, Writes,
};
use crate::call::{Call, Doorway, LONG, SHORT, let_in, open_somewhere, play, play_at};
use grid_edge::{Doors, Ready, ReadySink};
use std::io::Read;
use std::net::TcpStream;
use std::thread::{self, Threads};
use tcp_edge::{TcpDoors, TcpSink};

#[test]
fn what_came_is_seen_once_it_is_reported(rt: HostRuntime) {
    let steps = [
        // What is reported as it comes in.
        Wait(0),
        ReadsNothing(8),
        Says(b"hello"),
        Arrives,
        // No system call looks for it.
        ReadsNothing(8),
        Wait(LONG),
        Reads(8, b"hello"),
        // That was less than was asked for, so it was all: no system call looks for more.
        Says(b"again"),
        Arrives,
        ReadsNothing(8),
        Wait(LONG),
        // A stream that gave all that was asked for is looked at again, also where nothing was reported.
        Reads(3, b"aga"),
        Reads(2, b"in"),
        ReadsNothing(3),
        Writes(b"welcome"),
    ];
    assert_eq!(rt; play(&rt, &steps, b"welcome"), Ok(()));
}

#[test]
fn an_end_that_came_with_bytes_is_seen_and_answered(rt: HostRuntime) {
    let steps = [
        Says(b"bye"),
        Stops,
        Arrives,
        Wait(LONG),
        // It ends no wait of its own.
        Reads(8, b"bye"),
        Reads(8, b""),
        Writes(b"welcome"),
    ];
    assert_eq!(rt; play(&rt, &steps, b"welcome"), Ok(()));
}

#[test]
fn an_end_that_comes_later_is_reported(rt: HostRuntime) {
    let steps = [
        Says(b"bye"),
        Arrives,
        Wait(LONG),
        Reads(8, b"bye"),
        ReadsNothing(8),
        Stops,
        Wait(LONG),
        Reads(8, b""),
    ];
    assert_eq!(rt; play(&rt, &steps, b""), Ok(()));
}

#[test]
fn a_reset_connection_is_a_fault(rt: HostRuntime) {
    let steps = [
        // A client that closes with a byte unread resets the connection.
        Writes(b"unread"),
        Arrives,
        Leaves,
        Arrives,
        Wait(LONG),
        ReadFails,
    ];
    assert_eq!(rt; play(&rt, &steps, b""), Ok(()));
}

#[test]
fn a_change_ends_one_wait(rt: HostRuntime) {
    let steps = [
        ReadsNothing(4),
        // That it can be written to is a change too, which may come with the first of these.
        Wait(SHORT),
        Says(b"hello"),
        Wait(LONG),
        // The bytes are left unread, as while a call is under way.
        WaitInVain,
        Reads(4, b"hell"),
        Reads(4, b"o"),
        Leaves,
        Wait(LONG),
        Reads(4, b""),
    ];
    assert_eq!(rt; play(&rt, &steps, b""), Ok(()));
}

#[test]
fn a_wait_after_a_connection_was_closed_comes_back(rt: HostRuntime) {
    assert_eq!(rt; play(&rt, &[Wait(SHORT), WaitInVain], b""), Ok(()));
}

/// Whether of two calls one after the other, with the same key, the second isn't taken to have ended as the first did.
fn gives_a_key_again(doors: &mut Doorway<'_>, rt: &HostRuntime) -> bool {
    let Some(port) = open_somewhere(doors, rt, 1) else {
        return false;
    };
    let first = [
        Says(b"bye"),
        Leaves,
        Arrives,
        Wait(LONG),
        Reads(8, b"bye"),
        Reads(8, b""),
    ];
    let second = [
        Says(b"hello"),
        Arrives,
        Wait(LONG),
        Reads(8, b"hello"),
        // A short read was all.
        Says(b"again"),
        Arrives,
        ReadsNothing(8),
        Wait(LONG),
        Reads(8, b"again"),
    ];
    match play_at(doors, rt, port, 0, &first, b"") {
        Ok(()) => play_at(doors, rt, port, 1, &second, b"").is_ok(),
        Err(_) => false,
    }
}

#[test]
fn a_key_is_given_again(rt: HostRuntime) {
    let mut doors = TcpDoors::new(&rt);
    assert!(rt; gives_a_key_again(&mut doors, &rt));
}

/// Writes until there is no room, and says how much that was.
fn fill(to: &mut TcpSink) -> Option<u64> {
    let mut written = 0u64;
    for _ in 0..10_000 {
        match to.write_ready(&[7; 65_536]) {
            Ok(Ready::Bytes(count)) => written = written.saturating_add(count as u64),
            Ok(Ready::NotYet) => return Some(written),
            Err(_) => return None,
        }
    }
    None
}

/// Reads until the end, and says how much that was.
fn count_all(mut client: TcpStream) -> u64 {
    let mut taken = 0u64;
    let mut buffer = [0; 65_536];
    for _ in 0..u32::MAX {
        match client.read(&mut buffer) {
            Ok(0) | Err(_) => break,
            Ok(count) => taken = taken.saturating_add(count as u64),
        }
    }
    taken
}

/// Writes once there is room.
#[tactic(auto, using(crate::proofs::Returns::kept))]
fn write_next(doors: &mut Doorway<'_>, to: &mut TcpSink, from: &[u8]) -> bool
    ensures same { length doors.new.listed.arrivals ≡ length doors.old.listed.arrivals }
    ensures kept { doors.new.listed.returns ≡ doors.old.listed.returns }
{
    for _ in 0..1000 {
        match to.write_ready(from) {
            Ok(Ready::Bytes(count)) => return count == from.len(),
            Ok(Ready::NotYet) if doors.wait(LONG).is_ok() => {}
            _ => return false,
        }
    }
    false
}

/// Whether a full sink goes on once the client reads, who then gets all.
#[tactic(auto, using(crate::proofs::Returns::is_out))]
fn goes_on<T: Threads>(doors: &mut Doorway<'_>, rt: &HostRuntime, threads: &T) -> bool {
    let Some(port) = open_somewhere(doors, rt, 1) else {
        return false;
    };
    let Some(
        Call {
            client: Some(client),
            from,
            mut to,
        },
    ) = let_in(doors, rt, port, 0)
    else {
        return false;
    };
    let Some(written) = fill(&mut to) else {
        return false;
    };
    let Ok(reader) = thread::spawn(threads, move || count_all(client)) else {
        return false;
    };
    let wrote = write_next(doors, &mut to, b"last");
    doors.give_back(0, from, to, false);
    wrote && reader.join(threads) == written.saturating_add(4)
}

#[test]
fn a_full_sink_goes_on_once_the_client_reads(rt: HostRuntime) {
    let mut doors = TcpDoors::new(&rt);
    assert!(rt; goes_on(&mut doors, &rt, &rt));
}
