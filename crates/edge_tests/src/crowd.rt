//! Many connections at once.
ghost use Rattle.std.specs.Prelude.{length, ◌≡◌};

use crate::call::{Call, Doorway, LONG, let_in, open_somewhere};
use grid_edge::{Doors, Ready, ReadySink, ReadySource};
use std::io::{Read, Write};
use tcp_edge::TcpDoors;

/// How many clients there are.
const MANY: usize = 300;

/// Lets in many, each with its number as its key.
fn gather(doors: &mut Doorway<'_>, rt: &HostRuntime, port: u16) -> Option<Vec<Call>>
    requires { length doors.old.listed.arrivals ≡ 0 }
{
    let mut calls = Vec::new(rt.alloc());
    for number in 0..MANY {
        let call = let_in(doors, rt, port, number)?;
        calls.push(call).ok()?;
    }
    Some(calls)
}

/// Whether a client hears the byte that is sent to it.
fn hears(call: &mut Call, byte: u8) -> bool {
    let mut heard = [0];
    let wrote = call.to.write_ready(&[byte]) == Ok(Ready::Bytes(1));
    match &mut call.client {
        Some(client) => wrote && client.read_exact(&mut heard).is_ok() && heard == [byte],
        None => false,
    }
}

/// Whether each client hears its own number.
fn all_hear(calls: &mut [Call]) -> bool {
    let mut number = 0u8;
    for call in calls {
        if !hears(call, number) {
            return false;
        }
        number = number.wrapping_add(1);
    }
    true
}

/// Reads of each once. Whether only this one had something, or none.
fn only_speaks(calls: &mut [Call], speaker: Option<usize>) -> bool {
    let mut held = true;
    for (number, call) in calls.iter_mut().enumerate() {
        let spoke = call.from.read_ready(&mut [0; 8]) != Ok(Ready::NotYet);
        held &= spoke == (speaker == Some(number));
    }
    held
}

/// Whether this client could speak.
fn could_speak(calls: &mut [Call], number: usize) -> bool {
    match calls.get_mut(number) {
        Some(
            Call {
                client: Some(client),
                ..
            },
        ) => client.write_all(b"hello").is_ok(),
        _ => false,
    }
}

/// Whether only this client is seen to speak where it does, and once.
fn speaks(doors: &mut Doorway<'_>, calls: &mut [Call], number: usize) -> bool {
    could_speak(calls, number)
        && doors.wait(LONG).is_ok()
        && only_speaks(calls, Some(number))
        && only_speaks(calls, None)
}

/// Whether clients of many hear each its own number, and are then heard one by one.
fn speak_among_many(doors: &mut Doorway<'_>, rt: &HostRuntime) -> Option<bool> {
    let port = open_somewhere(doors, rt, 1)?;
    let mut calls = gather(doors, rt, port)?;
    let mut held = all_hear(&mut calls) && doors.wait(0).is_ok() && only_speaks(&mut calls, None);
    for round in 0..200usize {
        held = held && speaks(doors, &mut calls, round * 7 % MANY);
    }
    Some(held)
}

#[test]
fn many_connections_stand_at_once(rt: HostRuntime) {
    let mut doors = TcpDoors::new(&rt);
    assert_eq!(rt; speak_among_many(&mut doors, &rt), Some(true));
}
