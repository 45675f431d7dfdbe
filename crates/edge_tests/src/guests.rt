//! Doors that connections in memory come through.
ghost use Rattle.std.specs.Prelude.{length, ◌≡◌, ◌≤◌, ◌+◌, [], IfSome};

use grid_edge::{
    Accepted, DoorFault, Doors, MemoryDoors, MemorySink, MemorySource, Ready, ReadySink,
    ReadySource, Wakes,
};
use std::alloc::Global;

pub(crate) type Guests = MemoryDoors<MemorySource, MemorySink>;

/// What a look for a connection found.
#[derive(Clone, Copy, Debug, PartialEq, Eq)]
pub(crate) enum Look {
    Came(u8),
    NotYet,
    Fault,
}

/// Doors with a guest for each of these members, who sends a byte, the member's number. The calls with these numbers fail.
pub(crate) fn doors_for(alloc: Global, members: &[u8], fails: &[u64]) -> Option<Guests>
    ensures { IfSome result (λ doors. doors.accepted ≡ []) }
{
    let mut list = Vec::new(alloc);
    for member in members {
        let says = vec![in alloc; *member].ok()?;
        let from = MemorySource::new(says, Vec::new(alloc));
        list.push((*member, from, MemorySink::new(Vec::new(alloc))))
            .ok()?;
    }
    MemoryDoors::new(list, fails.to_vec(alloc).ok()?).ok()
}

/// Looks for a connection, which has this key and is dropped.
pub(crate) fn look_once<D: Doors>(doors: &mut D, key: usize) -> Look
where
    D::From: Drop,
    D::To: Drop,
    requires { length (D.book doors.old).arrivals ≤ 100 }
    ensures { length (D.book doors.new).arrivals ≤ length (D.book doors.old).arrivals + 1 }
{
    match doors.accept(key) {
        Ok(Accepted::Come { member, .. }) => Look::Came(member),
        Ok(Accepted::NotYet) => Look::NotYet,
        Err(DoorFault) => Look::Fault,
    }
}

/// Opens the doors for three members, and looks four times.
fn four_looks<D: Doors>(doors: &mut D) -> Result<[Look; 4], DoorFault>
where
    D::From: Drop,
    D::To: Drop,
{
    doors.open(3, 5701)?;
    Ok([
        look_once(doors, 0),
        look_once(doors, 0),
        look_once(doors, 0),
        look_once(doors, 0),
    ])
}

/// What four looks find behind an opening, and whether that failed at first.
fn looks_of<D: Doors>(doors: &mut D) -> Result<(bool, [Look; 4]), DoorFault>
where
    D::From: Drop,
    D::To: Drop,
{
    match four_looks(doors) {
        Ok(looks) => Ok((false, looks)),
        Err(DoorFault) => Ok((true, four_looks(doors)?)),
    }
}

/// The same of doors with these guests and failing calls.
fn looks_with(alloc: Global, members: &[u8], fails: &[u64]) -> Option<(bool, [Look; 4])> {
    looks_of(&mut doors_for(alloc, members, fails)?).ok()
}

#[test]
fn connections_come_in_order_until_none_waits(rt: HostRuntime) {
    let looks = [Look::Came(1), Look::Fault, Look::Came(0), Look::NotYet];
    assert_eq!(rt;
        looks_with(rt.alloc(), &[1, 3, 0], &[]),
        Some((false, looks))
    );
}

#[test]
fn calls_of_the_list_fail(rt: HostRuntime) {
    let looks = [Look::Came(0), Look::Fault, Look::Came(0), Look::NotYet];
    // Calls of open and accept are counted together: 0 and 1 open, and 2 to 5 look.
    assert_eq!(rt;
        looks_with(rt.alloc(), &[0, 0], &[0, 3]),
        Some((true, looks))
    );
}

/// Opens the doors, lets in one who comes, sends back what it sent, and gives it back. Its member is the answer.
fn serve_one<D: Doors>(doors: &mut D, memory: bool) -> Result<Option<u8>, DoorFault> {
    doors.open(8, 65_528)?;
    match doors.accept(0)? {
        Accepted::Come {
            member,
            mut from,
            mut to,
        } => {
            send_back(&mut from, &mut to);
            doors.give_back(0, from, to, memory);
            Ok(Some(member))
        }
        Accepted::NotYet => Ok(None),
    }
}

fn send_back<F: ReadySource, T: ReadySink>(from: &mut F, to: &mut T) {
    let mut buffer = [0; 8];
    if let Ok(Ready::Bytes(count)) = from.read_ready(&mut buffer) {
        let _ = to.write_ready(&buffer[..count]);
    }
}

/// Whether only the first connection was given back since the opening, so, and had sent this byte.
fn gave_back(doors: &Guests, memory: bool, byte: u8) -> bool {
    match doors.returned() {
        [only] => only.number == 0 && only.memory == memory && only.to.bytes() == [byte].as_slice(),
        _ => false,
    }
}

/// Whether the next connection is of this member, and stands alone among those that were given back.
fn serves(doors: &mut Guests, memory: bool, member: u8) -> bool {
    serve_one(doors, memory) == Ok(Some(member)) && gave_back(doors, memory, member)
}

/// Whether the doors of these two come so, and then nobody.
fn serves_both(doors: &mut Guests, first: u8, second: u8) -> bool {
    serves(doors, false, first)
        && serves(doors, true, second)
        && serve_one(doors, true) == Ok(None)
        && doors.returned().is_empty()
}

#[test]
fn an_opening_begins_anew(rt: HostRuntime) {
    let doors = doors_for(rt.alloc(), &[4, 7], &[]);
    assert!(rt; doors.is_some_and(|mut doors| serves_both(&mut doors, 4, 7)));
}

/// Whether closed doors find none, and wait for nothing.
fn are_quiet<D: Doors>(doors: &mut D) -> bool
where
    D::From: Drop,
    D::To: Drop,
    D::Waker: Drop,
    requires { (D.book doors.old).arrivals ≡ [] }
{
    let found = look_once(doors, 0);
    if let Ok(waker) = doors.waker() {
        waker.wake();
    }
    found == Look::NotYet && doors.wait(u32::MAX).is_ok()
}

/// Whether doors that were never opened are quiet.
fn stand_closed(alloc: Global) -> bool {
    match doors_for(alloc, &[0], &[]) {
        Some(mut doors) => are_quiet(&mut doors),
        None => false,
    }
}

#[test]
fn closed_doors_find_none(rt: HostRuntime) {
    assert!(rt; stand_closed(rt.alloc()));
}
