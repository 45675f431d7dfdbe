//! A client over TCP, and the ends of its connection at the doors.
ghost use Rattle.std.specs.Prelude.{length, ◌≡◌, ◌<◌, ◌≤◌, ◌+◌, IfSome, OnOk};
ghost use Rattle.edge_tests.specs.Returns.{AreBelow};

use grid_edge::{Accepted, Doors, Ready, ReadySink, ReadySource};
use std::io::{self, Read, Write};
use std::net::{Ipv4Addr, Shutdown, SocketAddr, TcpListener, TcpStream};
use std::thread;
use std::time::{Duration, Instant};
use tcp_edge::{TcpDoors, TcpSink, TcpSource};

/// Longer than a test may take, in milliseconds: where nothing ends a wait, its test fails.
pub(crate) const LONG: u32 = 120_000;

/// Long enough to see that nothing ends a wait, in milliseconds.
pub(crate) const SHORT: u32 = 50;

pub(crate) type Doorway<'a> = TcpDoors<&'a HostRuntime>;

/// Connects to the member whose port this is.
pub(crate) fn connect(rt: &HostRuntime, port: u16) -> Option<TcpStream> {
    TcpStream::connect(rt, SocketAddr::from((Ipv4Addr::LOCALHOST, port))).ok()
}

/// A port that nobody uses.
fn free_port(rt: &HostRuntime) -> io::Result<u16> {
    let free = TcpListener::bind(rt, SocketAddr::from((Ipv4Addr::LOCALHOST, 0)))?;
    Ok(free.local_addr()?.port())
}

/// Opens the doors at ports that nobody uses, and gives the first port, if it finds some.
#[tactic(auto, using(crate::proofs::Returns::none_at_opening))]
pub(crate) fn open_somewhere(doors: &mut Doorway<'_>, rt: &HostRuntime, members: u8) -> Option<u16>
    requires some { 1 ≤ members }
    requires most { members ≤ 8 }
    ensures opened { IfSome result (λ port. length doors.new.listed.arrivals ≡ 0) }
    ensures none_back { IfSome result (λ port. AreBelow doors.new.listed.returns 0) }
    ensures port { IfSome result (λ port. port ≤ 65528) }
{
    for _ in 0..100 {
        let port = free_port(rt).unwrap_or(u16::MAX);
        if port <= 65_528 && doors.open(members, port).is_ok() {
            return Some(port);
        }
    }
    None
}

/// Waits for a connection, which has this key. The answer is none where the doors fail.
#[tactic(auto, using(crate::proofs::Returns::kept, crate::proofs::Returns::kept_at_arrival))]
pub(crate) fn next_caller(doors: &mut Doorway<'_>, key: usize) -> Option<(u8, TcpSource, TcpSink)>
    requires { length doors.old.listed.arrivals ≤ 1000 }
    ensures came { IfSome result (λ _. length doors.new.listed.arrivals ≡ length doors.old.listed.arrivals + 1) }
    ensures kept { IfSome result (λ _. doors.new.listed.returns ≡ doors.old.listed.returns) }
{
    for _ in 0..100 {
        match doors.accept(key) {
            Ok(Accepted::Come { member, from, to }) => return Some((member, from, to)),
            Ok(Accepted::NotYet) if doors.wait(LONG).is_ok() => {}
            _ => return None,
        }
    }
    None
}

/// What happens in a call, and what it comes to.
#[derive(Clone, Copy)]
pub(crate) enum Step {
    /// The client sends this.
    Says(&'static [u8]),
    /// The client sends no more.
    Stops,
    /// The client closes its connection.
    Leaves,
    /// Time for what was sent to arrive.
    Arrives,
    /// Something ends a wait of so many milliseconds.
    Wait(u32),
    /// Nothing ends a short wait.
    WaitInVain,
    /// A read with so much room, at most 8 bytes, gives these.
    Reads(usize, &'static [u8]),
    /// A read with so much room isn't ready.
    ReadsNothing(usize),
    /// A read fails.
    ReadFails,
    /// A write takes all of this.
    Writes(&'static [u8]),
}

/// What came out otherwise.
#[derive(Clone, Copy, Debug, PartialEq, Eq)]
pub(crate) enum Missed {
    /// The client wasn't let in.
    Coming,
    /// The step with this number.
    Step(usize),
    /// What the client had heard at the end, or the wait after that.
    End,
}

/// A client's connection.
#[derive(Drop)]
pub(crate) struct Call {
    pub(crate) client: Option<TcpStream>,
    pub(crate) from: TcpSource,
    pub(crate) to: TcpSink,
}

/// Opens doors for a member, and plays a call of it.
pub(crate) fn play(rt: &HostRuntime, steps: &[Step], heard: &[u8]) -> Result<(), Missed> {
    let mut doors = TcpDoors::new(rt);
    match open_somewhere(&mut doors, rt, 1) {
        Some(port) => play_at(&mut doors, rt, port, 0, steps, heard),
        None => Err(Missed::Coming),
    }
}

/// Lets in a client of the member whose port this is, with the key 0, after so many others, and takes the steps. Gives the
/// connection back, which ends the next wait at once: the client has heard just this.
pub(crate) fn play_at(
    doors: &mut Doorway<'_>,
    rt: &HostRuntime,
    port: u16,
    others: u32,
    steps: &[Step],
    heard: &[u8],
) -> Result<(), Missed>
    requires others { length doors.old.listed.arrivals ≡ others }
    requires few { others ≤ 1000 }
    requires below { AreBelow doors.old.listed.returns others }
    ensures came { OnOk result (length doors.new.listed.arrivals ≡ others + 1) }
    ensures below { OnOk result (AreBelow doors.new.listed.returns (others + 1)) }
{
    let Some(mut call) = let_in(doors, rt, port, 0) else {
        return Err(Missed::Coming);
    };
    if let Some(number) = call.take_all(doors, rt, steps) {
        return Err(Missed::Step(number));
    }
    if call.ends_so(doors, others, heard) {
        Ok(())
    } else {
        Err(Missed::End)
    }
}

/// Lets in a client of the member whose port this is, with this key.
pub(crate) fn let_in(
    doors: &mut Doorway<'_>,
    rt: &HostRuntime,
    port: u16,
    key: usize,
) -> Option<Call>
    requires { length doors.old.listed.arrivals ≤ 1000 }
    ensures came { IfSome result (λ _. length doors.new.listed.arrivals ≡ length doors.old.listed.arrivals + 1) }
    ensures kept { IfSome result (λ _. doors.new.listed.returns ≡ doors.old.listed.returns) }
{
    let client = connect(rt, port);
    let (_, from, to) = next_caller(doors, key)?;
    Some(Call { client, from, to })
}

/// Whether a client that didn't leave hears just this, of 8 bytes at most, until its connection ends.
pub(crate) fn has_heard(client: Option<TcpStream>, heard: &[u8]) -> bool {
    let Some(mut client) = client else {
        return true;
    };
    let mut buffer = [0; 8];
    let front = &mut buffer[..heard.len().min(8)];
    client.read_exact(front).is_ok() && &*front == heard && matches!(client.read(&mut [0]), Ok(0))
}

impl Call {
    /// Takes steps, and says which one came out otherwise, if one did.
    pub(crate) fn take_all(
        &mut self,
        doors: &mut Doorway<'_>,
        rt: &HostRuntime,
        steps: &[Step],
    ) -> Option<usize>
        ensures same { length doors.new.listed.arrivals ≡ length doors.old.listed.arrivals }
        ensures kept { doors.new.listed.returns ≡ doors.old.listed.returns }
    {
        for number in 0..steps.len() {
            if !self.take(doors, rt, steps[number]) {
                return Some(number);
            }
        }
        None
    }

    /// Takes a step, and says whether it came out so.
    #[tactic(auto, using(crate::proofs::Returns::kept))]
    fn take(&mut self, doors: &mut Doorway<'_>, rt: &HostRuntime, step: Step) -> bool
        ensures same { length doors.new.listed.arrivals ≡ length doors.old.listed.arrivals }
        ensures kept { doors.new.listed.returns ≡ doors.old.listed.returns }
    {
        match step {
            Step::Says(bytes) => self.says(bytes),
            Step::Stops => self.stops(),
            Step::Leaves => {
                self.client = None;
                true
            }
            Step::Arrives => {
                thread::sleep(rt, Duration::from_millis(20));
                true
            }
            Step::Wait(millis) => doors.wait(millis).is_ok(),
            Step::WaitInVain => wait_in_vain(doors, rt),
            Step::Reads(room, bytes) => gives(&mut self.from, room, bytes),
            Step::ReadsNothing(room) => gives_nothing(&mut self.from, room),
            Step::ReadFails => self.from.read_ready(&mut [0; 8]).is_err(),
            Step::Writes(bytes) => self.to.write_ready(bytes) == Ok(Ready::Bytes(bytes.len())),
        }
    }

    /// Gives the connection, which has this number, back, and says whether that ends a wait, and the client has heard just this.
    #[tactic(auto, using(crate::proofs::Returns::is_out, crate::proofs::Returns::kept, crate::proofs::Returns::below_after_return))]
    fn ends_so(self, doors: &mut Doorway<'_>, number: u32, heard: &[u8]) -> bool
        requires came { number < length doors.old.listed.arrivals }
        requires below { AreBelow doors.old.listed.returns number }
        ensures same { length doors.new.listed.arrivals ≡ length doors.old.listed.arrivals }
        ensures below { AreBelow doors.new.listed.returns (number + 1) }
    {
        let Call { client, from, to } = self;
        doors.give_back(number, from, to, false);
        doors.wait(LONG).is_ok() && has_heard(client, heard)
    }

    fn says(&mut self, bytes: &[u8]) -> bool {
        match &mut self.client {
            Some(client) => client.write_all(bytes).is_ok(),
            None => false,
        }
    }

    fn stops(&self) -> bool {
        match &self.client {
            Some(client) => client.shutdown(Shutdown::Write).is_ok(),
            None => false,
        }
    }
}

/// Whether a short wait lasts to its end.
#[tactic(auto, using(crate::proofs::Returns::kept))]
fn wait_in_vain(doors: &mut Doorway<'_>, rt: &HostRuntime) -> bool
    ensures same { length doors.new.listed.arrivals ≡ length doors.old.listed.arrivals }
    ensures kept { doors.new.listed.returns ≡ doors.old.listed.returns }
{
    let Ok(start) = Instant::now(rt) else {
        return false;
    };
    let ended = doors.wait(SHORT).is_ok();
    let time = start.elapsed(rt).unwrap_or(Duration::ZERO);
    ended && time >= Duration::from_millis(u64::from(SHORT))
}

/// Whether a read with so much room gives these bytes.
fn gives(from: &mut TcpSource, room: usize, bytes: &[u8]) -> bool {
    let mut buffer = [0; 8];
    let into = &mut buffer[..room.min(8)];
    match from.read_ready(into) {
        Ok(Ready::Bytes(count)) => &into[..count] == bytes,
        _ => false,
    }
}

/// Whether a read with so much room isn't ready.
fn gives_nothing(from: &mut TcpSource, room: usize) -> bool {
    let mut buffer = [0; 8];
    from.read_ready(&mut buffer[..room.min(8)]) == Ok(Ready::NotYet)
}
