//! Doors that tell a person where they stand open.
ghost use Rattle.std.specs.Prelude.{◌≡◌};

use grid_edge::{Accepted, DoorFault, Doors};
use std::fmt;
use std::io::Eprint;

/// The ports of a server, one for each member.
#[derive(Clone, Copy, Drop)]
struct Ports {
    members: u8,
    first: u16,
}

impl fmt::Display for Ports {
    fn fmt<W: fmt::Write>(&self, f: &mut fmt::Formatter<W>) -> fmt::Result {
        write!(f, "127.0.0.1:{}", self.first)?;
        if self.members > 1 {
            let last = u32::from(self.first) + u32::from(self.members) - 1;
            write!(f, " to {last}, a port for each member")?;
        }
        Ok(())
    }
}

/// Doors that say on standard error where they listen, once they are open, or that they can't. Else they are the doors that
/// they are made of.
#[derive(Drop)]
pub struct TellingDoors<D, R> {
    doors: D,
    rt: R,
}

impl<D, R> TellingDoors<D, R> {
    /// Tells by this handle. Takes no memory.
    pub fn new(doors: D, rt: R) -> Self {
        TellingDoors { doors, rt }
    }
}

impl<D: Doors, R: Eprint + Send> Doors for TellingDoors<D, R> {
    type From = D::From;

    type To = D::To;

    type Waker = D::Waker;

    ghost faults = { λ d. D.faults d.doors };

    ghost empty_looks = { λ d. D.empty_looks d.doors };

    ghost book = { λ d. D.book d.doors };

    fn open(&mut self, members: u8, port: u16) -> Result<(), DoorFault> {
        let ports = Ports {
            members,
            first: port,
        };
        let opened = self.doors.open(members, port);
        // Where standard error takes nothing, the server serves all the same.
        let _ = match opened {
            Ok(()) => eprintln!(self.rt; "grid: listening on {ports}"),
            Err(DoorFault) => eprintln!(self.rt; "grid: can't listen on {ports}: is one taken?"),
        };
        opened
    }

    fn accept(&mut self, key: usize) -> Result<Accepted<D::From, D::To>, DoorFault> {
        self.doors.accept(key)
    }

    fn next_ready(&mut self) -> Option<usize> {
        self.doors.next_ready()
    }

    fn wait(&mut self, millis: u32) -> Result<(), DoorFault> {
        self.doors.wait(millis)
    }

    fn waker(&mut self) -> Result<D::Waker, DoorFault> {
        self.doors.waker()
    }

    fn give_back(&mut self, number: u32, from: D::From, to: D::To, memory: bool) {
        self.doors.give_back(number, from, to, memory);
    }
}
