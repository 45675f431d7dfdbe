ghost use Rattle.std.specs.Prelude.{◌<◌, ◌^◌};
ghost use Rattle.std.specs.Int.{w64};
ghost use Rattle.std.specs.Int.RustNames.{FitsSigned};

use crate::bytes::Bytes;
use std::fmt;

/// A member's number, from 0.
pub type MemberId = u8;

/// A partition's number, from 0 to 270.
pub type PartitionId = u16;

/// A moment in milliseconds.
pub type Moment = u64;

/// Names a call: its connection, and its place among that connection's messages, from 0.
#[derive(Clone, Copy, Debug, PartialEq, Eq, PartialOrd, Ord, Hash)]
pub struct CallId {
    pub conn: u32,
    pub number: u32,
}

impl fmt::Display for CallId {
    ghost use Rattle.std.specs.Prelude.{◌++◌, ◌∷◌, Some};
    ghost use Rattle.std.specs.Fmt.{decimal};

    /// Its two numbers in decimal digits, with a space between.
    ghost output = { λ id. Some (decimal id.conn ++ 32 ∷ decimal id.number) };

    fn fmt<W: fmt::Write>(&self, f: &mut fmt::Formatter<W>) -> fmt::Result {
        write!(f, "{} {}", self.conn, self.number)
    }
}

/// Who a client is: the number that it gave itself, or else its connection.
#[derive(Clone, Copy, Debug, PartialEq, Eq)]
pub enum ClientKey {
    Known(u128),
    OfConn(u32),
}

/// Who makes a call: a client, and one of its threads.
#[derive(Clone, Copy, Debug, PartialEq, Eq)]
pub struct Owner {
    pub client: ClientKey,
    pub thread: i64,
}

impl Owner {
    ghost use Rattle.grid_base.specs.Limits.{OwnerFits};

    /// Its numbers are those of their types. Nothing runs here.
    pub fn fits(&self)
        ensures { OwnerFits self.now }
    {
        signed_fits(self.thread);
        match self.client {
            ClientKey::Known(number) => number_fits(number),
            ClientKey::OfConn(conn) => conn_fits(conn),
        }
    }
}

fn signed_fits(_number: i64)
    ensures { FitsSigned w64 _number }
{}

fn number_fits(_number: u128)
    ensures { _number < 2 ^ 128 }
{}

fn conn_fits(_conn: u32)
    ensures { _conn < 2 ^ 32 }
{}

/// Names an object of a partition. A map's entries come before the queues, and each in the order of its parts.
#[derive(Debug, PartialEq, Eq, PartialOrd, Ord, Hash, Drop)]
pub enum ObjectKey {
    /// An entry of a map.
    Entry { map: Bytes, key: Bytes },
    Queue { name: Bytes },
}
