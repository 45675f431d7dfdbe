//! Doors that clients come through over TCP, each to a member of this machine.
//!
//! One thread serves them: it accepts, reads and writes without waiting, and sleeps in `TcpDoors::wait`. Contracts see
//! what reads gave and writes took, which connections came and were given back, and the counts of faults and empty looks.
#![tactic(auto)]

mod doors;
mod entrance;
mod entries;
mod hall;
mod reports;
mod stream;
mod waker;

pub use doors::TcpDoors;
pub use stream::{TcpSink, TcpSource};
pub use waker::TcpWaker;
