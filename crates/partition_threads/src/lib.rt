//! Threads that run the calls of partitions.
//!
//! A `Workplace` has a cell for each partition, and for each member four workers with a queue of jobs each. A worker
//! runs a job's call in a turn of the partition's cell, delivers what it sent, a message a turn, and fills the job's
//! parcel once the call's outcome is known. A call that is held meanwhile keeps it from no other job. Who has nothing
//! to do sleeps.
//!
//! `Workplace::start` hands a call over to a worker. `Workplace::make` makes it on the caller's thread, where nobody is
//! before it: then there is no parcel, no queue and no bell, and the answer is the same.
#![tactic(auto)]

mod calls;
mod gate;
mod making;
mod starting;
mod turns;
mod watch;
mod workers;
mod workplace;

pub use calls::HeldCall;
pub use gate::{Gate, OpenGate};
pub use making::{MOST_DELIVERIES, Made};
pub use starting::{Awaited, Obstacle, StartRefused};
pub use workers::{WorkerTokens, worker};
pub use workplace::{THREADS, Workplace, worker_of};
