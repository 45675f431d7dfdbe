//! The requests of the examples.
ghost use Rattle.std.specs.Prelude.{◌≡◌};
ghost use Rattle.job_examples.specs.Relays.{first_call};

use grid_base::{Bytes, CallId, GridCall, QueueCall, Request};
use std::alloc::Global;

/// The first request of a connection, of this kind, to partition 0.
pub fn first_request(alloc: Global, conn: u32, kind: u32) -> Request
    ensures id { result.id ≡ first_call conn }
    ensures partition { result.partition ≡ 0 }
{
    Request {
        id: CallId { conn, number: 0 },
        correlation: 0,
        kind,
        partition: 0,
        call: GridCall::Queue(QueueCall::Size {
            name: Bytes::new(alloc),
        }),
    }
}
