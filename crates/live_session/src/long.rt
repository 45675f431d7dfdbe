//! Which calls are left to a worker.
ghost use Rattle.std.specs.Prelude.{◌≡◌};
ghost use Rattle.live_session.specs.Long.{is_long, is_long_map, is_long_queue, is_long_value};

use grid_base::{Bytes, GridCall, MapCall, QueueCall};

/// The longest value with which a call is made where it is read.
const LONGEST_MADE: usize = 65_536;

fn is_past_most(value: &Bytes) -> bool
    ensures { result ≡ is_long_value value.now }
{
    value.as_slice().len() > LONGEST_MADE
}

fn map_takes_long(call: &MapCall) -> bool
    ensures { result ≡ is_long_map call.now }
{
    match call {
        MapCall::ExecuteOnKey { .. } => true,
        MapCall::Put { value, .. }
        | MapCall::Set { value, .. }
        | MapCall::PutIfAbsent { value, .. }
        | MapCall::Replace { value, .. }
        | MapCall::ReplaceIfSame { value, .. }
        | MapCall::PutMaxIdle { value, .. }
        | MapCall::SetMaxIdle { value, .. } => is_past_most(value),
        _ => false,
    }
}

fn queue_takes_long(call: &QueueCall) -> bool
    ensures { result ≡ is_long_queue call.now }
{
    match call {
        QueueCall::Offer { value, .. } => is_past_most(value),
        _ => false,
    }
}

/// Whether a call is known to take long: it runs a processor, or carries a value past 64 KiB. Constant time.
pub(crate) fn takes_long(call: &GridCall) -> bool
    ensures { result ≡ is_long call.now }
{
    match call {
        GridCall::Map(call) => map_takes_long(call),
        GridCall::Queue(call) => queue_takes_long(call),
    }
}
