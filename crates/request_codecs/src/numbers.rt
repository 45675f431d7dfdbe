//! The numbers that a call on a map's entry brings.

ghost use Rattle.std.specs.Prelude.{◌≡◌, ◌++◌, option_to_list, flat_map, OnOk};
ghost use Rattle.fixed_fields.specs.Fields.{int64_bytes};
ghost use Rattle.map_codecs.specs.SpelledCalls.{numbers_of as numbers_of_call};
ghost use Rattle.request_codecs.specs.Numbers.{numbers_in};

use fixed_fields::write_int64;
use grid_base::{MapCall, Memory};

/// The numbers that a call on a map's entry brings.
#[derive(Clone, Copy)]
pub(crate) struct Numbers {
    /// The caller's thread.
    thread: Option<i64>,
    /// The time to live, or the lease.
    time: Option<i64>,
    idle: Option<i64>,
}

pub(crate) fn numbers_of(call: &MapCall) -> Numbers
    ensures { numbers_in result ≡ numbers_of_call call.now }
{
    match call {
        MapCall::Put { owner, ttl, .. }
        | MapCall::Set { owner, ttl, .. }
        | MapCall::PutIfAbsent { owner, ttl, .. }
        | MapCall::TryLock {
            owner,
            lease: ttl,
            ..
        } => Numbers {
            thread: Some(owner.thread),
            time: Some(*ttl),
            idle: None,
        },
        MapCall::Get { owner, .. }
        | MapCall::ContainsKey { owner, .. }
        | MapCall::Remove { owner, .. }
        | MapCall::Delete { owner, .. }
        | MapCall::Replace { owner, .. }
        | MapCall::ReplaceIfSame { owner, .. }
        | MapCall::RemoveIfSame { owner, .. }
        | MapCall::Unlock { owner, .. }
        | MapCall::ExecuteOnKey { owner, .. } => Numbers {
            thread: Some(owner.thread),
            time: None,
            idle: None,
        },
        MapCall::IsLocked { .. } | MapCall::ForceUnlock { .. } => Numbers {
            thread: None,
            time: None,
            idle: None,
        },
        MapCall::PutMaxIdle {
            owner,
            ttl,
            idle,
            ..
        }
        | MapCall::SetMaxIdle {
            owner,
            ttl,
            idle,
            ..
        } => Numbers {
            thread: Some(owner.thread),
            time: Some(*ttl),
            idle: Some(*idle),
        },
    }
}

/// Appends a number, where there is one.
fn write_number(number: Option<i64>, out: &mut Vec<u8>) -> Result<(), Memory>
    ensures { OnOk result (out.new.items ≡ out.old.items ++ flat_map int64_bytes (option_to_list number)) }
{
    match number {
        Some(number) => write_int64(number, out),
        None => Ok(()),
    }
}

/// Appends the numbers, one after the other.
pub(crate) fn write_numbers(numbers: Numbers, out: &mut Vec<u8>) -> Result<(), Memory>
    ensures { OnOk result (out.new.items ≡ out.old.items ++ flat_map int64_bytes (numbers_in numbers)) }
{
    write_number(numbers.thread, out)?;
    write_number(numbers.time, out)?;
    write_number(numbers.idle, out)
}
