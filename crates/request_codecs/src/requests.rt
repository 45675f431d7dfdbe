//! Calls as the messages that ask for them.

ghost use Rattle.std.specs.Prelude.{◌≡◌, ◌++◌, [], IfOk, OnOk};
ghost use Rattle.frame_codec.specs.Laws.{spelled};
ghost use Rattle.fixed_fields.specs.Fields.{int32_bytes};
ghost use Rattle.fixed_fields.specs.Spelled.{with_parts};
ghost use Rattle.map_codecs.specs.SpelledCalls.{kind_of_call as kind_of_map_call};
ghost use Rattle.map_codecs.specs.SpelledCalls.{parts_of as parts_of_map_call, call_message as map_message};
ghost use Rattle.queue_codecs.specs.SpelledCalls.{kind_of_call as kind_of_queue_call, parts_of as parts_of_queue_call, call_message as queue_message};
ghost use Rattle.request_codecs.specs.Requests.{kind_of_call, request_bytes};

use crate::numbers::{numbers_of, write_numbers};
use crate::parts::{begun, write_four, write_one, write_part, write_three, write_two};
use fixed_fields::write_int32;
use frame_codec::flags::UNFRAGMENTED;
use grid_base::{Bytes, GridCall, MapCall, Memory, PartitionId, QueueCall};
use map_codecs::{
    CONTAINS_KEY_KIND, DELETE_KIND, EXECUTE_ON_KEY_KIND, FORCE_UNLOCK_KIND, GET_KIND,
    IS_LOCKED_KIND, PUT_IF_ABSENT_KIND, PUT_KIND, PUT_MAX_IDLE_KIND, REMOVE_IF_SAME_KIND,
    REMOVE_KIND, REPLACE_IF_SAME_KIND, REPLACE_KIND, SET_KIND, SET_MAX_IDLE_KIND, TRY_LOCK_KIND,
    UNLOCK_KIND,
};
use queue_codecs::{
    CLEAR_KIND, OFFER_KIND, PEEK_KIND, POLL_KIND, REMAINING_CAPACITY_KIND, SIZE_KIND,
};
use std::alloc::Global;

/// The message type of a call.
pub fn kind_of(call: &GridCall) -> u32
    ensures { result ≡ kind_of_call call.now }
{
    match call {
        GridCall::Map(call) => map_kind(call),
        GridCall::Queue(call) => queue_kind(call),
    }
}

fn map_kind(call: &MapCall) -> u32
    ensures { result ≡ kind_of_map_call call.now }
{
    match call {
        MapCall::Put { .. } => PUT_KIND,
        MapCall::Set { .. } => SET_KIND,
        MapCall::PutIfAbsent { .. } => PUT_IF_ABSENT_KIND,
        MapCall::Get { .. } => GET_KIND,
        MapCall::ContainsKey { .. } => CONTAINS_KEY_KIND,
        MapCall::Remove { .. } => REMOVE_KIND,
        MapCall::Delete { .. } => DELETE_KIND,
        MapCall::Replace { .. } => REPLACE_KIND,
        MapCall::ReplaceIfSame { .. } => REPLACE_IF_SAME_KIND,
        MapCall::RemoveIfSame { .. } => REMOVE_IF_SAME_KIND,
        MapCall::TryLock { .. } => TRY_LOCK_KIND,
        MapCall::Unlock { .. } => UNLOCK_KIND,
        MapCall::IsLocked { .. } => IS_LOCKED_KIND,
        MapCall::ForceUnlock { .. } => FORCE_UNLOCK_KIND,
        MapCall::ExecuteOnKey { .. } => EXECUTE_ON_KEY_KIND,
        MapCall::PutMaxIdle { .. } => PUT_MAX_IDLE_KIND,
        MapCall::SetMaxIdle { .. } => SET_MAX_IDLE_KIND,
    }
}

fn queue_kind(call: &QueueCall) -> u32
    ensures { result ≡ kind_of_queue_call call.now }
{
    match call {
        QueueCall::Offer { .. } => OFFER_KIND,
        QueueCall::Poll { .. } => POLL_KIND,
        QueueCall::Peek { .. } => PEEK_KIND,
        QueueCall::Size { .. } => SIZE_KIND,
        QueueCall::RemainingCapacity { .. } => REMAINING_CAPACITY_KIND,
        QueueCall::Clear { .. } => CLEAR_KIND,
    }
}

/// What a processor's frame holds: its number, and what it is given.
fn processor_part(alloc: Global, number: i32, argument: &Bytes) -> Result<Vec<u8>, Memory>
    ensures { IfOk result (λ part. part.items ≡ int32_bytes number ++ argument.now) }
{
    let mut part = Vec::new(alloc);
    write_int32(number, &mut part)?;
    part.extend_from_slice(argument.as_slice())?;
    Ok(part)
}

/// Appends the frames of a call on a map's entry behind the first.
fn write_map_parts(alloc: Global, call: &MapCall, out: &mut Vec<u8>) -> Result<(), Memory>
    ensures { OnOk result (out.new.items ≡ out.old.items ++ spelled (with_parts (parts_of_map_call call.now) [])) }
{
    let (name, key) = (call.map().as_slice(), call.key().as_slice());
    match call {
        MapCall::Put { value, .. }
        | MapCall::Set { value, .. }
        | MapCall::PutIfAbsent { value, .. }
        | MapCall::Replace { value, .. }
        | MapCall::RemoveIfSame { test: value, .. }
        | MapCall::PutMaxIdle { value, .. }
        | MapCall::SetMaxIdle { value, .. } => { write_three(name, key, value.as_slice(), out) },
        MapCall::ReplaceIfSame { test, value, .. } => {
            write_four(name, key, test.as_slice(), value.as_slice(), out)
        }
        MapCall::ExecuteOnKey {
            number,
            argument,
            ..
        } => {
            let processor = processor_part(alloc, *number, argument)?;
            write_three(name, processor.as_slice(), key, out)
        }
        MapCall::Get { .. }
        | MapCall::ContainsKey { .. }
        | MapCall::Remove { .. }
        | MapCall::Delete { .. }
        | MapCall::TryLock { .. }
        | MapCall::Unlock { .. }
        | MapCall::IsLocked { .. }
        | MapCall::ForceUnlock { .. } => write_two(name, key, out),
    }
}

fn write_map_call(
    alloc: Global,
    correlation: i64,
    partition: i32,
    call: &MapCall,
) -> Result<Bytes, Memory>
    ensures { IfOk result (λ request. request ≡ spelled (map_message correlation partition call.now [] []).frames) }
{
    let mut first = begun(alloc, map_kind(call), correlation, partition)?;
    write_numbers(numbers_of(call), &mut first)?;
    let mut request = Vec::new(alloc);
    write_part(UNFRAGMENTED, first.as_slice(), &mut request)?;
    write_map_parts(alloc, call, &mut request)?;
    Ok(Bytes::from_vec(request))
}

/// Appends the frames of a call on a queue behind the first.
fn write_queue_parts(call: &QueueCall, out: &mut Vec<u8>) -> Result<(), Memory>
    ensures { OnOk result (out.new.items ≡ out.old.items ++ spelled (with_parts (parts_of_queue_call call.now) [])) }
{
    match call {
        QueueCall::Offer { name, value } => { write_two(name.as_slice(), value.as_slice(), out) }
        QueueCall::Poll { name }
        | QueueCall::Peek { name }
        | QueueCall::Size { name }
        | QueueCall::RemainingCapacity { name }
        | QueueCall::Clear { name } => write_one(name.as_slice(), out),
    }
}

fn write_queue_call(
    alloc: Global,
    correlation: i64,
    partition: PartitionId,
    call: &QueueCall,
) -> Result<Bytes, Memory>
    ensures { IfOk result (λ request. request ≡ spelled (queue_message correlation partition call.now [] []).frames) }
{
    let first = begun(alloc, queue_kind(call), correlation, i32::from(partition))?;
    let mut request = Vec::new(alloc);
    write_part(UNFRAGMENTED, first.as_slice(), &mut request)?;
    write_queue_parts(call, &mut request)?;
    Ok(Bytes::from_vec(request))
}

/// The message that asks for a call in a partition. Copies each part once. A part that is longer than a frame can be is
/// answered as want of memory.
pub fn write_request(
    alloc: Global,
    correlation: i64,
    partition: PartitionId,
    call: &GridCall,
) -> Result<Bytes, Memory>
    ensures { IfOk result (λ request. request ≡ request_bytes correlation partition call.now) }
{
    match call {
        GridCall::Map(call) => write_map_call(alloc, correlation, i32::from(partition), call),
        GridCall::Queue(call) => write_queue_call(alloc, correlation, partition, call),
    }
}
