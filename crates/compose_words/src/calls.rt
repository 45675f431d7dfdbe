//! What a message has of a call: its type, its numbers and its parts.
ghost use Rattle.std.specs.Prelude.{◌≡◌, ◌++◌, ◌∷◌, [], All, IfOk, OnOk, IfSome};
ghost use Rattle.std.specs.Int.{w32, w64};
ghost use Rattle.std.specs.Int.RustNames.{FitsSigned};
ghost use Rattle.fixed_fields.specs.Fields.{int32_bytes, int64_bytes};
ghost use Rattle.map_codecs.specs.SpelledCalls as maps;
ghost use Rattle.queue_codecs.specs.SpelledCalls as queues;

use fixed_fields::{write_int32, write_int64};
use grid_base::{Bytes, MapCall, Memory, QueueCall};
use map_codecs::{
    CONTAINS_KEY_KIND, DELETE_KIND, EXECUTE_ON_KEY_KIND, FORCE_UNLOCK_KIND, GET_KIND,
    IS_LOCKED_KIND, PUT_IF_ABSENT_KIND, PUT_KIND, PUT_MAX_IDLE_KIND, REMOVE_IF_SAME_KIND,
    REMOVE_KIND, REPLACE_IF_SAME_KIND, REPLACE_KIND, SET_KIND, SET_MAX_IDLE_KIND, TRY_LOCK_KIND,
    UNLOCK_KIND,
};
use queue_codecs::{
    CLEAR_KIND, OFFER_KIND, PEEK_KIND, POLL_KIND, REMAINING_CAPACITY_KIND, SIZE_KIND,
};
use std::alloc::Global;

/// The message type of a call on an entry.
pub(crate) fn map_kind(call: &MapCall) -> u32
    ensures { result ≡ maps.kind_of_call call.now }
{
    match call {
        MapCall::Put { .. } => PUT_KIND,
        MapCall::Set { .. } => SET_KIND,
        MapCall::PutIfAbsent { .. } => PUT_IF_ABSENT_KIND,
        MapCall::Get { .. } => GET_KIND,
        MapCall::ContainsKey { .. } => CONTAINS_KEY_KIND,
        MapCall::Remove { .. } => REMOVE_KIND,
        MapCall::Delete { .. } => DELETE_KIND,
        MapCall::Replace { .. } => REPLACE_KIND,
        MapCall::ReplaceIfSame { .. } => REPLACE_IF_SAME_KIND,
        MapCall::RemoveIfSame { .. } => REMOVE_IF_SAME_KIND,
        MapCall::TryLock { .. } => TRY_LOCK_KIND,
        MapCall::Unlock { .. } => UNLOCK_KIND,
        MapCall::IsLocked { .. } => IS_LOCKED_KIND,
        MapCall::ForceUnlock { .. } => FORCE_UNLOCK_KIND,
        MapCall::ExecuteOnKey { .. } => EXECUTE_ON_KEY_KIND,
        MapCall::PutMaxIdle { .. } => PUT_MAX_IDLE_KIND,
        MapCall::SetMaxIdle { .. } => SET_MAX_IDLE_KIND,
    }
}

/// The message type of a call on a queue.
pub(crate) fn queue_kind(call: &QueueCall) -> u32
    ensures { result ≡ queues.kind_of_call call.now }
{
    match call {
        QueueCall::Offer { .. } => OFFER_KIND,
        QueueCall::Poll { .. } => POLL_KIND,
        QueueCall::Peek { .. } => PEEK_KIND,
        QueueCall::Size { .. } => SIZE_KIND,
        QueueCall::RemainingCapacity { .. } => REMAINING_CAPACITY_KIND,
        QueueCall::Clear { .. } => CLEAR_KIND,
    }
}

/// Appends two numbers of eight bytes,
fn write_two(first: i64, second: i64, out: &mut Vec<u8>) -> Result<(), Memory>
    ensures { OnOk result (out.new.items ≡ out.old.items ++ (int64_bytes first ++ int64_bytes second)) }
{
    write_int64(first, out)?;
    write_int64(second, out)
}

/// or three.
pub(crate) fn write_three(
    first: i64,
    second: i64,
    third: i64,
    out: &mut Vec<u8>,
) -> Result<(), Memory>
    ensures { OnOk result (out.new.items ≡ out.old.items ++ (int64_bytes first ++ (int64_bytes second ++ int64_bytes third))) }
{
    write_int64(first, out)?;
    write_two(second, third, out)
}

/// Appends the fields of a call on an entry: the caller's thread, and then the times.
pub(crate) fn write_fields(call: &MapCall, out: &mut Vec<u8>) -> Result<(), Memory>
    ensures { OnOk result (out.new.items ≡ out.old.items ++ maps.call_fields call.now) }
{
    match call {
        MapCall::IsLocked { .. } | MapCall::ForceUnlock { .. } => Ok(()),
        MapCall::Get { owner, .. }
        | MapCall::ContainsKey { owner, .. }
        | MapCall::Remove { owner, .. }
        | MapCall::Delete { owner, .. }
        | MapCall::Replace { owner, .. }
        | MapCall::ReplaceIfSame { owner, .. }
        | MapCall::RemoveIfSame { owner, .. }
        | MapCall::Unlock { owner, .. }
        | MapCall::ExecuteOnKey { owner, .. } => write_int64(owner.thread, out),
        MapCall::Put { owner, ttl, .. }
        | MapCall::Set { owner, ttl, .. }
        | MapCall::PutIfAbsent { owner, ttl, .. }
        | MapCall::TryLock {
            owner,
            lease: ttl,
            ..
        } => write_two(owner.thread, *ttl, out),
        MapCall::PutMaxIdle {
            owner,
            ttl,
            idle,
            ..
        }
        | MapCall::SetMaxIdle {
            owner,
            ttl,
            idle,
            ..
        } => write_three(owner.thread, *ttl, *idle, out),
    }
}

/// A copy of one part,
pub(crate) fn one_part(alloc: Global, first: &Bytes) -> Result<Vec<Bytes>, Memory>
    ensures { IfOk result (λ parts. parts.items ≡ first.now ∷ []) }
{
    let mut parts = Vec::new(alloc);
    parts.push(first.copied(alloc)?)?;
    Ok(parts)
}

/// of two,
pub(crate) fn two_parts(alloc: Global, first: &Bytes, second: &Bytes) -> Result<Vec<Bytes>, Memory>
    ensures { IfOk result (λ parts. parts.items ≡ first.now ∷ second.now ∷ []) }
{
    let mut parts = one_part(alloc, first)?;
    parts.push(second.copied(alloc)?)?;
    Ok(parts)
}

/// of three,
pub(crate) fn three_parts(
    alloc: Global,
    first: &Bytes,
    second: &Bytes,
    third: &Bytes,
) -> Result<Vec<Bytes>, Memory>
    ensures { IfOk result (λ parts. parts.items ≡ first.now ∷ second.now ∷ third.now ∷ []) }
{
    let mut parts = two_parts(alloc, first, second)?;
    parts.push(third.copied(alloc)?)?;
    Ok(parts)
}

/// and of four.
fn four_parts(
    alloc: Global,
    first: &Bytes,
    second: &Bytes,
    third: &Bytes,
    fourth: &Bytes,
) -> Result<Vec<Bytes>, Memory>
    ensures { IfOk result (λ parts. parts.items ≡ first.now ∷ second.now ∷ third.now ∷ fourth.now ∷ []) }
{
    let mut parts = three_parts(alloc, first, second, third)?;
    parts.push(fourth.copied(alloc)?)?;
    Ok(parts)
}

/// A processor's number, and what it is given.
fn processor_part(alloc: Global, number: i32, argument: &Bytes) -> Result<Bytes, Memory>
    ensures { IfOk result (λ part. part ≡ int32_bytes number ++ argument.now) }
{
    let mut part = Vec::new(alloc);
    write_int32(number, &mut part)?;
    part.extend_from_slice(argument.as_slice())?;
    Ok(Bytes::from_vec(part))
}

/// What the frames behind the first hold of a call on an entry, each part copied once.
pub(crate) fn map_parts(alloc: Global, call: &MapCall) -> Result<Vec<Bytes>, Memory>
    ensures { IfOk result (λ parts. parts.items ≡ maps.parts_of call.now) }
{
    match call {
        MapCall::Get { name, key, .. }
        | MapCall::ContainsKey { name, key, .. }
        | MapCall::Remove { name, key, .. }
        | MapCall::Delete { name, key, .. }
        | MapCall::TryLock { name, key, .. }
        | MapCall::Unlock { name, key, .. }
        | MapCall::IsLocked { name, key }
        | MapCall::ForceUnlock { name, key } => two_parts(alloc, name, key),
        MapCall::Put {
            name,
            key,
            value,
            ..
        }
        | MapCall::Set {
            name,
            key,
            value,
            ..
        }
        | MapCall::PutIfAbsent {
            name,
            key,
            value,
            ..
        }
        | MapCall::PutMaxIdle {
            name,
            key,
            value,
            ..
        }
        | MapCall::SetMaxIdle {
            name,
            key,
            value,
            ..
        }
        | MapCall::Replace {
            name,
            key,
            value,
            ..
        }
        | MapCall::RemoveIfSame {
            name,
            key,
            test: value,
            ..
        } => three_parts(alloc, name, key, value),
        MapCall::ReplaceIfSame {
            name,
            key,
            test,
            value,
            ..
        } => four_parts(alloc, name, key, test, value),
        MapCall::ExecuteOnKey {
            name,
            key,
            number,
            argument,
            ..
        } => {
            let processor = processor_part(alloc, *number, argument)?;
            three_parts(alloc, name, &processor, key)
        }
    }
}

/// What the frames behind the first hold of a call on a queue, each part copied once.
pub(crate) fn queue_parts(alloc: Global, call: &QueueCall) -> Result<Vec<Bytes>, Memory>
    ensures { IfOk result (λ parts. parts.items ≡ queues.parts_of call.now) }
{
    match call {
        QueueCall::Offer { name, value } => two_parts(alloc, name, value),
        QueueCall::Poll { name }
        | QueueCall::Peek { name }
        | QueueCall::Size { name }
        | QueueCall::RemainingCapacity { name }
        | QueueCall::Clear { name } => one_part(alloc, name),
    }
}

fn processor_fits(_number: i32)
    ensures { FitsSigned w32 _number }
{}

fn one_fits(_first: i64)
    ensures { All (FitsSigned w64) (_first ∷ []) }
{}

pub(crate) fn two_fit(_first: i64, _second: i64)
    ensures { All (FitsSigned w64) (_first ∷ _second ∷ []) }
{}

fn three_fit(_first: i64, _second: i64, _third: i64)
    ensures { All (FitsSigned w64) (_first ∷ _second ∷ _third ∷ []) }
{}

/// The call's numbers are those of their types. Nothing runs here.
pub(crate) fn map_numbers_fit(call: &MapCall)
    ensures numbers { All (FitsSigned w64) (maps.numbers_of call.now) }
    ensures processor { IfSome (maps.processor_of call.now) (FitsSigned w32) }
{
    match call {
        MapCall::Put { owner, ttl, .. }
        | MapCall::Set { owner, ttl, .. }
        | MapCall::PutIfAbsent { owner, ttl, .. }
        | MapCall::TryLock {
            owner,
            lease: ttl,
            ..
        } => two_fit(owner.thread, *ttl),
        MapCall::PutMaxIdle {
            owner,
            ttl,
            idle,
            ..
        }
        | MapCall::SetMaxIdle {
            owner,
            ttl,
            idle,
            ..
        } => three_fit(owner.thread, *ttl, *idle),
        MapCall::Get { owner, .. }
        | MapCall::ContainsKey { owner, .. }
        | MapCall::Remove { owner, .. }
        | MapCall::Delete { owner, .. }
        | MapCall::Replace { owner, .. }
        | MapCall::ReplaceIfSame { owner, .. }
        | MapCall::RemoveIfSame { owner, .. }
        | MapCall::Unlock { owner, .. } => one_fits(owner.thread),
        MapCall::ExecuteOnKey { owner, number, .. } => {
            one_fits(owner.thread);
            processor_fits(*number);
        }
        MapCall::IsLocked { .. } | MapCall::ForceUnlock { .. } => {}
    }
}
