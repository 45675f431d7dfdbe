//! A client's calls in words: what each asks for, without its object or with it.

use crate::data::{push_argument, push_data, push_entry_name, push_name};
use compose_words::{MapWait, QueueWait};
use grid_base::{Bytes, GridCall, MapCall, Memory, QueueCall};
use std::alloc::Global;

/// The thread of a call that states none in words.
const USUAL_THREAD: i64 = 1;

/// The timeout of one that states none, which has no end.
const NO_END: i64 = -1;

/// What a call says beside its object.
#[derive(Clone, Copy)]
struct Parts<'a> {
    word: &'static str,
    processor: Option<(i32, &'a Bytes)>,
    test: Option<&'a Bytes>,
    value: Option<&'a Bytes>,
    ttl: i64,
    idle: i64,
    lease: i64,
    thread: i64,
}

impl<'a> Parts<'a> {
    /// A word that says all.
    fn of(word: &'static str) -> Self {
        Parts {
            word,
            processor: None,
            test: None,
            value: None,
            ttl: 0,
            idle: 0,
            lease: 0,
            thread: USUAL_THREAD,
        }
    }
}

/// The word of a call on a map's entry.
fn word_of_map(call: &MapCall) -> &'static str {
    match call {
        MapCall::Put { .. } => "put",
        MapCall::Set { .. } => "set",
        MapCall::PutIfAbsent { .. } => "putIfAbsent",
        MapCall::Get { .. } => "get",
        MapCall::ContainsKey { .. } => "containsKey",
        MapCall::Remove { .. } => "remove",
        MapCall::Delete { .. } => "delete",
        MapCall::Replace { .. } => "replace",
        MapCall::ReplaceIfSame { .. } => "replaceIfSame",
        MapCall::RemoveIfSame { .. } => "removeIfSame",
        MapCall::TryLock { .. } => "tryLock",
        MapCall::Unlock { .. } => "unlock",
        MapCall::IsLocked { .. } => "isLocked",
        MapCall::ForceUnlock { .. } => "forceUnlock",
        MapCall::ExecuteOnKey { .. } => "executeOnKey",
        MapCall::PutMaxIdle { .. } => "putMaxIdle",
        MapCall::SetMaxIdle { .. } => "setMaxIdle",
    }
}

/// The processor that a call runs, and what it is given.
fn processor_of(call: &MapCall) -> Option<(i32, &Bytes)> {
    match call {
        MapCall::ExecuteOnKey {
            number,
            argument,
            ..
        } => Some((*number, argument)),
        _ => None,
    }
}

/// The value that is to be there already.
fn test_of(call: &MapCall) -> Option<&Bytes> {
    match call {
        MapCall::ReplaceIfSame { test, .. } | MapCall::RemoveIfSame { test, .. } => Some(test),
        _ => None,
    }
}

/// The value that a call stores.
fn value_of(call: &MapCall) -> Option<&Bytes> {
    match call {
        MapCall::Put { value, .. }
        | MapCall::Set { value, .. }
        | MapCall::PutIfAbsent { value, .. }
        | MapCall::Replace { value, .. }
        | MapCall::ReplaceIfSame { value, .. }
        | MapCall::PutMaxIdle { value, .. }
        | MapCall::SetMaxIdle { value, .. } => Some(value),
        _ => None,
    }
}

/// For how long the value lives, where the call says it.
fn ttl_of(call: &MapCall) -> i64 {
    match call {
        MapCall::Put { ttl, .. }
        | MapCall::Set { ttl, .. }
        | MapCall::PutIfAbsent { ttl, .. }
        | MapCall::PutMaxIdle { ttl, .. }
        | MapCall::SetMaxIdle { ttl, .. } => *ttl,
        _ => 0,
    }
}

/// For how long the value may lie unused, where the call says it.
fn idle_of(call: &MapCall) -> i64 {
    match call {
        MapCall::PutMaxIdle { idle, .. } | MapCall::SetMaxIdle { idle, .. } => *idle,
        _ => 0,
    }
}

/// For how long the key is locked, where the call says it.
fn lease_of(call: &MapCall) -> i64 {
    match call {
        MapCall::TryLock { lease, .. } => *lease,
        _ => 0,
    }
}

/// The thread that calls; the usual one where the call has none.
fn thread_of(call: &MapCall) -> i64 {
    match call {
        MapCall::Put { owner, .. }
        | MapCall::Set { owner, .. }
        | MapCall::PutIfAbsent { owner, .. }
        | MapCall::Get { owner, .. }
        | MapCall::ContainsKey { owner, .. }
        | MapCall::Remove { owner, .. }
        | MapCall::Delete { owner, .. }
        | MapCall::Replace { owner, .. }
        | MapCall::ReplaceIfSame { owner, .. }
        | MapCall::RemoveIfSame { owner, .. }
        | MapCall::TryLock { owner, .. }
        | MapCall::Unlock { owner, .. }
        | MapCall::ExecuteOnKey { owner, .. }
        | MapCall::PutMaxIdle { owner, .. }
        | MapCall::SetMaxIdle { owner, .. } => owner.thread,
        MapCall::IsLocked { .. } | MapCall::ForceUnlock { .. } => USUAL_THREAD,
    }
}

/// What a call on a map's entry says.
fn parts_of_map(call: &MapCall) -> Parts<'_> {
    Parts {
        word: word_of_map(call),
        processor: processor_of(call),
        test: test_of(call),
        value: value_of(call),
        ttl: ttl_of(call),
        idle: idle_of(call),
        lease: lease_of(call),
        thread: thread_of(call),
    }
}

/// What a call on a queue says.
fn parts_of_queue(call: &QueueCall) -> Parts<'_> {
    match call {
        QueueCall::Offer { value, .. } => Parts {
            value: Some(value),
            ..Parts::of("offer")
        },
        QueueCall::Poll { .. } => Parts::of("poll"),
        QueueCall::Peek { .. } => Parts::of("peek"),
        QueueCall::Size { .. } => Parts::of("size"),
        QueueCall::RemainingCapacity { .. } => Parts::of("remainingCapacity"),
        QueueCall::Clear { .. } => Parts::of("clear"),
    }
}

/// What a call that may wait for a map's entry says.
fn parts_of_map_wait(wait: &MapWait) -> Parts<'_> {
    match wait {
        MapWait::Lock { owner, lease, .. } => Parts {
            lease: *lease,
            thread: owner.thread,
            ..Parts::of("lockWait")
        },
        MapWait::Put {
            owner,
            value,
            ttl,
            ..
        } => Parts {
            value: Some(value),
            ttl: *ttl,
            thread: owner.thread,
            ..Parts::of("putWait")
        },
    }
}

/// What a call that may wait for a queue says.
fn parts_of_queue_wait(wait: &QueueWait) -> Parts<'_> {
    match wait {
        QueueWait::Offer { value, .. } => Parts {
            value: Some(value),
            ..Parts::of("offerWait")
        },
        QueueWait::Poll { .. } => Parts::of("pollWait"),
    }
}

/// Appends a value, where there is one.
fn push_value(alloc: Global, out: &mut String, value: Option<&Bytes>) -> Result<(), Memory> {
    let Some(value) = value else {
        return Ok(());
    };
    out.push_str(" ")?;
    push_data(alloc, out, value.as_slice())
}

/// Appends a span that isn't the usual one, in milliseconds.
fn push_span(out: &mut String, word: &str, span: i64) -> Result<(), Memory> {
    if span == 0 {
        return Ok(());
    }
    write!(out, " {word} {span}")
}

/// Appends what a call says behind its object: a processor, values, and what isn't as usual.
fn push_rest(alloc: Global, out: &mut String, parts: Parts<'_>) -> Result<(), Memory> {
    if let Some((number, argument)) = parts.processor {
        write!(out, " {number} ")?;
        push_argument(alloc, out, argument.as_slice())?;
    }
    push_value(alloc, out, parts.test)?;
    push_value(alloc, out, parts.value)?;
    push_span(out, "ttl", parts.ttl)?;
    push_span(out, "idle", parts.idle)?;
    push_span(out, "lease", parts.lease)?;
    let thread = parts.thread;
    if thread == USUAL_THREAD {
        return Ok(());
    }
    write!(out, " thread {thread}")
}

/// Appends for how long a call may wait, where that has an end.
fn push_timeout(out: &mut String, timeout: i64) -> Result<(), Memory> {
    if timeout == NO_END {
        return Ok(());
    }
    write!(out, " timeout {timeout}")
}

/// Appends a word and a map's entry.
fn push_entry_call(
    alloc: Global,
    out: &mut String,
    word: &str,
    map: &Bytes,
    key: &Bytes,
) -> Result<(), Memory> {
    out.push_str(word)?;
    out.push_str(" ")?;
    push_entry_name(alloc, out, map, key)
}

/// Appends a word and a queue.
fn push_named_call(out: &mut String, word: &str, queue: &Bytes) -> Result<(), Memory> {
    out.push_str(word)?;
    out.push_str(" ")?;
    push_name(out, queue.as_slice())
}

/// Appends a call on a map's entry as `say` lines have it.
pub(crate) fn push_map_call(alloc: Global, out: &mut String, call: &MapCall) -> Result<(), Memory> {
    let parts = parts_of_map(call);
    push_entry_call(alloc, out, parts.word, call.map(), call.key())?;
    push_rest(alloc, out, parts)
}

/// Appends a call on a queue, but for its partition.
pub(crate) fn push_queue_call(
    alloc: Global,
    out: &mut String,
    call: &QueueCall,
) -> Result<(), Memory> {
    let parts = parts_of_queue(call);
    push_named_call(out, parts.word, call.queue())?;
    push_rest(alloc, out, parts)
}

/// Appends a call that may wait for a map's entry.
pub(crate) fn push_map_wait(
    alloc: Global,
    out: &mut String,
    wait: &MapWait,
    timeout: i64,
) -> Result<(), Memory> {
    let parts = parts_of_map_wait(wait);
    let (MapWait::Lock { name, key, .. } | MapWait::Put { name, key, .. }) = wait;
    push_entry_call(alloc, out, parts.word, name, key)?;
    push_rest(alloc, out, parts)?;
    push_timeout(out, timeout)
}

/// Appends a call that may wait for a queue, but for its partition.
pub(crate) fn push_queue_wait(
    alloc: Global,
    out: &mut String,
    wait: &QueueWait,
    timeout: i64,
) -> Result<(), Memory> {
    let parts = parts_of_queue_wait(wait);
    push_named_call(out, parts.word, wait.queue())?;
    push_rest(alloc, out, parts)?;
    push_timeout(out, timeout)
}

/// Appends the object that a call is on: a map and a key, or a queue.
pub fn push_object(alloc: Global, out: &mut String, call: &GridCall) -> Result<(), Memory> {
    match call {
        GridCall::Map(call) => push_entry_name(alloc, out, call.map(), call.key()),
        GridCall::Queue(call) => push_name(out, call.queue().as_slice()),
    }
}

/// Appends what a call on a known object says.
pub fn push_deed(alloc: Global, out: &mut String, call: &GridCall) -> Result<(), Memory> {
    let parts = match call {
        GridCall::Map(call) => parts_of_map(call),
        GridCall::Queue(call) => parts_of_queue(call),
    };
    out.push_str(parts.word)?;
    push_rest(alloc, out, parts)
}
