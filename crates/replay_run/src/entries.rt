ghost use Rattle.std.specs.Prelude.{◌≡◌, ◌∷◌, ◌++◌, [], drop, OnOk};
ghost use Rattle.partition_world.specs.RecordedEntries.{entry_of};
ghost use Rattle.call_engine.specs.Objects.{target_of};
ghost use Rattle.replay_run.specs.Dumps.{number, number_or_dash, word, object_words};
ghost use Rattle.replay_run.specs.Printing.{Reset, first_line, map_call_name, queue_call_name, call_name, entry_text};
ghost use Rattle.replay_run.specs.PrintedEntries.{arrived_in, answered_in, printed_as, resets_in};

use crate::connections::{CallLines, Connections};
use grid_base::{Bytes, GridCall, MapCall, Memory, ObjectKey, PartitionId, QueueCall, Request};
use line_told::{push_hex_word, push_number, push_optional, push_text, push_word};
use partition_world::Entry;
use std::alloc::Global;

/// Appends the lines at which a call arrived and was answered.
fn push_lines(out: &mut Vec<u8>, lines: Option<CallLines>) -> Result<(), Memory>
    ensures { OnOk result (out.new.items ≡ out.old.items ++ number (arrived_in lines) ++ number_or_dash (answered_in lines)) }
{
    match lines {
        Some(lines) => {
            push_number(out, u64::from(lines.arrived))?;
            push_optional(out, lines.answered.map(u64::from))
        }
        None => {
            push_number(out, 0)?;
            push_optional(out, None)
        }
    }
}

/// The name of a call on a map's entry.
fn map_call_name(call: &MapCall) -> &'static str
    ensures { result.now ≡ map_call_name call.now }
{
    match call {
        MapCall::Put { .. } => "put",
        MapCall::Set { .. } => "set",
        MapCall::PutIfAbsent { .. } => "putIfAbsent",
        MapCall::Get { .. } => "get",
        MapCall::ContainsKey { .. } => "containsKey",
        MapCall::Remove { .. } => "remove",
        MapCall::Delete { .. } => "delete",
        MapCall::Replace { .. } => "replace",
        MapCall::ReplaceIfSame { .. } => "replaceIfSame",
        MapCall::RemoveIfSame { .. } => "removeIfSame",
        MapCall::TryLock { .. } => "tryLock",
        MapCall::Unlock { .. } => "unlock",
        MapCall::IsLocked { .. } => "isLocked",
        MapCall::ForceUnlock { .. } => "forceUnlock",
        MapCall::ExecuteOnKey { .. } => "executeOnKey",
        MapCall::PutMaxIdle { .. } => "putMaxIdle",
        MapCall::SetMaxIdle { .. } => "setMaxIdle",
    }
}

/// The name of a call on a queue.
fn queue_call_name(call: &QueueCall) -> &'static str
    ensures { result.now ≡ queue_call_name call.now }
{
    match call {
        QueueCall::Offer { .. } => "offer",
        QueueCall::Poll { .. } => "poll",
        QueueCall::Peek { .. } => "peek",
        QueueCall::Size { .. } => "size",
        QueueCall::RemainingCapacity { .. } => "remainingCapacity",
        QueueCall::Clear { .. } => "clear",
    }
}

/// Appends the name and the key of a map's entry.
pub(crate) fn push_entry_words(
    alloc: Global,
    out: &mut Vec<u8>,
    map: &Bytes,
    key: &Bytes,
) -> Result<(), Memory>
    ensures { OnOk result (out.new.items ≡ out.old.items ++ object_words (ObjectKey.Entry map.now key.now)) }
{
    push_hex_word(alloc, out, map.as_slice())?;
    push_text(out, b" ")?;
    push_hex_word(alloc, out, key.as_slice())?;
    push_text(out, b" ")
}

/// Appends which call a request is, and the object that it is on.
fn push_call(alloc: Global, out: &mut Vec<u8>, request: &Request) -> Result<(), Memory>
    ensures { OnOk result (out.new.items ≡ out.old.items ++ word (call_name request.now.call) ++ object_words (target_of request.now)) }
{
    match &request.call {
        GridCall::Map(call) => {
            push_word(out, map_call_name(call).as_bytes())?;
            push_entry_words(alloc, out, call.map(), call.key())
        }
        GridCall::Queue(call) => {
            push_word(out, queue_call_name(call).as_bytes())?;
            push_hex_word(alloc, out, call.queue().as_slice())?;
            push_text(out, b" - ")
        }
    }
}

/// Where an entry stands, as a line prints it: the partition and the place in its history, from 0.
#[derive(Clone, Copy)]
pub(crate) struct EntryPlace {
    pub(crate) line: u32,
    pub(crate) partition: PartitionId,
    pub(crate) place: usize,
}

/// How many resets an entry is.
pub(crate) fn resets_of(entry: &Entry<Request>) -> usize
    ensures { result ≡ resets_in (entry_of entry.now ∷ []) }
{
    match entry {
        Entry::Call { .. } => 0,
        Entry::Reset { .. } => 1,
    }
}

/// The line of a reopening, where these are the lines of a partition's, and 0 past them.
pub(crate) fn line_at(lines: &[u32], place: usize) -> u32
    ensures { result ≡ first_line (drop place lines.now) }
{
    if place < lines.len() { lines[place] } else { 0 }
}

/// Appends a reset of a recorded history, which has the line of the reopening.
fn push_reset(out: &mut Vec<u8>, at: EntryPlace, reopened: u32) -> Result<(), Memory>
    ensures { OnOk result (out.new.items ≡ out.old.items ++ entry_text at.line (Reset (record { partition = at.partition; place = at.place; line = reopened }))) }
{
    push_number(out, u64::from(at.line))?;
    push_text(out, b"entry ")?;
    push_number(out, u64::from(at.partition))?;
    push_number(out, at.place as u64)?;
    push_text(out, b"- - ")?;
    push_number(out, u64::from(reopened))?;
    push_text(out, b"- - reset - - -")?;
    push_text(out, b"\n")
}

/// Appends an entry of a recorded history: a call with the lines at which it arrived and was answered, and a reset with
/// the line of the reopening.
pub(crate) fn push_entry(
    alloc: Global,
    out: &mut Vec<u8>,
    at: EntryPlace,
    reopened: u32,
    entry: &Entry<Request>,
    connections: &Connections,
) -> Result<(), Memory>
    ensures { OnOk result (out.new.items ≡ out.old.items ++ entry_text at.line (printed_as at.partition at.place reopened entry.now connections.now)) }
{
    match entry {
        Entry::Call {
            id,
            now,
            call,
            reply,
            ..
        } => {
            push_number(out, u64::from(at.line))?;
            push_text(out, b"entry ")?;
            push_number(out, u64::from(at.partition))?;
            push_number(out, at.place as u64)?;
            push_number(out, u64::from(id.conn))?;
            push_number(out, u64::from(id.number))?;
            push_lines(out, connections.lines_of(*id))?;
            push_number(out, *now)?;
            push_call(alloc, out, call)?;
            push_hex_word(alloc, out, reply.as_slice())?;
            push_text(out, b"\n")
        }
        Entry::Reset { .. } => push_reset(out, at, reopened),
    }
}
