ghost use Rattle.std.specs.Prelude.{◌≡◌, map, IfOk, option_copied};
ghost use Rattle.entry_processors.specs.Processors.{outcome_at};
ghost use Rattle.map_records.specs.MapTable.{answer as answer_of, after as after_of, row, writer as writer_of, processed as processed_of};

use crate::entry_view::EntryView;
use crate::records::{MapRecord, max_idle};
use entry_processors::{Outcome, ProcessorRefused, Registry};
use grid_base::{Answer, Bytes, MapCall, Memory, Moment, Owner};
use key_locks::ends_at;
use std::alloc::{AllocError, Global};

/// Runs a call on one entry: what it answers, and the record that it leaves, as the table of the entry's
/// definition has them (`specs/MapTable.antt`), once all is removed that has ended by now.
///
/// Costs a copy of the value that is answered, one of the value that is left, and a comparison where the call
/// tests the value; a processor costs what its rule says.
pub fn run_map(
    alloc: Global,
    kept: &MapRecord,
    call: &MapCall,
    now: Moment,
    registry: &Registry,
) -> Result<(Answer, MapRecord), Memory>
    ensures answer { IfOk result (λ done. done.0 ≡ answer_of (map form registry.now) kept.now call.now now) }
    ensures after { IfOk result (λ done. done.1 ≡ after_of (map form registry.now) kept.now call.now now) }
{
    let entry = EntryView::of(kept, now);
    match writer(call, registry) {
        Some(owner) if !entry.may_write(owner) => leaving(alloc, Answer::KeyLocked, &entry),
        _ => run_unlocked(alloc, &entry, call, now, registry),
    }
}

/// The answer, with the record of what stands.
fn leaving(alloc: Global, answer: Answer, entry: &EntryView) -> Result<(Answer, MapRecord), Memory>
    ensures answer { IfOk result (λ done. done.0 ≡ answer) }
    ensures after { IfOk result (λ done. done.1 ≡ entry.now) }
{
    Ok((answer, entry.copied(alloc)?))
}

/// The value as it is before the call, as the answer, with the record of what stands after it.
fn answering_value(
    alloc: Global,
    before: &EntryView,
    after: &EntryView,
) -> Result<(Answer, MapRecord), Memory>
    ensures answer { IfOk result (λ done. done.0 ≡ Answer.Maybe before.now.value) }
    ensures after { IfOk result (λ done. done.1 ≡ after.now) }
{
    let value = before.value_copied(alloc)?;
    leaving(alloc, Answer::Maybe(value), after)
}

/// The owner who has to be allowed to write; none where the call writes no value.
fn writer<'a>(call: &'a MapCall, registry: &Registry) -> Option<&'a Owner>
    ensures { option_copied result ≡ writer_of (map form registry.now) call.now }
{
    match call {
        MapCall::Put { owner, .. }
        | MapCall::Set { owner, .. }
        | MapCall::PutIfAbsent { owner, .. }
        | MapCall::Remove { owner, .. }
        | MapCall::Delete { owner, .. }
        | MapCall::Replace { owner, .. }
        | MapCall::ReplaceIfSame { owner, .. }
        | MapCall::RemoveIfSame { owner, .. }
        | MapCall::PutMaxIdle { owner, .. }
        | MapCall::SetMaxIdle { owner, .. } => Some(owner),
        MapCall::ExecuteOnKey { owner, number, .. } if registry.get(*number).is_some() => {
            Some(owner)
        }
        _ => None,
    }
}

/// Runs a call that no lock keeps out.
fn run_unlocked(
    alloc: Global,
    entry: &EntryView,
    call: &MapCall,
    now: Moment,
    registry: &Registry,
) -> Result<(Answer, MapRecord), Memory>
    ensures answer { IfOk result (λ done. done.0 ≡ (row (map form registry.now) entry.now call.now now).0) }
    ensures after { IfOk result (λ done. done.1 ≡ (row (map form registry.now) entry.now call.now now).1) }
{
    match call {
        MapCall::Put { value, ttl, .. } => {
            let after = entry.with_value(value, ends_at(now, *ttl), None);
            answering_value(alloc, entry, &after)
        }
        MapCall::Set { value, ttl, .. } => {
            let after = entry.with_value(value, ends_at(now, *ttl), None);
            leaving(alloc, Answer::Void, &after)
        }
        MapCall::PutMaxIdle {
            value,
            ttl,
            idle,
            ..
        } => {
            let after = entry.with_value(value, ends_at(now, *ttl), max_idle(now, *idle));
            answering_value(alloc, entry, &after)
        }
        MapCall::SetMaxIdle {
            value,
            ttl,
            idle,
            ..
        } => {
            let after = entry.with_value(value, ends_at(now, *ttl), max_idle(now, *idle));
            leaving(alloc, Answer::Void, &after)
        }
        MapCall::PutIfAbsent { value, ttl, .. } => {
            let after = entry.with_value_if_absent(value, ends_at(now, *ttl));
            answering_value(alloc, entry, &after.touched(now))
        }
        MapCall::Get { .. } => answering_value(alloc, entry, &entry.touched(now)),
        MapCall::ContainsKey { .. } => {
            leaving(alloc, Answer::Flag(entry.has_value()), &entry.touched(now))
        }
        MapCall::Remove { .. } => answering_value(alloc, entry, &entry.without_value()),
        MapCall::Delete { .. } => leaving(alloc, Answer::Void, &entry.without_value()),
        MapCall::Replace { value, .. } => {
            let after = entry.replaced(value).touched(now);
            answering_value(alloc, entry, &after)
        }
        MapCall::ReplaceIfSame { test, value, .. } => {
            let after = entry.replaced_if_same(test, value).touched(now);
            leaving(alloc, Answer::Flag(entry.is_value(test)), &after)
        }
        MapCall::RemoveIfSame { test, .. } => {
            let after = entry.removed_if_same(test).touched(now);
            leaving(alloc, Answer::Flag(entry.is_value(test)), &after)
        }
        MapCall::TryLock { owner, lease, .. } => {
            let (answer, after) = entry.locked(owner, ends_at(now, *lease));
            leaving(alloc, answer, &after)
        }
        MapCall::IsLocked { .. } => leaving(alloc, Answer::Flag(entry.is_locked()), entry),
        MapCall::Unlock { owner, .. } => {
            let (answer, after) = entry.unlocked(owner);
            leaving(alloc, answer, &after)
        }
        MapCall::ForceUnlock { .. } => leaving(alloc, Answer::Void, &entry.with_lock(None)),
        MapCall::ExecuteOnKey {
            number,
            argument,
            ..
        } => {
            let outcome = run_processor(alloc, registry, *number, entry.value(), argument)?;
            processed(alloc, entry, outcome, now)
        }
    }
}

/// What the processor of a number makes; none where no processor has that number.
fn run_processor(
    alloc: Global,
    registry: &Registry,
    number: i32,
    old: Option<&Bytes>,
    argument: &Bytes,
) -> Result<Option<Outcome>, Memory>
    ensures { IfOk result (λ made. made ≡ outcome_at (map form registry.now) number (option_copied old.entry) argument.now) }
{
    match registry.run(alloc, number, old, argument) {
        Ok(made) => Ok(Some(made)),
        Err(ProcessorRefused::Unknown) => Ok(None),
        Err(ProcessorRefused::Memory) => Err(AllocError),
    }
}

/// What an outcome makes of the entry. Without one, nothing changes.
fn processed(
    alloc: Global,
    entry: &EntryView,
    outcome: Option<Outcome>,
    now: Moment,
) -> Result<(Answer, MapRecord), Memory>
    ensures answer { IfOk result (λ done. done.0 ≡ (processed_of entry.now outcome now).0) }
    ensures after { IfOk result (λ done. done.1 ≡ (processed_of entry.now outcome now).1) }
{
    match outcome {
        None => leaving(alloc, Answer::UnknownProcessor, entry),
        Some(Outcome { value, answer }) => {
            Ok((Answer::Maybe(answer), entry.with_outcome(value, now)))
        }
    }
}
