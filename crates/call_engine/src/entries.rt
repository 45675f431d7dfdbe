ghost use Rattle.std.specs.Prelude.{◌≡◌, None, Some, IfOk, option_map, if◌then◌else◌, nat_eq};
ghost use Rattle.std.specs.Option.{option_eq, option_copied};
ghost use Rattle.std.specs.Cmp.Lexicographic.{pointwise};
ghost use Rattle.grid_base.specs.Objects.{IsSmall};
ghost use Rattle.grid_base.specs.Limits.{FitsFrame, MapCallFits, MapNumbersFit};
ghost use Rattle.grid_base.specs.Names.{map_of, key_of};
ghost use Rattle.grid_base.specs.declared.names.ObjectKey.TheVariants.{Entry};
ghost use Rattle.grid_base.specs.declared.calls.GridCall.TheVariants.{Map as MapOf};
ghost use Rattle.map_records.specs.MapEntries.{empty_entry, is_expired as has_expired};
ghost use Rattle.map_records.specs.SameEntries.{is_same_entry};
ghost use Rattle.object_store.specs.Records.{Map as KeptOf};
ghost use Rattle.object_store.specs.Partitions.{record_at};
ghost use Rattle.object_store.specs.Spelling.{effect_bytes};
ghost use Rattle.call_engine.specs.Env.{settings_of};
ghost use Rattle.call_engine.specs.Effects.{entry_effect};
ghost use Rattle.call_engine.specs.Executions.{IsExecution};
ghost use Rattle.call_engine.specs.Limits.{EntryFits, IsWithin};

use crate::env::GridEnv;
use fixed_fields::write_reply;
use grid_base::{Bytes, Change, Executed, MapCall, Memory, Moment, Request};
use map_records::{MapRecord, is_expired, run_map};
use object_store::{ObjectStore, write_drop_entry, write_set_entry};
use std::alloc::Global;

/// A record of nothing.
fn empty_record() -> MapRecord
    ensures { result ≡ empty_entry }
{
    MapRecord {
        value: None,
        expires: None,
        idle: None,
        lock: None,
    }
}

/// Whether two records of an entry are the same in each part.
fn is_same(kept: &MapRecord, next: &MapRecord) -> bool
    ensures { result ≡ is_same_entry kept.now next.now }
{
    kept == next
}

/// The bytes of the effect that makes an entry have this record.
fn write_entry(alloc: Global, call: &MapCall, next: &MapRecord) -> Result<Bytes, Memory>
    requires map { FitsFrame (map_of call.now) }
    requires key { FitsFrame (key_of call.now) }
    requires next { EntryFits next.now }
    ensures { IfOk result (λ effect. effect ≡ effect_bytes (entry_effect (map_of call.now) (key_of call.now) next.now)) }
{
    if next.value.is_some() || next.lock.is_some() {
        write_set_entry(alloc, call.map(), call.key(), next)
    } else {
        write_drop_entry(alloc, call.map(), call.key())
    }
}

/// The bytes of the effect that leaves the next record in the place of the one that is kept; none where they are the same.
fn write_change(
    alloc: Global,
    call: &MapCall,
    kept: &MapRecord,
    next: &MapRecord,
) -> Result<Option<Bytes>, Memory>
    requires map { FitsFrame (map_of call.now) }
    requires key { FitsFrame (key_of call.now) }
    requires next { EntryFits next.now }
    ensures { IfOk result (λ effect. effect ≡ option_map effect_bytes (if is_same_entry kept.now next.now then None else Some (entry_effect (map_of call.now) (key_of call.now) next.now))) }
{
    if is_same(kept, next) {
        Ok(None)
    } else {
        Ok(Some(write_entry(alloc, call, next)?))
    }
}

/// A copy of a value, where there is one.
fn value_copied(alloc: Global, value: Option<&Bytes>) -> Result<Option<Bytes>, Memory>
    ensures { IfOk result (λ copy. copy ≡ option_copied value.entry) }
{
    match value {
        None => Ok(None),
        Some(value) => Ok(Some(value.copied(alloc)?)),
    }
}

/// How the value changes, where it does: it is copied as it was, and moved as it is left.
fn value_change(
    alloc: Global,
    call: &MapCall,
    kept: &MapRecord,
    next: MapRecord,
    now: Moment,
) -> Result<Option<Change>, Memory>
    ensures { IfOk result (λ change. change ≡ (if option_eq (pointwise nat_eq) kept.now.value next.value then None else Some (record { name = map_of call.now; key = key_of call.now; old = kept.now.value; new = next.value; expired = has_expired kept.now now }))) }
{
    if kept.value == next.value {
        return Ok(None);
    }
    Ok(Some(Change {
        name: call.map().copied(alloc)?,
        key: call.key().copied(alloc)?,
        old: value_copied(alloc, kept.value.as_ref())?,
        new: next.value,
        expired: is_expired(kept, now),
    }))
}

/// Runs a call on what is kept of its entry.
fn run_on(
    alloc: Global,
    env: &GridEnv,
    request: &Request,
    call: &MapCall,
    kept: &MapRecord,
    now: Moment,
) -> Result<Executed, Memory>
    requires limits { MapCallFits call.now }
    requires numbers { MapNumbersFit call.now }
    requires kept { EntryFits kept.now }
    ensures { IfOk result (IsExecution (settings_of form env.now) (KeptOf kept.now) request.now (MapOf call.now) now) }
{
    let (answer, next) = run_map(alloc, kept, call, now, &env.registry)?;
    Ok(Executed {
        reply: write_reply(alloc, request.kind, request.correlation, &answer)?,
        effect: write_change(alloc, call, kept, &next)?,
        change: value_change(alloc, call, kept, next, now)?,
    })
}

/// Runs a call on an entry of a map, with one look-up. Copies the value that is answered, the record that is left, and
/// the values that differ.
pub(crate) fn execute_on_entry(
    alloc: Global,
    store: &ObjectStore,
    env: &GridEnv,
    request: &Request,
    call: &MapCall,
    now: Moment,
) -> Result<Executed, Memory>
    requires limits { MapCallFits call.now }
    requires numbers { MapNumbersFit call.now }
    requires small { IsSmall IsWithin store.now }
    ensures { IfOk result (IsExecution (settings_of form env.now) (record_at store.now (Entry (map_of call.now) (key_of call.now))) request.now (MapOf call.now) now) }
{
    match store.entry(call.map(), call.key()) {
        Some(kept) => run_on(alloc, env, request, call, kept, now),
        None => run_on(alloc, env, request, call, &empty_record(), now),
    }
}
