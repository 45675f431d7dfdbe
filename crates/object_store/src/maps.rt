ghost use Rattle.std.specs.Prelude.{◌≡◌, ◌++◌, Some, None, OnOk, OnErr};
ghost use Rattle.std.specs.List.{flat_map};
ghost use Rattle.object_store.specs.Tables.{IsEntryKept, AreEntriesKept, IsMapKept, AreMapsKept, SetsEntry, SetsMapEntry, HasSameEntries, entries_stored, names_of};

use grid_base::{Bytes, Memory, ObjectKey};
use map_records::MapRecord;
use std::alloc::Global;
use std::collections::HashMap;

/// The records of a map by their keys.
pub(crate) type Entries = HashMap<Bytes, MapRecord>;

/// The entries of each map that has any, by its name.
pub(crate) type Maps = HashMap<Bytes, Entries>;

/// Keeps a record, in the place of the one before. Want of memory changes nothing.
pub(crate) fn set_entry(
    maps: &mut Maps,
    alloc: Global,
    map: Bytes,
    key: Bytes,
    kept: MapRecord,
) -> Result<(), Memory>
    requires something { IsEntryKept kept }
    requires kept { AreMapsKept maps.old }
    ensures kept { AreMapsKept maps.new }
    ensures ok { OnOk result (SetsMapEntry maps.old maps.new map key (Some kept)) }
    ensures err { OnErr result (HasSameEntries maps.old maps.new) }
{
    match maps.get_mut(&map) {
        Some(entries) => set_record(entries, key, kept),
        None => {
            let mut entries = HashMap::new(alloc);
            set_record(&mut entries, key, kept)?;
            maps.insert(map, entries)?;
            Ok(())
        }
    }
}

/// Keeps a record of a map. Want of memory changes nothing.
fn set_record(entries: &mut Entries, key: Bytes, kept: MapRecord) -> Result<(), Memory>
    requires something { IsEntryKept kept }
    requires kept { AreEntriesKept entries.old }
    ensures kept { OnOk result (IsMapKept entries.new) }
    ensures ok { OnOk result (SetsEntry entries.old entries.new key (Some kept)) }
    ensures err { OnErr result (entries.new.entries ≡ entries.old.entries) }
{
    entries.insert(key, kept)?;
    Ok(())
}

/// Drops what is kept of an entry, and the table of its map with the last one.
pub(crate) fn drop_entry(maps: &mut Maps, map: &Bytes, key: &Bytes)
    requires { AreMapsKept maps.old }
    ensures kept { AreMapsKept maps.new }
    ensures entries { SetsMapEntry maps.old maps.new map.now key.now None }
{
    let Some(entries) = maps.get_mut(map) else {
        return;
    };
    entries.remove(key);
    if entries.is_empty() {
        maps.remove(map);
    }
}

/// Appends a copy of the name of each entry.
pub(crate) fn push_names(
    maps: &Maps,
    alloc: Global,
    names: &mut Vec<ObjectKey>,
) -> Result<(), Memory>
    ensures { OnOk result (names.new.items ≡ names.old.items ++ names_of (flat_map entries_stored maps.now.entries)) }
{
    for (map, entries) in maps {
        push_keys(map, entries, alloc, names)?;
    }
    Ok(())
}

/// Appends a copy of the name of each entry of one map.
fn push_keys(
    map: &Bytes,
    entries: &Entries,
    alloc: Global,
    names: &mut Vec<ObjectKey>,
) -> Result<(), Memory>
    ensures { OnOk result (names.new.items ≡ names.old.items ++ names_of (entries_stored (map.now, entries.now))) }
{
    for key in entries.keys() {
        names.push(ObjectKey::Entry {
            map: map.copied(alloc)?,
            key: key.copied(alloc)?,
        })?;
    }
    Ok(())
}
