ghost use Rattle.std.specs.Prelude.{◌≡◌, ◌++◌, OnOk, unwrap_or};
ghost use Rattle.std.specs.Option.{option_copied};
ghost use Rattle.map_records.specs.MapEntries.{empty_entry};
ghost use Rattle.object_store.specs.Records.{items_in};
ghost use Rattle.object_store.specs.Partitions.{record_at};
ghost use Rattle.replay_run.specs.Dumps.{client_text, end_text, idle_text, lock_text, entry_words, items_text, stored_text, dumped_text};

use crate::entries::push_entry_words;
use call_engine::GridShelf;
use grid_base::{Bytes, ClientKey, Memory, Moment, ObjectKey};
use itoa::Buffer;
use key_locks::Lock;
use line_told::{push_decimal, push_hex_word, push_number, push_optional, push_text, push_value};
use map_records::{Idle, MapRecord};
use object_store::ObjectStore;
use std::alloc::Global;
use uuid::Uuid;

/// Appends a client's own number as a UUID, or its connection.
fn push_client(out: &mut Vec<u8>, client: ClientKey) -> Result<(), Memory>
    ensures { OnOk result (out.new.items ≡ out.old.items ++ client_text client) }
{
    match client {
        ClientKey::Known(number) => {
            let mut text = Uuid::encode_buffer();
            push_text(
                out,
                Uuid::from_u128(number)
                    .hyphenated()
                    .encode_lower(&mut text)
                    .as_bytes(),
            )
        }
        ClientKey::OfConn(conn) => {
            push_text(out, b"conn:")?;
            push_decimal(out, u64::from(conn))
        }
    }
}

/// Appends the end of a lease, or `-`.
fn push_end(out: &mut Vec<u8>, end: Option<Moment>) -> Result<(), Memory>
    ensures { OnOk result (out.new.items ≡ out.old.items ++ end_text end) }
{
    match end {
        None => push_text(out, b"-"),
        Some(moment) => push_decimal(out, moment),
    }
}

/// Appends an idle span with its end, or `-`.
fn push_idle(out: &mut Vec<u8>, idle: Option<Idle>) -> Result<(), Memory>
    ensures { OnOk result (out.new.items ≡ out.old.items ++ idle_text idle) }
{
    let Some(Idle { span, end }) = idle else {
        return push_text(out, b"-");
    };
    push_decimal(out, span)?;
    push_text(out, b"/")?;
    push_decimal(out, end)
}

/// Appends a lock, or `-`.
fn push_lock(out: &mut Vec<u8>, lock: Option<Lock>) -> Result<(), Memory>
    ensures { OnOk result (out.new.items ≡ out.old.items ++ lock_text lock) }
{
    let Some(
        Lock {
            owner,
            count,
            until,
        },
    ) = lock
    else {
        return push_text(out, b"-");
    };
    push_client(out, owner.client)?;
    push_text(out, b"/")?;
    push_text(out, Buffer::new().format(owner.thread).as_bytes())?;
    push_text(out, b"/")?;
    push_decimal(out, u64::from(count))?;
    push_text(out, b"/")?;
    push_end(out, until)
}

/// Appends what is kept of a map's entry, if anything is.
fn push_kept(alloc: Global, out: &mut Vec<u8>, entry: Option<&MapRecord>) -> Result<(), Memory>
    ensures { OnOk result (out.new.items ≡ out.old.items ++ entry_words (unwrap_or (option_copied entry.entry) empty_entry)) }
{
    let Some(entry) = entry else {
        return push_text(out, b"- - - -");
    };
    push_value(alloc, out, entry.value.as_ref())?;
    push_text(out, b" ")?;
    push_optional(out, entry.expires)?;
    push_idle(out, entry.idle)?;
    push_text(out, b" ")?;
    push_lock(out, entry.lock)
}

/// Appends values with commas between them.
fn push_items(alloc: Global, out: &mut Vec<u8>, items: &[Bytes]) -> Result<(), Memory>
    ensures { OnOk result (out.new.items ≡ out.old.items ++ items_text items.now) }
{
    let [first, rest @ ..] = items else {
        return Ok(());
    };
    push_hex_word(alloc, out, first.as_slice())?;
    for item in rest {
        push_text(out, b",")?;
        push_hex_word(alloc, out, item.as_slice())?;
    }
    Ok(())
}

/// The values of a queue.
fn values_of<'a>(store: &'a ObjectStore, name: &Bytes) -> &'a [Bytes]
    ensures { result.now ≡ items_in (record_at store.now (ObjectKey.Queue name.now)) }
{
    match store.queue(name) {
        Some(queue) => queue.as_slice(),
        None => &[],
    }
}

/// Appends the line of an object that a store keeps.
fn push_stored(
    alloc: Global,
    out: &mut Vec<u8>,
    line: u32,
    store: &ObjectStore,
    name: &ObjectKey,
) -> Result<(), Memory>
    ensures { OnOk result (out.new.items ≡ out.old.items ++ stored_text line (name.now, record_at store.now name.now)) }
{
    push_number(out, u64::from(line))?;
    match name {
        ObjectKey::Entry { map, key } => {
            push_text(out, b"map ")?;
            push_entry_words(alloc, out, map, key)?;
            push_kept(alloc, out, store.entry(map, key))?;
        }
        ObjectKey::Queue { name } => {
            push_text(out, b"queue ")?;
            push_hex_word(alloc, out, name.as_slice())?;
            push_text(out, b" ")?;
            push_items(alloc, out, values_of(store, name))?;
        }
    }
    push_text(out, b"\n")
}

/// Appends a line for each object that a shelf keeps, in the order of their names.
pub(crate) fn push_dumped(
    alloc: Global,
    out: &mut Vec<u8>,
    line: u32,
    shelf: &GridShelf,
) -> Result<(), Memory>
    ensures { OnOk result (out.new.items ≡ out.old.items ++ dumped_text line shelf.now) }
{
    let store = shelf.store();
    for name in store.objects(alloc)?.as_slice() {
        push_stored(alloc, out, line, store, name)?;
    }
    Ok(())
}
