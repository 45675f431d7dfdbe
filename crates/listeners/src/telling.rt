//! What each listener is sent.

ghost use Rattle.std.specs.Prelude.{◌≡◌, ◌++◌, option_map, option_to_list, IfOk, OnOk};
ghost use Rattle.listeners.specs.Telling.{told, change_event, row_event};

use crate::listener::Listener;
use event_codecs::{Registration, write_entry_event, write_invalidation, write_rows};
use grid_base::{Bytes, Change, Memory, PartitionId};
use partition_table::Row;
use primary_hold::CallAnswer;
use std::alloc::Global;

/// Appends an event for a connection, if there is one.
fn push_event(events: &mut Vec<(u32, Bytes)>, conn: u32, event: Option<Bytes>) -> Result<(), Memory>
    ensures { OnOk result (events.new.items ≡ events.old.items ++ option_to_list (option_map (λ bytes. (conn, bytes)) event)) }
{
    if let Some(event) = event {
        events.push((conn, event))?;
    }
    Ok(())
}

/// What a listener of the map is sent at the release of an answer that changed a value.
fn change_event(
    alloc: Global,
    partition: PartitionId,
    answer: &CallAnswer,
    change: &Change,
    registration: &Registration,
) -> Result<Option<Bytes>, Memory>
    ensures { IfOk result (λ event. event ≡ change_event partition answer.now change.now registration.now) }
{
    let event = match registration {
        Registration::Entries {
            correlation,
            with_value,
            ..
        } => write_entry_event(alloc, *correlation, partition, change, *with_value)?,
        Registration::Invalidations { correlation, .. } => {
            let (version, seen) = (answer.version, answer.seen);
            write_invalidation(
                alloc,
                *correlation,
                partition,
                version,
                seen,
                &change.name,
                &change.key,
            )?
        }
        Registration::Rows { .. } => return Ok(None),
    };
    Ok(Some(event))
}

/// The events of a change, one for each of the listeners of the map, in their order.
pub(crate) fn change_events(
    alloc: Global,
    partition: PartitionId,
    answer: &CallAnswer,
    change: &Change,
    listeners: &[Listener],
) -> Result<Vec<(u32, Bytes)>, Memory>
    ensures { IfOk result (λ events. events.items ≡ told (change_event partition answer.now change.now) listeners.now) }
{
    let mut events = Vec::new(alloc);
    for listener in listeners {
        let event = change_event(alloc, partition, answer, change, &listener.registration)?;
        push_event(&mut events, listener.conn, event)?;
    }
    Ok(events)
}

/// What a listener of rows is sent.
fn row_event(
    alloc: Global,
    rows: &[(PartitionId, Row)],
    registration: &Registration,
) -> Result<Option<Bytes>, Memory>
    ensures { IfOk result (λ event. event ≡ row_event rows.now registration.now) }
{
    match registration {
        Registration::Rows { correlation } => Ok(Some(write_rows(alloc, *correlation, rows)?)),
        _ => Ok(None),
    }
}

/// The events that tell rows, one for each of the listeners of rows, in their order.
pub(crate) fn row_events(
    alloc: Global,
    rows: &[(PartitionId, Row)],
    listeners: &[Listener],
) -> Result<Vec<(u32, Bytes)>, Memory>
    ensures { IfOk result (λ events. events.items ≡ told (row_event rows.now) listeners.now) }
{
    let mut events = Vec::new(alloc);
    for listener in listeners {
        let event = row_event(alloc, rows, &listener.registration)?;
        push_event(&mut events, listener.conn, event)?;
    }
    Ok(events)
}
