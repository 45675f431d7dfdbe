//! What who listens is told, in words.

use crate::groups::Groups;
use client_words::{push_data, push_entry_name};
use event_codecs::{ADDED, ClientEvent, EXPIRED, REMOVED, SeenRow, UPDATED};
use grid_base::{Bytes, Memory};
use std::alloc::Global;

/// How an entry changed.
fn change_word(kind: i32) -> &'static str {
    match kind {
        ADDED => "was added",
        REMOVED => "was removed",
        UPDATED => "was updated",
        EXPIRED => "had expired",
        _ => "changed",
    }
}

/// Appends a value that is told, behind a word.
fn push_told(
    alloc: Global,
    out: &mut String,
    word: &str,
    value: &Option<Bytes>,
) -> Result<(), Memory> {
    let Some(value) = value else {
        return Ok(());
    };
    out.push_str(word)?;
    push_data(alloc, out, value.as_slice())
}

/// What is said of a row: its version and its members, the primary first.
fn row_words(alloc: Global, row: &SeenRow) -> Result<String, Memory> {
    let version = row.version;
    let mut words = format!(in alloc; "row {version}")?;
    if row.lost {
        words.push_str(", lost")?;
    }
    for (place, member) in row.members.as_slice().iter().enumerate() {
        words.push_str(if place == 0 { " of " } else { ", " })?;
        write!(words, "{member}")?;
    }
    Ok(words)
}

/// Appends the rows that a member knows, those that are alike together.
fn push_rows(alloc: Global, out: &mut String, rows: &[SeenRow]) -> Result<(), Memory> {
    let mut groups = Groups::new(alloc);
    for row in rows {
        groups.add(alloc, row.partition, row_words(alloc, row)?.as_str())?;
    }
    for (place, line) in groups.lines(alloc)?.iter().enumerate() {
        out.push_str(if place == 0 { " " } else { "; " })?;
        out.push_str(line.as_str())?;
    }
    Ok(())
}

/// Appends what an event tells.
pub(crate) fn push_event(
    alloc: Global,
    out: &mut String,
    event: &ClientEvent,
) -> Result<(), Memory> {
    match event {
        ClientEvent::Entry {
            correlation,
            kind,
            key,
            new,
            old,
            ..
        } => {
            write!(out, "event as {correlation}: ")?;
            push_data(alloc, out, key.as_slice())?;
            out.push_str(" ")?;
            out.push_str(change_word(*kind))?;
            push_told(alloc, out, " = ", new)?;
            push_told(alloc, out, ", before ", old)
        }
        ClientEvent::Invalidation {
            correlation,
            version,
            number,
            name,
            key,
            ..
        } => {
            write!(out, "event as {correlation}: ")?;
            push_entry_name(alloc, out, name, key)?;
            write!(out, " changed behind {version}.{number}")
        }
        ClientEvent::Rows { correlation, rows } => {
            write!(out, "event as {correlation}:")?;
            push_rows(alloc, out, rows.as_slice())
        }
    }
}
