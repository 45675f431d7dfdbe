//! Messages between members, and the rows that they bring, in words.

use crate::contents::{push_effect_bytes, push_snapshot};
use client_words::push_hex;
use grid_base::{Bytes, MemberId, Memory};
use member_wire::{MemberMessage, read_member};
use partition_table::{Row, RowMember};
use std::alloc::{AllocError, Global};
use wire_parts::WireRefused;

/// A message between members, or of the table service.
#[derive(Debug, Drop)]
pub struct Letter {
    /// What it is, in few words.
    pub title: String,
    /// What it brings; empty where the title says all.
    pub detail: String,
    /// Who leads in the row that it brings, and the row's version.
    pub leads: Option<(MemberId, u32)>,
}

/// Who leads in a row, and the row's version.
pub fn leader_of(row: &Row) -> Option<(MemberId, u32)> {
    let first = row.members.as_slice().first()?;
    Some((first.member, row.version))
}

/// What a member of a row is, where `first` says whether it is the first.
fn part_word(first: bool, listed: RowMember) -> &'static str {
    match (first, listed.eligible) {
        (true, true) => "primary",
        (true, false) => "primary that may not lead yet",
        (false, true) => "backup",
        (false, false) => "joiner",
    }
}

/// Appends who keeps a partition by a row.
pub fn push_row(out: &mut String, row: &Row) -> Result<(), Memory> {
    if row.lost {
        return out.push_str("lost");
    }
    let mut first = true;
    for listed in row.members.as_slice() {
        let word = part_word(first, *listed);
        let member = listed.member;
        out.push_str(if first { "" } else { ", " })?;
        write!(out, "{word} {member}")?;
        first = false;
    }
    if row.reset == row.version {
        out.push_str(", begun empty")?;
    }
    Ok(())
}

/// What a message is, in few words.
fn title_of(alloc: Global, message: &MemberMessage) -> Result<String, Memory> {
    match message {
        MemberMessage::NewRow { row } => {
            let version = row.version;
            format!(in alloc; "row {version}")
        }
        MemberMessage::Sync { row, count, .. } => {
            let version = row.version;
            format!(in alloc; "contents {version}.{count}")
        }
        MemberMessage::Bridge { row, base, count } => {
            let version = row.version;
            format!(in alloc; "bridge {base}.{count} to {version}")
        }
        MemberMessage::Effect {
            version,
            number,
            ..
        } => format!(in alloc; "effect {version}.{number}"),
        MemberMessage::Ack { version, count } => format!(in alloc;
            "acknowledgement {version}.{count}"
        ),
        MemberMessage::Joined { version, member } => format!(in alloc;
            "joined {version} by {member}"
        ),
        MemberMessage::Freeze { version } => format!(in alloc; "freeze {version}"),
        MemberMessage::Frozen { version } => format!(in alloc; "frozen {version}"),
    }
}

/// The row that a message brings.
fn row_of(message: &MemberMessage) -> Option<&Row> {
    match message {
        MemberMessage::NewRow { row }
        | MemberMessage::Sync { row, .. }
        | MemberMessage::Bridge { row, .. } => Some(row),
        MemberMessage::Effect { .. }
        | MemberMessage::Ack { .. }
        | MemberMessage::Joined { .. }
        | MemberMessage::Freeze { .. }
        | MemberMessage::Frozen { .. } => None,
    }
}

/// Appends what a message brings.
fn push_detail(alloc: Global, out: &mut String, message: &MemberMessage) -> Result<(), Memory> {
    if let Some(row) = row_of(message) {
        push_row(out, row)?;
    }
    match message {
        MemberMessage::Sync { snapshot, .. } => {
            out.push_str("; ")?;
            push_snapshot(alloc, out, snapshot)
        }
        MemberMessage::Effect { effect, .. } => push_effect_bytes(alloc, out, effect),
        _ => Ok(()),
    }
}

/// What a message says.
fn letter_of_message(alloc: Global, message: &MemberMessage) -> Result<Letter, Memory> {
    let title = title_of(alloc, message)?;
    let mut detail = String::new(alloc);
    push_detail(alloc, &mut detail, message)?;
    let leads = match row_of(message) {
        Some(row) => leader_of(row),
        None => None,
    };
    Ok(Letter {
        title,
        detail,
        leads,
    })
}

/// A message that nothing reads.
fn letter_of_bytes(alloc: Global, bytes: &Bytes) -> Result<Letter, Memory> {
    let mut detail = String::new(alloc);
    push_hex(alloc, &mut detail, bytes.as_slice())?;
    Ok(Letter {
        title: String::from_str(alloc, "bytes")?,
        detail,
        leads: None,
    })
}

/// What the bytes of a message say. Bytes that nothing reads are shown as they are.
pub fn letter_of(alloc: Global, bytes: &Bytes) -> Result<Letter, Memory> {
    match read_member(alloc, bytes.as_slice()) {
        Ok(message) => letter_of_message(alloc, &message),
        Err(WireRefused::Memory) => Err(AllocError),
        Err(_) => letter_of_bytes(alloc, bytes),
    }
}
