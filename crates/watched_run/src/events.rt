//! Lines that are events of a member or of the table service, and lines at which nothing happens in a partition.

use crate::notes::Notes;
use crate::printed::outcome_of;
use grid_base::{MemberId, Memory, PartitionId};
use run_tale::{Happening, Tale};
use run_words::refused_words;
use running_grid::RunningGrid;
use script_lang::Line;
use std::alloc::Global;

/// Why a line came to nothing.
fn why_nothing(line: &Line, opened: bool) -> &'static str {
    match line {
        Line::OpenConn { .. } if opened => "the connection was opened before",
        Line::OpenConn { .. } => "the member has crashed",
        Line::Crash { .. } => "the member has crashed before",
        Line::Detect { .. } => "the member hasn't crashed, or the table service knows it",
        Line::Resend { .. } => "the member leads no partition that it could send again",
        _ => "no move is under way that could go on",
    }
}

/// The partition whose table a line changes.
fn partition_changed(line: &Line) -> Option<PartitionId> {
    match line {
        Line::Move { partition, .. }
        | Line::Join { partition, .. }
        | Line::Handover { partition, .. }
        | Line::Advance { partition }
        | Line::Reopen { partition } => Some(*partition),
        _ => None,
    }
}

impl Notes {
    /// Whether a line opens a connection that was opened before.
    fn was_opened(&self, line: &Line) -> bool {
        match line {
            Line::OpenConn { conn, .. } => self.clients.get(*conn).is_some(),
            _ => false,
        }
    }

    /// Tells a line that is an event, or one that opens a connection or sets a clock.
    pub(crate) fn tell_event(
        &mut self,
        alloc: Global,
        running: &RunningGrid,
        line: &Line,
        text: &str,
        told: &mut Tale,
    ) -> Result<(), Memory> {
        if outcome_of(text).word == "nothing" {
            let why = why_nothing(line, self.was_opened(line));
            return told.push(Happening::Nothing { why });
        }
        match line {
            Line::OpenConn { conn, member } => self.tell_opened(alloc, *conn, *member, told),
            Line::Clock { member, moment } => {
                let (member, moment) = (*member, *moment);
                told.push(Happening::Clock { member, moment })?;
                self.tell_clock_turns(alloc, running, member, text, told)
            }
            Line::Resend { partition, end } => {
                told.push(Happening::Resent { end: *end })?;
                self.tell_sent(alloc, running, *partition, *end, told)
            }
            Line::Crash { member } => told.push(Happening::Crashed { member: *member }),
            Line::Detect { member } => {
                told.push(Happening::Detected { member: *member })?;
                self.tell_rows(alloc, running, told)
            }
            line => match partition_changed(line) {
                Some(partition) => self.tell_table(alloc, running, partition, text, told),
                None => Ok(()),
            },
        }
    }

    /// Tells that a connection is open.
    fn tell_opened(
        &mut self,
        alloc: Global,
        conn: u32,
        member: MemberId,
        told: &mut Tale,
    ) -> Result<(), Memory> {
        self.clients.open(alloc, conn, member);
        told.push(Happening::Opened { conn, member })
    }

    /// Tells what the table service did in a partition, and what it sent.
    fn tell_table(
        &mut self,
        alloc: Global,
        running: &RunningGrid,
        partition: PartitionId,
        text: &str,
        told: &mut Tale,
    ) -> Result<(), Memory> {
        let outcome = outcome_of(text);
        match outcome.word {
            "row" => self.tell_row(alloc, running, partition, told)?,
            "freezing" => told.push(Happening::Freezing { partition })?,
            "refused" => told.push(Happening::Refused {
                why: refused_words(outcome.rest),
            })?,
            _ => told.push(Happening::Begun { partition })?,
        }
        self.tell_sent(alloc, running, partition, running.members(), told)
    }
}
