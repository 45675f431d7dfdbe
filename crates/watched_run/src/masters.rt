//! Lines that masters take part in: what they answer, and what they publish.

use crate::notes::Notes;
use crate::printed::{Outcome, number_in, outcome_in, outcome_of};
use grid_base::{Memory, PARTITIONS, PartitionId};
use run_tale::{Happening, Tale};
use run_words::{refused_words, took_of, took_words};
use running_grid::RunningGrid;
use script_lang::Line;
use std::alloc::Global;

/// Why masters made nothing of a line.
fn why_nothing(line: &Line, has_masters: bool) -> &'static str {
    if !has_masters {
        return "the grid has no masters";
    }
    match line {
        Line::Masters => "the grid has masters",
        Line::Told { .. } => "the member has crashed, or the other one hasn't",
        Line::MasterDeliver { .. } | Line::MasterLose { .. } => "no message is there",
        Line::MasterResend { .. } => "the member is no master with something to send again",
        Line::Lose { .. } => "no message is there, or a decision is pending",
        Line::Deliver { .. } => {
            "no message is there, a decision is pending, or no live master serves"
        }
        _ => "no live master serves",
    }
}

/// Whether a line is one of masters alone.
fn is_of_masters(line: &Line) -> bool {
    matches!(
        line,
        Line::Masters
            | Line::Told { .. }
            | Line::MasterDeliver { .. }
            | Line::MasterLose { .. }
            | Line::MasterResend { .. }
            | Line::MasterFlow { .. }
    )
}

/// Whether a line asks something of the table service, which has this number on links.
fn is_for_table(line: &Line, table: u8) -> bool {
    match line {
        Line::Deliver { to, .. } | Line::Lose { to, .. } => *to == table,
        Line::Resend { end, .. } => *end == table,
        Line::Move { .. }
        | Line::Join { .. }
        | Line::Handover { .. }
        | Line::Advance { .. }
        | Line::Reopen { .. }
        | Line::Detect { .. } => true,
        _ => false,
    }
}

/// What became of a message between masters, by the word that a transcript has for it.
fn master_took_words(word: &str) -> &'static str {
    match word {
        "stored" => "taken: stored",
        "counted" => "taken: counted",
        "asked" => "taken: the log is told",
        "told" => "taken: the log is kept",
        "other" => "not taken: the taker has seen a later term",
        "stale" => "not taken: the taker doesn't wait for it",
        _ => "dropped: the taker has crashed",
    }
}

/// Appends what a line asks masters to decide.
fn push_proposal(out: &mut String, line: &Line) -> Result<(), Memory> {
    match line {
        Line::Move { from, to, .. } => write!(out, "move from {from} to {to}"),
        Line::Join { to, .. } => write!(out, "join of member {to}"),
        Line::Handover { from, to, .. } => write!(out, "handover from {from} to {to}"),
        Line::Advance { .. } => out.push_str("advance"),
        Line::Reopen { .. } => out.push_str("reopening"),
        Line::Deliver { from, place, .. } => {
            write!(
                out,
                "take the message at place {place} of the link from {from}"
            )
        }
        _ => Ok(()),
    }
}

/// Appends what a decision came to as it was published.
fn push_came(out: &mut String, came: Outcome<'_>) -> Result<(), Memory> {
    match came.word {
        "ok" => out.push_str("done"),
        "row" => write!(out, "row {}", came.rest),
        "freezing" => out.push_str("the source is told to freeze"),
        "refused" => {
            out.push_str("refused: ")?;
            out.push_str(refused_words(came.rest))
        }
        _ => match took_of(came.rest) {
            Some(took) => {
                out.push_str("the message is ")?;
                out.push_str(took_words(took))
            }
            None => out.push_str("nothing came of it"),
        },
    }
}

/// Appends what a line of masters came to, where it came to something.
fn push_done(out: &mut String, line: &Line, came: Outcome<'_>) -> Result<(), Memory> {
    match line {
        Line::Masters => out.push_str("the table service runs on the members"),
        Line::Told { member, crashed } => {
            write!(
                out,
                "member {member} is told that member {crashed} has crashed"
            )
        }
        Line::Detect { member } => {
            write!(
                out,
                "that member {member} has crashed is proposed where the master was told of it"
            )
        }
        Line::MasterDeliver { from, to, .. } => {
            write!(out, "{from} to {to} message between masters ")?;
            out.push_str(master_took_words(came.rest))
        }
        Line::MasterLose { from, to, .. } => {
            write!(out, "{from} to {to} message between masters lost")
        }
        Line::MasterResend { member, .. } => write!(out, "member {member} asks or stores again"),
        _ => {
            let count = number_in(came.rest);
            let end = if count == 1 { "" } else { "s" };
            write!(out, "{count} message{end} between masters delivered")
        }
    }
}

/// Appends what masters answered to a proposal, or made of another line.
fn push_answer(out: &mut String, line: &Line, came: Outcome<'_>) -> Result<(), Memory> {
    match (came.word, came.rest) {
        ("proposed", number) => {
            write!(out, "decision {number} is proposed: ")?;
            push_proposal(out, line)
        }
        ("refused", "busy") => out.push_str("not proposed: a decision is open"),
        ("refused", _) => out.push_str("not proposed: the log is full"),
        _ => push_done(out, line, came),
    }
}

/// The partition and the number of a decision that a line of a transcript says was published.
fn published_in(line: Outcome<'_>) -> Option<(PartitionId, u32)> {
    if line.word != "published" {
        return None;
    }
    let (partition, number) = line.rest.split_once(' ').unwrap_or((line.rest, ""));
    let partition = partition.parse::<PartitionId>().unwrap_or(PARTITIONS);
    Some((partition, number_in(number)))
}

impl Notes {
    /// Whether a line is told by what masters made of it. A loss on a link to the table service, and its sending again, are
    /// told as without masters where they happened.
    fn is_told_by_masters(&self, line: &Line, table: u8, came: Outcome<'_>) -> bool {
        if is_of_masters(line) {
            return true;
        }
        if !self.has_masters || !is_for_table(line, table) {
            return false;
        }
        match line {
            Line::Lose { .. } | Line::Resend { .. } => came.word == "nothing",
            _ => true,
        }
    }

    /// Tells what masters made of a line, and what they published. False where the line is told as it is without masters.
    pub(crate) fn tell_masters(
        &mut self,
        alloc: Global,
        running: &RunningGrid,
        line: &Line,
        text: &str,
        told: &mut Tale,
    ) -> Result<bool, Memory> {
        let came = outcome_of(text);
        if !self.is_told_by_masters(line, running.members(), came) {
            return Ok(false);
        }
        if came.word == "nothing" {
            let why = why_nothing(line, self.has_masters);
            told.push(Happening::Nothing { why })?;
            return Ok(true);
        }
        if let Line::Masters = line {
            self.has_masters = true;
        }
        let mut words = String::new(alloc);
        push_answer(&mut words, line, came)?;
        told.push(Happening::Masters { words })?;
        self.tell_all_published(alloc, running, text, told)?;
        self.tell_appended(alloc, text, told)?;
        Ok(true)
    }

    /// Tells the decisions that a text says were published.
    fn tell_all_published(
        &mut self,
        alloc: Global,
        running: &RunningGrid,
        text: &str,
        told: &mut Tale,
    ) -> Result<(), Memory> {
        let mut published = None;
        for line in text.split('\n') {
            let outcome = outcome_in(line);
            if let Some((partition, number)) = published {
                self.tell_published(alloc, running, partition, number, outcome, told)?;
            }
            published = published_in(outcome);
        }
        Ok(())
    }

    /// Tells that a decision was published, what it came to, and what the table service did then.
    fn tell_published(
        &mut self,
        alloc: Global,
        running: &RunningGrid,
        partition: PartitionId,
        number: u32,
        came: Outcome<'_>,
        told: &mut Tale,
    ) -> Result<(), Memory> {
        let mut words = String::new(alloc);
        push_came(&mut words, came)?;
        told.push(Happening::Published {
            partition,
            number,
            words,
        })?;
        self.settle_table(running, partition, told)?;
        self.tell_row(alloc, running, partition, told)?;
        self.tell_sent(alloc, running, partition, running.members(), told)
    }
}
