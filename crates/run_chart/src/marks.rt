//! The words of a picture: short enough to stand beside an arrow.

use grid_base::Memory;
use member_wire::Took;
use run_tale::Flight;
use std::alloc::Global;

/// How many characters are shown of a text beside an arrow, of one below a lane's name, and of a remark.
const MOST: usize = 60;

const MOST_BELOW: usize = 24;

const MOST_OF_REMARK: usize = 140;

/// How wide a character is, about.
const CHARACTER: u64 = 7;

/// A text of at most so many characters, with dots where it goes on.
fn cut_at(alloc: Global, text: &str, most: usize) -> Result<String, Memory> {
    let mut short = String::new(alloc);
    let mut count: usize = 0;
    for c in text.chars() {
        if count >= most {
            short.push('…')?;
            return Ok(short);
        }
        short.push(c)?;
        count = count.saturating_add(1);
    }
    Ok(short)
}

/// A text that isn't too long to stand beside an arrow.
pub(crate) fn cut(alloc: Global, text: &str) -> Result<String, Memory> {
    cut_at(alloc, text, MOST)
}

/// A text that isn't too long to stand below a lane's name.
pub(crate) fn cut_below(alloc: Global, text: &str) -> Result<String, Memory> {
    cut_at(alloc, text, MOST_BELOW)
}

/// A remark that isn't too long to be shown.
pub(crate) fn cut_remark(alloc: Global, text: &str) -> Result<String, Memory> {
    cut_at(alloc, text.trim_start(), MOST_OF_REMARK)
}

/// How wide a text is, about, where none is longer than a remark.
pub(crate) fn width_of(text: &str) -> u64 {
    let characters = text.chars().take(MOST_OF_REMARK.saturating_add(1)).count();
    (characters as u64).saturating_mul(CHARACTER)
}

/// What is written beside a message that was taken, where that isn't what it was sent for.
fn taken_words(took: Took) -> &'static str {
    match took {
        Took::Adopted
        | Took::Synced
        | Took::Applied
        | Took::Bridged
        | Took::Acked
        | Took::Frozen
        | Took::Joined
        | Took::Drained => "",
        Took::Already => ", known",
        Took::Gap => ", gap",
        Took::Other => ", not for it",
        Took::Stale => ", stale",
        Took::Dropped => ", dropped",
    }
}

/// Whether a message was taken for what it was sent for.
pub(crate) fn is_taken(took: Took) -> bool {
    taken_words(took).is_empty()
}

/// What is written beside the head of a message's arrow, where its taker leads by what it brings, or doesn't.
pub(crate) fn label_of(
    alloc: Global,
    flight: &Flight,
    took: Took,
    leads: bool,
) -> Result<String, Memory> {
    let title = flight.letter.title.as_str();
    let taken = taken_words(took);
    let primary = if leads { ": primary" } else { "" };
    format!(in alloc; "{title}{taken}{primary}")
}

/// What is shown when one points at a message's label.
pub(crate) fn hint_of(alloc: Global, flight: &Flight) -> Result<String, Memory> {
    let (partition, sent) = (flight.partition, flight.sent);
    let detail = flight.letter.detail.as_str();
    format!(in alloc; "partition {partition}, sent at line {sent}. {detail}")
}
