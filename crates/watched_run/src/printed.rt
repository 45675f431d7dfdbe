//! What a replay's text of a line says.

use grid_base::Memory;
use run_words::{Output, read_output};
use std::alloc::{AllocError, Global};

/// What a line that the grid ran has in a transcript.
#[derive(Clone, Copy)]
pub(crate) struct Outcome<'a> {
    /// Its first word, and those behind it.
    pub(crate) word: &'a str,
    pub(crate) rest: &'a str,
}

/// A text of a transcript, which is one; another one is empty.
pub(crate) fn as_text(bytes: &[u8]) -> &str {
    str::from_utf8(bytes).unwrap_or("")
}

/// What a line of a transcript says behind its number: its word, and what is behind it.
pub(crate) fn outcome_in(line: &str) -> Outcome<'_> {
    let (_, said) = line.split_once(' ').unwrap_or((line, ""));
    let (word, rest) = said.split_once(' ').unwrap_or((said, ""));
    Outcome { word, rest }
}

/// The outcome of a line.
pub(crate) fn outcome_of(text: &str) -> Outcome<'_> {
    let (first, _) = text.split_once('\n').unwrap_or((text, ""));
    outcome_in(first)
}

/// A number of a transcript, or 0.
pub(crate) fn number_in(word: &str) -> u32 {
    word.parse::<u32>().unwrap_or(0)
}

/// What was appended to a connection's output, or that a connection closed.
#[derive(Drop)]
pub(crate) enum Appended<'a> {
    Output { conn: u32, output: Output },
    Close { conn: u32, at: u64, why: &'a str },
}

/// The bytes of hexadecimal digits; none where they aren't digits.
pub(crate) fn bytes_in(alloc: Global, digits: &str) -> Result<Vec<u8>, Memory> {
    match hex::decode(alloc, digits.as_bytes()) {
        Ok(bytes) => Ok(bytes),
        Err(hex::FromHexError::OutOfMemory) => Err(AllocError),
        Err(_) => Ok(Vec::new(alloc)),
    }
}

/// What a line of a transcript tells of a connection, if it tells anything.
fn appended_in<'a>(alloc: Global, line: &'a str) -> Result<Option<Appended<'a>>, Memory> {
    let Outcome { word, rest } = outcome_in(line);
    let (conn, said) = rest.split_once(' ').unwrap_or((rest, ""));
    match word {
        "to" => {
            let bytes = bytes_in(alloc, said)?;
            Ok(Some(Appended::Output {
                conn: number_in(conn),
                output: read_output(alloc, bytes.as_slice())?,
            }))
        }
        "close" => {
            let (at, why) = said.split_once(' ').unwrap_or((said, ""));
            Ok(Some(Appended::Close {
                conn: number_in(conn),
                at: at.parse::<u64>().unwrap_or(0),
                why,
            }))
        }
        _ => Ok(None),
    }
}

/// What a text tells of connections, in order.
pub(crate) fn all_appended(alloc: Global, text: &str) -> Result<Vec<Appended<'_>>, Memory> {
    let mut told = Vec::new(alloc);
    for line in text.split('\n') {
        if let Some(appended) = appended_in(alloc, line)? {
            told.push(appended)?;
        }
    }
    Ok(told)
}

/// The lines of a grid at which a call of a history arrived and was answered; of a reopening, its line.
#[derive(Clone, Copy, Debug, Default)]
pub(crate) struct EntryLines {
    pub(crate) arrived: u32,
    pub(crate) answered: Option<u32>,
}

/// The lines that an entry of a history tells.
fn entry_lines_in(alloc: Global, entry: &str) -> Result<EntryLines, Memory> {
    let words: Vec<&str> = entry.split(' ').collect(alloc)?;
    Ok(match words.as_slice() {
        [_, _, _, _, arrived, answered, ..] => EntryLines {
            arrived: number_in(arrived),
            answered: answered.parse::<u32>().ok(),
        },
        _ => EntryLines::default(),
    })
}

/// The lines that the entries of a text tell, in order.
pub(crate) fn entries(alloc: Global, text: &str) -> Result<Vec<EntryLines>, Memory> {
    let mut entries = Vec::new(alloc);
    for line in text.split('\n') {
        let Outcome { word, rest } = outcome_in(line);
        if word == "entry" {
            entries.push(entry_lines_in(alloc, rest)?)?;
        }
    }
    Ok(entries)
}
