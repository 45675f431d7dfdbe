//! Tables of lines that are refused. A row is the cause, a space, and the line; of an empty line the cause alone.

use std::alloc::Global;
use std::io;

/// Where the lines of a table stand in their scripts.
#[derive(Clone, Copy, Debug, PartialEq, Eq)]
pub(crate) enum Place {
    First,
    Second,
}

impl Place {
    /// The lines before it.
    fn before(self) -> &'static str {
        match self {
            Place::First => "",
            Place::Second => "grid 1 0 10\n",
        }
    }

    /// What the lines before it print.
    fn printed_before(self) -> &'static str {
        match self {
            Place::First => "",
            Place::Second => "1 ok\n",
        }
    }

    /// The number of the line.
    fn number(self) -> u32 {
        match self {
            Place::First => 1,
            Place::Second => 2,
        }
    }
}

/// A line, and the cause for which it is refused.
#[derive(Clone, Copy, Debug)]
pub(crate) struct Row<'a> {
    pub(crate) why: &'a str,
    pub(crate) line: &'a str,
}

impl<'a> Row<'a> {
    /// The row that is written so.
    pub(crate) fn read(text: &'a str) -> Row<'a> {
        match text.split_once(' ') {
            Some((why, line)) => Row { why, line },
            None => Row {
                why: text,
                line: "",
            },
        }
    }

    /// A script with the line in that place, and `end` behind it.
    pub(crate) fn script(self, alloc: Global, place: Place) -> io::Result<String> {
        let before = place.before();
        let line = self.line;
        Ok(format!(in alloc; "{before}{line}\nend\n")?)
    }

    /// What that script prints.
    pub(crate) fn transcript(self, alloc: Global, place: Place) -> io::Result<String> {
        let before = place.printed_before();
        let number = place.number();
        let why = self.why;
        Ok(format!(in alloc; "{before}refused {number} {why}\n")?)
    }
}
