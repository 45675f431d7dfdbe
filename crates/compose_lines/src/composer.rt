//! Lines of words, one after the other, as lines of a script.
ghost use Rattle.std.specs.Prelude.{◌≡◌, ◌≤◌};

use compose_words::{SayRefused, Saying, write_arrival, write_say_line};
use grid_base::Memory;
use say_words::{SayLine, Told, read_say_line};
use script_lang::{Line, LineRefused, LineWhy, read_line};
use std::alloc::{AllocError, AllocFailed, Global};

/// How many connections a script has.
const CONNECTIONS: usize = 64;

/// How many members a grid may have.
const MOST_MEMBERS: u8 = 8;

/// The word with which a line of words begins.
const SAY: &[u8] = b"say";

/// What was said on a connection so far.
#[derive(Clone, Copy)]
struct Talk {
    /// A line opened the connection.
    opened: bool,
    /// Bytes came on it since.
    begun: bool,
    /// The correlation of its next message.
    next: i64,
}

/// A connection on which nothing was said.
const SILENT: Talk = Talk {
    opened: false,
    begun: false,
    next: 0,
};

impl Talk {
    /// The first line that opens a connection begins it anew: what came before is gone.
    fn open(&mut self) {
        if !self.opened {
            *self = SILENT;
            self.opened = true;
        }
    }
}

/// What became of a line.
#[derive(Clone, Copy, Debug, PartialEq, Eq)]
pub enum Composed {
    /// It was written, and the script goes on.
    Goes,
    /// It was the line `end`, and was written.
    Ended,
    /// It isn't in the language.
    Refused(LineWhy),
    /// The line of a script that it stands for would be longer than one may be.
    TooLong,
}

/// Why a line wasn't written.
#[derive(Clone, Copy)]
enum Failed {
    Refused(LineWhy),
    TooLong,
    Memory,
}

impl From<LineRefused> for Failed {
    fn from(refused: LineRefused) -> Failed {
        match refused {
            LineRefused::Why(why) => Failed::Refused(why),
            LineRefused::Memory => Failed::Memory,
        }
    }
}

impl From<SayRefused> for Failed {
    fn from(refused: SayRefused) -> Failed {
        match refused {
            SayRefused::Name => Failed::Refused(LineWhy::Word),
            SayRefused::Key => Failed::Refused(LineWhy::Hex),
            SayRefused::Long => Failed::TooLong,
            SayRefused::Memory => Failed::Memory,
        }
    }
}

impl From<AllocError> for Failed {
    fn from(_error: AllocError) -> Failed {
        Failed::Memory
    }
}

impl<T: Drop> From<AllocFailed<T>> for Failed {
    fn from(_error: AllocFailed<T>) -> Failed {
        Failed::Memory
    }
}

/// The words of a line of words, behind the first; none where it is another line.
fn words_of(alloc: Global, text: &[u8]) -> Result<Option<Vec<&[u8]>>, Memory> {
    let Some(rest) = text.strip_prefix(SAY) else {
        return Ok(None);
    };
    match rest {
        [] => Ok(Some(Vec::new(alloc))),
        [b' ', words @ ..] => {
            let words: Vec<&[u8]> = words.split(|byte| *byte == b' ').collect(alloc)?;
            Ok(Some(words))
        }
        _ => Ok(None),
    }
}

/// Composes one line after the other.
#[derive(Drop)]
pub struct Composer {
    talks: [Talk; CONNECTIONS],
    /// How many members the grid has; 1 before its line.
    members: u8,
    /// How many lines were composed.
    lines: u32,
    ghost in_range: { (1 ≤ members) × (members ≤ 8) },
}

impl Composer {
    pub fn new() -> Self {
        Composer {
            talks: [SILENT; CONNECTIONS],
            members: 1,
            lines: 0,
        }
    }

    /// How many lines were composed.
    pub fn lines(&self) -> u32
        ensures { result ≡ self.now.lines }
    {
        self.lines
    }

    /// Keeps what a line of the script language says of its connection and of the grid.
    fn note(&mut self, line: &Line) {
        match line {
            Line::Grid { members, .. } if *members >= 1 && *members <= MOST_MEMBERS => {
                self.members = *members;
            }
            Line::OpenConn { conn, .. } => {
                if let Some(talk) = self.talks.get_mut(*conn as usize) {
                    talk.open();
                }
            }
            Line::Arrive { conn, .. } => self.begin(*conn),
            _ => {}
        }
    }

    /// Bytes come on a connection.
    fn begin(&mut self, conn: u32) {
        if let Some(talk) = self.talks.get_mut(conn as usize) {
            talk.begun = true;
        }
    }

    /// Appends a line of the script language as it stands.
    fn pass(&mut self, alloc: Global, text: &[u8], out: &mut Vec<u8>) -> Result<Composed, Failed> {
        let line = read_line(alloc, text, self.lines == 0, self.members)?;
        self.note(&line);
        out.extend_from_slice(text)?;
        out.extend_from_slice(b"\n")?;
        Ok(if line.is_end() {
            Composed::Ended
        } else {
            Composed::Goes
        })
    }

    /// What was said on a connection so far.
    fn talk(&self, conn: u32) -> Talk {
        self.talks.get(conn as usize).copied().unwrap_or(SILENT)
    }

    /// Appends the line of a message.
    fn say_message(
        &mut self,
        alloc: Global,
        conn: u32,
        correlation: Option<i64>,
        saying: &Saying,
        out: &mut Vec<u8>,
    ) -> Result<(), Failed> {
        if !saying.is_placed() {
            return Err(Failed::Refused(LineWhy::Number));
        }
        let talk = self.talk(conn);
        let correlation = correlation.unwrap_or(talk.next);
        write_say_line(alloc, conn, talk.begun, correlation, saying, out)?;
        self.follow(conn, correlation);
        Ok(())
    }

    /// Appends the line that says this.
    fn say(&mut self, alloc: Global, line: &SayLine, out: &mut Vec<u8>) -> Result<(), Failed> {
        match &line.told {
            Told::Raw(bytes) => write_arrival(alloc, line.conn, bytes.as_slice(), out)?,
            Told::Message {
                correlation,
                saying,
            } => self.say_message(alloc, line.conn, *correlation, saying, out)?,
        }
        self.begin(line.conn);
        Ok(())
    }

    /// The next message of a connection follows one with this correlation.
    fn follow(&mut self, conn: u32, correlation: i64) {
        if let Some(talk) = self.talks.get_mut(conn as usize) {
            talk.next = correlation.wrapping_add(1);
        }
    }

    /// Appends the line that these words say.
    fn say_words(
        &mut self,
        alloc: Global,
        words: &[&[u8]],
        out: &mut Vec<u8>,
    ) -> Result<(), Failed> {
        let line = read_say_line(alloc, words)?;
        self.say(alloc, &line, out)
    }

    fn compose_line(
        &mut self,
        alloc: Global,
        text: &[u8],
        out: &mut Vec<u8>,
    ) -> Result<Composed, Failed> {
        match words_of(alloc, text)? {
            None => self.pass(alloc, text, out),
            Some(_) if self.lines == 0 => Err(Failed::Refused(LineWhy::NoGrid)),
            Some(words) => {
                self.say_words(alloc, words.as_slice(), out)?;
                Ok(Composed::Goes)
            }
        }
    }

    /// Composes the next line, and appends the line of the script. Costs the line's length.
    pub fn compose(
        &mut self,
        alloc: Global,
        text: &[u8],
        out: &mut Vec<u8>,
    ) -> Result<Composed, Memory> {
        let composed = self.compose_line(alloc, text, out);
        self.lines = self.lines.saturating_add(1);
        match composed {
            Ok(composed) => Ok(composed),
            Err(Failed::Refused(why)) => Ok(Composed::Refused(why)),
            Err(Failed::TooLong) => Ok(Composed::TooLong),
            Err(Failed::Memory) => Err(AllocError),
        }
    }
}
