ghost use Rattle.std.specs.Prelude.{◌≡◌, ◌≢◌, ◌<◌, length};
ghost use Rattle.grid_edge.specs.Faults.{Rose, HasCause};

use crate::composer::{Composed, Composer};
use grid_cli::{LimitWhat, Status, push_limit, push_refused};
use grid_edge::{Sink, Source, WriteFault, write_all};
use memchr::memchr;
use script_lang::{LineWhy, MOST_BYTES, MOST_LINE_BYTES, MOST_LINES};
use std::alloc::Global;
use std::mem;

/// How many bytes are asked for at a time.
const PIECE: usize = 65_536;

/// Composes each line when its last byte has come.
#[derive(Drop)]
struct Composing {
    composer: Composer,
    /// The bytes after the last newline.
    unfinished: Vec<u8>,
    /// The lines that are to be written.
    script: Vec<u8>,
}

/// How a script in words ended, whatever the source and the sink.
#[derive(Clone, Copy)]
enum Stop {
    Done,
    Refused { line: u32, why: LineWhy },
    Limit { what: LimitWhat },
    Memory,
}

impl Stop {
    fn status(self) -> Status
        ensures runs { result ≢ Status.Usage }
        ensures doorless { result ≢ Status.DoorFault }
        ensures reads { result ≢ Status.ReadFault }
        ensures writes { result ≢ Status.WriteFault }
    {
        match self {
            Stop::Done => Status::Done,
            Stop::Refused { line, why } => Status::ScriptRefused { line, why },
            Stop::Limit { what } => Status::Limit { what },
            Stop::Memory => Status::Memory,
        }
    }
}

/// The end at a line that isn't in the language, once that is told.
fn tell_refused(out: &mut Vec<u8>, line: u32, why: LineWhy) -> Stop {
    match push_refused(out, line, why) {
        Ok(()) => Stop::Refused { line, why },
        Err(_) => Stop::Memory,
    }
}

/// The end at a limit that a line goes past, once that is told.
fn tell_limit(out: &mut Vec<u8>, line: u32, what: LimitWhat) -> Stop {
    match push_limit(out, line, what) {
        Ok(()) => Stop::Limit { what },
        Err(_) => Stop::Memory,
    }
}

impl Composing {
    fn new(alloc: Global) -> Self {
        Composing {
            composer: Composer::new(),
            unfinished: Vec::new(alloc),
            script: Vec::new(alloc),
        }
    }

    /// The number of the next line.
    fn next_line(&self) -> u32 {
        self.composer.lines().saturating_add(1)
    }

    /// Stops at a limit, in the next line.
    fn stop_at_limit(&mut self, what: LimitWhat) -> Stop {
        let line = self.next_line();
        tell_limit(&mut self.script, line, what)
    }

    /// The limit that the next line goes past with these bytes of it, behind which its newline may come.
    fn limit_in(&self, more: &[u8]) -> Option<LimitWhat> {
        let length = self.unfinished.len().saturating_add(more.len());
        if self.composer.lines() >= MOST_LINES {
            Some(LimitWhat::Lines)
        } else if length > MOST_LINE_BYTES {
            Some(LimitWhat::Line)
        } else {
            None
        }
    }

    /// Composes a line. An `Err` is how the script ends there.
    fn compose(&mut self, alloc: Global, text: &[u8]) -> Result<(), Stop> {
        let line = self.next_line();
        match self.composer.compose(alloc, text, &mut self.script) {
            Ok(Composed::Goes) => Ok(()),
            Ok(Composed::Ended) => Err(Stop::Done),
            Ok(Composed::Refused(why)) => Err(tell_refused(&mut self.script, line, why)),
            Ok(Composed::TooLong) => Err(tell_limit(&mut self.script, line, LimitWhat::Line)),
            Err(_) => Err(Stop::Memory),
        }
    }

    /// Composes the line that ends with these bytes and a newline.
    fn complete(&mut self, alloc: Global, end: &[u8]) -> Result<(), Stop> {
        self.keep(end)?;
        let text = mem::replace(&mut self.unfinished, Vec::new(alloc));
        self.compose(alloc, text.as_slice())
    }

    /// Keeps bytes of a line whose newline hasn't come.
    fn keep(&mut self, more: &[u8]) -> Result<(), Stop> {
        if let Some(what) = self.limit_in(more) {
            return Err(self.stop_at_limit(what));
        }
        match self.unfinished.extend_from_slice(more) {
            Ok(()) => Ok(()),
            Err(_) => Err(Stop::Memory),
        }
    }

    /// Takes the next bytes, and copies each once.
    fn take(&mut self, alloc: Global, piece: &[u8]) -> Result<(), Stop> {
        let mut rest = piece;
        'lines: while let Some(at) = memchr(b'\n', rest) {
            let (end, behind) = rest.split_at(at);
            self.complete(alloc, end)?;
            rest = &behind[1..];
        }
        if rest.is_empty() {
            return Ok(());
        }
        self.keep(rest)
    }

    /// The words have ended: what no newline ended is their last line.
    fn finish(&mut self, alloc: Global) -> Stop {
        let text = mem::replace(&mut self.unfinished, Vec::new(alloc));
        if !text.is_empty() {
            if let Err(stop) = self.compose(alloc, text.as_slice()) {
                return stop;
            }
        }
        tell_refused(&mut self.script, self.composer.lines(), LineWhy::NoEnd)
    }

    /// Writes the lines that were composed.
    fn flush<K: Sink>(&mut self, out: &mut K) -> Result<(), WriteFault>
        ensures { HasCause (K.faults out.old) (K.faults out.new) result }
    {
        let written = write_all(out, self.script.as_slice());
        self.script.clear();
        written
    }

    /// Writes the lines that were composed, and ends so.
    fn end<K: Sink>(&mut self, stop: Stop, out: &mut K) -> Status
        ensures runs { result ≢ Status.Usage }
        ensures doorless { result ≢ Status.DoorFault }
        ensures reads { result ≢ Status.ReadFault }
        ensures cause { result ≡ Status.WriteFault → Rose (K.faults out.old) (K.faults out.new) }
    {
        match self.flush(out) {
            Ok(()) => stop.status(),
            Err(_) => Status::WriteFault,
        }
    }
}

/// Reads words through a buffer and writes the script that they stand for.
fn compose_pieces<S: Source, K: Sink>(
    alloc: Global,
    buffer: &mut [u8],
    words: &mut S,
    out: &mut K,
) -> Status
    requires { 0 < length buffer.old }
    ensures runs { result ≢ Status.Usage }
    ensures doorless { result ≢ Status.DoorFault }
    ensures read_fault { result ≡ Status.ReadFault → Rose (S.faults words.old) (S.faults words.new) }
    ensures write_fault { result ≡ Status.WriteFault → Rose (K.faults out.old) (K.faults out.new) }
{
    let mut composing = Composing::new(alloc);
    let mut read = 0;
    'pieces: loop {
        let Ok(count) = words.read(buffer) else {
            return Status::ReadFault;
        };
        if count == 0 {
            let stop = composing.finish(alloc);
            return composing.end(stop, out);
        }
        let room = MOST_BYTES - read;
        let taken = composing.take(alloc, &buffer[..count.min(room)]);
        if let Err(stop) = taken {
            return composing.end(stop, out);
        }
        if count > room {
            let stop = composing.stop_at_limit(LimitWhat::Bytes);
            return composing.end(stop, out);
        }
        if composing.flush(out).is_err() {
            return Status::WriteFault;
        }
        read += count;
    }
}

/// Reads a script in words and writes the script that they stand for, as `docs/WORDS.md` has both: each line of the
/// script language as it stands, and each line of words as the line at which its bytes arrive. Words that aren't in
/// the language end it with `refused LINE WHY`, and a limit with `limit LINE WHAT`. Costs the length of the words.
///
/// `ReadFault` and `WriteFault` where the source or the sink had one; then, and for want of memory, what is written is
/// the front of a script.
pub fn compose_command<S: Source, K: Sink>(alloc: Global, words: &mut S, out: &mut K) -> Status
    ensures runs { result ≢ Status.Usage }
    ensures doorless { result ≢ Status.DoorFault }
    // A fault is told only where the source or the sink had one.
    ensures read_fault { result ≡ Status.ReadFault → Rose (S.faults words.old) (S.faults words.new) }
    ensures write_fault { result ≡ Status.WriteFault → Rose (K.faults out.old) (K.faults out.new) }
{
    let Ok(mut buffer) = vec![in alloc; 0u8; PIECE] else {
        return Status::Memory;
    };
    compose_pieces(alloc, buffer.as_mut_slice(), words, out)
}
