//! The lines of a script, as they come.
ghost use Rattle.std.specs.Prelude.{◌≡◌, ◌≢◌, ◌≤◌, ◌++◌, ◌<◌, ℕ, List, Option, [], ◌∷◌, drop, take, false, true, length, Some, IfOk, IfSome, IfErr, OnOk, vec_len};
ghost use Rattle.grid_edge.specs.Faults.{Rose, HasCause};
ghost use Rattle.grid_edge.specs.Given.{Given};
ghost use Rattle.grid_cli.specs.Scripts.{limit_in};
ghost use Rattle.script_lang.specs.Pieces.{IsOnePiece};
ghost use Rattle.live_control.specs.Reading.{HasCome, HasLooked, ComesNext, LeadsTo, HasKept, HasRead, up_to};

use grid_base::Memory;
use grid_cli::LimitWhat;
use grid_edge::{ReadFault, Source};
use memchr::memchr;
use script_lang::{MOST_BYTES, MOST_LINE_BYTES, MOST_LINES};
use std::alloc::Global;

/// How many bytes are asked for at a time.
const PIECE: usize = 65_536;

/// What came next of a script.
#[derive(Clone, Copy, Debug)]
pub(crate) enum Came {
    /// One more line.
    Line,
    /// No more: the script has ended.
    Nothing,
    /// The script went past a limit in the next line.
    Limit(LimitWhat),
    /// The source failed.
    Fault,
    /// There is no memory for the line.
    NoMemory,
}

/// Reads a script line by line, and no piece more than the one that ends a line.
#[derive(Drop)]
pub(crate) struct LineReader {
    /// The last piece that came.
    piece: Vec<u8>,
    /// Where the bytes of it that weren't looked at yet begin,
    from: usize,
    /// and where they end.
    to: usize,
    /// The line: the bytes after the last newline, or the line that came last.
    line: Vec<u8>,
    /// How many lines came.
    lines: u32,
    /// How many bytes came, up to the limit.
    bytes: usize,
    /// The script has more bytes than it may.
    is_over: bool,
    /// The script has ended.
    has_ended: bool,
}

impl LineReader {
    /// Before the first line. Takes memory for a piece.
    pub(crate) fn new(alloc: Global) -> Result<LineReader, Memory>
        ensures { (source : Given) → IfOk result (λ reader. HasCome reader source [] [] []) }
    {
        Ok(LineReader {
            piece: vec![in alloc; 0u8; PIECE]?,
            from: 0,
            to: 0,
            line: Vec::new(alloc),
            lines: 0,
            bytes: 0,
            is_over: false,
            has_ended: false,
        })
    }

    /// The line that came last.
    pub(crate) fn line(&self) -> &[u8]
        ensures { result.now ≡ self.now.line.items }
    {
        self.line.as_slice()
    }

    /// How many lines came.
    pub(crate) fn lines(&self) -> u32
        ensures { result ≡ self.now.lines }
    {
        self.lines
    }

    /// The limit that the next line goes past with the bytes that end at this place of the piece.
    fn limit_at(&self, end: usize) -> Option<LimitWhat>
        requires placed { self.now.from ≤ end }
        requires inside { end ≤ vec_len self.now.piece }
        ensures { result ≡ limit_in self.now.lines (self.now.line.items ++ up_to self.now end) }
    {
        if self.lines == MOST_LINES {
            Some(LimitWhat::Lines)
        } else if self.line.len() + (end - self.from) > MOST_LINE_BYTES {
            Some(LimitWhat::Line)
        } else {
            None
        }
    }

    /// Keeps the bytes of the next line that end at this place of the piece.
    fn keep(&mut self, end: usize) -> Result<(), Came>
        requires placed { self.old.from ≤ end }
        requires inside { end ≤ vec_len self.old.piece }
        ensures { HasKept self.old self.new end result }
    {
        if let Some(what) = self.limit_at(end) {
            return Err(Came::Limit(what));
        }
        match self.line.extend_from_slice(&self.piece[self.from..end]) {
            Ok(()) => {
                self.from = end;
                Ok(())
            }
            Err(_) => Err(Came::NoMemory),
        }
    }

    /// Looks for the next newline of the piece. Tells whether there is one; the line is then whole.
    fn look(&mut self) -> Result<bool, Came>
        requires come { (source : Given) × (came : List ℕ) × (given : List (List ℕ)) × HasCome self.old source came given self.old.line.items }
        requires going { self.old.has_ended ≡ false }
        ensures looked { (source : Given) (came : List ℕ) (given : List (List ℕ)) → HasCome self.old source came given self.old.line.items
            → HasLooked result self.new source came given }
        ensures going { self.new.has_ended ≡ false }
        ensures measure { self.new.bytes ≡ self.old.bytes }
        ensures over { self.new.is_over ≡ self.old.is_over }
    {
        match memchr(b'\n', &self.piece[self.from..self.to]) {
            Some(at) => match self.keep(self.from + at) {
                Ok(()) => {
                    self.from += 1;
                    self.lines += 1;
                    Ok(true)
                }
                Err(came) => Err(came),
            },
            None if self.from < self.to => match self.keep(self.to) {
                Ok(()) => Ok(false),
                Err(came) => Err(came),
            },
            None => Ok(false),
        }
    }

    /// Reads the next piece. Tells whether anything came. Bytes past the limit are left out.
    fn read<S: Source>(&mut self, script: &mut S) -> Result<bool, ReadFault>
        requires come { (came : List ℕ) × (given : List (List ℕ)) × HasCome self.old (S.given script.old) came given self.old.line.items }
        requires going { self.old.has_ended ≡ false }
        requires spent { self.old.from ≡ self.old.to }
        requires within { self.old.is_over ≡ false }
        ensures read { (came : List ℕ) (given : List (List ℕ)) → HasCome self.old (S.given script.old) came given self.old.line.items
            → HasRead result self.old self.new (S.given script.old) (S.given script.new) came given }
        ensures going { self.new.has_ended ≡ false }
        ensures cause { HasCause (S.faults script.old) (S.faults script.new) result }
    {
        let Ok(count) = script.read(self.piece.as_mut_slice()) else {
            return Err(ReadFault);
        };
        let room = MOST_BYTES - self.bytes;
        self.from = 0;
        self.to = count.min(room);
        self.bytes += self.to;
        self.is_over = count > room;
        Ok(count > 0)
    }

    /// The line that the end of the script ends, if it has a byte.
    fn last(&mut self) -> Came
        requires come { (source : Given) × (came : List ℕ) × (given : List (List ℕ)) × HasCome self.old source came given self.old.line.items }
        requires going { self.old.has_ended ≡ false }
        requires spent { self.old.from ≡ self.old.to }
        requires within { self.old.is_over ≡ false }
        ensures came { (source : Given) (came : List ℕ) (given : List (List ℕ)) → HasCome self.old source came given self.old.line.items
            → source.ended ≡ true → ComesNext result self.new source came given }
        ensures no_fault { result ≢ Came.Fault }
    {
        self.has_ended = true;
        if self.line.is_empty() {
            return Came::Nothing;
        }
        self.lines += 1;
        Came::Line
    }

    /// Waits for the next line.
    pub(crate) fn next<S: Source>(&mut self, script: &mut S) -> Came
        requires { (came : List ℕ) × (given : List (List ℕ)) × HasCome self.old (S.given script.old) came given [] }
        ensures came { (came : List ℕ) (given : List (List ℕ)) → HasCome self.old (S.given script.old) came given []
            → LeadsTo (S.given script.old) (S.given script.new) (λ more. ComesNext result self.new (S.given script.new) (came ++ more) given) }
        ensures never_falls { S.faults script.old ≤ S.faults script.new }
        ensures cause { result ≡ Came.Fault → Rose (S.faults script.old) (S.faults script.new) }
    {
        self.line.clear();
        if self.has_ended {
            return Came::Nothing;
        }
        'pieces: loop {
            match self.look() {
                Ok(true) => return Came::Line,
                Ok(false) => {}
                Err(came) => return came,
            }
            if self.is_over {
                return Came::Limit(LimitWhat::Bytes);
            }
            match self.read(script) {
                Ok(true) => {}
                Ok(false) => return self.last(),
                Err(_) => return Came::Fault,
            }
        }
    }
}
