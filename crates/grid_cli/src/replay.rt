ghost use Rattle.std.specs.Prelude.{◌≡◌, ◌≤◌, ◌<◌, [], List, ℕ, ◌++◌, Some, length, map, None, OnOk, IfErr, IsErrOf, ◌≢◌};
ghost use Rattle.grid_base.specs.declared.names.CallId.{CallId};
ghost use Rattle.grid_edge.specs.Faults.{Rose};
ghost use Rattle.entry_processors.specs.Processors.{ProcessorForm};
ghost use Rattle.script_lang.specs.Words.{whole_lines, unfinished};
ghost use Rattle.script_lang.specs.Pieces.{IsOnePiece};
ghost use Rattle.grid_cli.specs.Scripts.{limit_in};
ghost use Rattle.grid_cli.specs.Statuses.{ReadsAndWrites, most_piece};
ghost use Rattle.grid_cli.specs.Transcribing.{Concludes};
ghost use Rattle.grid_cli.specs.Replays.{HasRead, Takes, StopsIn, ended_line, last_line};
ghost use Rattle.grid_cli.specs.Commands.{PrintsHistories};
ghost use Rattle.grid_cli.specs.NearHits.{PrintsHits};
ghost use Rattle.grid_cli.specs.Decisions.{PrintsDecisions};
ghost use Rattle.grid_cli.specs.Waits.{PrintsWaits};

use crate::status::{LimitWhat, Status};
use crate::transcriber::Transcriber;
use entry_processors::Processor;
use grid_edge::{Sink, Source};
use memchr::memchr;
use script_lang::{MOST_BYTES, MOST_LINE_BYTES, MOST_LINES};
use std::alloc::Global;

/// How many bytes are asked for at a time.
const PIECE: usize = 65_536;

/// Runs each line of a script when its last byte has come.
#[derive(Drop)]
pub(crate) struct Replay {
    transcriber: Transcriber,
    /// The bytes after the last newline.
    unfinished: Vec<u8>,
}

impl Replay {
    pub(crate) fn new(alloc: Global, processors: Vec<Box<dyn Processor>>) -> Self
        ensures { HasRead form (map form processors.items) result [] [] [] }
    {
        Replay {
            transcriber: Transcriber::new(alloc, processors),
            unfinished: Vec::new(alloc),
        }
    }

    /// The limit that the next line goes past with these bytes of it, behind which its newline may come.
    fn limit_in(&self, more: &[u8]) -> Option<LimitWhat>
        ensures { (forms : List ProcessorForm) (skips : List CallId) (read written : List ℕ) → HasRead form forms self.now skips read written
            → result ≡ limit_in (length (whole_lines read)) (unfinished read ++ more.now) }
    {
        if self.transcriber.lines() == MOST_LINES {
            Some(LimitWhat::Lines)
        } else if self.unfinished.len() + more.len() > MOST_LINE_BYTES {
            Some(LimitWhat::Line)
        } else {
            None
        }
    }

    /// Runs the line that ends with these bytes and a newline.
    fn complete<K: Sink>(&mut self, alloc: Global, end: &[u8], out: &mut K) -> Result<(), Status>
        requires read { (forms : List ProcessorForm) × (skips : List CallId) × (read written : List ℕ) × HasRead form forms self.old skips read written }
        requires one { IsOnePiece end.now }
        ensures goes { OnOk result (Takes form self.old self.new (ended_line end.now) (K.taken out.old) (K.taken out.new)) }
        ensures stops { IfErr result (λ status. StopsIn form self.old status (ended_line end.now) (K.taken out.old) (K.taken out.new)) }
        ensures never_falls { K.faults out.old ≤ K.faults out.new }
        ensures cause { IsErrOf result Status.WriteFault → Rose (K.faults out.old) (K.faults out.new) }
    {
        if let Some(what) = self.limit_in(end) {
            return Err(self.transcriber.stop_at_limit(what, out));
        }
        let Ok(()) = self.unfinished.extend_from_slice(end) else {
            return Err(Status::Memory);
        };
        let transcribed = self
            .transcriber
            .transcribe(alloc, self.unfinished.as_slice(), out);
        match transcribed {
            Ok(()) => {
                self.unfinished.clear();
                Ok(())
            }
            Err(status) => Err(status),
        }
    }

    /// Keeps bytes of a line whose newline hasn't come.
    fn keep<K: Sink>(&mut self, more: &[u8], out: &mut K) -> Result<(), Status>
        requires read { (forms : List ProcessorForm) × (skips : List CallId) × (read written : List ℕ) × HasRead form forms self.old skips read written }
        requires one { IsOnePiece more.now }
        ensures goes { OnOk result (Takes form self.old self.new more.now (K.taken out.old) (K.taken out.new)) }
        ensures stops { IfErr result (λ status. StopsIn form self.old status more.now (K.taken out.old) (K.taken out.new)) }
        ensures never_falls { K.faults out.old ≤ K.faults out.new }
        ensures cause { IsErrOf result Status.WriteFault → Rose (K.faults out.old) (K.faults out.new) }
    {
        if more.is_empty() {
            return Ok(());
        }
        if let Some(what) = self.limit_in(more) {
            return Err(self.transcriber.stop_at_limit(what, out));
        }
        let Ok(()) = self.unfinished.extend_from_slice(more) else {
            return Err(Status::Memory);
        };
        Ok(())
    }

    /// Takes the next bytes of the script, and copies each once.
    fn take<K: Sink>(&mut self, alloc: Global, piece: &[u8], out: &mut K) -> Result<(), Status>
        requires { (forms : List ProcessorForm) × (skips : List CallId) × (read written : List ℕ) × HasRead form forms self.old skips read written }
        ensures goes { OnOk result (Takes form self.old self.new piece.now (K.taken out.old) (K.taken out.new)) }
        ensures stops { IfErr result (λ status. StopsIn form self.old status piece.now (K.taken out.old) (K.taken out.new)) }
        ensures never_falls { K.faults out.old ≤ K.faults out.new }
        ensures cause { IsErrOf result Status.WriteFault → Rose (K.faults out.old) (K.faults out.new) }
    {
        let mut rest = piece;
        'lines: while let Some(at) = memchr(b'\n', rest) {
            match self.complete(alloc, &rest[..at], out) {
                Ok(()) => {}
                Err(status) => return Err(status),
            }
            rest = &rest[at + 1..];
        }
        self.keep(rest, out)
    }

    /// The script has ended: what no newline ended is its last line.
    fn finish<K: Sink>(&mut self, alloc: Global, out: &mut K) -> Status
        requires { (forms : List ProcessorForm) × (skips : List CallId) × (read written : List ℕ) × HasRead form forms self.old skips read written }
        ensures concludes { (forms : List ProcessorForm) (skips : List CallId) (read written : List ℕ) → HasRead form forms self.old skips read written
            → (more : List CallId) × (added : List ℕ)
            × Concludes forms None result (more ++ skips) (whole_lines read ++ last_line (unfinished read)) (written ++ added)
            × (K.taken out.new ≡ K.taken out.old ++ added) }
        ensures never_falls { K.faults out.old ≤ K.faults out.new }
        ensures cause { result ≡ Status.WriteFault → Rose (K.faults out.old) (K.faults out.new) }
    {
        let last = self.unfinished.as_slice();
        if last.is_empty() {
            return self.transcriber.refuse_end(out);
        }
        match self.transcriber.transcribe(alloc, last, out) {
            Ok(()) => self.transcriber.refuse_end(out),
            Err(status) => status,
        }
    }
}

/// Reads a script through a buffer and writes its transcript, whose entries these processors process.
fn run_pieces<S: Source, K: Sink>(
    alloc: Global,
    processors: Vec<Box<dyn Processor>>,
    buffer: &mut [u8],
    script: &mut S,
    out: &mut K,
) -> Status
    requires some { 0 < length buffer.old }
    requires size { length buffer.old ≤ most_piece }
    ensures text { ReadsAndWrites (map form processors.items) result (S.given script.old) (S.given script.new) (K.taken out.old) (K.taken out.new) }
    ensures runs { result ≢ Status.Usage }
    ensures doorless { result ≢ Status.DoorFault }
    ensures read_fault { result ≡ Status.ReadFault → Rose (S.faults script.old) (S.faults script.new) }
    ensures write_fault { result ≡ Status.WriteFault → Rose (K.faults out.old) (K.faults out.new) }
{
    let mut replay = Replay::new(alloc, processors);
    let mut read = 0;
    'pieces: loop {
        let Ok(count) = script.read(buffer) else {
            return Status::ReadFault;
        };
        if count == 0 {
            return replay.finish(alloc, out);
        }
        let room = MOST_BYTES - read;
        match replay.take(alloc, &buffer[..count.min(room)], out) {
            Ok(()) => {}
            Err(status) => return status,
        }
        if count > room {
            return replay.transcriber.stop_at_limit(LimitWhat::Bytes, out);
        }
        read += count;
    }
}

/// Reads a script from its source and writes its transcript, whose entries these processors process.
pub(crate) fn run_script<S: Source, K: Sink>(
    alloc: Global,
    processors: Vec<Box<dyn Processor>>,
    script: &mut S,
    out: &mut K,
) -> Status
    ensures text { ReadsAndWrites (map form processors.items) result (S.given script.old) (S.given script.new) (K.taken out.old) (K.taken out.new) }
    ensures headline { PrintsHistories (map form processors.items) result (S.given script.old) (S.given script.new) (K.taken out.old) (K.taken out.new) }
    ensures hits { PrintsHits (map form processors.items) result (S.given script.old) (S.given script.new) (K.taken out.old) (K.taken out.new) }
    ensures decisions { PrintsDecisions (map form processors.items) result (S.given script.old) (S.given script.new) (K.taken out.old) (K.taken out.new) }
    ensures waits { PrintsWaits (map form processors.items) result (S.given script.old) (S.given script.new) (K.taken out.old) (K.taken out.new) }
    ensures runs { result ≢ Status.Usage }
    ensures doorless { result ≢ Status.DoorFault }
    ensures read_fault { result ≡ Status.ReadFault → Rose (S.faults script.old) (S.faults script.new) }
    ensures write_fault { result ≡ Status.WriteFault → Rose (K.faults out.old) (K.faults out.new) }
{
    let Ok(mut buffer) = vec![in alloc; 0u8; PIECE] else {
        return Status::Memory;
    };
    run_pieces(alloc, processors, buffer.as_mut_slice(), script, out)
}
