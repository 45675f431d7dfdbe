// The process's standard streams.
ghost use Rattle.std.specs.Prelude.{◌≡◌, ◌≤◌, ◌<◌, [], IfOk, length};
ghost use Rattle.grid_edge.specs.Given.{none_given};
ghost use Rattle.std.specs.Io.KnownBytes.{ReadConsumes, WriteAppends};

use crate::count::next_count;
use crate::given::{ReadRecord, WriteRecord};
use crate::{ReadFault, Sink, Source, WriteFault};
use std::io::{ErrorKind, Read, Stdin, Stdout, Write};
use std::marker::Model;

/// Standard input. Contracts see what was read, and how many reads have failed, up to the last value of a `u64`.
#[derive(Drop)]
pub struct StdSource {
    stdin: Stdin,
    gave: ReadRecord,
    faults: u64,
}

impl Model for StdSource {
    ghost use Rattle.grid_edge.specs.Standard.{StdInput};

    ghost Value = { StdInput };

    ghost view = { λ s. record { given = s.gave; faults = s.faults } };
}

impl StdSource {
    /// Reads from standard input.
    pub fn new(stdin: Stdin) -> Self
        ensures { result ≡ record { given = none_given; faults = 0 } }
    {
        StdSource {
            stdin,
            gave: ReadRecord::new(),
            faults: 0,
        }
    }
}

impl Source for StdSource {
    ghost faults = { λ s. s.faults };

    ghost given = { λ s. s.given };

    /// Costs a system call, and another one for each time that it is interrupted.
    fn read(&mut self, into: &mut [u8]) -> Result<usize, ReadFault> {
        let given = read_again(&mut self.stdin, into);
        match given {
            Ok(count) => self.gave.note(into.len(), &into[..count]),
            Err(_) => self.faults = next_count(self.faults),
        }
        given
    }
}

/// Standard output. Contracts see what was written, and how many writes have failed, up to the last value of a `u64`.
#[derive(Drop)]
pub struct StdSink {
    stdout: Stdout,
    took: WriteRecord,
    faults: u64,
}

impl Model for StdSink {
    ghost use Rattle.grid_edge.specs.Standard.{StdOutput};

    ghost Value = { StdOutput };

    ghost view = { λ s. record { taken = s.took; faults = s.faults } };
}

impl StdSink {
    /// Writes to standard output.
    pub fn new(stdout: Stdout) -> Self
        ensures { result ≡ record { taken = []; faults = 0 } }
    {
        StdSink {
            stdout,
            took: WriteRecord::new(),
            faults: 0,
        }
    }
}

impl Sink for StdSink {
    ghost faults = { λ s. s.faults };

    ghost taken = { λ s. s.taken };

    /// A write that takes nothing of a piece counts as a fault. Costs a system call, and another one for
    /// each time that it is interrupted.
    fn write(&mut self, from: &[u8]) -> Result<usize, WriteFault> {
        let written = write_again(&mut self.stdout, from);
        match written {
            Ok(count) => self.took.note(&from[..count]),
            Err(_) => self.faults = next_count(self.faults),
        }
        written
    }
}

// Reads once, and again where the read was interrupted.
#[tactic(auto, using(crate::proofs::Streams::Consumes_since))]
fn read_again<R: Read>(reader: &mut R, into: &mut [u8]) -> Result<usize, ReadFault>
    ensures within { IfOk result (λ n. n ≤ length into.new) }
    ensures bytes { ReadConsumes (R.remaining reader.old) (R.remaining reader.new) result into.new }
{
    for _ in 0..u64::MAX {
        match reader.read(into) {
            Ok(count) => return Ok(count),
            Err(error) if error.kind() == ErrorKind::Interrupted => {}
            Err(_) => break,
        }
    }
    Err(ReadFault)
}

// Writes once, and again where the write was interrupted. It fails where nothing of a piece was taken.
#[tactic(auto, using(crate::proofs::Streams::Appends_since))]
fn write_again<W: Write>(writer: &mut W, from: &[u8]) -> Result<usize, WriteFault>
    ensures within { IfOk result (λ n. n ≤ length from.now) }
    ensures progress { IfOk result (λ n. 0 < length from.now → 0 < n) }
    ensures bytes { WriteAppends (W.contents writer.old) (W.contents writer.new) result from.now }
{
    for _ in 0..u64::MAX {
        match writer.write(from) {
            Ok(0) if !from.is_empty() => break,
            Ok(count) => return Ok(count),
            Err(error) if error.kind() == ErrorKind::Interrupted => {}
            Err(_) => break,
        }
    }
    Err(WriteFault)
}
