// The two ends of a connection.
ghost use Rattle.std.specs.Prelude.{◌≡◌, ◌≤◌, ◌<◌, length};
ghost use Rattle.grid_edge.specs.Faults.{HasCause};
ghost use Rattle.grid_edge.specs.Ready.{IfBytes, HasWaited};
ghost use Rattle.tcp_edge.specs.declared.stream.Attempt.TheVariants.{Moved};
ghost use Rattle.tcp_edge.specs.Attempt.{IfMoved, AttemptConsumes, AttemptAppends, AttemptGives, AttemptTakes};

use crate::reports::Reports;
use grid_edge::{
    ReadFault, ReadRecord, Ready, ReadySink, ReadySource, WriteFault, WriteRecord, next_count,
};
use mio::net::TcpStream;
use std::alloc::AllocError;
use std::io::{ErrorKind, Read, Write};
use std::marker::Model;
use std::net::Shutdown;
use std::sync::Arc;

// What a call of a stream came to.
#[derive(Clone, Copy, Debug, PartialEq, Eq)]
enum Attempt {
    Moved(usize),
    WouldBlock,
    Failed,
}

impl Attempt {
    // Whether something moved, and less than was asked for.
    fn is_short_of(self, asked: usize) -> bool {
        match self {
            Attempt::Moved(count) => 0 < count && count < asked,
            Attempt::WouldBlock | Attempt::Failed => false,
        }
    }
}

// How many calls failed, and how many would have had to wait.
#[derive(Debug, Drop)]
struct Counts {
    faults: u64,
    unready: u64,
}

impl Counts {
    fn new() -> Counts
        ensures { (result.faults ≡ 0) × (result.unready ≡ 0) }
    {
        Counts {
            faults: 0,
            unready: 0,
        }
    }

    // The answer to a call that came to this, once it is counted.
    fn answer<E: Drop>(&mut self, attempt: Attempt, fault: E) -> Result<Ready, E>
        ensures bytes { IfBytes result (λ n. attempt ≡ Moved n) }
        ensures moved { IfMoved attempt (λ n. result ≡ Ok (Ready.Bytes n)) }
        ensures cause { HasCause self.old.faults self.new.faults result }
        ensures waited { HasWaited self.old.unready self.new.unready result }
    {
        match attempt {
            Attempt::Moved(count) => Ok(Ready::Bytes(count)),
            Attempt::WouldBlock => {
                self.unready = next_count(self.unready);
                Ok(Ready::NotYet)
            }
            Attempt::Failed => {
                self.faults = next_count(self.faults);
                Err(fault)
            }
        }
    }
}

// Whether a stream is known not to be ready: after so many reports of it, it wasn't, or gave all that it had.
#[derive(Debug, Drop)]
struct Wait {
    since: Option<u64>,
}

impl Wait {
    fn new() -> Wait {
        Wait { since: None }
    }

    // It wasn't ready, and nothing was reported since.
    fn goes_on(&self, reported: u64) -> bool {
        self.since == Some(reported)
    }

    // A call came to this, before which so much had been reported.
    fn note(&mut self, attempt: Attempt, reported: u64) {
        self.since = match attempt {
            Attempt::WouldBlock => Some(reported),
            Attempt::Moved(_) | Attempt::Failed => None,
        };
    }

    // All that had come was taken, after so much had been reported.
    fn drained(&mut self, reported: u64) {
        self.since = Some(reported);
    }
}

/// What comes from a client. Contracts see what reads gave, how many have failed and how many found nothing, each up to
/// the last value of a `u64`.
#[derive(Drop)]
pub struct TcpSource {
    stream: Arc<TcpStream>,
    reports: Arc<Reports>,
    wait: Wait,
    counts: Counts,
    gave: ReadRecord,
}

/// What goes to a client. Contracts see what writes took, how many have failed and how many found no room, each up to
/// the last value of a `u64`.
#[derive(Drop)]
pub struct TcpSink {
    stream: Arc<TcpStream>,
    reports: Arc<Reports>,
    wait: Wait,
    counts: Counts,
    took: WriteRecord,
}

impl Model for TcpSource {
    ghost use Rattle.tcp_edge.specs.Streams.{TcpInput};

    ghost Value = { TcpInput };

    ghost view = { λ s. record { given = s.gave; faults = s.counts.faults; unready = s.counts.unready } };
}

impl Model for TcpSink {
    ghost use Rattle.tcp_edge.specs.Streams.{TcpOutput};

    ghost Value = { TcpOutput };

    ghost view = { λ s. record { taken = s.took; faults = s.counts.faults; unready = s.counts.unready } };
}

/// The two ends of this connection, of which this is reported.
pub(crate) fn ends(
    stream: Arc<TcpStream>,
    reports: Arc<Reports>,
) -> Result<(TcpSource, TcpSink), AllocError> {
    let to = TcpSink {
        stream: Arc::try_clone(&stream)?,
        reports: Arc::try_clone(&reports)?,
        wait: Wait::new(),
        counts: Counts::new(),
        took: WriteRecord::new(),
    };
    let from = TcpSource {
        stream,
        reports,
        wait: Wait::new(),
        counts: Counts::new(),
        gave: ReadRecord::new(),
    };
    Ok((from, to))
}

/// Closes the connection of these ends. The client's own end sees the end of what it was sent.
pub(crate) fn close(from: TcpSource, to: TcpSink) {
    // A connection that the client has closed can't be shut down, and needn't be.
    let _ = to.stream.shutdown(Shutdown::Both);
    drop(from);
    drop(to);
}

impl ReadySource for TcpSource {
    ghost faults = { λ s. s.faults };

    ghost unready = { λ s. s.unready };

    ghost given = { λ s. s.given };

    /// Costs a system call, and another one for each time that it is interrupted. Once all that had come was read it costs
    /// none, and comes to `NotYet`, until a `wait` at the doors reports something.
    fn read_ready(&mut self, into: &mut [u8]) -> Result<Ready, ReadFault> {
        let reported = self.reports.readable();
        let ended = self.reports.has_ended();
        let mut attempt = Attempt::WouldBlock;
        if !self.wait.goes_on(reported) {
            attempt = try_read(&mut &*self.stream, into, &mut self.gave);
            self.wait.note(attempt, reported);
            if !ended && attempt.is_short_of(into.len()) {
                self.wait.drained(reported);
            }
        }
        self.counts.answer(attempt, ReadFault)
    }
}

impl ReadySink for TcpSink {
    ghost faults = { λ s. s.faults };

    ghost unready = { λ s. s.unready };

    ghost taken = { λ s. s.taken };

    /// A write that takes nothing of a piece counts as a fault. Costs a system call, and another one for each time
    /// that it is interrupted. Once there was no room it costs none, and comes to `NotYet`, until a `wait` at the doors
    /// reports some.
    fn write_ready(&mut self, from: &[u8]) -> Result<Ready, WriteFault> {
        let reported = self.reports.writable();
        let mut attempt = Attempt::WouldBlock;
        if !self.wait.goes_on(reported) {
            attempt = try_write(&mut &*self.stream, from, &mut self.took);
            self.wait.note(attempt, reported);
        }
        self.counts.answer(attempt, WriteFault)
    }
}

// Reads once, and again where the read was interrupted. What came is noted: where the reader tells its bytes, these are
// the ones that it gave.
#[tactic(auto, using(crate::proofs::Attempts::Consumes_since))]
fn try_read<R: Read>(reader: &mut R, into: &mut [u8], gave: &mut ReadRecord) -> Attempt
    ensures within { IfMoved result (λ n. n ≤ length into.new) }
    ensures bytes { AttemptConsumes (R.remaining reader.old) (R.remaining reader.new) result into.new }
    ensures noted { AttemptGives gave.old gave.new result into.new }
{
    for _ in 0..u64::MAX {
        match reader.read(into) {
            Ok(count) => {
                gave.note(into.len(), &into[..count]);
                return Attempt::Moved(count);
            }
            Err(error) => match error.kind() {
                ErrorKind::Interrupted => {}
                ErrorKind::WouldBlock => return Attempt::WouldBlock,
                _ => break,
            },
        }
    }
    Attempt::Failed
}

// Writes once, and again where the write was interrupted. What went is noted: where the writer tells its bytes, these
// are the ones that it took.
#[tactic(auto, using(crate::proofs::Attempts::Appends_since))]
fn try_write<W: Write>(writer: &mut W, from: &[u8], took: &mut WriteRecord) -> Attempt
    ensures within { IfMoved result (λ n. n ≤ length from.now) }
    ensures progress { IfMoved result (λ n. 0 < length from.now → 0 < n) }
    ensures bytes { AttemptAppends (W.contents writer.old) (W.contents writer.new) result from.now }
    ensures noted { AttemptTakes took.old took.new result from.now }
{
    for _ in 0..u64::MAX {
        match writer.write(from) {
            Ok(0) if !from.is_empty() => break,
            Ok(count) => {
                took.note(&from[..count]);
                return Attempt::Moved(count);
            }
            Err(error) => match error.kind() {
                ErrorKind::Interrupted => {}
                ErrorKind::WouldBlock => return Attempt::WouldBlock,
                _ => break,
            },
        }
    }
    Attempt::Failed
}
