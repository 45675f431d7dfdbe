//! Streams that wait, for code that reads and writes without waiting.
ghost use Rattle.std.specs.Prelude.{◌≡◌};

use grid_edge::{ReadFault, Ready, ReadySink, ReadySource, Sink, Source, WriteFault};
use std::marker::Model;

/// A stream that waits until it can go on, and so is ready at each call. Contracts see the stream.
#[derive(Debug, Drop)]
pub struct Blocking<S> {
    stream: S,
}

impl<S> Model for Blocking<S> {
    ghost Value = { S };

    ghost view = { λ b. b.stream };
}

impl<S> Blocking<S> {
    /// This stream. Takes no memory.
    pub fn new(stream: S) -> Blocking<S>
        ensures { result ≡ stream }
    {
        Blocking { stream }
    }

    /// The stream.
    pub fn stream(&self) -> &S
        ensures { result.now ≡ self.now }
    {
        &self.stream
    }
}

impl<S: Source> ReadySource for Blocking<S> {
    ghost faults = { λ s. S.faults s };

    ghost unready = { λ _. 0 };

    ghost given = { λ s. S.given s };

    /// Costs a read of the stream.
    fn read_ready(&mut self, into: &mut [u8]) -> Result<Ready, ReadFault> {
        Ok(Ready::Bytes(self.stream.read(into)?))
    }
}

impl<K: Sink> ReadySink for Blocking<K> {
    ghost faults = { λ k. K.faults k };

    ghost unready = { λ _. 0 };

    ghost taken = { λ k. K.taken k };

    /// Costs a write to the stream.
    fn write_ready(&mut self, from: &[u8]) -> Result<Ready, WriteFault> {
        Ok(Ready::Bytes(self.stream.write(from)?))
    }
}
