// Streams that answer at once.
ghost use Rattle.std.specs.Prelude.{◌≡◌, ℕ, ◌<◌, ◌≤◌, List, ◌++◌, length, take};
ghost use Rattle.grid_edge.specs.Faults.{HasCause};
ghost use Rattle.grid_edge.specs.Given.{Given, after_piece};
ghost use Rattle.grid_edge.specs.Ready.{IfBytes, UnlessBytes, HasWaited};

use crate::{ReadFault, WriteFault};

/// What a call that doesn't wait answers.
#[derive(Clone, Copy, Debug, PartialEq, Eq)]
pub enum Ready {
    /// So many bytes were moved.
    Bytes(usize),
    /// None could be moved yet.
    NotYet,
}

/// Gives bytes in pieces, and says where none have come yet.
pub trait ReadySource {
    /// How many faults there were. The count never falls, and may stop at the last value of a `u64`.
    ghost faults: { Self → ℕ };

    /// How often nothing had come. It is such a count too.
    ghost unready: { Self → ℕ };

    /// What reads have given so far.
    ghost given: { Self → Given };

    /// As `Source::read`, with `Bytes` for its count. Where nothing is there to be read yet the answer is
    /// `NotYet`; after that, and after a fault, the buffer may hold anything.
    fn read_ready(&mut self, into: &mut [u8]) -> Result<Ready, ReadFault>
        ensures within { IfBytes result (λ n. n ≤ length into.new) }
        ensures given { IfBytes result (λ n. given self.new ≡ after_piece (given self.old) (length into.new) n (take n into.new)) }
        ensures none_given { UnlessBytes result (given self.new ≡ given self.old) }
        ensures cause { HasCause (faults self.old) (faults self.new) result }
        ensures waited { HasWaited (unready self.old) (unready self.new) result };
}

/// Takes bytes in pieces, and says where it has no room for any yet.
pub trait ReadySink {
    /// How many faults there were. The count never falls, and may stop at the last value of a `u64`.
    ghost faults: { Self → ℕ };

    /// How often there was no room. It is such a count too.
    ghost unready: { Self → ℕ };

    /// The bytes that were taken so far.
    ghost taken: { Self → List ℕ };

    /// As `Sink::write`, with `Bytes` for its count. Where it can take nothing yet the answer is `NotYet`.
    fn write_ready(&mut self, from: &[u8]) -> Result<Ready, WriteFault>
        ensures within { IfBytes result (λ n. n ≤ length from.now) }
        ensures progress { IfBytes result (λ n. 0 < length from.now → 0 < n) }
        ensures bytes { IfBytes result (λ n. taken self.new ≡ taken self.old ++ take n from.now) }
        ensures none { UnlessBytes result (taken self.new ≡ taken self.old) }
        ensures cause { HasCause (faults self.old) (faults self.new) result }
        ensures waited { HasWaited (unready self.old) (unready self.new) result };
}
