// Where bytes come from.
ghost use Rattle.std.specs.Prelude.{◌≡◌, ℕ, ◌≤◌, length, take, IfOk, OnErr};
ghost use Rattle.grid_edge.specs.Faults.{HasCause};
ghost use Rattle.grid_edge.specs.Given.{Given, after_piece};

use thiserror::Error;

/// A read failed. The source has counted the fault.
#[derive(Clone, Copy, Debug, PartialEq, Eq, Error)]
#[error("reading failed")]
pub struct ReadFault;

/// Gives bytes in pieces: standard input, a connection, or bytes in memory.
pub trait Source {
    /// How many faults there were. The count never falls, and may stop at the last value of a `u64`.
    ghost faults: { Self → ℕ };

    /// What reads have given so far.
    ghost given: { Self → Given };

    /// Puts the next bytes at the front of `into`, and answers how many there are. A count of 0 for a
    /// buffer that isn't empty is the end. After a fault the buffer may hold anything.
    fn read(&mut self, into: &mut [u8]) -> Result<usize, ReadFault>
        ensures within { IfOk result (λ n. n ≤ length into.new) }
        ensures given { IfOk result (λ n. given self.new ≡ after_piece (given self.old) (length into.new) n (take n into.new)) }
        ensures none_given { OnErr result (given self.new ≡ given self.old) }
        ensures cause { HasCause (faults self.old) (faults self.new) result };
}
