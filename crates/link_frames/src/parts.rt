ghost use Rattle.std.specs.Prelude.{◌≡◌};
ghost use Rattle.link_frames.specs.Reading.{next_stage};

use grid_base::{Bytes, MemberId, PartitionId};

/// The number that a link begins with: the letters `GRL` and the version of these rules, in four bytes, the low one first.
pub(crate) const MAGIC: u32 = 0x014c_5247;

/// How many bytes name a grid.
pub const GRID_LENGTH: usize = 32;

/// How many bytes a challenge has.
pub const CHALLENGE_LENGTH: usize = 32;

/// How many bytes a hello has.
pub const HELLO_LENGTH: usize = 78;

/// How many bytes an answer has.
pub const ANSWER_LENGTH: usize = 32;

/// How many bytes of a batch stand before what it carries: two of the partition, four of the length, four of the checksum.
pub const BATCH_HEADER: usize = 10;

/// The most bytes that a batch carries.
pub const MAX_BATCH: usize = 1_073_741_824;

/// What an end of a link says of itself, and to whom.
#[derive(Clone, Copy, Debug)]
pub struct Hello {
    /// The grid, by a name that no other has, as the digest of the file that it was started from.
    pub grid: [u8; GRID_LENGTH],
    /// The member that speaks.
    pub member: MemberId,
    /// The member that it speaks to.
    pub peer: MemberId,
    /// The speaker's process, by a number that no earlier process of this member had.
    pub process: u64,
    /// What the other end is to answer, drawn for this link alone.
    pub challenge: [u8; CHALLENGE_LENGTH],
}

/// What the members of a partition say to one another, some messages after another.
#[derive(Debug, Drop)]
pub struct Batch {
    pub partition: PartitionId,
    pub bytes: Bytes,
}

/// A part of what comes over a link.
#[derive(Debug, Drop)]
pub enum LinkPart {
    /// How the other end makes itself known.
    Opens(Hello),
    /// Its answer to this end's challenge.
    Answers([u8; ANSWER_LENGTH]),
    Carries(Batch),
}

/// Which part of a link is the next.
#[derive(Clone, Copy, Debug, PartialEq, Eq)]
pub enum Stage {
    Hello,
    Answer,
    /// A batch, and nothing else from then on.
    Batch,
}

impl Stage {
    /// What comes after it.
    pub(crate) fn next(self) -> Stage
        ensures { result ≡ next_stage self }
    {
        match self {
            Stage::Hello => Stage::Answer,
            Stage::Answer | Stage::Batch => Stage::Batch,
        }
    }
}
