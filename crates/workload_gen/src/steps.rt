//! What the rounds of a script do, drawn from its number.

ghost use Rattle.std.specs.Prelude.{◌≡◌, ◌<◌, ◌%◌};
ghost use Rattle.workload_gen.specs.Draws.{generator_of, word_of, behind, draws_of, behind_round, step_of};

use crate::calls::MEMBERS;
use grid_base::{MemberId, PARTITIONS, PartitionId};
use rand_core::utils::NextWord;
use rand_pcg::Lcg64Xsh32;

/// The stream of the generator.
const STREAM: u64 = 1;

/// How many kinds of rounds are drawn alike.
const KINDS: u32 = 16;

/// What a round does.
#[derive(Clone, Copy, Debug, PartialEq, Eq)]
pub(crate) enum Step {
    /// A client puts the round's number under the key of a partition.
    Put {
        partition: PartitionId,
    },
    /// A client gets what is under it.
    Get {
        partition: PartitionId,
    },
    /// Some messages of each partition are delivered.
    Flow,
    Move {
        partition: PartitionId,
        from: MemberId,
        to: MemberId,
    },
    Advance {
        partition: PartitionId,
    },
    Resend {
        partition: PartitionId,
        end: MemberId,
    },
}

/// What a round draws, in this order.
#[derive(Clone, Copy, Debug, PartialEq, Eq)]
pub(crate) struct Draws {
    /// Below `KINDS`: which kind of step it is.
    kind: u32,
    partition: PartitionId,
    first: MemberId,
    second: MemberId,
}

impl Draws {
    /// The step that was drawn.
    fn step(self) -> Step
        ensures { result ≡ step_of self }
    {
        let Draws {
            kind,
            partition,
            first,
            second,
        } = self;
        match kind {
            0..=7 => Step::Put { partition },
            8..=11 => Step::Get { partition },
            12 => Step::Flow,
            13 => Step::Move {
                partition,
                from: first,
                to: second,
            },
            14 => Step::Advance { partition },
            _ => Step::Resend {
                partition,
                end: first,
            },
        }
    }
}

/// The steps of a number, which go on by rounds.
#[derive(Debug, Drop)]
pub(crate) struct Workload {
    generator: Lcg64Xsh32,
}

impl Workload {
    pub(crate) fn new(number: u32) -> Self
        ensures { result.generator ≡ generator_of number }
    {
        Workload {
            generator: Lcg64Xsh32::new(u64::from(number), STREAM),
        }
    }

    /// The next word modulo `below`.
    fn draw(&mut self, below: u32) -> u32
        requires { 0 < below }
        ensures value { result ≡ word_of self.old.generator % below }
        ensures behind { self.new.generator ≡ behind self.old.generator }
    {
        self.generator.next_word() % below
    }

    fn draws(&mut self) -> Draws
        ensures draws { result ≡ draws_of self.old.generator }
        ensures behind { self.new.generator ≡ behind_round self.old.generator }
    {
        let kind = self.draw(KINDS);
        let partition = self.draw(u32::from(PARTITIONS)) as PartitionId;
        let first = self.draw(MEMBERS) as MemberId;
        let second = self.draw(MEMBERS) as MemberId;
        Draws {
            kind,
            partition,
            first,
            second,
        }
    }

    /// The step of the next round.
    pub(crate) fn next_step(&mut self) -> Step
        ensures step { result ≡ step_of (draws_of self.old.generator) }
        ensures behind { self.new.generator ≡ behind_round self.old.generator }
    {
        self.draws().step()
    }
}
