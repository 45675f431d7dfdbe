//! What became of the calls so far, and what stands in the partitions' histories, in numbers.

ghost use Rattle.std.specs.Prelude.{◌≡◌, ◌+◌, ◌<◌, ◌^◌, count_by, sum_by, length};
ghost use Rattle.partition_protocol.specs.Service.{numbers_below};
ghost use Rattle.partition_protocol.specs.World.{trail};
ghost use Rattle.call_engine.specs.Calls.{Settings};
ghost use Rattle.call_engine.specs.Objects.{partition_object};
ghost use Rattle.replay_run.specs.Runs.{Run, partitions, world_at};
ghost use Rattle.replay_run.specs.Counts.{is_lost_at, counts_of};
ghost use Rattle.replay_run.specs.Grids.{boxed, Stands};

use crate::grid::Grid;
use crate::tally::Tally;
use grid_base::PARTITIONS;

/// How many calls arrived, by what became of them, and how much stands in the partitions' histories.
#[derive(Clone, Copy, Debug, PartialEq, Eq)]
pub struct Counts {
    /// Calls of maps and queues that arrived at a live member.
    pub arrived: u32,
    /// Those that were answered by their object.
    pub answered: u32,
    /// Those that were refused with a number from 7 to 9: the partition is lost, the member is the wrong one, or the
    /// partition is migrating.
    pub refused: u32,
    /// Those that were refused with number 10, for want of memory.
    pub memory: u32,
    /// The others.
    pub waiting: u32,
    /// The entries of all partitions' histories, resets included: as many as the line `end` prints, and the lines `trail`
    /// of all partitions together.
    pub entries: u32,
    /// Partitions whose newest row is lost.
    pub lost: u32,
}

/// A count as a field has it. Larger ones don't come.
fn as_field(count: u128) -> u32
    ensures { count < 2 ^ 32 → result ≡ count }
{
    u32::try_from(count).unwrap_or(u32::MAX)
}

/// The sum of two counts. Larger ones don't come.
fn plus(count: u128, more: u128) -> u128
    ensures { count + more < 2 ^ 128 → result ≡ count + more }
{
    count.saturating_add(more)
}

impl Grid {
    /// The counts for the lines run so far. Takes no memory.
    ///
    /// The calls that arrived and those that were refused are counted as they come, so that they cost a constant here.
    /// Those that were answered cost a pass over the messages of all connections, the lost partitions a pass over the
    /// partitions, and the entries what the line `end` costs to find them.
    pub fn counts(&self) -> Counts
        ensures { (settings : Settings) (r : Run) → Stands (boxed form) settings self.now r → result ≡ counts_of settings r }
    {
        let Tally {
            arrived,
            refused,
            memory,
        } = self.tally;
        let answered = as_field(self.connections.answered());
        Counts {
            arrived,
            answered,
            refused,
            memory,
            waiting: arrived
                .saturating_sub(answered)
                .saturating_sub(refused)
                .saturating_sub(memory),
            entries: as_field(self.entries()),
            lost: self.lost(),
        }
    }

    /// How many entries all partitions' histories have. So many don't come that they don't fit.
    fn entries(&self) -> u128
        ensures { (settings : Settings) (r : Run) → Stands (boxed form) settings self.now r → let entries = sum_by (λ p. length (trail (world_at (partition_object settings) r p))) (numbers_below partitions) in entries < 2 ^ 128 → result ≡ entries }
    {
        let mut entries = 0;
        for partition in 0..PARTITIONS {
            if let Some(world) = self.worlds.get(usize::from(partition)) {
                entries = plus(entries, world.trail_len());
            }
        }
        entries
    }

    /// How many partitions are lost.
    fn lost(&self) -> u32
        ensures { (settings : Settings) (r : Run) → Stands (boxed form) settings self.now r → result ≡ count_by (is_lost_at (partition_object settings) r) (numbers_below partitions) }
    {
        let mut lost = 0;
        for partition in 0..PARTITIONS {
            if let Some(world) = self.worlds.get(usize::from(partition)) {
                if world.row().lost {
                    lost += 1;
                }
            }
        }
        lost
    }
}
