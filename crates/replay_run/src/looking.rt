//! What is to be seen of a partition between two lines, and in the midst of one.

ghost use Rattle.std.specs.Prelude.{◌≡◌, ◌<◌, IfSome, IsSome};
ghost use Rattle.call_engine.specs.Calls.{Settings};
ghost use Rattle.replay_run.specs.Runs.{Run, partitions};
ghost use Rattle.replay_run.specs.Grids.{boxed, IsWorld, Holds};

use crate::grid::Grid;
use call_engine::GridShelf;
use grid_base::{PartitionId, Request};
use partition_world::{Recorder, World};

impl Grid {
    /// The world of a partition, as the lines and events so far have left it, if there is one of that number. Costs constant time.
    pub fn world(&self, partition: PartitionId) -> Option<&World<GridShelf, Recorder<Request>>>
        ensures world { (settings : Settings) (r : Run) → Holds (boxed form) settings self.now r → partition < partitions
            → IfSome result (λ world. IsWorld settings world.now r partition) }
        ensures there { (settings : Settings) (r : Run) → Holds (boxed form) settings self.now r → partition < partitions → IsSome result }
    {
        self.worlds.get(usize::from(partition))
    }
}
