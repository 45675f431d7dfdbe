//! What is to be seen of a partition between two lines.

ghost use Rattle.std.specs.Prelude.{◌<◌, IfSome, IsSome};
ghost use Rattle.call_engine.specs.Calls.{Settings};
ghost use Rattle.replay_run.specs.Runs.{partitions};
ghost use Rattle.replay_run.specs.Grids.{boxed, IsWorld};
ghost use Rattle.masters_run.specs.Runs.{RuledRun};
ghost use Rattle.masters_run.specs.Grids.{Stands};

use crate::grid::RuledGrid;
use call_engine::GridShelf;
use grid_base::{PartitionId, Request};
use partition_world::{Recorder, World};

impl RuledGrid {
    /// The world of a partition, as the lines so far have left it, if there is one of that number. Costs constant time.
    pub fn world(&self, partition: PartitionId) -> Option<&World<GridShelf, Recorder<Request>>>
        ensures world { (settings : Settings) (s : RuledRun) → Stands (boxed form) settings self.now s → partition < partitions
            → IfSome result (λ world. IsWorld settings world.now s.run partition) }
        ensures there { (settings : Settings) (s : RuledRun) → Stands (boxed form) settings self.now s → partition < partitions → IsSome result }
    {
        self.grid.world(partition)
    }
}
