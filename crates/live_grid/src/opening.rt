//! How the cells of a grid are made.
ghost use Rattle.std.specs.Prelude.{◌≡◌, ◌≤◌, IfOk, vec_len, map};
ghost use Rattle.hand_cell.specs.Calls.{first_pass};
ghost use Rattle.live_grid.specs.Grids.{IsCellOf, AreCells};

use crate::plan::GridPlan;
use crate::world::LiveWorld;
use entry_processors::Form;
use grid_base::{Memory, PARTITIONS, PartitionId};
use hand_cell::{Cell, Pass};
use std::alloc::Global;

/// The cell of a partition, and its first pass.
fn cell_for(
    alloc: Global,
    partition: PartitionId,
    members: u8,
    backups: u8,
    forms: &[Form],
    capacity: u32,
) -> Result<(Cell<LiveWorld>, Pass<LiveWorld>), Memory>
    requires some { 1 ≤ members }
    requires most { members ≤ 8 }
    ensures cell { IfOk result (λ made. IsCellOf members backups forms.now capacity partition made.0) }
    ensures pass { IfOk result (λ made. made.1 ≡ first_pass made.0) }
{
    let plan = GridPlan {
        partition,
        members,
        backups,
        forms: Vec::from_slice(alloc, forms)?,
        capacity,
    };
    let world = LiveWorld::new(alloc, &plan)?;
    Cell::new(alloc, world, &plan)
}

/// A cell of each partition, and the first pass of each.
pub(crate) fn make_cells(
    alloc: Global,
    members: u8,
    backups: u8,
    forms: &[Form],
    capacity: u32,
) -> Result<(Vec<Cell<LiveWorld>>, Vec<Pass<LiveWorld>>), Memory>
    requires some { 1 ≤ members }
    requires most { members ≤ 8 }
    ensures cells { IfOk result (λ made. AreCells members backups forms.now capacity made.0.items) }
    ensures count { IfOk result (λ made. vec_len made.0 ≡ 271) }
    ensures passes { IfOk result (λ made. made.1.items ≡ map (λ cell. first_pass cell) made.0.items) }
{
    let mut cells = Vec::new(alloc);
    let mut passes = Vec::new(alloc);
    for partition in 0..PARTITIONS {
        let (cell, pass) = cell_for(alloc, partition, members, backups, forms, capacity)?;
        cells.push(cell)?;
        passes.push(pass)?;
    }
    Ok((cells, passes))
}
