ghost use Rattle.std.specs.Prelude.{◌≡◌, ◌<◌, IfOk, IfErr};
ghost use Rattle.partition_table.specs.Rows.{handed};
ghost use Rattle.partition_protocol.specs.Service.{advance_by, MakesRow, Drained as DrainedMove};
ghost use Rattle.migration.specs.Steps.{committing};
ghost use Rattle.migration.specs.Outcomes.{drained_back};

use crate::ended::Committed;
use crate::replacing::{Replacing, Underway};
use partition_table::Row;
use std::alloc::Global;
use thiserror::Error;

/// The step of [`Drained`].
#[derive(Debug, Drop)]
pub struct DrainedStep;

impl Underway for DrainedStep {}

/// The source executes nothing more and holds no answer, so the target may take its place.
pub type Drained = Replacing<DrainedStep>;

/// Why a move wasn't committed. The refusal hands the state back.
#[derive(Debug, Drop, Error)]
pub enum DrainedRefused {
    #[error("there is no memory for the next row")]
    Memory(Drained),
}

impl Drained {
    /// In the next row the target leads, and the source is gone. Goes over the members once.
    pub fn commit(self, alloc: Global) -> Result<Committed, DrainedRefused>
        requires { self.row.version < u32.MAX }
        ensures ok { IfOk result (λ committed. committed ≡ committing self) }
        ensures step { let step = advance_by self.row (DrainedMove self.source self.target) in
            IfOk result (λ committed. step ≡ MakesRow committed.row) }
        ensures err { IfErr result (λ refused. drained_back refused ≡ self) }
    {
        match self.row().handed(alloc, self.source(), self.target()) {
            Err(_) => Err(DrainedRefused::Memory(self)),
            Ok(row) => Ok(self.committed(row)),
        }
    }

    /// The target leads in this row, which was made before. Takes no memory.
    pub fn committed(self, row: Row) -> Committed
        requires { row ≡ handed self.row self.source self.target }
        ensures { result ≡ committing self }
    {
        Committed::begun(self.source(), self.target(), row)
    }
}
