ghost use Rattle.std.specs.Prelude.{◌≡◌};

use crate::replacing::Replacing;
use grid_base::MemberId;
use partition_table::Row;
use std::marker::Model;

/// The step of [`Committed`].
#[derive(Debug, Drop)]
pub struct CommittedStep;

/// The target took the source's place, and the row is the one that this made.
pub type Committed = Replacing<CommittedStep>;

/// The move was given up, and the row is the one that it stood in.
#[derive(Debug, Drop)]
pub struct Cancelled {
    source: Option<MemberId>,
    target: MemberId,
    row: Row,
}

impl Model for Cancelled {
    ghost use Rattle.migration.specs.Steps.{Entry};

    ghost Value = { Entry };

    ghost view = { λ s. record { source = s.source; target = s.target; row = s.row } };
}

impl Cancelled {
    pub(crate) fn begun(source: Option<MemberId>, target: MemberId, row: Row) -> Cancelled
        ensures { result ≡ record { source = source; target = target; row = row } }
    {
        Cancelled {
            source,
            target,
            row,
        }
    }

    /// Who would have left the row, if anybody.
    pub fn source(&self) -> Option<MemberId>
        ensures { result ≡ self.now.source }
    {
        self.source
    }

    /// Who was to come into the row.
    pub fn target(&self) -> MemberId
        ensures { result ≡ self.now.target }
    {
        self.target
    }

    /// The row that the move stood in.
    pub fn row(&self) -> &Row
        ensures { result.now ≡ self.now.row }
    {
        &self.row
    }

    /// Gives the row up, with no memory.
    pub fn into_row(self) -> Row
        ensures { result ≡ self.row }
    {
        self.row
    }
}
