ghost use Rattle.std.specs.Prelude.{◌≡◌, Some};
ghost use Rattle.partition_table.specs.Rows.{with_eligible};
ghost use Rattle.partition_protocol.specs.Service.{begun_move};
ghost use Rattle.migration.specs.Outcomes.{ongoing_step};

use crate::ended::Cancelled;
use crate::joining::begun_with_source;
use crate::ongoing::Ongoing;
use grid_base::MemberId;
use partition_table::Row;
use std::marker::{Model, PhantomData};

/// A move whose target comes in the place of its source, at one of the steps from there on.
#[derive(Debug, Drop)]
pub struct Replacing<Step> {
    source: MemberId,
    target: MemberId,
    row: Row,
    step: PhantomData<Step>,
}

/// The steps at which a move goes on, and may be given up.
pub trait Underway {}

impl<Step> Model for Replacing<Step> {
    ghost use Rattle.migration.specs.Steps.{Replacement};

    ghost Value = { Replacement };

    ghost view = { λ s. record { source = s.source; target = s.target; row = s.row } };
}

impl<Step> Replacing<Step> {
    pub(crate) fn begun(source: MemberId, target: MemberId, row: Row) -> Replacing<Step>
        ensures { result ≡ record { source = source; target = target; row = row } }
    {
        Replacing {
            source,
            target,
            row,
            step: PhantomData,
        }
    }

    /// The same move at another step, in the same row.
    pub(crate) fn at_step<Next>(self) -> Replacing<Next>
        ensures { result ≡ self }
    {
        Replacing::begun(self.source, self.target, self.row)
    }

    /// Who leaves the row.
    pub fn source(&self) -> MemberId
        ensures { result ≡ self.now.source }
    {
        self.source
    }

    /// Who takes its place.
    pub fn target(&self) -> MemberId
        ensures { result ≡ self.now.target }
    {
        self.target
    }

    /// The row of this step.
    pub fn row(&self) -> &Row
        ensures { result.now ≡ self.now.row }
    {
        &self.row
    }

    /// Gives the row up, with no memory.
    pub fn into_row(self) -> Row
        ensures { result ≡ self.row }
    {
        self.row
    }
}

impl<Step: Underway> Replacing<Step> {
    /// Lets a member of the row lead from now on, in the same version. Takes no memory.
    pub fn mark_eligible(&mut self, member: MemberId)
        ensures { self.new ≡ record self.old { row = with_eligible self.old.row member } }
    {
        self.row.mark_eligible(member);
    }

    /// Ends the move, and leaves the row as it is.
    pub fn cancel(self) -> Cancelled
        ensures { result ≡ record { source = Some self.source; target = self.target; row = self.row } }
    {
        Cancelled::begun(Some(self.source), self.target, self.row)
    }

    /// The move in a new row, which thaws a source that was frozen. It has got as far as its target has in that row.
    /// Takes no memory.
    pub fn on_row(self, row: Row) -> Ongoing
        ensures { ongoing_step result ≡ record { row = row; move = begun_move row (Some self.source) self.target } }
    {
        begun_with_source(self.source, self.target, row)
    }
}
