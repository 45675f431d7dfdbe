ghost use Rattle.std.specs.Prelude.{◌≡◌, Some, None, IsTrue, IfOk, IfErr, is_ok};
ghost use Rattle.partition_table.specs.Rows.{is_in, with_eligible};
ghost use Rattle.partition_protocol.specs.Service.{begun_move, joined_move, Joining as JoiningMove};
ghost use Rattle.migration.specs.Steps.{has_source, is_awaited, with_target};
ghost use Rattle.migration.specs.Outcomes.{arrived_step, ongoing_step};

use crate::ended::Cancelled;
use crate::joined::Joined;
use crate::ongoing::{Arrived, Ongoing};
use grid_base::MemberId;
use partition_table::Row;
use std::marker::Model;

/// The target is in the row, and waits for the contents.
#[derive(Debug, Drop)]
pub struct Joining {
    source: Option<MemberId>,
    target: MemberId,
    row: Row,
}

impl Model for Joining {
    ghost use Rattle.migration.specs.Steps.{Entry};

    ghost Value = { Entry };

    ghost view = { λ s. record { source = s.source; target = s.target; row = s.row } };
}

impl Joining {
    /// A move into this row of its target, in the place of the source if there is one.
    pub fn start(source: Option<MemberId>, target: MemberId, row: Row) -> Joining
        requires target { IsTrue (is_in row target) }
        requires source { IsTrue (has_source row source) }
        ensures { result ≡ record { source = source; target = target; row = row } }
    {
        Joining {
            source,
            target,
            row,
        }
    }

    /// Who is to leave the row, if anybody is.
    pub fn source(&self) -> Option<MemberId>
        ensures { result ≡ self.now.source }
    {
        self.source
    }

    /// Who comes into the row.
    pub fn target(&self) -> MemberId
        ensures { result ≡ self.now.target }
    {
        self.target
    }

    /// The row of this step.
    pub fn row(&self) -> &Row
        ensures { result.now ≡ self.now.row }
    {
        &self.row
    }

    /// Gives the row up, with no memory.
    pub fn into_row(self) -> Row
        ensures { result ≡ self.row }
    {
        self.row
    }

    /// Lets a member of the row lead from now on, in the same version. Takes no memory.
    pub fn mark_eligible(&mut self, member: MemberId)
        ensures { self.new ≡ record self.old { row = with_eligible self.old.row member } }
    {
        self.row.mark_eligible(member);
    }

    /// Takes a member's word that it has the contents of that version: the target's, in the row's version.
    /// The target may lead then, and a move without a source has ended. Any other word leaves the move as it was.
    pub fn joined(self, member: MemberId, version: u32) -> Result<Arrived, Joining>
        ensures exact { is_ok result ≡ is_awaited member version self }
        ensures ok { let after = joined_move member (JoiningMove self.source self.target) in
            IfOk result (λ arrived. arrived_step arrived ≡ record { row = with_target self; move = after }) }
        ensures err { IfErr result (λ joining. joining ≡ self) }
    {
        if self.row.version != version || self.target != member {
            return Err(self);
        }
        Ok(self.arrived())
    }

    fn arrived(self) -> Arrived
        ensures { let after = joined_move self.target (JoiningMove self.source self.target) in
            arrived_step result ≡ record { row = with_target self; move = after } }
    {
        let Joining {
            source,
            target,
            mut row,
        } = self;
        row.mark_eligible(target);
        match source {
            None => Arrived::Ended(row),
            Some(source) => Arrived::Joined(Joined::begun(source, target, row)),
        }
    }

    /// Ends the move, and leaves the row as it is.
    pub fn cancel(self) -> Cancelled
        ensures { result ≡ self }
    {
        Cancelled::begun(self.source, self.target, self.row)
    }

    /// The move in a new row. It has got as far as its target has in that row. Takes no memory.
    pub fn on_row(self, row: Row) -> Ongoing
        ensures { ongoing_step result ≡ record { row = row; move = begun_move row self.source self.target } }
    {
        match self.source {
            None => begun_without_source(self.target, row),
            Some(source) => begun_with_source(source, self.target, row),
        }
    }
}

fn begun_without_source(target: MemberId, row: Row) -> Ongoing
    ensures { ongoing_step result ≡ record { row = row; move = begun_move row None target } }
{
    if row.is_eligible(target) {
        Ongoing::Ended(row)
    } else {
        Ongoing::Joining(Joining {
            source: None,
            target,
            row,
        })
    }
}

/// The move of a target that takes the place of a source, in a new row.
pub(crate) fn begun_with_source(source: MemberId, target: MemberId, row: Row) -> Ongoing
    ensures { ongoing_step result ≡ record { row = row; move = begun_move row (Some source) target } }
{
    if row.is_eligible(target) {
        Ongoing::Joined(Joined::begun(source, target, row))
    } else {
        Ongoing::Joining(Joining {
            source: Some(source),
            target,
            row,
        })
    }
}
