ghost use Rattle.std.specs.Prelude.{◌≡◌, ◌<◌, None, false, IfOk, IfErr, is_ok};
ghost use Rattle.partition_table.specs.Rows.{is_primary, without};
ghost use Rattle.partition_protocol.specs.Service.{advance_by, Freezes, MakesRow, handover_refused, handing_over, Joined as JoinedMove};
ghost use Rattle.migration.specs.Steps.{dropping, ended_step, joined_step, service_at, step_of};
ghost use Rattle.migration.specs.Outcomes.{is_primary_refused, joined_back};

use crate::ended::Committed;
use crate::freezing::Freezing;
use crate::replacing::{Replacing, Underway};
use grid_base::{MemberId, Memory};
use partition_table::Row;
use std::alloc::Global;
use thiserror::Error;

/// The step of [`Joined`].
#[derive(Debug, Drop)]
pub struct JoinedStep;

impl Underway for JoinedStep {}

/// The target has the contents, and may lead. The source is to leave.
pub type Joined = Replacing<JoinedStep>;

/// Why a source wasn't dropped. Each refusal hands the state back.
#[derive(Debug, Drop, Error)]
pub enum JoinedRefused {
    #[error("a primary has to be frozen and drained before it leaves")]
    IsPrimary(Joined),
    #[error("there is no memory for the next row")]
    Memory(Joined),
}

impl Joined {
    /// Begins a handover from the primary to an eligible backup, which has the contents already: it makes no row.
    pub fn start_handover(from: MemberId, to: MemberId, row: Row) -> Joined
        requires { handover_refused from to (service_at (ended_step row)) ≡ None }
        ensures state { result ≡ record { source = from; target = to; row = row } }
        ensures step { joined_step result ≡ step_of (handing_over from to (service_at (ended_step row))) }
    {
        Joined::begun(from, to, row)
    }

    /// The source is told to freeze, if it is primary. Any other leaves the row without.
    pub fn freeze(self) -> Result<Freezing, Joined>
        ensures exact { is_ok result ≡ is_primary self.row self.source }
        ensures ok { IfOk result (λ freezing. freezing ≡ self) }
        ensures step { let step = advance_by self.row (JoinedMove self.source self.target) in
            IfOk result (λ freezing. step ≡ Freezes freezing.source freezing.target) }
        ensures err { IfErr result (λ joined. joined ≡ self) }
    {
        if self.row().is_primary(self.source()) {
            Ok(self.at_step())
        } else {
            Err(self)
        }
    }

    /// The source, a backup, leaves the row at once. Goes over the members twice.
    pub fn drop_source(self, alloc: Global) -> Result<Committed, JoinedRefused>
        requires { self.row.version < u32.MAX }
        ensures ok { IfOk result (λ committed. committed ≡ dropping self) }
        ensures step { let step = advance_by self.row (JoinedMove self.source self.target) in
            IfOk result (λ committed. step ≡ MakesRow committed.row) }
        ensures primary { is_primary_refused result ≡ is_primary self.row self.source }
        ensures err { IfErr result (λ refused. joined_back refused ≡ self) }
    {
        if self.row().is_primary(self.source()) {
            return Err(JoinedRefused::IsPrimary(self));
        }
        match self.row().without(alloc, self.source()) {
            Err(_) => Err(JoinedRefused::Memory(self)),
            Ok(row) => Ok(self.dropped(row)),
        }
    }

    /// The source, a backup, has left in this row, which was made before. Takes no memory.
    pub fn dropped(self, row: Row) -> Committed
        requires backup { is_primary self.row self.source ≡ false }
        requires row { row ≡ without self.row self.source }
        ensures { result ≡ dropping self }
    {
        Committed::begun(self.source(), self.target(), row)
    }
}
