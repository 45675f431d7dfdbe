ghost use Rattle.std.specs.Prelude.{◌≡◌, [], not, IfOk};
ghost use Rattle.partition_table.specs.Rows.{initial_row, is_among};
ghost use Rattle.partition_protocol.specs.Service.{NoMove, is_idle};

use crate::phase::Phase;
use grid_base::{MemberId, Memory, PartitionId};
use partition_table::Row;
use std::alloc::Global;
use std::mem;

/// The table service's part of one partition.
#[derive(Debug, Drop)]
pub struct Service {
    pub(crate) partition: PartitionId,
    pub(crate) members: u8,
    pub(crate) backups: u8,
    pub(crate) phase: Phase,
    /// Whose crash the service was told of, the last first.
    pub(crate) detected: Vec<MemberId>,
}

impl Service {
    ghost use Rattle.table_service.specs.Services.{service_of, setup_of};

    /// A partition of a grid of so many members, in its opening row, with nobody detected. A reopened row gets up to
    /// `backups` backups. Costs as many steps as members.
    pub fn new(
        alloc: Global,
        partition: PartitionId,
        members: u8,
        backups: u8,
    ) -> Result<Service, Memory>
        ensures service { let row = initial_row partition members backups in
            IfOk result (λ service. service_of service ≡ record { row = row; move = NoMove; detected = [] }) }
        ensures setup { IfOk result (λ service. setup_of service ≡ record { partition = partition; members = members; backups = backups }) }
    {
        Ok(Service {
            partition,
            members,
            backups,
            phase: Phase::Idle(Row::initial(alloc, partition, members, backups)?),
            detected: Vec::new(alloc),
        })
    }

    /// The newest row.
    pub fn row(&self) -> &Row
        ensures { result.now ≡ (service_of self.now).row }
    {
        self.phase.row()
    }

    /// Whether a move is under way.
    pub fn moving(&self) -> bool
        ensures { result ≡ not (is_idle (service_of self.now).move) }
    {
        !self.phase.is_idle()
    }

    /// Whether the service was told that the member has crashed, in one pass over those that have.
    pub fn is_detected(&self, member: MemberId) -> bool
        ensures { result ≡ is_among (service_of self.now).detected member }
    {
        is_listed(self.detected.as_slice(), member)
    }

    /// Takes the phase out, for the caller to put another in its place. Takes no memory.
    pub(crate) fn take_phase(&mut self) -> Phase
        ensures phase { result ≡ self.old.phase }
        ensures rest { self.new ≡ record self.old { phase = self.new.phase } }
    {
        let nothing = Phase::nothing(*self.detected.allocator());
        mem::replace(&mut self.phase, nothing)
    }
}

/// Whether the member is one of these, in one pass.
pub(crate) fn is_listed(members: &[MemberId], member: MemberId) -> bool
    ensures { result ≡ is_among members.now member }
{
    members.contains(&member)
}
