ghost use Rattle.std.specs.Prelude.{◌≡◌};
ghost use Rattle.partition_protocol.specs.Service.{join_refused, move_refused, handover_refused};
ghost use Rattle.table_service.specs.Refusals.{move_refusal};

use crate::service::Service;
use grid_base::MemberId;

/// Why a move, a join or a handover wasn't begun: the first reason that applies.
#[derive(Clone, Copy, Debug, PartialEq, Eq)]
pub enum MoveRefused {
    /// The row is lost.
    Lost,
    /// A move is under way.
    NotIdle,
    /// The source isn't in the row. Of a handover, it isn't primary, or the target isn't a backup.
    NotThere,
    /// The target is in the row.
    AlreadyThere,
    /// The target is detected, or is no member.
    NotLive,
    /// The target may not lead.
    NotEligible,
}

/// Why a partition wasn't reopened.
#[derive(Clone, Copy, Debug, PartialEq, Eq)]
pub enum ReopenRefused {
    /// The row isn't lost.
    NotLost,
    /// Every member is detected.
    NoMember,
}

impl Service {
    ghost use Rattle.table_service.specs.Services.{service_of, service_number};

    /// Whether the member can join the row.
    pub(crate) fn check_join(&self, to: MemberId) -> Result<(), MoveRefused>
        ensures { move_refusal result ≡ join_refused (service_number self.now) to (service_of self.now) }
    {
        if self.row().lost {
            Err(MoveRefused::Lost)
        } else if self.moving() {
            Err(MoveRefused::NotIdle)
        } else if self.row().contains(to) {
            Err(MoveRefused::AlreadyThere)
        } else if self.is_detected(to) || to >= self.members {
            Err(MoveRefused::NotLive)
        } else {
            Ok(())
        }
    }

    /// Whether a member can take another's place in the row.
    pub(crate) fn check_move(&self, from: MemberId, to: MemberId) -> Result<(), MoveRefused>
        ensures { move_refusal result ≡ move_refused (service_number self.now) from to (service_of self.now) }
    {
        if self.row().lost {
            Err(MoveRefused::Lost)
        } else if self.moving() {
            Err(MoveRefused::NotIdle)
        } else if !self.row().contains(from) {
            Err(MoveRefused::NotThere)
        } else {
            self.check_join(to)
        }
    }

    /// Whether a backup can take the primary's place at once.
    pub(crate) fn check_handover(&self, from: MemberId, to: MemberId) -> Result<(), MoveRefused>
        ensures { move_refusal result ≡ handover_refused from to (service_of self.now) }
    {
        let row = self.row();
        if row.lost {
            Err(MoveRefused::Lost)
        } else if self.moving() {
            Err(MoveRefused::NotIdle)
        } else if !(row.is_primary(from) && row.is_backup(to)) {
            Err(MoveRefused::NotThere)
        } else if !row.is_eligible(to) {
            Err(MoveRefused::NotEligible)
        } else {
            Ok(())
        }
    }
}
