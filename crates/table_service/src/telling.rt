ghost use Rattle.std.specs.Prelude.{List, [], ◌∷◌, ◌++◌, IfOk};
ghost use Rattle.partition_protocol.specs.Messages.{Sent, Freeze};
ghost use Rattle.partition_protocol.specs.Service.{telling, freezing_again};
ghost use Rattle.table_service.specs.Sending.{IsTold, row_told};

use crate::phase::Phase;
use crate::service::{Service, is_listed};
use grid_base::{MemberId, Memory};
use member_wire::{MemberMessage, Outbox};
use partition_table::Row;
use std::alloc::Global;

/// What tells a row to each member but the detected ones, in the order of their numbers.
pub(crate) fn tell(
    alloc: Global,
    members: u8,
    detected: &[MemberId],
    row: &Row,
) -> Result<Outbox, Memory>
    ensures { IfOk result (λ out. IsTold out (row_told members row.now detected.now)) }
{
    let mut out = Outbox::new(alloc);
    for member in 0..members {
        if !is_listed(detected, member) {
            out.write_row(alloc, member, row)?;
        }
    }
    Ok(out)
}

/// These messages, and then a freeze.
fn tell_freeze(
    alloc: Global,
    mut out: Outbox,
    source: MemberId,
    version: u32,
) -> Result<Outbox, Memory>
    ensures { (sent : List Sent) → IsTold out sent → IfOk result (λ out. IsTold out (sent ++ record { to = source; message = Freeze version } ∷ [])) }
{
    out.write(alloc, source, &MemberMessage::Freeze { version })?;
    Ok(out)
}

impl Service {
    ghost use Rattle.table_service.specs.Services.{service_of, service_number};

    /// What may have been lost is sent again: the newest row to every member but the detected ones, and a freeze to a
    /// source that was told to freeze and hasn't said that it is frozen. Goes over the detected members for each
    /// member, and pays the row's bytes for each that is told.
    pub fn resend(&self, alloc: Global) -> Result<Outbox, Memory>
        ensures { let s = service_of self.now in
            IfOk result (λ out. IsTold out (telling (service_number self.now) s ++ freezing_again s)) }
    {
        let out = tell(alloc, self.members, self.detected.as_slice(), self.row())?;
        match &self.phase {
            Phase::Freezing(freezing) => {
                tell_freeze(alloc, out, freezing.source(), freezing.row().version)
            }
            _ => Ok(out),
        }
    }
}
