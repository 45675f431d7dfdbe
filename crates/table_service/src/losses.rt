ghost use Rattle.std.specs.Prelude.{◌≡◌, ◌<◌, ◌∷◌, true, IsTrue, IfOk, OnOk, OnErr};
ghost use Rattle.partition_table.specs.Rows.{is_in};
ghost use Rattle.partition_protocol.specs.Service.{telling, detecting};
ghost use Rattle.table_service.specs.Sending.{IsTold, IsRowTold};

use crate::service::Service;
use crate::telling::tell;
use crate::told::Told;
use grid_base::{MemberId, Memory};
use member_wire::Outbox;
use std::alloc::Global;

impl Service {
    ghost use Rattle.table_service.specs.Services.{service_of, setup_of, service_number};
    ghost use Rattle.table_service.specs.Steps.{version_on_loss, told_on_loss};

    /// The service is told that a member has crashed. Where the member is in the row, a new row is without it: the
    /// first of the others that may lead does, the row is lost if none may, and the move under way begins again in it,
    /// or ends if the member was a part of it. The new row's version is answered, and every member but the detected
    /// ones is told of the row. Goes over the detected members for each member, and pays the row's bytes for each that
    /// is told. Want of memory changes nothing.
    pub fn detect(&mut self, alloc: Global, member: MemberId) -> Result<Told<Option<u32>>, Memory>
        requires { (service_of self.old).row.version < u32.MAX }
        ensures setup { setup_of self.new ≡ setup_of self.old }
        ensures service { OnOk result (service_of self.new ≡ detecting member (service_of self.old)) }
        ensures version { IfOk result (λ made. made.outcome ≡ version_on_loss member (service_of self.old)) }
        ensures told { IfOk result (λ made. IsTold made.out (told_on_loss (service_number self.old) member (service_of self.old))) }
        ensures err { OnErr result (service_of self.new ≡ service_of self.old) }
    {
        let detected = preceded(alloc, member, self.detected.as_slice())?;
        if !self.row().contains(member) {
            self.detected = detected;
            return Ok(Told {
                outcome: None,
                out: Outbox::new(alloc),
            });
        }
        let Told { outcome, out } = self.lose(alloc, member, detected)?;
        Ok(Told {
            outcome: Some(outcome),
            out,
        })
    }

    /// A member of the row has crashed, which makes these the detected members.
    fn lose(
        &mut self,
        alloc: Global,
        member: MemberId,
        detected: Vec<MemberId>,
    ) -> Result<Told<u32>, Memory>
        requires version { (service_of self.old).row.version < u32.MAX }
        requires member { is_in (service_of self.old).row member ≡ true }
        requires detected { detected.items ≡ member ∷ (service_of self.old).detected }
        ensures setup { setup_of self.new ≡ setup_of self.old }
        ensures service { OnOk result (service_of self.new ≡ detecting member (service_of self.old)) }
        ensures made { IfOk result (IsRowTold (service_number self.old) (service_of self.new)) }
        ensures err { OnErr result (service_of self.new ≡ service_of self.old) }
    {
        let row = self.row().without(alloc, member)?;
        let out = tell(alloc, self.members, detected.as_slice(), &row)?;
        let version = row.version;
        self.detected = detected;
        self.phase = self.take_phase().after_loss(member, row);
        Ok(Told {
            outcome: version,
            out,
        })
    }
}

/// A member, and then these.
fn preceded(alloc: Global, member: MemberId, members: &[MemberId]) -> Result<Vec<MemberId>, Memory>
    ensures { IfOk result (λ all. all.items ≡ member ∷ members.now) }
{
    let mut all = Vec::with_capacity(alloc, members.len() + 1)?;
    all.push(member)?;
    all.extend_from_slice(members)?;
    Ok(all)
}
