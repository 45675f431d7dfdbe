ghost use Rattle.std.specs.Prelude.{◌≡◌, ◌+◌, ◌%◌, ◌<◌, false, IfOk, OnOk, OnErr};
ghost use Rattle.partition_table.specs.Rows.{is_empty, reopened};
ghost use Rattle.partition_protocol.specs.Service.{NoMove, telling, candidates, reopen_refused, reopening, with_row};
ghost use Rattle.table_service.specs.Refusals.{reopen_refusal};
ghost use Rattle.table_service.specs.Sending.{IsRowTold};

use crate::phase::Phase;
use crate::refusals::ReopenRefused;
use crate::service::{Service, is_listed};
use crate::telling::tell;
use crate::told::Told;
use grid_base::{MemberId, Memory, PartitionId};
use std::alloc::Global;

impl Service {
    ghost use Rattle.table_service.specs.Services.{service_of, setup_of, service_number};

    /// The loss of a lost partition is accepted, and it goes on empty: from the member whose number is the partition's
    /// modulo the members' number on, the first that isn't detected leads, and the next ones are its backups, which may
    /// not lead yet. The new row's version is answered, and every member but the detected ones is told of the row. Goes
    /// over the detected members for each member, and pays the row's bytes for each that is told. A refusal changes
    /// nothing, nor does want of memory.
    pub fn reopen(&mut self, alloc: Global) -> Result<Result<Told<u32>, ReopenRefused>, Memory>
        requires { (service_of self.old).row.version < u32.MAX }
        ensures setup { setup_of self.new ≡ setup_of self.old }
        ensures refused { let setup = setup_of self.old in
            IfOk result (λ reopened. reopen_refusal reopened ≡ reopen_refused setup.partition setup.members (service_of self.old)) }
        ensures service { let setup = setup_of self.old in
            IfOk result (λ reopened. OnOk reopened (service_of self.new ≡ reopening setup.partition setup.members setup.backups (service_of self.old))) }
        ensures made { IfOk result (λ reopened. IfOk reopened (IsRowTold (service_number self.old) (service_of self.new))) }
        ensures same { IfOk result (λ reopened. OnErr reopened (service_of self.new ≡ service_of self.old)) }
        ensures err { OnErr result (service_of self.new ≡ service_of self.old) }
    {
        if !self.row().lost {
            return Ok(Err(ReopenRefused::NotLost));
        }
        let mut members = undetected_from(
            alloc,
            self.partition,
            self.members,
            self.detected.as_slice(),
        )?;
        if members.is_empty() {
            return Ok(Err(ReopenRefused::NoMember));
        }
        members.truncate(usize::from(self.backups) + 1);
        Ok(Ok(self.reopen_with(alloc, members.as_slice())?))
    }

    /// The partition goes on empty in a row of these members.
    fn reopen_with(&mut self, alloc: Global, members: &[MemberId]) -> Result<Told<u32>, Memory>
        requires { (service_of self.old).row.version < u32.MAX }
        ensures setup { setup_of self.new ≡ setup_of self.old }
        ensures service { let s = service_of self.old in
            OnOk result (service_of self.new ≡ with_row s (reopened s.row members.now) NoMove) }
        ensures made { IfOk result (IsRowTold (service_number self.old) (service_of self.new)) }
        ensures err { OnErr result (service_of self.new ≡ service_of self.old) }
    {
        let row = self.row().reopened(alloc, members)?;
        let out = tell(alloc, self.members, self.detected.as_slice(), &row)?;
        let outcome = row.version;
        self.phase = Phase::Idle(row);
        Ok(Told { outcome, out })
    }
}

/// Of so many members those that aren't detected, from the partition's own on. It can fail only where there is one.
fn undetected_from(
    alloc: Global,
    partition: PartitionId,
    members: u8,
    detected: &[MemberId],
) -> Result<Vec<MemberId>, Memory>
    ensures ok { IfOk result (λ found. found.items ≡ candidates partition members detected.now) }
    ensures err { OnErr result (is_empty (candidates partition members detected.now) ≡ false) }
{
    let mut found = Vec::new(alloc);
    for k in 0..members {
        let member = member_from(partition, members, k);
        if !is_listed(detected, member) {
            found.push(member)?;
        }
    }
    Ok(found)
}

/// Of so many members the one so many places after the partition's own.
fn member_from(partition: PartitionId, members: u8, place: u8) -> MemberId
    requires { 0 < members }
    ensures { result ≡ (partition + place) % members }
{
    ((u32::from(partition) + u32::from(place)) % u32::from(members)) as MemberId
}
