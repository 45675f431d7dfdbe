ghost use Rattle.std.specs.Prelude.{◌≡◌, ℕ, ◌<◌, Some, None, IsTrue, IfOk, OnOk, OnErr};
ghost use Rattle.partition_protocol.specs.Service.{telling, join_refused, move_refused, handover_refused, beginning, handing_over, advance_of, Freezes, MakesRow};
ghost use Rattle.migration.specs.Steps.{has_source};
ghost use Rattle.table_service.specs.Refusals.{move_refusal};
ghost use Rattle.table_service.specs.Sending.{IsTold, IsRowTold};

use crate::phase::{NextStep, Phase};
use crate::refusals::MoveRefused;
use crate::service::Service;
use crate::telling::tell;
use crate::told::Told;
use grid_base::{MemberId, Memory};
use member_wire::{MemberMessage, Outbox};
use migration::Joining;
use partition_table::Row;
use std::alloc::Global;

/// What the next step of a move did.
#[derive(Clone, Copy, Debug, PartialEq, Eq)]
pub enum Advanced {
    /// No step was due.
    Nothing,
    /// The source, which is primary, was told to freeze.
    Freezing,
    /// The move ended in a row of that version.
    Row { version: u32 },
}

impl Service {
    ghost use Rattle.table_service.specs.Services.{service_of, setup_of, service_number};
    ghost use Rattle.table_service.specs.Steps.{advancing, advanced_by, told_on_advance};

    /// A member is to take another's place in the row: it comes in last, in a new row, of which the version is
    /// answered. Every member but the detected ones is told of the row. Goes over the row's members and over all
    /// members, at the cost of the row's bytes for each. A refusal changes nothing, nor does want of memory.
    pub fn begin_move(
        &mut self,
        alloc: Global,
        from: MemberId,
        to: MemberId,
    ) -> Result<Result<Told<u32>, MoveRefused>, Memory>
        requires { (service_of self.old).row.version < u32.MAX }
        ensures setup { setup_of self.new ≡ setup_of self.old }
        ensures refused { IfOk result (λ begun. move_refusal begun ≡ move_refused (service_number self.old) from to (service_of self.old)) }
        ensures service { IfOk result (λ begun. OnOk begun (service_of self.new ≡ beginning (Some from) to (service_of self.old))) }
        ensures made { IfOk result (λ begun. IfOk begun (IsRowTold (service_number self.old) (service_of self.new))) }
        ensures same { IfOk result (λ begun. OnErr begun (service_of self.new ≡ service_of self.old)) }
        ensures err { OnErr result (service_of self.new ≡ service_of self.old) }
    {
        if let Err(refused) = self.check_move(from, to) {
            return Ok(Err(refused));
        }
        Ok(Ok(self.begin(alloc, Some(from), to)?))
    }

    /// A member is to join the row, and nobody leaves it: it comes in last, in a new row, of which the version is
    /// answered. Costs and tells as `begin_move` does. A refusal changes nothing, nor does want of memory.
    pub fn begin_join(
        &mut self,
        alloc: Global,
        to: MemberId,
    ) -> Result<Result<Told<u32>, MoveRefused>, Memory>
        requires { (service_of self.old).row.version < u32.MAX }
        ensures setup { setup_of self.new ≡ setup_of self.old }
        ensures refused { IfOk result (λ begun. move_refusal begun ≡ join_refused (service_number self.old) to (service_of self.old)) }
        ensures service { IfOk result (λ begun. OnOk begun (service_of self.new ≡ beginning None to (service_of self.old))) }
        ensures made { IfOk result (λ begun. IfOk begun (IsRowTold (service_number self.old) (service_of self.new))) }
        ensures same { IfOk result (λ begun. OnErr begun (service_of self.new ≡ service_of self.old)) }
        ensures err { OnErr result (service_of self.new ≡ service_of self.old) }
    {
        if let Err(refused) = self.check_join(to) {
            return Ok(Err(refused));
        }
        Ok(Ok(self.begin(alloc, None, to)?))
    }

    /// A move begins: the target comes into the row, and has no contents yet.
    fn begin(
        &mut self,
        alloc: Global,
        source: Option<MemberId>,
        target: MemberId,
    ) -> Result<Told<u32>, Memory>
        requires version { (service_of self.old).row.version < u32.MAX }
        requires source { IsTrue (has_source (service_of self.old).row source) }
        ensures setup { setup_of self.new ≡ setup_of self.old }
        ensures service { OnOk result (service_of self.new ≡ beginning source target (service_of self.old)) }
        ensures made { IfOk result (IsRowTold (service_number self.old) (service_of self.new)) }
        ensures err { OnErr result (service_of self.new ≡ service_of self.old) }
    {
        let row = self.row().with_joiner(alloc, target)?;
        let out = tell(alloc, self.members, self.detected.as_slice(), &row)?;
        let outcome = row.version;
        self.phase = Phase::Joining(Joining::start(source, target, row));
        Ok(Told { outcome, out })
    }

    /// A backup that may lead is to take the primary's place. It has the contents, so no row is made, and nothing is
    /// sent. A refusal changes nothing. Goes over the row's members, and takes no memory.
    pub fn begin_handover(&mut self, from: MemberId, to: MemberId) -> Result<(), MoveRefused>
        ensures setup { setup_of self.new ≡ setup_of self.old }
        ensures refused { move_refusal result ≡ handover_refused from to (service_of self.old) }
        ensures service { OnOk result (service_of self.new ≡ handing_over from to (service_of self.old)) }
        ensures err { OnErr result (service_of self.new ≡ service_of self.old) }
    {
        self.check_handover(from, to)?;
        self.phase = self.take_phase().handing_over(from, to);
        Ok(())
    }

    /// The move under way takes its next step, if one is due: a source that is primary is told to freeze, and one that
    /// is drained, or is a backup, leaves in a new row, of which every member but the detected ones is told. Costs as
    /// `begin_move` does. Want of memory changes nothing.
    pub fn advance(&mut self, alloc: Global) -> Result<Told<Advanced>, Memory>
        requires { (service_of self.old).row.version < u32.MAX }
        ensures setup { setup_of self.new ≡ setup_of self.old }
        ensures advanced { IfOk result (λ step. step.outcome ≡ advanced_by (advance_of (service_of self.old))) }
        ensures service { let s = service_of self.old in
            OnOk result (service_of self.new ≡ advancing (advance_of s) s) }
        ensures told { let s = service_of self.old in
            IfOk result (λ step. IsTold step.out (told_on_advance (service_number self.old) (advance_of s) s)) }
        ensures err { OnErr result (service_of self.new ≡ service_of self.old) }
    {
        match self.phase.next_step(alloc)? {
            NextStep::Nothing => Ok(Told {
                outcome: Advanced::Nothing,
                out: Outbox::new(alloc),
            }),
            NextStep::Freezes { source, .. } => self.freeze(alloc, source),
            NextStep::MakesRow { row } => self.end_move(alloc, row),
        }
    }

    fn freeze(&mut self, alloc: Global, source: MemberId) -> Result<Told<Advanced>, Memory>
        requires { (target : ℕ) × (advance_of (service_of self.old) ≡ Freezes source target) }
        ensures setup { setup_of self.new ≡ setup_of self.old }
        ensures advanced { IfOk result (λ step. step.outcome ≡ advanced_by (advance_of (service_of self.old))) }
        ensures service { let s = service_of self.old in
            OnOk result (service_of self.new ≡ advancing (advance_of s) s) }
        ensures told { let s = service_of self.old in
            IfOk result (λ step. IsTold step.out (told_on_advance (service_number self.old) (advance_of s) s)) }
        ensures err { OnErr result (service_of self.new ≡ service_of self.old) }
    {
        let version = self.row().version;
        let mut out = Outbox::new(alloc);
        out.write(alloc, source, &MemberMessage::Freeze { version })?;
        self.phase = self.take_phase().freezing();
        Ok(Told {
            outcome: Advanced::Freezing,
            out,
        })
    }

    fn end_move(&mut self, alloc: Global, row: Row) -> Result<Told<Advanced>, Memory>
        requires { advance_of (service_of self.old) ≡ MakesRow row }
        ensures setup { setup_of self.new ≡ setup_of self.old }
        ensures advanced { IfOk result (λ step. step.outcome ≡ advanced_by (advance_of (service_of self.old))) }
        ensures service { let s = service_of self.old in
            OnOk result (service_of self.new ≡ advancing (advance_of s) s) }
        ensures told { let s = service_of self.old in
            IfOk result (λ step. IsTold step.out (told_on_advance (service_number self.old) (advance_of s) s)) }
        ensures err { OnErr result (service_of self.new ≡ service_of self.old) }
    {
        let out = tell(alloc, self.members, self.detected.as_slice(), &row)?;
        let version = row.version;
        self.phase = self.take_phase().ended(row);
        Ok(Told {
            outcome: Advanced::Row { version },
            out,
        })
    }
}
