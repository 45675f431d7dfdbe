ghost use Rattle.std.specs.Prelude.{◌≡◌, ◌↔◌, ◌+◌, ℕ, is_some, true, false, IsTrue, IfOk, OnErr};
ghost use Rattle.grid_base.specs.Objects.{IsSmall};
ghost use Rattle.grid_base.specs.Shelves.{meaning};
ghost use Rattle.partition_protocol.specs.Messages.{Message};
ghost use Rattle.member_wire.specs.Spelling.{IsSpelled, spelling};
ghost use Rattle.member_wire.specs.declared.message.MemberMessage.{MemberMessage as MemberMessageOf};
ghost use Rattle.replica_node.specs.Nodes.{node_of};
ghost use Rattle.apart_protocol.specs.Contents.{Cargo};
ghost use Rattle.apart_protocol.specs.Member.{Receives, Resends};
ghost use Rattle.member_alone.specs.Brought.{Brings, FitsIn, LooksFitIn, IsSmallIn};
ghost use Rattle.member_alone.specs.Lives.{Life};
ghost use Rattle.member_alone.specs.Outcomes.{HasCalled, HasTakenOrStopped, IsTook};
ghost use Rattle.member_alone.specs.Stands.{StandsForMember, HasStepped, is_stopped};

use crate::lone::LoneMember;
use crate::outcome::{CallOutcome, Taking};
use grid_base::{Bytes, CallId, Executes, MemberId, Memory, Moment, Shelf};
use member_wire::{MemberMessage, read_member};
use std::alloc::{AllocError, Global};
use wire_parts::WireRefused;

/// A shelf that can tell what it may be asked: a process that has no more than its own value calls by these tests.
pub trait Guards: Shelf {
    /// Whether the effect fits the state.
    fn fits(&self, effect: &Bytes) -> bool
        ensures { result ≡ is_some (Self.model.applied effect.now (Self.model.state self.now)) };

    /// Whether the bytes stand for a small state.
    fn is_snapshot(bytes: &Bytes) -> bool
        ensures { IsTrue result ↔ ((s : Self.State) × IsSmall Self.model.within s × (Self.model.snapshot_of s ≡ bytes.now)) };

    /// Whether the state is small.
    fn is_small(&self) -> bool
        ensures { IsTrue result ↔ IsSmall Self.model.within (Self.model.state self.now) };
}

impl<S: Guards> LoneMember<S> {
    /// Whether its contents are a small state.
    fn is_small(&self) -> bool
        ensures { IsTrue result ↔ IsSmallIn S.model self.now }
    {
        self.node.contents().shelf.is_small()
    }

    /// Whether an effect of that number in a version is the next one for the contents.
    fn is_next(&self, version: u32, number: u32) -> bool
        ensures { let pair = (node_of self.now.node).pair in IsTrue result ↔ ((pair.version ≡ version) × (number ≡ pair.count + 1)) }
    {
        let pair = self.node.contents().pair;
        pair.version == version && number > 0 && number - 1 == pair.count
    }

    /// Whether the bytes in a message may be taken.
    #[tactic(auto, using(crate::proofs::Next::applied_next))]
    fn may_take(&self, message: &MemberMessage) -> bool
        ensures fits { (from : ℕ) → IsTrue result → FitsIn S.model self.now from message.now }
        ensures looks { LooksFitIn S.model self.now message.now → IsTrue result }
    {
        match message {
            MemberMessage::Effect {
                version,
                number,
                effect,
            } => { !self.is_next(*version, *number) || self.node.contents().shelf.fits(effect) }
            MemberMessage::Sync { snapshot, .. } => S::is_snapshot(snapshot),
            _ => true,
        }
    }

    /// Takes whatever bytes come from another end, by tests of its own: bytes that are no message, or one that does not fit
    /// the state, stop the member, and so do contents that are not small. Want of memory changes nothing.
    pub fn take_any(
        &mut self,
        alloc: Global,
        from: MemberId,
        bytes: &[u8],
    ) -> Result<Taking, Memory>
        requires { is_stopped self.old ≡ false }
        ensures ok { (plan : S.Plan) (life : Life S.Call S.State) (message : Message) (cargo : Cargo S.Call S.State) → let k = meaning S.model plan in
            StandsForMember k self.old life → Brings k S.model.within S.model.within_limits self.old from bytes.now message cargo
            → IfOk result (HasTakenOrStopped k life from message cargo self.new) }
        // Where a message looks fit, the member takes it.
        ensures only { (message : MemberMessageOf) → IsSpelled message → bytes.now ≡ spelling message →
            IsSmallIn S.model self.old → LooksFitIn S.model self.old message → IfOk result IsTook }
        ensures err { (plan : S.Plan) (life : Life S.Call S.State) → let k = meaning S.model plan in
            StandsForMember k self.old life → OnErr result (StandsForMember k self.new life) }
        ensures goes_on { OnErr result (is_stopped self.new ≡ false) }
    {
        let message = match read_member(alloc, bytes) {
            Ok(message) => message,
            Err(WireRefused::Memory) => return Err(AllocError),
            Err(_) => return Ok(self.halted()),
        };
        if !self.is_small() || !self.may_take(&message) {
            return Ok(self.halted());
        }
        self.take(alloc, from, bytes)
    }

    /// A client's call reaches the member at a moment, as `call` has it, by tests of its own: contents that are not small, and
    /// a count after which no number comes, are answered as want of memory, which changes nothing.
    pub fn call_any<N>(
        &mut self,
        alloc: Global,
        env: &N,
        id: CallId,
        call: &S::Call,
        now: Moment,
    ) -> Result<CallOutcome, Memory>
    where
        S: Executes<N>,
        requires runs { is_stopped self.old ≡ false }
        requires limits { S.model.within_limits call.now }
        ensures ok { (life : Life S.Call S.State) → let k = meaning S.model (S.plan_of env.now) in
            StandsForMember k self.old life → IfOk result (HasCalled k life (Receives id.conn id.number call.now now) self.new) }
        ensures err { (life : Life S.Call S.State) → let k = meaning S.model (S.plan_of env.now) in
            StandsForMember k self.old life → OnErr result (StandsForMember k self.new life) }
        ensures goes_on { is_stopped self.new ≡ false }
    {
        if !self.is_small() || self.node.contents().pair.count == u32::MAX {
            return Err(AllocError);
        }
        self.call(alloc, env, id, call, now)
    }

    /// Puts out again what may have been lost, as `resend` has it, by a test of its own: contents that are not small are
    /// answered as want of memory, which changes nothing.
    pub fn resend_any(&mut self, alloc: Global) -> Result<(), Memory>
        requires { is_stopped self.old ≡ false }
        ensures ok { (plan : S.Plan) (life : Life S.Call S.State) → let k = meaning S.model plan in
            StandsForMember k self.old life → IfOk result (λ _. HasStepped k life Resends self.new) }
        ensures err { (plan : S.Plan) (life : Life S.Call S.State) → let k = meaning S.model plan in
            StandsForMember k self.old life → OnErr result (StandsForMember k self.new life) }
        ensures goes_on { is_stopped self.new ≡ false }
    {
        if !self.is_small() {
            return Err(AllocError);
        }
        self.resend(alloc)
    }

    /// It makes no step any more.
    fn halted(&mut self) -> Taking
        ensures result { result ≡ Taking.Stopped }
        ensures stopped { is_stopped self.new ≡ true }
        ensures stands { (plan : S.Plan) (life : Life S.Call S.State) → let k = meaning S.model plan in
            StandsForMember k self.old life → StandsForMember k self.new life }
    {
        self.stopped = true;
        Taking::Stopped
    }
}
