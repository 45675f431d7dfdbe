ghost use Rattle.std.specs.Prelude.{◌≡◌, false, IfOk, OnErr};
ghost use Rattle.grid_base.specs.Shelves.{meaning};
ghost use Rattle.partition_protocol.specs.Messages.{Message};
ghost use Rattle.member_wire.specs.Faults.{IsMessage};
ghost use Rattle.member_wire.specs.Spelling.{IsSpelled, spelling};
ghost use Rattle.member_wire.specs.declared.message.MemberMessage.{MemberMessage as MemberMessageOf};
ghost use Rattle.apart_protocol.specs.Contents.{Cargo};
ghost use Rattle.member_alone.specs.Brought.{Brings, FitsIn, IsSmallIn};
ghost use Rattle.member_alone.specs.Lives.{Life};
ghost use Rattle.member_alone.specs.Outcomes.{HasTakenIn, HasStopped, IsTook};
ghost use Rattle.member_alone.specs.Stands.{StandsForMember, is_stopped};

use crate::lone::LoneMember;
use crate::outcome::Taking;
use grid_base::{MemberId, Memory, Shelf};
use member_wire::read_member;
use replica_node::Taken;
use std::alloc::{AllocError, Global};
use wire_parts::WireRefused;

impl<S: Shelf> LoneMember<S> {
    /// Takes the bytes of a message from another end. Bytes that are no message stop the member. Want of memory changes
    /// nothing.
    ///
    /// Costs what the node makes of its kind of message.
    pub fn take(&mut self, alloc: Global, from: MemberId, bytes: &[u8]) -> Result<Taking, Memory>
        requires runs { is_stopped self.old ≡ false }
        requires small { IsSmallIn S.model self.old }
        requires fits { (message : MemberMessageOf) → IsSpelled message → bytes.now ≡ spelling message → FitsIn S.model self.old from message }
        ensures ok { (plan : S.Plan) (life : Life S.Call S.State) (message : Message) (cargo : Cargo S.Call S.State) → let k = meaning S.model plan in
            StandsForMember k self.old life → Brings k S.model.within S.model.within_limits self.old from bytes.now message cargo
            → IfOk result (HasTakenIn k life from message cargo self.new) }
        ensures read { IsMessage bytes.now → IfOk result IsTook }
        ensures none { (plan : S.Plan) (life : Life S.Call S.State) → let k = meaning S.model plan in
            StandsForMember k self.old life → (IsMessage bytes.now → ⊥) → IfOk result (HasStopped k life self.new) }
        ensures err { (plan : S.Plan) (life : Life S.Call S.State) → let k = meaning S.model plan in
            StandsForMember k self.old life → OnErr result (StandsForMember k self.new life) }
        ensures goes_on { OnErr result (is_stopped self.new ≡ false) }
    {
        self.outlet.reserve()?;
        let message = match read_member(alloc, bytes) {
            Ok(message) => message,
            Err(WireRefused::Memory) => return Err(AllocError),
            Err(_) => {
                self.stopped = true;
                return Ok(Taking::Stopped);
            }
        };
        let Taken { took, sent } = self.node.take(alloc, from, &message)?;
        self.outlet.put(sent);
        Ok(Taking::Took(took))
    }
}
