ghost use Rattle.std.specs.Prelude.{◌≡◌, false, IfOk, OnErr};
ghost use Rattle.grid_base.specs.Shelves.{meaning};
ghost use Rattle.apart_protocol.specs.Member.{Resends};
ghost use Rattle.member_alone.specs.Brought.{IsSmallIn};
ghost use Rattle.member_alone.specs.Lives.{Life};
ghost use Rattle.member_alone.specs.Stands.{StandsForMember, HasStepped, is_stopped};

use crate::lone::LoneMember;
use grid_base::{Memory, Shelf};
use std::alloc::Global;

impl<S: Shelf> LoneMember<S> {
    /// Puts out again what may have been lost, where it is primary. Want of memory changes nothing. Costs a snapshot of the
    /// contents at most, and what it writes.
    pub fn resend(&mut self, alloc: Global) -> Result<(), Memory>
        requires runs { is_stopped self.old ≡ false }
        requires small { IsSmallIn S.model self.old }
        ensures ok { (plan : S.Plan) (life : Life S.Call S.State) → let k = meaning S.model plan in
            StandsForMember k self.old life → IfOk result (λ _. HasStepped k life Resends self.new) }
        ensures err { (plan : S.Plan) (life : Life S.Call S.State) → let k = meaning S.model plan in
            StandsForMember k self.old life → OnErr result (StandsForMember k self.new life) }
        ensures goes_on { is_stopped self.new ≡ false }
    {
        self.outlet.reserve()?;
        match self.node.resend(alloc)? {
            Some(again) => self.outlet.put(again),
            None => {}
        }
        Ok(())
    }
}
