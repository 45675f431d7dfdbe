ghost use Rattle.std.specs.Prelude.{◌≡◌, List, IfOk, OnErr};
ghost use Rattle.partition_protocol.specs.Events.{Event as ProtocolEvent, Lose, Repeat, Resend};
ghost use Rattle.grid_base.specs.Shelves.{meaning};
ghost use Rattle.partition_world.specs.Worlds.{Comes, HasRun, IsKept, KeepsSetup};

use crate::event::Happened;
use crate::records::Records;
use crate::world::World;
use grid_base::{Memory, Shelf};
use member_wire::Outbox;
use std::alloc::Global;

/// A member sends another one at most so many messages at one event: 64 recent effects and a bridge.
pub(crate) const MOST_SENT: usize = 65;

/// And the table service at most so many: a row and a freeze.
pub(crate) const MOST_TOLD: usize = 2;

impl<S: Shelf, R: Records<S::Call>> World<S, R> {
    /// The message at that place of a link is lost. Takes no memory.
    pub(crate) fn lose(&mut self, from: u8, to: u8, place: usize) -> Happened
        requires { (plan : S.Plan) × (events : List (ProtocolEvent S.Call)) × Comes (meaning S.model plan) R.records S.model.within_limits self.old events (Lose from to place) }
        ensures ok { (plan : S.Plan) (events : List (ProtocolEvent S.Call)) → let k = meaning S.model plan in
            Comes k R.records S.model.within_limits self.old events (Lose from to place) → HasRun k R.records self.old self.new events (Lose from to place) result }
        ensures keeps { KeepsSetup self.old self.new }
    {
        if self.links.lose(from, to, place) {
            Happened::Done
        } else {
            Happened::Nothing
        }
    }

    /// The message at that place of a link is in flight once more.
    pub(crate) fn repeat(
        &mut self,
        alloc: Global,
        from: u8,
        to: u8,
        place: usize,
    ) -> Result<Happened, Memory>
        requires { (plan : S.Plan) × (events : List (ProtocolEvent S.Call)) × Comes (meaning S.model plan) R.records S.model.within_limits self.old events (Repeat from to place) }
        ensures ok { (plan : S.Plan) (events : List (ProtocolEvent S.Call)) → let k = meaning S.model plan in
            Comes k R.records S.model.within_limits self.old events (Repeat from to place) → IfOk result (HasRun k R.records self.old self.new events (Repeat from to place)) }
        ensures err { (plan : S.Plan) (events : List (ProtocolEvent S.Call)) → let k = meaning S.model plan in
            Comes k R.records S.model.within_limits self.old events (Repeat from to place) → OnErr result (IsKept k R.records self.old self.new events) }
        ensures keeps { KeepsSetup self.old self.new }
    {
        if self.links.repeat(alloc, from, to, place)? {
            Ok(Happened::Done)
        } else {
            Ok(Happened::Nothing)
        }
    }

    /// The table service sends its row and a freeze again, or a primary what may have been lost.
    pub(crate) fn resend(&mut self, alloc: Global, end: u8) -> Result<Happened, Memory>
        requires { (plan : S.Plan) × (events : List (ProtocolEvent S.Call)) × Comes (meaning S.model plan) R.records S.model.within_limits self.old events (Resend end) }
        ensures ok { (plan : S.Plan) (events : List (ProtocolEvent S.Call)) → let k = meaning S.model plan in
            Comes k R.records S.model.within_limits self.old events (Resend end) → IfOk result (HasRun k R.records self.old self.new events (Resend end)) }
        ensures err { (plan : S.Plan) (events : List (ProtocolEvent S.Call)) → let k = meaning S.model plan in
            Comes k R.records S.model.within_limits self.old events (Resend end) → OnErr result (IsKept k R.records self.old self.new events) }
        ensures keeps { KeepsSetup self.old self.new }
    {
        if end == self.members {
            return self.resend_service(alloc);
        }
        if !self.is_live(end) {
            return Ok(Happened::Nothing);
        }
        self.links.reserve(end, MOST_SENT)?;
        match self.nodes[usize::from(end)].resend(alloc)? {
            None => Ok(Happened::Nothing),
            Some(out) => {
                self.links.send_all(end, out.into_vec());
                Ok(Happened::Done)
            }
        }
    }

    fn resend_service(&mut self, alloc: Global) -> Result<Happened, Memory>
        requires { (plan : S.Plan) × (events : List (ProtocolEvent S.Call)) × Comes (meaning S.model plan) R.records S.model.within_limits self.old events (Resend self.old.members) }
        ensures ok { (plan : S.Plan) (events : List (ProtocolEvent S.Call)) → let k = meaning S.model plan in
            Comes k R.records S.model.within_limits self.old events (Resend self.old.members) → IfOk result (HasRun k R.records self.old self.new events (Resend self.old.members)) }
        ensures err { (plan : S.Plan) (events : List (ProtocolEvent S.Call)) → let k = meaning S.model plan in
            Comes k R.records S.model.within_limits self.old events (Resend self.old.members) → OnErr result (IsKept k R.records self.old self.new events) }
        ensures keeps { KeepsSetup self.old self.new }
    {
        self.links.reserve(self.members, MOST_TOLD)?;
        let out = self.service.resend(alloc)?;
        self.links.send_all(self.members, out.into_vec());
        Ok(Happened::Done)
    }
}
