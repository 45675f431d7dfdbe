ghost use Rattle.std.specs.Prelude.{◌≡◌, ℕ, ◌≤◌, ◌&&◌, not, nat_lt, List, length, if◌then◌else◌, IfOk, OnErr};
ghost use Rattle.partition_table.specs.Rows.{is_among};
ghost use Rattle.partition_protocol.specs.Recorded.{Recorded};
ghost use Rattle.partition_protocol.specs.Events.{Event as ProtocolEvent, Crash, Detect};
ghost use Rattle.link_net.specs.Links.{HasLists, list_of, spare_of, sent_to, with_sent};
ghost use Rattle.table_service.specs.Services.{service_of};
ghost use Rattle.grid_base.specs.Shelves.{meaning};
ghost use Rattle.partition_world.specs.Worlds.{Comes, HasRun, IsKept, KeepsSetup};

use crate::event::Happened;
use crate::in_flight::MOST_TOLD;
use crate::records::Records;
use crate::world::World;
use grid_base::{MemberId, Memory, Shelf};
use member_wire::Outbox;
use std::alloc::Global;

impl<S: Shelf, R: Records<S::Call>> World<S, R> {
    /// A member takes no further step.
    pub(crate) fn crash(&mut self, member: MemberId) -> Result<Happened, Memory>
        requires { (plan : S.Plan) × (events : List (ProtocolEvent S.Call)) × Comes (meaning S.model plan) R.records S.model.within_limits self.old events (Crash member) }
        ensures ok { (plan : S.Plan) (events : List (ProtocolEvent S.Call)) → let k = meaning S.model plan in
            Comes k R.records S.model.within_limits self.old events (Crash member) → IfOk result (HasRun k R.records self.old self.new events (Crash member)) }
        ensures err { (plan : S.Plan) (events : List (ProtocolEvent S.Call)) → let k = meaning S.model plan in
            Comes k R.records S.model.within_limits self.old events (Crash member) → OnErr result (IsKept k R.records self.old self.new events) }
        ensures keeps { KeepsSetup self.old self.new }
    {
        if !self.is_live(member) {
            return Ok(Happened::Nothing);
        }
        self.crashed.insert(0, member)?;
        Ok(Happened::Done)
    }

    /// The table service is told that a member has crashed, if it has and the service wasn't told.
    pub(crate) fn detect(&mut self, alloc: Global, member: MemberId) -> Result<Happened, Memory>
        requires { (plan : S.Plan) × (events : List (ProtocolEvent S.Call)) × Comes (meaning S.model plan) R.records S.model.within_limits self.old events (Detect member) }
        ensures ok { (plan : S.Plan) (events : List (ProtocolEvent S.Call)) → let k = meaning S.model plan in
            Comes k R.records S.model.within_limits self.old events (Detect member) → IfOk result (HasRun k R.records self.old self.new events (Detect member)) }
        ensures err { (plan : S.Plan) (events : List (ProtocolEvent S.Call)) → let k = meaning S.model plan in
            Comes k R.records S.model.within_limits self.old events (Detect member) → OnErr result (IsKept k R.records self.old self.new events) }
        ensures keeps { KeepsSetup self.old self.new }
    {
        if !self.is_unnoticed(member) {
            return Ok(Happened::Nothing);
        }
        self.links.reserve(self.members, MOST_TOLD)?;
        let made = self.service.detect(alloc, member)?;
        self.stand(made.out);
        match made.outcome {
            Some(version) => Ok(Happened::RowMade { version }),
            None => Ok(Happened::Done),
        }
    }

    /// Whether a member has crashed and the table service wasn't told.
    fn is_unnoticed(&self, member: MemberId) -> bool
        ensures { result ≡ (nat_lt member self.now.members && is_among self.now.crashed.items member && not (is_among (service_of self.now.service).detected member)) }
    {
        member < self.members && self.crashed.contains(&member) && !self.service.is_detected(member)
    }

    /// The partition stands by the service's row, and what the service wrote is sent. Takes no memory.
    pub(crate) fn stand(&mut self, out: Outbox)
        requires { (to : ℕ) → length (sent_to to out) ≤ spare_of self.old.links self.old.members to }
        ensures recorder { (r : Recorded S.Call) → R.records self.old.recorder r → let row = (service_of self.old.service).row in
            R.records self.new.recorder (record r { standing = if row.lost then r.standing else row }) }
        ensures links { HasLists self.new.links (with_sent self.old.members out (list_of self.old.links)) }
        ensures ends { self.new.links.ends ≡ self.old.links.ends }
        ensures rest { self.new ≡ record self.old { recorder = self.new.recorder; links = self.new.links } }
    {
        self.recorder.stand(self.service.row());
        self.links.send_all(self.members, out.into_vec());
    }
}
