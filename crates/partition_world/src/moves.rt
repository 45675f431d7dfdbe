ghost use Rattle.std.specs.Prelude.{◌≡◌, List, IfOk, OnErr};
ghost use Rattle.partition_table.specs.Rows.{first_of};
ghost use Rattle.partition_protocol.specs.Recorded.{Recorded};
ghost use Rattle.partition_protocol.specs.Events.{Event as ProtocolEvent, BeginMove, BeginJoin, BeginHandover, Advance, Reopen};
ghost use Rattle.grid_base.specs.Shelves.{meaning};
ghost use Rattle.partition_world.specs.Worlds.{Comes, HasRun, IsKept, KeepsSetup, leading_pair};

use crate::event::Happened;
use crate::in_flight::MOST_TOLD;
use crate::records::Records;
use crate::world::World;
use grid_base::{MemberId, Memory, Shelf};
use partition_protocol::Pair;
use std::alloc::Global;
use table_service::{Advanced, ReopenRefused};

impl<S: Shelf, R: Records<S::Call>> World<S, R> {
    /// A member is to take another's place in the row.
    pub(crate) fn begin_move(
        &mut self,
        alloc: Global,
        from: MemberId,
        to: MemberId,
    ) -> Result<Happened, Memory>
        requires { (plan : S.Plan) × (events : List (ProtocolEvent S.Call)) × Comes (meaning S.model plan) R.records S.model.within_limits self.old events (BeginMove from to) }
        ensures ok { (plan : S.Plan) (events : List (ProtocolEvent S.Call)) → let k = meaning S.model plan in
            Comes k R.records S.model.within_limits self.old events (BeginMove from to) → IfOk result (HasRun k R.records self.old self.new events (BeginMove from to)) }
        ensures err { (plan : S.Plan) (events : List (ProtocolEvent S.Call)) → let k = meaning S.model plan in
            Comes k R.records S.model.within_limits self.old events (BeginMove from to) → OnErr result (IsKept k R.records self.old self.new events) }
        ensures keeps { KeepsSetup self.old self.new }
    {
        self.links.reserve(self.members, MOST_TOLD)?;
        match self.service.begin_move(alloc, from, to)? {
            Ok(made) => {
                self.stand(made.out);
                Ok(Happened::RowMade {
                    version: made.outcome,
                })
            }
            Err(refused) => Ok(Happened::MoveRefused(refused)),
        }
    }

    /// A member is to join the row.
    pub(crate) fn begin_join(&mut self, alloc: Global, to: MemberId) -> Result<Happened, Memory>
        requires { (plan : S.Plan) × (events : List (ProtocolEvent S.Call)) × Comes (meaning S.model plan) R.records S.model.within_limits self.old events (BeginJoin to) }
        ensures ok { (plan : S.Plan) (events : List (ProtocolEvent S.Call)) → let k = meaning S.model plan in
            Comes k R.records S.model.within_limits self.old events (BeginJoin to) → IfOk result (HasRun k R.records self.old self.new events (BeginJoin to)) }
        ensures err { (plan : S.Plan) (events : List (ProtocolEvent S.Call)) → let k = meaning S.model plan in
            Comes k R.records S.model.within_limits self.old events (BeginJoin to) → OnErr result (IsKept k R.records self.old self.new events) }
        ensures keeps { KeepsSetup self.old self.new }
    {
        self.links.reserve(self.members, MOST_TOLD)?;
        match self.service.begin_join(alloc, to)? {
            Ok(made) => {
                self.stand(made.out);
                Ok(Happened::RowMade {
                    version: made.outcome,
                })
            }
            Err(refused) => Ok(Happened::MoveRefused(refused)),
        }
    }

    /// A backup is to lead in place of the primary, which leaves the row. Takes no memory.
    pub(crate) fn begin_handover(&mut self, from: MemberId, to: MemberId) -> Happened
        requires { (plan : S.Plan) × (events : List (ProtocolEvent S.Call)) × Comes (meaning S.model plan) R.records S.model.within_limits self.old events (BeginHandover from to) }
        ensures ok { (plan : S.Plan) (events : List (ProtocolEvent S.Call)) → let k = meaning S.model plan in
            Comes k R.records S.model.within_limits self.old events (BeginHandover from to) → HasRun k R.records self.old self.new events (BeginHandover from to) result }
        ensures keeps { KeepsSetup self.old self.new }
    {
        match self.service.begin_handover(from, to) {
            Ok(()) => {
                self.recorder.stand(self.service.row());
                Happened::Done
            }
            Err(refused) => Happened::MoveRefused(refused),
        }
    }

    /// The move under way takes its next step.
    pub(crate) fn advance(&mut self, alloc: Global) -> Result<Happened, Memory>
        requires { (plan : S.Plan) × (events : List (ProtocolEvent S.Call)) × Comes (meaning S.model plan) R.records S.model.within_limits self.old events Advance }
        ensures ok { (plan : S.Plan) (events : List (ProtocolEvent S.Call)) → let k = meaning S.model plan in
            Comes k R.records S.model.within_limits self.old events Advance → IfOk result (HasRun k R.records self.old self.new events Advance) }
        ensures err { (plan : S.Plan) (events : List (ProtocolEvent S.Call)) → let k = meaning S.model plan in
            Comes k R.records S.model.within_limits self.old events Advance → OnErr result (IsKept k R.records self.old self.new events) }
        ensures keeps { KeepsSetup self.old self.new }
    {
        self.links.reserve(self.members, MOST_TOLD)?;
        let step = self.service.advance(alloc)?;
        match step.outcome {
            Advanced::Nothing => Ok(Happened::Nothing),
            Advanced::Freezing => {
                self.stand(step.out);
                Ok(Happened::Done)
            }
            Advanced::Row { version } => {
                self.stand(step.out);
                Ok(Happened::RowMade { version })
            }
        }
    }

    /// The loss of a lost partition is accepted, and it goes on empty.
    pub(crate) fn reopen(&mut self, alloc: Global) -> Result<Happened, Memory>
        requires { (plan : S.Plan) × (events : List (ProtocolEvent S.Call)) × Comes (meaning S.model plan) R.records S.model.within_limits self.old events Reopen }
        ensures ok { (plan : S.Plan) (events : List (ProtocolEvent S.Call)) → let k = meaning S.model plan in
            Comes k R.records S.model.within_limits self.old events Reopen → IfOk result (HasRun k R.records self.old self.new events Reopen) }
        ensures err { (plan : S.Plan) (events : List (ProtocolEvent S.Call)) → let k = meaning S.model plan in
            Comes k R.records S.model.within_limits self.old events Reopen → OnErr result (IsKept k R.records self.old self.new events) }
        ensures keeps { KeepsSetup self.old self.new }
    {
        if !self.service.row().lost {
            return Ok(Happened::ReopenRefused(ReopenRefused::NotLost));
        }
        self.links.reserve(self.members, MOST_TOLD)?;
        let leader = self.leading_pair();
        let places = self.recorder.reopening_places(alloc, leader)?;
        match self.service.reopen(alloc)? {
            Ok(made) => {
                self.recorder.reopen(made.outcome, places);
                self.stand(made.out);
                Ok(Happened::RowMade {
                    version: made.outcome,
                })
            }
            Err(refused) => Ok(Happened::ReopenRefused(refused)),
        }
    }

    /// What names the contents of the standing row's first member, if there is one.
    pub(crate) fn leading_pair(&self) -> Option<Pair>
        ensures { (r : Recorded S.Call) → R.records self.now.recorder r → result ≡ leading_pair self.now (first_of r.standing.members) }
    {
        let leader = self.recorder.leader()?;
        let node = self.nodes.get(usize::from(leader))?;
        Some(node.contents().pair)
    }
}
