//! What the masters of a partition are asked, and what then happens to the partition: where a decision is published, its event.

ghost use Rattle.std.specs.Prelude.{◌≡◌, ◌<◌, true, false, [], length, OnOk, IsErrOf};
ghost use Rattle.grid_base.specs.declared.calls.Request.{Request as Call};
ghost use Rattle.call_engine.specs.Calls.{Settings};
ghost use Rattle.master_log.specs.Outcomes.{done_if};
ghost use Rattle.master_member.specs.Outcomes.{outcome_of};
ghost use Rattle.masters_world.specs.Machine.{Line, Told as ToldLine, MasterDeliver, MasterResend};
ghost use Rattle.partition_protocol.specs.Arrivals.{asked_by};
ghost use Rattle.partition_world.specs.Events.{event_of};
ghost use Rattle.replay_run.specs.Runs.{Run, partitions};
ghost use Rattle.replay_run.specs.Grids.{boxed};
ghost use Rattle.replay_run.specs.WorldCalls as grid;
ghost use Rattle.replay_run.specs.WorldCalls.{HasRoomAt};
ghost use Rattle.replay_run.specs.declared.run_end.RunEnd.TheVariants as RunEnds;
ghost use Rattle.masters_run.specs.Runs.{RuledRun, masters_at, has_full_link};
ghost use Rattle.masters_run.specs.Steps.{IsAmid, MayAsk, MayPropose, going, HasAskedMasters};
ghost use Rattle.masters_run.specs.Steps.{Answers, AnswersProposal, Follows, Takes, StopsIfFull, StopsProposal, StopsFollowing, StopsTaking};

use crate::decisions::event_of;
use crate::grid::RuledGrid;
use crate::outcomes::{is_detection, published_outcome, tell_published, tell_with};
use grid_base::{MemberId, PartitionId, Request};
use line_told::Told;
use master_log::{MasterTook, ProposeRefused};
use master_wire::Decision;
use partition_world::Event;
use replay_run::{MOST_IN_FLIGHT, RunEnd, is_advance};
use std::alloc::Global;

/// What came of a proposal.
#[derive(Clone, Copy, Debug, PartialEq, Eq)]
pub(crate) enum Proposal {
    /// No live master serves.
    NoMaster,
    /// The master's log, of that length, is longer than the published list.
    Busy { length: u32 },
    /// It has as many decisions as a log may have.
    Full,
    /// The decision has that number in the master's log.
    Proposed { number: u32 },
}

impl RuledGrid {
    /// How many decisions a partition's masters have published.
    fn published(&self, partition: PartitionId) -> usize
        requires { MayAsk (boxed form) self.now partition }
        ensures { (settings : Settings) (s : RuledRun) → IsAmid (boxed form) settings self.now s
            → result ≡ length (masters_at s partition).published }
    {
        self.masters[usize::from(partition)].published().len()
    }

    /// Before the masters of a partition are asked what may have them send: none of the links between them may be full.
    fn find_room(&self, partition: PartitionId) -> Result<(), RunEnd>
        requires { MayAsk (boxed form) self.now partition }
        ensures room { (settings : Settings) (s : RuledRun) → IsAmid (boxed form) settings self.now s
            → OnOk result (has_full_link (masters_at s partition) ≡ false) }
        ensures full { (settings : Settings) (s : RuledRun) → IsAmid (boxed form) settings self.now s
            → IsErrOf result RunEnds.InFlight → has_full_link (masters_at s partition) ≡ true }
    {
        let links = self.masters[usize::from(partition)].links();
        if links.has_crowded_link(MOST_IN_FLIGHT) {
            return Err(RunEnd::InFlight);
        }
        Ok(())
    }

    /// Runs the event of the decision that was published since so many were, if one was, and tells both.
    fn follow(
        &mut self,
        alloc: Global,
        partition: PartitionId,
        before: usize,
        out: &mut Vec<Told>,
    ) -> Result<(), RunEnd>
        requires { (settings : Settings) × (s : RuledRun) × (l : Line Call) × HasAskedMasters (boxed form) settings self.old s partition l before × HasRoomAt s.run partition 1 }
        ensures ok { Follows (boxed form) self.old self.new partition before result out.old.items out.new.items }
        ensures full { StopsFollowing (boxed form) self.old partition before result }
    {
        let published = self.masters[usize::from(partition)].published();
        let Some(decision) = published.get(before) else {
            return Ok(());
        };
        let event = event_of(decision, self.grid.members());
        tell_published(out, partition, before + 1)?;
        self.run_published(alloc, partition, event, out)
    }

    /// Runs the event of a published decision: its outcome, and then what it appended.
    fn run_published(
        &mut self,
        alloc: Global,
        partition: PartitionId,
        event: Event<Request>,
        out: &mut Vec<Told>,
    ) -> Result<(), RunEnd>
        requires placed { partition < partitions }
        requires unasked { asked_by (event_of event) ≡ [] }
        requires stands { (settings : Settings) × (r : Run) × grid.IsAmid (boxed form) settings self.old.grid r × HasRoomAt r partition 1 }
        ensures ok { Takes (boxed form) self.old.grid self.new.grid partition (event_of event) result out.old.items out.new.items }
        ensures full { StopsTaking (boxed form) self.old.grid partition (event_of event) result }
        ensures masters { self.new.masters ≡ self.old.masters }
    {
        let detects = is_detection(&event);
        let advances = is_advance(&event);
        let mut messages = Vec::new(alloc);
        let happened = self.grid.take(alloc, partition, event, &mut messages)?;
        let outcome = published_outcome(detects, advances, happened);
        Ok(tell_with(out, outcome, &mut messages)?)
    }

    /// Puts a decision to the masters of a partition.
    pub(crate) fn propose(
        &mut self,
        alloc: Global,
        partition: PartitionId,
        decision: &Decision,
        out: &mut Vec<Told>,
    ) -> Result<Proposal, RunEnd>
        requires { MayPropose (boxed form) self.old partition decision.now }
        ensures ok { AnswersProposal (boxed form) self.old self.new partition decision.now result out.old.items out.new.items }
        ensures full { StopsProposal (boxed form) self.old partition decision.now result }
    {
        self.find_room(partition)?;
        let before = self.published(partition);
        let number = match self.masters[usize::from(partition)].propose(alloc, decision) {
            Ok(number) => number,
            Err(ProposeRefused::NoMaster) => return Ok(Proposal::NoMaster),
            Err(ProposeRefused::Busy { length }) => return Ok(Proposal::Busy { length }),
            Err(ProposeRefused::Full) => return Ok(Proposal::Full),
            Err(ProposeRefused::Memory) => return Err(RunEnd::Memory),
        };
        self.follow(alloc, partition, before, out)?;
        Ok(Proposal::Proposed { number })
    }

    /// A member is told, as a master of a partition, that another has crashed.
    pub(crate) fn tell(
        &mut self,
        alloc: Global,
        partition: PartitionId,
        member: MemberId,
        crashed: MemberId,
        out: &mut Vec<Told>,
    ) -> Result<bool, RunEnd>
        requires { MayAsk (boxed form) self.old partition }
        ensures ok { Answers (boxed form) self.old self.new partition (ToldLine member crashed) result done_if out.old.items out.new.items }
        ensures full { StopsIfFull (boxed form) self.old result (λ settings s. going settings s partition (ToldLine member crashed)) }
    {
        self.find_room(partition)?;
        let before = self.published(partition);
        let done = self.masters[usize::from(partition)].told(alloc, member, crashed)?;
        self.follow(alloc, partition, before, out)?;
        Ok(done)
    }

    /// The message at that place of a link between masters is handed over.
    pub(crate) fn hand_over(
        &mut self,
        alloc: Global,
        partition: PartitionId,
        from: u8,
        to: u8,
        place: usize,
        out: &mut Vec<Told>,
    ) -> Result<MasterTook, RunEnd>
        requires { MayAsk (boxed form) self.old partition }
        ensures ok { Answers (boxed form) self.old self.new partition (MasterDeliver from to place) result outcome_of out.old.items out.new.items }
        ensures full { StopsIfFull (boxed form) self.old result (λ settings s. going settings s partition (MasterDeliver from to place)) }
    {
        self.find_room(partition)?;
        let before = self.published(partition);
        let took = self.masters[usize::from(partition)].deliver(alloc, from, to, place)?;
        self.follow(alloc, partition, before, out)?;
        Ok(took)
    }

    /// A master of a partition asks or stores again. Nothing is published by that.
    pub(crate) fn resend(
        &mut self,
        alloc: Global,
        partition: PartitionId,
        member: MemberId,
    ) -> Result<bool, RunEnd>
        requires { MayAsk (boxed form) self.old partition }
        ensures ok { Answers (boxed form) self.old self.new partition (MasterResend member) result done_if [] [] }
        ensures full { StopsIfFull (boxed form) self.old result (λ settings s. going settings s partition (MasterResend member)) }
    {
        self.find_room(partition)?; // also where nothing is sent again
        let done = self.masters[usize::from(partition)].resend(alloc, member)?;
        Ok(done)
    }
}
