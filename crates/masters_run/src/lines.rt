//! Lines that the masters are asked by, where a grid has masters.

ghost use Rattle.std.specs.Prelude.{◌≡◌, ◌<◌, ◌≤◌};
ghost use Rattle.call_engine.specs.Calls.{Settings};
ghost use Rattle.replay_run.specs.Runs.{partitions};
ghost use Rattle.replay_run.specs.Grids.{boxed};
ghost use Rattle.script_lang.specs.declared.line.Line.{Line as ScriptLine};
ghost use Rattle.script_lang.specs.declared.line.Line.TheVariants as ScriptLines;
ghost use Rattle.call_engine.specs.Objects.{partition_object};
ghost use Rattle.masters_world.specs.Machine.{Asks, was_told};
ghost use Rattle.partition_protocol.specs.Events.{Detect as DetectEvent};
ghost use Rattle.masters_run.specs.Runs.{RuledRun, ruled_at};
ghost use Rattle.masters_run.specs.Grids.{MayRun, HasMasters, Runs, GivesUpIfFull};
ghost use Rattle.masters_run.specs.Steps.{IsAmid, MayAsk, GoesOnBy, StopsIfFull, going, ProposesAt, RunsProposal, GivesUpProposal};

use crate::grid::RuledGrid;
use crate::outcomes::{done_outcome, proposal_outcome, tell_with};
use grid_base::{MemberId, PARTITIONS, PartitionId};
use line_told::{LineOutcome, Told};
use master_wire::Decision;
use replay_run::{RunEnd, tell_outcome};
use std::alloc::Global;

impl RuledGrid {
    /// A line that puts a decision to the masters of a partition.
    pub(crate) fn run_proposal(
        &mut self,
        alloc: Global,
        number: u32,
        partition: PartitionId,
        decision: &Decision,
        out: &mut Vec<Told>,
    ) -> Result<(), RunEnd>
        requires may { (line : ScriptLine) × MayRun (boxed form) self.old number line × ProposesAt (boxed form) self.old line partition decision.now }
        requires ruled { HasMasters (boxed form) self.old }
        ensures ok { RunsProposal (boxed form) self.old self.new partition decision.now result out.old.items out.new.items }
        ensures full { GivesUpProposal (boxed form) self.old partition decision.now result }
    {
        self.count(number);
        let mut followed = Vec::new(alloc);
        let proposal = self.propose(alloc, partition, decision, &mut followed)?;
        Ok(tell_with(out, proposal_outcome(proposal), &mut followed)?)
    }

    /// `detect X`: that member's crash is proposed in each partition whose serving master was told of it.
    pub(crate) fn run_detection(
        &mut self,
        alloc: Global,
        number: u32,
        member: MemberId,
        out: &mut Vec<Told>,
    ) -> Result<(), RunEnd>
        requires may { MayRun (boxed form) self.old number (ScriptLines.Detect member) }
        requires ruled { HasMasters (boxed form) self.old }
        ensures ok { Runs (boxed form) self.old self.new (ScriptLines.Detect member) result out.old.items out.new.items }
        ensures full { GivesUpIfFull (boxed form) self.old (ScriptLines.Detect member) result }
    {
        self.count(number);
        tell_outcome(out, LineOutcome::Ran)?;
        for partition in 0..PARTITIONS {
            self.detect(alloc, partition, member, out)?;
        }
        Ok(())
    }

    /// A member's crash is proposed to the masters of a partition, where the serving one was told of it.
    fn detect(
        &mut self,
        alloc: Global,
        partition: PartitionId,
        member: MemberId,
        out: &mut Vec<Told>,
    ) -> Result<(), RunEnd>
        requires { MayAsk (boxed form) self.old partition }
        ensures ok { GoesOnBy (boxed form) self.old self.new partition (Asks (DetectEvent member)) result out.old.items out.new.items }
        ensures full { StopsIfFull (boxed form) self.old result (λ settings s. going settings s partition (Asks (DetectEvent member))) }
    {
        if self.is_told(partition, member) {
            self.propose(alloc, partition, &Decision::Detect { member }, out)?;
        }
        Ok(())
    }

    /// Whether a live master of a partition serves that was told of a member's crash.
    fn is_told(&self, partition: PartitionId, crashed: MemberId) -> bool
        requires { MayAsk (boxed form) self.now partition }
        ensures { (settings : Settings) (s : RuledRun) → IsAmid (boxed form) settings self.now s
            → result ≡ was_told (ruled_at (partition_object settings) s partition) crashed }
    {
        let masters = &self.masters[usize::from(partition)];
        match masters.serving() {
            Some(master) => masters.was_told(master, crashed),
            None => false,
        }
    }

    /// `told M X`: a member is told in each partition that another has crashed.
    pub(crate) fn run_told(
        &mut self,
        alloc: Global,
        number: u32,
        member: MemberId,
        crashed: MemberId,
        out: &mut Vec<Told>,
    ) -> Result<(), RunEnd>
        requires may { MayRun (boxed form) self.old number (ScriptLines.Told member crashed) }
        requires ruled { HasMasters (boxed form) self.old }
        ensures ok { Runs (boxed form) self.old self.new (ScriptLines.Told member crashed) result out.old.items out.new.items }
        ensures full { GivesUpIfFull (boxed form) self.old (ScriptLines.Told member crashed) result }
    {
        self.count(number);
        let mut followed = Vec::new(alloc);
        let mut done = false;
        for partition in 0..PARTITIONS {
            let told = self.tell(alloc, partition, member, crashed, &mut followed)?;
            if partition == 0 {
                done = told;
            }
        }
        Ok(tell_with(out, done_outcome(done), &mut followed)?)
    }

    /// `mdeliver P F T I`: the message at a place of a link between masters is handed over.
    pub(crate) fn run_delivery(
        &mut self,
        alloc: Global,
        number: u32,
        partition: PartitionId,
        from: u8,
        to: u8,
        place: usize,
        out: &mut Vec<Told>,
    ) -> Result<(), RunEnd>
        requires may { MayRun (boxed form) self.old number (ScriptLines.MasterDeliver partition from to place) }
        requires ruled { HasMasters (boxed form) self.old }
        ensures ok { Runs (boxed form) self.old self.new (ScriptLines.MasterDeliver partition from to place) result out.old.items out.new.items }
        ensures full { GivesUpIfFull (boxed form) self.old (ScriptLines.MasterDeliver partition from to place) result }
    {
        self.count(number);
        let mut followed = Vec::new(alloc);
        let took = self.hand_over(alloc, partition, from, to, place, &mut followed)?;
        Ok(tell_with(out, LineOutcome::of_message(took), &mut followed)?)
    }

    /// `mlose P F T I`: the message at a place of a link between masters is lost.
    pub(crate) fn run_loss(
        &mut self,
        alloc: Global,
        number: u32,
        partition: PartitionId,
        from: u8,
        to: u8,
        place: usize,
        out: &mut Vec<Told>,
    ) -> Result<(), RunEnd>
        requires may { MayRun (boxed form) self.old number (ScriptLines.MasterLose partition from to place) }
        requires ruled { HasMasters (boxed form) self.old }
        ensures ok { Runs (boxed form) self.old self.new (ScriptLines.MasterLose partition from to place) result out.old.items out.new.items }
        ensures full { GivesUpIfFull (boxed form) self.old (ScriptLines.MasterLose partition from to place) result }
    {
        self.count(number);
        let done = self.masters[usize::from(partition)].lose(from, to, place);
        Ok(tell_outcome(out, done_outcome(done))?)
    }

    /// `mresend P M`: a master asks or stores again.
    pub(crate) fn run_resending(
        &mut self,
        alloc: Global,
        number: u32,
        partition: PartitionId,
        member: MemberId,
        out: &mut Vec<Told>,
    ) -> Result<(), RunEnd>
        requires may { MayRun (boxed form) self.old number (ScriptLines.MasterResend partition member) }
        requires ruled { HasMasters (boxed form) self.old }
        ensures ok { Runs (boxed form) self.old self.new (ScriptLines.MasterResend partition member) result out.old.items out.new.items }
        ensures full { GivesUpIfFull (boxed form) self.old (ScriptLines.MasterResend partition member) result }
    {
        self.count(number);
        let done = self.resend(alloc, partition, member)?;
        Ok(tell_outcome(out, done_outcome(done))?)
    }
}
