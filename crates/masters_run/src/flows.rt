//! The lines `flow` and `mflow`, where a grid has masters.

ghost use Rattle.std.specs.Prelude.{◌≡◌, ◌<◌, ◌≤◌, IfOk};
ghost use Rattle.call_engine.specs.Calls.{Settings};
ghost use Rattle.replay_run.specs.Runs.{partitions};
ghost use Rattle.replay_run.specs.Grids.{boxed};
ghost use Rattle.script_lang.specs.declared.line.Line.TheVariants as ScriptLines;
ghost use Rattle.call_engine.specs.Objects.{partition_object};
ghost use Rattle.replay_run.specs.Runs.{world_at};
ghost use Rattle.masters_run.specs.Runs.{RuledRun, link_to_member, member_reached};
ghost use Rattle.masters_run.specs.Grids.{MayRun, HasMasters, Runs, GivesUpIfFull};
ghost use Rattle.masters_run.specs.Steps.{IsAmid, MayFlow, Delivers, HandsOver, StopsIfFull, delivering, handing};

use crate::grid::RuledGrid;
use crate::outcomes::tell_with;
use grid_base::{PARTITIONS, PartitionId};
use line_told::{LineOutcome, Told};
use partition_world::{Event, Link};
use replay_run::RunEnd;
use std::alloc::Global;

impl RuledGrid {
    /// The first of a partition's links to a member that has a message, if one has, in order of the senders and the members.
    fn link_to_member(&self, partition: PartitionId) -> Option<Link>
        requires { partition < partitions }
        ensures { (settings : Settings) (s : RuledRun) → IsAmid (boxed form) settings self.now s
            → result ≡ link_to_member (world_at (partition_object settings) s.run partition) }
    {
        let service = self.grid.members();
        for from in 0..service {
            if let Some(to) = self.member_reached(partition, from) {
                return Some(Link { from, to });
            }
        }
        let to = self.member_reached(partition, service)?;
        Some(Link { from: service, to })
    }

    /// The first member to whom a message from that end is in flight.
    fn member_reached(&self, partition: PartitionId, from: u8) -> Option<u8>
        requires { partition < partitions }
        ensures { (settings : Settings) (s : RuledRun) → IsAmid (boxed form) settings self.now s
            → result ≡ member_reached (world_at (partition_object settings) s.run partition) from }
    {
        let world = self.grid.world(partition)?;
        for to in 0..self.grid.members() {
            if !world.in_flight(from, to).is_empty() {
                return Some(to);
            }
        }
        None
    }

    /// Delivers up to so many messages of a partition, none of them to the table service, and tells how many.
    fn deliver_to_members(
        &mut self,
        alloc: Global,
        partition: PartitionId,
        most: u32,
        out: &mut Vec<Told>,
    ) -> Result<u32, RunEnd>
        requires may { MayFlow (boxed form) self.old partition most }
        requires most { most ≤ 1000 }
        ensures ok { Delivers (boxed form) self.old self.new partition most result out.old.items out.new.items }
        ensures most { IfOk result (λ deliveries. deliveries ≤ most) }
        ensures full { StopsIfFull (boxed form) self.old result (λ settings s. delivering settings s partition most) }
    {
        let mut deliveries = 0;
        while deliveries < most {
            let Some(Link { from, to }) = self.link_to_member(partition) else {
                return Ok(deliveries);
            };
            let delivery = Event::Deliver { from, to, place: 0 };
            self.grid.take(alloc, partition, delivery, out)?;
            deliveries += 1;
        }
        Ok(deliveries)
    }

    /// `flow P K`: delivers up to so many messages of a partition, and passes the links to the table service by.
    pub(crate) fn run_flow(
        &mut self,
        alloc: Global,
        number: u32,
        partition: PartitionId,
        most: u32,
        out: &mut Vec<Told>,
    ) -> Result<(), RunEnd>
        requires may { MayRun (boxed form) self.old number (ScriptLines.Flow partition most) }
        requires ruled { HasMasters (boxed form) self.old }
        ensures ok { Runs (boxed form) self.old self.new (ScriptLines.Flow partition most) result out.old.items out.new.items }
        ensures full { GivesUpIfFull (boxed form) self.old (ScriptLines.Flow partition most) result }
    {
        self.count(number);
        let mut messages = Vec::new(alloc);
        let deliveries = self.deliver_to_members(alloc, partition, most, &mut messages)?;
        Ok(tell_with(out, LineOutcome::Flowed { deliveries }, &mut messages)?)
    }

    /// `flow all K`: the same in each partition, in their order.
    pub(crate) fn run_flow_all(
        &mut self,
        alloc: Global,
        number: u32,
        most: u32,
        out: &mut Vec<Told>,
    ) -> Result<(), RunEnd>
        requires may { MayRun (boxed form) self.old number (ScriptLines.FlowAll most) }
        requires ruled { HasMasters (boxed form) self.old }
        ensures ok { Runs (boxed form) self.old self.new (ScriptLines.FlowAll most) result out.old.items out.new.items }
        ensures full { GivesUpIfFull (boxed form) self.old (ScriptLines.FlowAll most) result }
    {
        self.count(number);
        let mut messages = Vec::new(alloc);
        let mut deliveries = 0;
        for partition in 0..PARTITIONS {
            deliveries += self.deliver_to_members(alloc, partition, most, &mut messages)?;
        }
        Ok(tell_with(out, LineOutcome::Flowed { deliveries }, &mut messages)?)
    }

    /// Delivers up to so many messages between the masters of a partition, and tells how many.
    fn deliver_to_masters(
        &mut self,
        alloc: Global,
        partition: PartitionId,
        most: u32,
        out: &mut Vec<Told>,
    ) -> Result<u32, RunEnd>
        requires may { MayFlow (boxed form) self.old partition most }
        requires most { most ≤ 1000 }
        ensures ok { HandsOver (boxed form) self.old self.new partition most result out.old.items out.new.items }
        ensures most { IfOk result (λ deliveries. deliveries ≤ most) }
        ensures full { StopsIfFull (boxed form) self.old result (λ settings s. handing settings s partition most) }
    {
        let mut deliveries = 0;
        while deliveries < most {
            let next = self.masters[usize::from(partition)].links().next_link();
            let Some(link) = next else {
                return Ok(deliveries);
            };
            self.hand_over(alloc, partition, link.from, link.to, 0, out)?;
            deliveries += 1;
        }
        Ok(deliveries)
    }

    /// `mflow P K`: delivers up to so many messages between the masters of a partition.
    pub(crate) fn run_master_flow(
        &mut self,
        alloc: Global,
        number: u32,
        partition: PartitionId,
        most: u32,
        out: &mut Vec<Told>,
    ) -> Result<(), RunEnd>
        requires may { MayRun (boxed form) self.old number (ScriptLines.MasterFlow partition most) }
        requires ruled { HasMasters (boxed form) self.old }
        ensures ok { Runs (boxed form) self.old self.new (ScriptLines.MasterFlow partition most) result out.old.items out.new.items }
        ensures full { GivesUpIfFull (boxed form) self.old (ScriptLines.MasterFlow partition most) result }
    {
        self.count(number);
        let mut messages = Vec::new(alloc);
        let deliveries = self.deliver_to_masters(alloc, partition, most, &mut messages)?;
        Ok(tell_with(out, LineOutcome::Flowed { deliveries }, &mut messages)?)
    }
}
