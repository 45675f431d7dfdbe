//! What a grid prints of a partition: what a member has, what is in flight, and its history.

ghost use Rattle.std.specs.Prelude.{◌≡◌, ◌+◌, ◌-◌, ◌<◌, ◌++◌, map, IfOk, OnOk};
ghost use Rattle.std.specs.List.{flat_map};
ghost use Rattle.partition_protocol.specs.World.{trail};
ghost use Rattle.call_engine.specs.Calls.{Settings};
ghost use Rattle.call_engine.specs.Objects.{partition_object};
ghost use Rattle.partition_world.specs.RecordedEntries.{entry_of};
ghost use Rattle.replay_run.specs.Runs.{Run, partitions, reopened_at, world_at};
ghost use Rattle.replay_run.specs.Printing.{entry_text, entries_of, all_entries};
ghost use Rattle.replay_run.specs.Grids.{boxed, Stands, MayRun, HasGiven};

use crate::dumps::push_dumped;
use crate::entries::{EntryPlace, line_at, push_entry, resets_of};
use crate::grid::Grid;
use crate::links::{in_flight, push_in_flight};
use crate::messages::tell_outcome;
use grid_base::{MemberId, Memory, PARTITIONS, PartitionId, Request};
use line_told::{LineOutcome, Ready};
use partition_world::Trail;
use replica_node::Contents;
use script_lang::Line;
use std::alloc::Global;

impl Grid {
    /// `dump P M`: prints what a member has of a partition.
    pub(crate) fn dump(
        &mut self,
        alloc: Global,
        number: u32,
        partition: PartitionId,
        member: MemberId,
        out: &mut Ready,
    ) -> Result<(), Memory>
        requires { MayRun (boxed form) self.old number (Line.Dump partition member) }
        ensures { (settings : Settings) (r : Run) → Stands (boxed form) settings self.old r
            → OnOk result (HasGiven (boxed form) settings self.new r (Line.Dump partition member) out.old out.new) }
    {
        self.lines = number;
        let Contents { pair, shelf } = self.worlds[usize::from(partition)].contents(member);
        tell_outcome(&mut out.told, LineOutcome::Dumped(pair))?;
        push_dumped(alloc, &mut out.printed, number, shelf)
    }

    /// `links P`: prints a partition's messages in flight.
    pub(crate) fn push_links(
        &mut self,
        alloc: Global,
        number: u32,
        partition: PartitionId,
        out: &mut Ready,
    ) -> Result<(), Memory>
        requires { MayRun (boxed form) self.old number (Line.Links partition) }
        ensures { (settings : Settings) (r : Run) → Stands (boxed form) settings self.old r
            → OnOk result (HasGiven (boxed form) settings self.new r (Line.Links partition) out.old out.new) }
    {
        self.lines = number;
        let links = self.links.as_slice();
        let world = &self.worlds[usize::from(partition)];
        let messages = in_flight(links, world);
        tell_outcome(&mut out.told, LineOutcome::InFlight { messages })?;
        push_in_flight(alloc, &mut out.printed, number, links, world)
    }

    /// `trail P`: prints a partition's recorded history.
    pub(crate) fn trail(
        &mut self,
        alloc: Global,
        number: u32,
        partition: PartitionId,
        out: &mut Ready,
    ) -> Result<(), Memory>
        requires { MayRun (boxed form) self.old number (Line.Trail partition) }
        ensures { (settings : Settings) (r : Run) → Stands (boxed form) settings self.old r
            → OnOk result (HasGiven (boxed form) settings self.new r (Line.Trail partition) out.old out.new) }
    {
        self.lines = number;
        let trail = self.worlds[usize::from(partition)].trail(alloc)?;
        let entries = trail.len();
        tell_outcome(&mut out.told, LineOutcome::Trail { entries })?;
        self.push_entries(alloc, partition, &trail, &mut out.printed)
    }

    /// `end`: prints all recorded histories.
    pub(crate) fn end(&mut self, alloc: Global, number: u32, out: &mut Ready) -> Result<(), Memory>
        requires { MayRun (boxed form) self.old number Line.End }
        ensures { (settings : Settings) (r : Run) → Stands (boxed form) settings self.old r
            → OnOk result (HasGiven (boxed form) settings self.new r Line.End out.old out.new) }
    {
        self.count(number, &mut out.told)?;
        self.push_histories(alloc, &mut out.printed)
    }

    /// Appends the recorded histories of all partitions.
    fn push_histories(&self, alloc: Global, out: &mut Vec<u8>) -> Result<(), Memory>
        requires { (settings : Settings) × (r : Run) × Stands (boxed form) settings self.now r }
        ensures { (settings : Settings) (r : Run) → Stands (boxed form) settings self.now r → OnOk result (out.new.items ≡ out.old.items ++ flat_map (entry_text r.lines) (all_entries (partition_object settings) r)) }
    {
        for partition in 0..PARTITIONS {
            self.push_history(alloc, partition, out)?;
        }
        Ok(())
    }

    /// Appends the recorded history of a partition.
    fn push_history(
        &self,
        alloc: Global,
        partition: PartitionId,
        out: &mut Vec<u8>,
    ) -> Result<(), Memory>
        requires placed { partition < PARTITIONS }
        requires stands { (settings : Settings) × (r : Run) × Stands (boxed form) settings self.now r }
        ensures { (settings : Settings) (r : Run) → Stands (boxed form) settings self.now r → OnOk result (out.new.items ≡ out.old.items ++ flat_map (entry_text r.lines) (entries_of (partition_object settings) r partition)) }
    {
        let trail = self.worlds[usize::from(partition)].trail(alloc)?;
        self.push_entries(alloc, partition, &trail, out)
    }

    /// Appends the entries of a partition's recorded history.
    fn push_entries(
        &self,
        alloc: Global,
        partition: PartitionId,
        history: &Trail<'_, Request>,
        out: &mut Vec<u8>,
    ) -> Result<(), Memory>
        ensures { (settings : Settings) (r : Run) → Stands (boxed form) settings self.now r → map entry_of history.now ≡ trail (world_at (partition_object settings) r partition)
            → OnOk result (out.new.items ≡ out.old.items ++ flat_map (entry_text r.lines) (entries_of (partition_object settings) r partition)) }
    {
        let lines = self.reopened_lines(alloc, partition)?;
        let mut resets = 0;
        for place in 0..history.len() {
            let at = EntryPlace {
                line: self.lines,
                partition,
                place,
            };
            let entry = history.at(place);
            let reopened = line_at(lines.as_slice(), resets);
            push_entry(alloc, out, at, reopened, entry, &self.connections)?;
            resets += resets_of(entry);
        }
        Ok(())
    }

    /// The lines at which a partition was reopened, in order.
    fn reopened_lines(&self, alloc: Global, partition: PartitionId) -> Result<Vec<u32>, Memory>
        ensures { IfOk result (λ lines. lines.items ≡ reopened_at partition self.now.reopened.items) }
    {
        let mut lines = Vec::new(alloc);
        for place in 0..self.reopened.len() {
            let reopened = self.reopened[place];
            if reopened.partition == partition {
                lines.push(reopened.line)?;
            }
        }
        Ok(lines)
    }
}
