//! Lines that deliver many messages: each is delivered as a line of its own, while the grid can run so many.

ghost use Rattle.std.specs.Prelude.{◌≤◌, IfSome};
ghost use Rattle.script_lang.specs.Lines.{IsWithin};
ghost use Rattle.script_lang.specs.Limits.{most_line_bytes};
ghost use Rattle.replay_run.specs.Grids.{boxed};
ghost use Rattle.running_grid.specs.Runs.{IsRunning};

use crate::printed::{as_text, number_in, outcome_of};
use crate::watch::Watch;
use grid_base::{PARTITIONS, PartitionId};
use run_tale::{Happening, Tale};
use running_grid::RunEnd;
use script_lang::Line;
use std::alloc::Global;

/// How many lines are kept for partitions whose deliveries can't be told one by one any more.
const KEPT: u32 = 272;

impl Watch {
    /// The line that a flow delivers the next message of a partition by, if there is one. Where the grid has masters, what is
    /// in flight to the table service is passed by.
    fn next_delivery(&self, partition: PartitionId) -> Option<Line>
        ensures { IfSome result (λ line. IsWithin self.now.running.members most_line_bytes line) }
    {
        if self.notes.has_masters {
            self.running.next_to_member(partition)
        } else {
            self.running.next_delivery(partition)
        }
    }

    /// Whether a delivery can be told by itself.
    fn has_spare(&self) -> bool {
        self.spare() > KEPT
    }

    /// Delivers a message as a line of its own.
    fn deliver(&mut self, alloc: Global, line: &Line, told: &mut Tale) -> Result<(), RunEnd>
        requires within { IsWithin self.old.running.members most_line_bytes line.now }
        requires stands { IsRunning (boxed form) self.old.running }
        ensures { IsRunning (boxed form) self.new.running }
    {
        let flight = self.notes.flight_of(alloc, &self.running, line)?;
        let text = self.take(alloc, line)?;
        let text = as_text(text.as_slice());
        told.go_on();
        Ok(
            self.notes
                .tell_flowed(alloc, &self.running, line, flight, text, told)?,
        )
    }

    /// Delivers up to so many messages of a partition, each as a line of its own, while there are such lines. Tells how
    /// many.
    fn flow_told(
        &mut self,
        alloc: Global,
        partition: PartitionId,
        most: u32,
        told: &mut Tale,
    ) -> Result<u32, RunEnd>
        requires { IsRunning (boxed form) self.old.running }
        ensures { IsRunning (boxed form) self.new.running }
    {
        for count in 0..most {
            let Some(line) = self.next_delivery(partition) else {
                return Ok(count);
            };
            if !self.has_spare() {
                return Ok(count);
            }
            self.deliver(alloc, &line, told)?;
        }
        Ok(most)
    }

    /// Delivers up to so many messages at once, as a line does that is one of the grid's. Tells how many.
    fn flow_untold(&mut self, alloc: Global, line: &Line, told: &mut Tale) -> Result<u32, RunEnd>
        requires within { IsWithin self.old.running.members most_line_bytes line.now }
        requires stands { IsRunning (boxed form) self.old.running }
        ensures { IsRunning (boxed form) self.new.running }
    {
        let printed = self.take(alloc, line)?;
        let text = as_text(printed.as_slice());
        self.notes.tell_untold(alloc, &self.running, text, told)?;
        Ok(number_in(outcome_of(text).rest))
    }

    /// Delivers up to so many messages of a partition. Tells how many.
    fn flow_in(
        &mut self,
        alloc: Global,
        partition: PartitionId,
        most: u32,
        told: &mut Tale,
    ) -> Result<u32, RunEnd>
        requires placed { partition ≤ 270 }
        requires most { most ≤ 1000 }
        requires stands { IsRunning (boxed form) self.old.running }
        ensures { IsRunning (boxed form) self.new.running }
    {
        let count = self.flow_told(alloc, partition, most, told)?;
        let rest = most.saturating_sub(count);
        if rest == 0 || self.has_spare() {
            return Ok(count);
        }
        let line = Line::Flow {
            partition,
            most: rest,
        };
        Ok(count.saturating_add(self.flow_untold(alloc, &line, told)?))
    }

    /// Delivers up to so many messages of each partition. Tells how many.
    fn flow_in_all(&mut self, alloc: Global, most: u32, told: &mut Tale) -> Result<u32, RunEnd>
        requires some { 1 ≤ most }
        requires most { most ≤ 1000 }
        requires stands { IsRunning (boxed form) self.old.running }
        ensures { IsRunning (boxed form) self.new.running }
    {
        if !self.has_spare() {
            return self.flow_untold(alloc, &Line::FlowAll { most }, told);
        }
        let mut count: u32 = 0;
        for partition in 0..PARTITIONS {
            count = count.saturating_add(self.flow_in(alloc, partition, most, told)?);
        }
        Ok(count)
    }

    /// `flow P K`.
    pub(crate) fn flow(
        &mut self,
        alloc: Global,
        partition: PartitionId,
        most: u32,
        told: &mut Tale,
    ) -> Result<(), RunEnd>
        requires placed { partition ≤ 270 }
        requires most { most ≤ 1000 }
        requires stands { IsRunning (boxed form) self.old.running }
        ensures { IsRunning (boxed form) self.new.running }
    {
        let count = self.flow_in(alloc, partition, most, told)?;
        Ok(told.push(Happening::Flowed { count })?)
    }

    /// `flow all K`.
    pub(crate) fn flow_all(
        &mut self,
        alloc: Global,
        most: u32,
        told: &mut Tale,
    ) -> Result<(), RunEnd>
        requires some { 1 ≤ most }
        requires most { most ≤ 1000 }
        requires stands { IsRunning (boxed form) self.old.running }
        ensures { IsRunning (boxed form) self.new.running }
    {
        let count = self.flow_in_all(alloc, most, told)?;
        Ok(told.push(Happening::Flowed { count })?)
    }
}
