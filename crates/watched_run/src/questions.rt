//! What is in flight, what a member has, and what was called: the lines that ask for them.

ghost use Rattle.replay_run.specs.Grids.{boxed};
ghost use Rattle.running_grid.specs.Runs.{IsRunning};

use crate::history::Histories;
use crate::notes::{LinkPlace, Notes};
use crate::printed::{EntryLines, entries};
use grid_base::{MemberId, Memory, PARTITIONS, PartitionId};
use partition_world::{Entry, Link};
use run_tale::{Happening, Tale};
use run_words::push_stored;
use running_grid::RunningGrid;
use script_lang::Line;
use std::alloc::Global;

/// `dump P M`: tells what a member has of a partition.
fn tell_contents(
    alloc: Global,
    running: &RunningGrid,
    partition: PartitionId,
    member: MemberId,
    told: &mut Tale,
) -> Result<(), Memory>
    requires { IsRunning (boxed form) running.now }
{
    let Some(contents) = running.contents(partition, member) else {
        return Ok(());
    };
    told.push(Happening::Contents {
        partition,
        member,
        version: contents.pair.version,
        count: contents.pair.count,
    })?;
    let store = contents.shelf.store();
    for name in store.objects(alloc)?.as_slice() {
        let mut words = String::new(alloc);
        push_stored(alloc, &mut words, store, name)?;
        told.push(Happening::Kept { words })?;
    }
    Ok(())
}

impl Notes {
    /// Tells a line that asks what is there.
    pub(crate) fn tell_asked(
        &self,
        alloc: Global,
        running: &RunningGrid,
        line: &Line,
        text: &str,
        told: &mut Tale,
    ) -> Result<(), Memory>
        requires { IsRunning (boxed form) running.now }
    {
        match line {
            Line::Dump { partition, member } => tell_contents(
                alloc, running, *partition, *member, told,
            ),
            Line::Links { partition } => self.tell_links(alloc, running, *partition, told),
            Line::Trail { partition } => self.tell_trail(alloc, running, *partition, text, told),
            _ => self.tell_end(alloc, running, text, told),
        }
    }

    /// The lines of the script for those of the grid.
    fn in_script(&self, lines: EntryLines) -> EntryLines {
        EntryLines {
            arrived: self.script_line(lines.arrived),
            answered: lines.answered.map(|number| self.script_line(number)),
        }
    }

    /// Tells the histories of a partition's objects, whose entries have these lines. Gives how many entries there are.
    /// Costs its history.
    fn tell_history(
        &self,
        alloc: Global,
        running: &RunningGrid,
        partition: PartitionId,
        lines: &[EntryLines],
        told: &mut Tale,
    ) -> Result<usize, Memory> {
        let Some(world) = running.world(partition) else {
            return Ok(0);
        };
        let trail = world.trail(alloc)?;
        let mut histories = Histories::new(alloc);
        for place in 0..trail.len() {
            let lines = self.in_script(lines.get(place).copied().unwrap_or_default());
            match trail.at(place) {
                Entry::Call { call, reply, .. } => histories.add(alloc, call, reply, lines)?,
                Entry::Reset { .. } => histories.add_reset(lines.arrived)?,
            }
        }
        histories.tell(alloc, told)?;
        Ok(trail.len())
    }

    /// `trail P`.
    fn tell_trail(
        &self,
        alloc: Global,
        running: &RunningGrid,
        partition: PartitionId,
        text: &str,
        told: &mut Tale,
    ) -> Result<(), Memory> {
        let before = told.len();
        let lines = entries(alloc, text)?;
        self.tell_history(alloc, running, partition, lines.as_slice(), told)?;
        if told.len() > before {
            return Ok(());
        }
        let words = format!(in alloc; "no history in partition {partition}")?;
        told.push(Happening::History { words })
    }

    /// `end`: the histories of all partitions.
    fn tell_end(
        &self,
        alloc: Global,
        running: &RunningGrid,
        text: &str,
        told: &mut Tale,
    ) -> Result<(), Memory> {
        told.push(Happening::Ended)?;
        let lines = entries(alloc, text)?;
        let mut told_of: usize = 0;
        for partition in 0..PARTITIONS {
            let rest = lines.as_slice().get(told_of..).unwrap_or(&[]);
            let count = self.tell_history(alloc, running, partition, rest, told)?;
            told_of = told_of.saturating_add(count);
        }
        Ok(())
    }

    /// `links P`.
    fn tell_links(
        &self,
        alloc: Global,
        running: &RunningGrid,
        partition: PartitionId,
        told: &mut Tale,
    ) -> Result<(), Memory> {
        let mut flights = Vec::new(alloc);
        for from in 0..=running.members() {
            self.look_from(alloc, running, partition, from, &mut flights)?;
        }
        told.push(Happening::InFlight {
            partition,
            count: flights.len() as u64,
        })?;
        told.push_all(flights)
    }

    /// Adds the messages in flight from an end.
    fn look_from(
        &self,
        alloc: Global,
        running: &RunningGrid,
        partition: PartitionId,
        from: u8,
        flights: &mut Vec<Happening>,
    ) -> Result<(), Memory> {
        for to in 0..=running.members() {
            self.look_at_link(alloc, running, partition, Link { from, to }, flights)?;
        }
        Ok(())
    }

    /// Adds the messages in flight on a link.
    fn look_at_link(
        &self,
        alloc: Global,
        running: &RunningGrid,
        partition: PartitionId,
        link: Link,
        flights: &mut Vec<Happening>,
    ) -> Result<(), Memory> {
        for place in 0..running.in_flight(partition, link).len() {
            let at = LinkPlace {
                partition,
                link,
                place,
            };
            if let Some(flight) = self.flight_at(alloc, running, at)? {
                flights.push(Happening::At { flight, place })?;
            }
        }
        Ok(())
    }
}
