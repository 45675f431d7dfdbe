//! What is known of a run beside its grid: when the messages in flight were sent, and which rows were told.

use crate::clients::Clients;
use crate::sendings::{Sending, Sendings};
use crate::waiters::WaitsAt;
use grid_base::{CallId, Memory, PARTITIONS, PartitionId};
use partition_world::Link;
use run_tale::{Flight, Happening, Tale};
use run_words::{leader_of, letter_of, push_row};
use running_grid::RunningGrid;
use std::alloc::Global;
use std::collections::BTreeMap;

/// How many messages are told of those that an end sends at once on a link.
const MOST_SENT: usize = 8;

/// A place on a link of a partition.
#[derive(Clone, Copy)]
pub(crate) struct LinkPlace {
    pub(crate) partition: PartitionId,
    pub(crate) link: Link,
    pub(crate) place: usize,
}

/// What was seen of a partition: the version of its row, how many events it had, and when what is in flight was sent.
#[derive(Drop)]
pub(crate) struct Part {
    pub(crate) version: u32,
    pub(crate) events: u32,
    pub(crate) sendings: Sendings,
}

impl Part {
    /// A partition where nothing has happened, with so many ends of links.
    fn new(alloc: Global, ends: u8) -> Result<Self, Memory> {
        Ok(Part {
            version: 1,
            events: 0,
            sendings: Sendings::new(alloc, ends)?,
        })
    }
}

/// What is known of a run beside its grid.
#[derive(Drop)]
pub(crate) struct Notes {
    /// The line that runs, or ran last.
    pub(crate) line: u32,
    /// The script's line of each line that the grid ran, behind its first.
    pub(crate) numbers: Vec<u32>,
    pub(crate) clients: Clients,
    /// The calls that wait, and where.
    pub(crate) waiters: BTreeMap<CallId, WaitsAt>,
    pub(crate) parts: Vec<Part>,
    /// The table service of each partition runs on the members.
    pub(crate) has_masters: bool,
}

impl Notes {
    /// Nothing has happened behind the first line of a grid of so many members.
    pub(crate) fn new(alloc: Global, members: u8) -> Result<Self, Memory> {
        let mut parts = Vec::new(alloc);
        for _ in 0..PARTITIONS {
            parts.push(Part::new(alloc, members.saturating_add(1))?)?;
        }
        Ok(Notes {
            line: 1,
            numbers: Vec::new(alloc),
            clients: Clients::new(alloc)?,
            waiters: BTreeMap::new(alloc),
            parts,
            has_masters: false,
        })
    }

    /// The script's line of a line that the grid ran.
    pub(crate) fn script_line(&self, number: u32) -> u32 {
        let place = (number as usize).wrapping_sub(2);
        self.numbers.get(place).copied().unwrap_or(number)
    }

    /// What is known of a partition.
    fn part_mut(&mut self, partition: PartitionId) -> Option<&mut Part> {
        self.parts.get_mut(usize::from(partition))
    }

    /// When a message is sent that is sent now.
    fn now(&self, told: &Tale) -> Sending {
        Sending {
            line: self.line,
            step: told.step(),
        }
    }

    /// When the message at a place was sent.
    fn sending_at(&self, at: LinkPlace) -> Sending {
        match self.parts.get(usize::from(at.partition)) {
            Some(part) => part.sendings.sending_at(at.link, at.place),
            None => Sending::default(),
        }
    }

    /// The message at a place of a link, in words.
    pub(crate) fn flight_at(
        &self,
        alloc: Global,
        running: &RunningGrid,
        at: LinkPlace,
    ) -> Result<Option<Flight>, Memory> {
        let LinkPlace {
            partition,
            link,
            place,
        } = at;
        let Some(bytes) = running.in_flight(partition, link).get(place) else {
            return Ok(None);
        };
        let sent = self.sending_at(at);
        Ok(Some(Flight {
            partition,
            from: link.from,
            to: link.to,
            sent: sent.line,
            step: sent.step,
            letter: letter_of(alloc, bytes)?,
        }))
    }

    /// The message at a place of a link is no longer in flight.
    pub(crate) fn drop_flight(&mut self, at: LinkPlace) {
        if let Some(part) = self.part_mut(at.partition) {
            part.sendings.drop_at(at.link, at.place);
        }
    }

    /// Notes the messages that were sent on a link now. Gives the places of the first of these and behind the last.
    pub(crate) fn note_link(
        &mut self,
        running: &RunningGrid,
        partition: PartitionId,
        link: Link,
        told: &Tale,
    ) -> Result<(usize, usize), Memory> {
        let count = running.in_flight(partition, link).len();
        let now = self.now(told);
        let first = match self.part_mut(partition) {
            Some(part) => part.sendings.grow(link, count, now)?,
            None => count,
        };
        Ok((first, count))
    }

    /// Tells the messages that an end sent now on a link: the first of them, and how many more there are.
    fn tell_sent_on(
        &mut self,
        alloc: Global,
        running: &RunningGrid,
        partition: PartitionId,
        link: Link,
        told: &mut Tale,
    ) -> Result<(), Memory> {
        let (first, count) = self.note_link(running, partition, link, told)?;
        let untold = first.saturating_add(MOST_SENT);
        for place in first..count.min(untold) {
            let at = LinkPlace {
                partition,
                link,
                place,
            };
            if let Some(flight) = self.flight_at(alloc, running, at)? {
                told.push(Happening::Sent(flight))?;
            }
        }
        if count > untold {
            told.push(Happening::SentMore {
                partition,
                from: link.from,
                to: link.to,
                count: count - untold,
            })?;
        }
        Ok(())
    }

    /// Tells the messages that an end sent now. Costs the ends and these messages.
    pub(crate) fn tell_sent(
        &mut self,
        alloc: Global,
        running: &RunningGrid,
        partition: PartitionId,
        from: u8,
        told: &mut Tale,
    ) -> Result<(), Memory> {
        for to in 0..=running.members() {
            self.tell_sent_on(alloc, running, partition, Link { from, to }, told)?;
        }
        Ok(())
    }

    /// Notes the messages that an end sent now. Costs the ends and these messages.
    pub(crate) fn note_sent(
        &mut self,
        running: &RunningGrid,
        partition: PartitionId,
        from: u8,
        told: &Tale,
    ) -> Result<(), Memory> {
        for to in 0..=running.members() {
            self.note_link(running, partition, Link { from, to }, told)?;
        }
        Ok(())
    }

    /// Notes what is in flight in a partition from an end, where messages were delivered that weren't told.
    fn settle_end(
        &mut self,
        running: &RunningGrid,
        partition: PartitionId,
        from: u8,
        told: &Tale,
    ) -> Result<(), Memory> {
        let now = self.now(told);
        let Some(part) = self.part_mut(partition) else {
            return Ok(());
        };
        for to in 0..=running.members() {
            let link = Link { from, to };
            let count = running.in_flight(partition, link).len();
            part.sendings.settle(link, count, now)?;
        }
        Ok(())
    }

    /// Notes what is in flight in a partition to the table service, where it took a message that isn't named.
    pub(crate) fn settle_table(
        &mut self,
        running: &RunningGrid,
        partition: PartitionId,
        told: &Tale,
    ) -> Result<(), Memory> {
        let now = self.now(told);
        let Some(part) = self.part_mut(partition) else {
            return Ok(());
        };
        let to = running.members();
        for from in 0..to {
            let link = Link { from, to };
            let count = running.in_flight(partition, link).len();
            part.sendings.settle(link, count, now)?;
        }
        Ok(())
    }

    /// Notes what is in flight in a partition, where messages were delivered that weren't told.
    pub(crate) fn settle_links(
        &mut self,
        running: &RunningGrid,
        partition: PartitionId,
        told: &Tale,
    ) -> Result<(), Memory> {
        for from in 0..=running.members() {
            self.settle_end(running, partition, from, told)?;
        }
        Ok(())
    }

    /// How many events a partition had since it was asked last.
    pub(crate) fn new_events(&mut self, running: &RunningGrid, partition: PartitionId) -> u32 {
        let events = running.events(partition);
        match self.part_mut(partition) {
            Some(part) => {
                let before = part.events;
                part.events = events;
                events.saturating_sub(before)
            }
            None => 0,
        }
    }

    /// Notes how many events each partition had.
    pub(crate) fn mark_events(&mut self, running: &RunningGrid) {
        for (partition, part) in (0..PARTITIONS).zip(self.parts.iter_mut()) {
            part.events = running.events(partition);
        }
    }

    /// Notes what is in flight in each partition that had events since it was asked last.
    pub(crate) fn settle(&mut self, running: &RunningGrid, told: &Tale) -> Result<(), Memory> {
        for partition in 0..PARTITIONS {
            if self.new_events(running, partition) > 0 {
                self.settle_links(running, partition, told)?;
            }
        }
        Ok(())
    }

    /// Whether the row of that version is one that wasn't told. From now on it was.
    fn is_new(&mut self, partition: PartitionId, version: u32) -> bool {
        match self.part_mut(partition) {
            Some(part) => {
                let before = part.version;
                part.version = version;
                before != version
            }
            None => false,
        }
    }

    /// Tells a partition's row, if the table service made it since it was told last.
    pub(crate) fn tell_row(
        &mut self,
        alloc: Global,
        running: &RunningGrid,
        partition: PartitionId,
        told: &mut Tale,
    ) -> Result<(), Memory> {
        let Some(row) = running.row(partition) else {
            return Ok(());
        };
        if !self.is_new(partition, row.version) {
            return Ok(());
        }
        let mut words = String::new(alloc);
        push_row(&mut words, row)?;
        told.push(Happening::Row {
            partition,
            version: row.version,
            words,
            primary: leader_of(row).map(|(member, _)| member),
        })
    }

    /// Tells the new rows of all partitions, and notes what the table service sent with them.
    pub(crate) fn tell_rows(
        &mut self,
        alloc: Global,
        running: &RunningGrid,
        told: &mut Tale,
    ) -> Result<(), Memory> {
        let table = running.members();
        for partition in 0..PARTITIONS {
            self.tell_row(alloc, running, partition, told)?;
            self.note_sent(running, partition, table, told)?;
        }
        Ok(())
    }
}
