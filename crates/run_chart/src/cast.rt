//! Who appears in a picture, and where.

use grid_base::{MemberId, Memory, PARTITIONS, PartitionId};
use run_tale::{Happening, LineTold};
use std::alloc::Global;

/// Where the first lane stands, which may have labels on its left, and how far the next ones are from one another.
const LEFT: u64 = 200;

const STEP: u64 = 160;

/// A connection's lane, and its member.
#[derive(Clone, Copy)]
struct Client {
    conn: u32,
    member: MemberId,
}

/// A lane by its place among all, and where it stands.
#[derive(Clone, Copy, Debug, PartialEq, Eq)]
pub(crate) struct Lane {
    pub(crate) place: usize,
    pub(crate) x: u64,
}

/// The lanes of a picture: connections in the order in which they were opened, then members, then the table service. And
/// the partitions that it shows.
#[derive(Drop)]
pub(crate) struct Cast {
    clients: Vec<Client>,
    pub(crate) members: u8,
    pub(crate) backups: u8,
    shown: Vec<bool>,
}

/// The lane of that place.
fn lane_at(place: usize) -> Lane {
    let x = LEFT.saturating_add((place as u64).saturating_mul(STEP));
    Lane { place, x }
}

impl Cast {
    /// Who appears in these lines. The partitions that are shown are those that a line names, or in which something was
    /// called.
    pub(crate) fn of(alloc: Global, lines: &[LineTold]) -> Result<Self, Memory> {
        let mut cast = Cast {
            clients: Vec::new(alloc),
            members: 1,
            backups: 0,
            shown: vec![in alloc; false; usize::from(PARTITIONS)]?,
        };
        for line in lines {
            cast.meet_all(line)?;
        }
        Ok(cast)
    }

    /// Takes note of who appears at a line.
    fn meet_all(&mut self, line: &LineTold) -> Result<(), Memory> {
        if let Some(partition) = line.at.partition {
            self.show(partition);
        }
        for told in line.told.as_slice() {
            self.meet(&told.happening)?;
        }
        Ok(())
    }

    fn show(&mut self, partition: PartitionId) {
        if let Some(shown) = self.shown.get_mut(usize::from(partition)) {
            *shown = true;
        }
    }

    /// Takes note of who appears as this happens.
    fn meet(&mut self, happening: &Happening) -> Result<(), Memory> {
        match happening {
            Happening::Made {
                members,
                backups,
                ..
            } => {
                self.members = *members;
                self.backups = *backups;
            }
            Happening::Opened { conn, member } => {
                let (conn, member) = (*conn, *member);
                self.clients.push(Client { conn, member })?;
            }
            Happening::Reached { partition, .. } | Happening::Waits { partition, .. } => {
                self.show(*partition);
            }
            _ => {}
        }
        Ok(())
    }

    /// Whether a partition is shown.
    pub(crate) fn shows(&self, partition: PartitionId) -> bool {
        self.shown
            .get(usize::from(partition))
            .copied()
            .unwrap_or(false)
    }

    /// The partitions that are shown, in order.
    pub(crate) fn partitions(&self, alloc: Global) -> Result<Vec<PartitionId>, Memory> {
        let mut partitions = Vec::new(alloc);
        for partition in 0..PARTITIONS {
            if self.shows(partition) {
                partitions.push(partition)?;
            }
        }
        Ok(partitions)
    }

    /// The lane of a member, or that of the table service behind the last member's.
    pub(crate) fn end(&self, end: u8) -> Lane {
        lane_at(self.clients.len().saturating_add(usize::from(end)))
    }

    /// The lane of the table service.
    pub(crate) fn table(&self) -> Lane {
        self.end(self.members)
    }

    /// The lane of a connection, and that of its member.
    pub(crate) fn client(&self, conn: u32) -> Option<(Lane, Lane)> {
        let place = self.clients.iter().position(|client| client.conn == conn)?;
        let client = self.clients.get(place)?;
        Some((lane_at(place), self.end(client.member)))
    }

    /// The connections, in the order of their lanes.
    pub(crate) fn connections(&self, alloc: Global) -> Result<Vec<u32>, Memory> {
        self.clients.iter().map(|client| client.conn).collect(alloc)
    }
}
