//! The calls that wait, as the lines of a run show them: each waits until it is answered or held, or leaves unanswered.

use crate::notes::Notes;
use grid_base::{CallId, MemberId, Memory, PARTITIONS, PartitionId};
use run_tale::{Happening, Tale};
use running_grid::RunningGrid;
use std::alloc::Global;

/// Where a call waits.
#[derive(Clone, Copy, Debug)]
pub(crate) struct WaitsAt {
    pub(crate) partition: PartitionId,
    pub(crate) member: MemberId,
}

impl WaitsAt {
    /// Whether the call was executed there, and its answer is held.
    pub(crate) fn holds(self, running: &RunningGrid, id: CallId) -> bool {
        match running.world(self.partition) {
            Some(world) => world.holds(self.member, id),
            None => false,
        }
    }

    /// Whether its member takes steps.
    fn is_live(self, running: &RunningGrid) -> bool {
        match running.world(self.partition) {
            Some(world) => world.is_live(self.member),
            None => false,
        }
    }
}

impl Notes {
    /// Tells that a call waits.
    pub(crate) fn tell_waits(
        &mut self,
        id: CallId,
        at: WaitsAt,
        told: &mut Tale,
    ) -> Result<(), Memory> {
        self.waiters.insert(id, at)?;
        told.push(Happening::Waits {
            conn: id.conn,
            number: id.number,
            partition: at.partition,
            member: at.member,
        })
    }

    /// Whether a connection has closed.
    fn has_closed(&self, conn: u32) -> bool {
        self.clients.get(conn).is_some_and(|client| client.closed)
    }

    /// What became of a call that waited and wasn't answered, if it waits no more.
    fn end_of(&self, running: &RunningGrid, id: CallId, at: WaitsAt) -> Option<Happening> {
        let CallId { conn, number } = id;
        if self.has_closed(conn) || !at.is_live(running) {
            return Some(Happening::Left { conn, number });
        }
        if at.holds(running, id) {
            let member = at.member;
            return Some(Happening::Held {
                conn,
                number,
                member,
            });
        }
        None
    }

    /// Tells which calls wait no more, of those that weren't answered.
    pub(crate) fn tell_turns(
        &mut self,
        alloc: Global,
        running: &RunningGrid,
        told: &mut Tale,
    ) -> Result<(), Memory> {
        let mut gone = Vec::new(alloc);
        for (id, at) in self.waiters.iter() {
            if let Some(end) = self.end_of(running, *id, *at) {
                told.go_on();
                told.push(end)?;
                gone.push(*id)?;
            }
        }
        for id in gone {
            self.waiters.remove(&id);
        }
        Ok(())
    }

    /// Tells what a member sent and answered as its clock was set, where calls wait.
    pub(crate) fn tell_clock_turns(
        &mut self,
        alloc: Global,
        running: &RunningGrid,
        member: MemberId,
        text: &str,
        told: &mut Tale,
    ) -> Result<(), Memory> {
        if self.waiters.is_empty() {
            return Ok(());
        }
        for partition in 0..PARTITIONS {
            self.tell_sent(alloc, running, partition, member, told)?;
        }
        self.tell_appended(alloc, text, told)
    }
}
