//! Registrations: a client asks a member to tell it of a map's entries, of what a near cache is to give up, or of rows.

ghost use Rattle.std.specs.Prelude.{◌≡◌, ◌<◌, ◌++◌, ℕ, Some, IfOk, OnOk};
ghost use Rattle.event_codecs.specs.SpelledRegistrations.{kind_of_registration};
ghost use Rattle.call_engine.specs.Calls.{Settings};
ghost use Rattle.call_engine.specs.Objects.{partition_object};
ghost use Rattle.replay_run.specs.Runs.{Run, rows_known};
ghost use Rattle.replay_run.specs.Grids.{boxed, AreListening, Holds, IsCounting};
ghost use Rattle.replay_run.specs.LineTold.{all_told};
ghost use Rattle.replay_run.specs.WorldCalls.{IsTo, HasRegistered, first_events};

use crate::grid::Grid;
use crate::messages::{own_answer, tell_message};
use client_codecs::write_void;
use event_codecs::{
    CLUSTER_VIEW_KIND, ENTRY_LISTENER_KIND, INVALIDATION_LISTENER_KIND, Registration, write_rows,
};
use grid_base::{MemberId, Memory, PARTITIONS, PartitionId};
use line_told::Told;
use partition_table::Row;
use std::alloc::Global;

/// The message type of a registration.
fn kind_of(registration: &Registration) -> u32
    ensures { result ≡ kind_of_registration registration.now }
{
    match registration {
        Registration::Entries { .. } => ENTRY_LISTENER_KIND,
        Registration::Invalidations { .. } => INVALIDATION_LISTENER_KIND,
        Registration::Rows { .. } => CLUSTER_VIEW_KIND,
    }
}

impl Grid {
    /// A listener is registered at its connection's member. The registration is answered first; who listens to rows is
    /// then sent all those that the member knows.
    pub(crate) fn register(
        &mut self,
        alloc: Global,
        conn: u32,
        member: MemberId,
        registration: Registration,
        out: &mut Vec<Told>,
    ) -> Result<(), Memory>
        requires member { member < self.old.members }
        requires stands { (settings : Settings) × (r : Run) × (number : ℕ) × Holds (boxed form) settings self.old r
            × AreListening self.old.listeners.items r (Some conn) × IsCounting self.old.connections r conn number }
        ensures { (settings : Settings) (r : Run) (number : ℕ) → Holds (boxed form) settings self.old r → IsTo r conn member
            → AreListening self.old.listeners.items r (Some conn) → IsCounting self.old.connections r conn number
            → OnOk result (HasRegistered (boxed form) settings self.new r conn member number registration out.old.items out.new.items) }
    {
        let reply = write_void(alloc, kind_of(&registration), registration.correlation())?;
        self.tell(conn, reply, out)?;
        self.send_first(alloc, conn, member, &registration, out)?;
        self.listeners[usize::from(member)].add(conn, registration)?;
        Ok(())
    }

    /// Sends a connection that registers for rows all those that its member knows, in one event.
    fn send_first(
        &self,
        alloc: Global,
        conn: u32,
        member: MemberId,
        registration: &Registration,
        out: &mut Vec<Told>,
    ) -> Result<(), Memory>
        requires member { member < self.now.members }
        requires holds { (settings : Settings) × (r : Run) × Holds (boxed form) settings self.now r }
        ensures { (settings : Settings) (r : Run) → Holds (boxed form) settings self.now r
            → OnOk result (out.new.items ≡ out.old.items ++ all_told (first_events (partition_object settings) r conn member registration.now)) }
    {
        let Registration::Rows { correlation } = registration else {
            return Ok(());
        };
        let rows = self.rows_known(alloc, member)?;
        let event = write_rows(alloc, *correlation, rows.as_slice())?;
        tell_message(out, own_answer(self.lines, conn, event))
    }

    /// Copies of the rows that a member knows, in order of partition.
    fn rows_known(&self, alloc: Global, member: MemberId) -> Result<Vec<(PartitionId, Row)>, Memory>
        requires member { member < self.now.members }
        requires holds { (settings : Settings) × (r : Run) × Holds (boxed form) settings self.now r }
        ensures { (settings : Settings) (r : Run) → Holds (boxed form) settings self.now r
            → IfOk result (λ rows. rows.items ≡ rows_known (partition_object settings) r member) }
    {
        let mut rows = Vec::with_capacity(alloc, usize::from(PARTITIONS))?;
        for partition in 0..PARTITIONS {
            let row = self.worlds[usize::from(partition)].known(member);
            rows.push((partition, row.copied(alloc)?))?;
        }
        Ok(rows)
    }
}
