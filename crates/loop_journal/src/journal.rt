//! The journal of a thread.
ghost use Rattle.std.specs.Prelude.{◌≡◌, ◌≤◌, ◌<◌, ◌++◌, ◌∷◌, [], length, take};
ghost use Rattle.grid_edge.specs.Faults.{HasCause};
ghost use Rattle.grid_edge.specs.Given.{after_piece};
ghost use Rattle.grid_edge.specs.Ready.{IfBytes, UnlessBytes, HasWaited};
ghost use Rattle.loop_journal.specs.declared.entry.Entry.TheVariants.{Read, Written, Started, Finished};

use crate::entry::{Entry, NotedCall};
use ghost_list::GhostList;
use grid_edge::{ReadFault, Ready, ReadySink, ReadySource, WriteFault};
use std::marker::Model;

/// What a thread did for its connections, in the order in which it did it. It has no bytes: contracts alone see it.
///
/// Only `read` and `write` note that bytes came or went, and each does so as it moves them. So their order here is the one
/// in which they were moved.
#[derive(Drop)]
pub struct Journal {
    entries: GhostList<Entry>,
}

impl Model for Journal {
    ghost use Rattle.std.specs.Prelude.{List};
    ghost use Rattle.loop_journal.specs.declared.entry.Entry.{Entry as EntryOf};

    ghost Value = { List EntryOf };

    ghost view = { λ journal. journal.entries.items };
}

impl Journal {
    /// Nothing was done yet.
    pub fn new() -> Journal
        ensures { result ≡ [] }
    {
        Journal {
            entries: GhostList::new(),
        }
    }

    /// Reads from the connection of this number, as `ReadySource::read_ready` does, and notes how many bytes it gave. Costs
    /// that read.
    pub fn read<F: ReadySource>(
        &mut self,
        conn: u32,
        from: &mut F,
        into: &mut [u8],
    ) -> Result<Ready, ReadFault>
        ensures noted { IfBytes result (λ n. self.new ≡ self.old ++ Read conn n ∷ []) }
        ensures none_noted { UnlessBytes result (self.new ≡ self.old) }
        ensures within { IfBytes result (λ n. n ≤ length into.new) }
        ensures given { IfBytes result (λ n. F.given from.new ≡ after_piece (F.given from.old) (length into.new) n (take n into.new)) }
        ensures none_given { UnlessBytes result (F.given from.new ≡ F.given from.old) }
        ensures cause { HasCause (F.faults from.old) (F.faults from.new) result }
        ensures waited { HasWaited (F.unready from.old) (F.unready from.new) result }
    {
        let ready = from.read_ready(into)?;
        if let Ready::Bytes(bytes) = ready {
            self.note(Entry::Read { conn, bytes });
        }
        Ok(ready)
    }

    /// Writes to the connection of this number, as `ReadySink::write_ready` does, and notes how many bytes it took. Costs
    /// that write.
    pub fn write<K: ReadySink>(
        &mut self,
        conn: u32,
        to: &mut K,
        bytes: &[u8],
    ) -> Result<Ready, WriteFault>
        ensures noted { IfBytes result (λ n. self.new ≡ self.old ++ Written conn n ∷ []) }
        ensures none_noted { UnlessBytes result (self.new ≡ self.old) }
        ensures within { IfBytes result (λ n. n ≤ length bytes.now) }
        ensures progress { IfBytes result (λ n. 0 < length bytes.now → 0 < n) }
        ensures bytes { IfBytes result (λ n. K.taken to.new ≡ K.taken to.old ++ take n bytes.now) }
        ensures none { UnlessBytes result (K.taken to.new ≡ K.taken to.old) }
        ensures cause { HasCause (K.faults to.old) (K.faults to.new) result }
        ensures waited { HasWaited (K.unready to.old) (K.unready to.new) result }
    {
        let ready = to.write_ready(bytes)?;
        if let Ready::Bytes(count) = ready {
            self.note(Entry::Written { conn, bytes: count });
        }
        Ok(ready)
    }

    /// Notes that this call was handed over to its worker.
    pub fn started(&mut self, call: NotedCall)
        ensures { self.new ≡ self.old ++ Started call ∷ [] }
    {
        self.note(Entry::Started(call));
    }

    /// Notes that this call's outcome was found.
    pub fn finished(&mut self, call: NotedCall)
        ensures { self.new ≡ self.old ++ Finished call ∷ [] }
    {
        self.note(Entry::Finished(call));
    }

    fn note(&mut self, entry: Entry)
        ensures { self.new ≡ self.old ++ entry ∷ [] }
    {
        self.entries = self.entries.with(&entry);
    }
}
