ghost use Rattle.std.specs.Prelude.{◌≡◌, ◌↔◌, ◌++◌, ◌∷◌, [], length, IsTrue, OnOk, OnErr};
ghost use Rattle.member_wire.specs.Spelling.{spelling, LengthsFit};

use crate::message::MemberMessage;
use crate::writing::{bridge_message, effect_message, row_message, sync_message, write_member};
use grid_base::{Bytes, MemberId, Memory};
use partition_table::Row;
use std::alloc::Global;
use std::marker::Model;

/// Messages on their way out, in the order in which they are sent: to whom, and their bytes.
#[derive(Debug, Drop)]
pub struct Outbox {
    list: Vec<(MemberId, Bytes)>,
}

impl Model for Outbox {
    ghost use Rattle.std.specs.Prelude.{◌≡◌, ℕ, List, length, vec_len};

    ghost Value = { List (ℕ × List ℕ) };

    ghost view = { λ o. o.list.items };

    ghost invariant = { λ o. vec_len o.list ≡ length o.list.items };
}

impl Outbox {
    /// Nothing to send. Takes no memory.
    pub fn new(alloc: Global) -> Self
        ensures { result ≡ [] }
    {
        Outbox {
            list: Vec::new(alloc),
        }
    }

    /// Takes the list over, in constant time and with no memory.
    pub fn from_vec(list: Vec<(MemberId, Bytes)>) -> Self
        ensures { result ≡ list.items }
    {
        Outbox { list }
    }

    /// Gives the list back, in constant time and with no memory.
    pub fn into_vec(self) -> Vec<(MemberId, Bytes)>
        ensures { result.items ≡ self }
    {
        self.list
    }

    /// How many messages there are.
    pub fn len(&self) -> usize
        ensures { result ≡ length self.now }
    {
        self.list.len()
    }

    /// Whether there are none.
    pub fn is_empty(&self) -> bool
        ensures { IsTrue result ↔ (self.now ≡ []) }
    {
        self.list.is_empty()
    }

    /// The messages in order.
    pub fn as_slice(&self) -> &[(MemberId, Bytes)]
        ensures { result.now ≡ self.now }
    {
        self.list.as_slice()
    }

    /// Puts written bytes last. Want of memory leaves all as it was, and drops the bytes.
    pub fn push(&mut self, to: MemberId, bytes: Bytes) -> Result<(), Memory>
        ensures ok { OnOk result (self.new ≡ self.old ++ (to, bytes) ∷ []) }
        ensures err { OnErr result (self.new ≡ self.old) }
    {
        self.list.push((to, bytes))?;
        Ok(())
    }

    /// Writes a message and puts it last, at the cost of its bytes. A message that no bytes can carry, for contents of
    /// more than 4,294,967,295 bytes or a row of more than 255 members, is answered as want of memory, which leaves
    /// all as it was.
    pub fn write(
        &mut self,
        alloc: Global,
        to: MemberId,
        message: &MemberMessage,
    ) -> Result<(), Memory>
        ensures ok { OnOk result (self.new ≡ self.old ++ (to, spelling message.now) ∷ []) }
        ensures fits { OnOk result (LengthsFit message.now) }
        ensures err { OnErr result (self.new ≡ self.old) }
    {
        let bytes = write_member(alloc, message)?;
        self.push(to, bytes)
    }

    /// Writes a row's message and puts it last, as `write` does, with no copy of the row.
    pub fn write_row(&mut self, alloc: Global, to: MemberId, row: &Row) -> Result<(), Memory>
        ensures ok { OnOk result (self.new ≡ self.old ++ (to, spelling (MemberMessage.NewRow row.now)) ∷ []) }
        ensures fits { OnOk result (LengthsFit (MemberMessage.NewRow row.now)) }
        ensures err { OnErr result (self.new ≡ self.old) }
    {
        let bytes = row_message(alloc, row)?;
        self.push(to, bytes)
    }

    /// Writes a message of whole contents and puts it last, as `write` does, with no copy of the row or the contents.
    pub fn write_sync(
        &mut self,
        alloc: Global,
        to: MemberId,
        row: &Row,
        count: u32,
        snapshot: &Bytes,
    ) -> Result<(), Memory>
        ensures ok { let bytes = spelling (MemberMessage.Sync row.now count snapshot.now) in
            OnOk result (self.new ≡ self.old ++ (to, bytes) ∷ []) }
        ensures fits { OnOk result (LengthsFit (MemberMessage.Sync row.now count snapshot.now)) }
        ensures err { OnErr result (self.new ≡ self.old) }
    {
        let bytes = sync_message(alloc, row, count, snapshot)?;
        self.push(to, bytes)
    }

    /// Writes an effect's message and puts it last, as `write` does, with no copy of the effect.
    pub fn write_effect(
        &mut self,
        alloc: Global,
        to: MemberId,
        version: u32,
        number: u32,
        effect: &Bytes,
    ) -> Result<(), Memory>
        ensures ok { let bytes = spelling (MemberMessage.Effect version number effect.now) in
            OnOk result (self.new ≡ self.old ++ (to, bytes) ∷ []) }
        ensures fits { OnOk result (LengthsFit (MemberMessage.Effect version number effect.now)) }
        ensures err { OnErr result (self.new ≡ self.old) }
    {
        let bytes = effect_message(alloc, version, number, effect)?;
        self.push(to, bytes)
    }

    /// Writes a bridge's message and puts it last, as `write` does, with no copy of the row.
    pub fn write_bridge(
        &mut self,
        alloc: Global,
        to: MemberId,
        row: &Row,
        base: u32,
        count: u32,
    ) -> Result<(), Memory>
        ensures ok { let bytes = spelling (MemberMessage.Bridge row.now base count) in
            OnOk result (self.new ≡ self.old ++ (to, bytes) ∷ []) }
        ensures fits { OnOk result (LengthsFit (MemberMessage.Bridge row.now base count)) }
        ensures err { OnErr result (self.new ≡ self.old) }
    {
        let bytes = bridge_message(alloc, row, base, count)?;
        self.push(to, bytes)
    }
}
