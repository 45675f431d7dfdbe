ghost use Rattle.std.specs.Prelude.{◌≡◌, IfOk};
ghost use Rattle.event_codecs.specs.declared.seen.SeenRow.{SeenRow as SeenRowOf};

use grid_base::{MemberId, Memory, PartitionId};
use std::alloc::Global;
use std::marker::Model;

/// The members of a row that a client is told, the primary first.
#[derive(Debug, Drop)]
pub struct SeenMembers {
    list: Vec<MemberId>,
}

impl Model for SeenMembers {
    ghost use Rattle.std.specs.Prelude.{ℕ, List};

    ghost Value = { List ℕ };

    ghost view = { λ members. members.list.items };
}

impl SeenMembers {
    /// A copy of these members, at the cost of their number.
    pub fn copied_from(alloc: Global, members: &[MemberId]) -> Result<Self, Memory>
        ensures { IfOk result (λ copy. copy ≡ members.now) }
    {
        Ok(SeenMembers {
            list: Vec::from_slice(alloc, members)?,
        })
    }

    /// The members of a `Vec`, which is taken over whole. Takes no memory.
    pub fn from_vec(list: Vec<MemberId>) -> Self
        ensures { result ≡ list.items }
    {
        SeenMembers { list }
    }

    /// The members as a `Vec` again. Takes no memory.
    pub fn into_vec(self) -> Vec<MemberId>
        ensures { result.items ≡ self }
    {
        self.list
    }

    pub fn as_slice(&self) -> &[MemberId]
        ensures { result.now ≡ self.now }
    {
        self.list.as_slice()
    }
}

/// A row as a client is told it: without its reset, and without who may lead.
#[derive(Debug, Drop)]
pub struct SeenRow {
    pub partition: PartitionId,
    pub version: u32,
    pub lost: bool,
    pub members: SeenMembers,
}

/// The rows of an event, in its order.
#[derive(Debug, Drop)]
pub struct SeenRows {
    list: Vec<SeenRow>,
}

impl Model for SeenRows {
    ghost use Rattle.std.specs.Prelude.{List};
    ghost use Rattle.event_codecs.specs.declared.seen.SeenRow.{SeenRow as SeenRowOf};

    ghost Value = { List SeenRowOf };

    ghost view = { λ rows. rows.list.items };
}

impl SeenRows {
    /// The rows of a `Vec`, which is taken over whole. Takes no memory.
    pub fn from_vec(list: Vec<SeenRow>) -> Self
        ensures { result ≡ list.items }
    {
        SeenRows { list }
    }

    /// The rows as a `Vec` again. Takes no memory.
    pub fn into_vec(self) -> Vec<SeenRow>
        ensures { result.items ≡ self }
    {
        self.list
    }

    pub fn as_slice(&self) -> &[SeenRow]
        ensures { result.now ≡ self.now }
    {
        self.list.as_slice()
    }
}
