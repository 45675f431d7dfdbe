ghost use Rattle.std.specs.Prelude.{◌≡◌, ◌≤◌, ◌+◌, ◌<◌, [], length, vec_len, vec_capacity, None, IfOk};
ghost use Rattle.partition_table.specs.Rows.{backups_of};
ghost use Rattle.partition_protocol.specs.Node.{acked_by, with_ack};

use grid_base::{MemberId, Memory};
use partition_table::Row;
use std::alloc::Global;
use std::marker::Model;

/// The greatest count of effects that a backup acknowledged.
#[derive(Clone, Copy, Debug)]
pub struct Acknowledged {
    pub member: MemberId,
    pub count: u32,
}

impl Model for Acknowledged {
    ghost use Rattle.partition_protocol.specs.Node.{Acknowledged as ByMember};

    ghost Value = { ByMember };

    ghost view = { λ a. record { member = a.member; count = a.count } };

    ghost inverse = { λ a. record { member = a.member; count = a.count } };
}

/// What the backups of a row acknowledged, with room for each.
#[derive(Debug, Drop)]
pub struct Acks {
    list: Vec<Acknowledged>,
}

impl Model for Acks {
    ghost use Rattle.std.specs.Prelude.{◌≡◌, ◌-◌, length, vec_len, vec_capacity};
    ghost use Rattle.primary_hold.specs.Acks.{AckList};

    ghost Value = { AckList };

    ghost view = { λ a. record { list = a.list.items; spare = vec_capacity a.list - vec_len a.list } };

    ghost invariant = { λ a. vec_len a.list ≡ length a.list.items };
}

impl Acks {
    /// No acknowledgements yet, and room for one of each backup of the row.
    pub fn new(alloc: Global, row: &Row) -> Result<Acks, Memory>
        ensures list { IfOk result (λ acks. acks.list ≡ []) }
        ensures room { IfOk result (λ acks. length (backups_of row.now) ≤ acks.spare) }
    {
        Ok(Acks {
            list: Vec::with_capacity(alloc, row.backups().len())?,
        })
    }

    /// No acknowledgements, and room for none. Takes no memory.
    pub fn none(alloc: Global) -> Acks
        ensures { result.list ≡ [] }
    {
        Acks {
            list: Vec::new(alloc),
        }
    }

    /// The acknowledgements, in the order in which members first acknowledged.
    pub fn as_slice(&self) -> &[Acknowledged]
        ensures { result.now ≡ self.now.list }
    {
        self.list.as_slice()
    }

    /// Keeps the greater count of a member, or its first one, in the room that there is. Goes over the list once.
    pub(crate) fn keep(&mut self, member: MemberId, count: u32)
        requires { acked_by member self.old.list ≡ None → 1 ≤ self.old.spare }
        ensures list { self.new.list ≡ with_ack member count self.old.list }
        ensures room { length self.new.list + self.new.spare ≡ length self.old.list + self.old.spare }
    {
        keep_in(&mut self.list, member, count);
    }
}

/// Keeps the greater count of a member, or its first one, in the room that there is.
fn keep_in(acks: &mut Vec<Acknowledged>, member: MemberId, count: u32)
    requires { acked_by member acks.old.items ≡ None → vec_len acks.old < vec_capacity acks.old }
    ensures list { acks.new.items ≡ with_ack member count acks.old.items }
    ensures capacity { vec_capacity acks.new ≡ vec_capacity acks.old }
{
    for place in 0..acks.len() {
        let had = acks[place];
        if had.member == member {
            let greatest = count.max(had.count);
            acks[place] = Acknowledged {
                member,
                count: greatest,
            };
            return;
        }
    }
    acks.push_reserved(Acknowledged { member, count });
}

/// What a member acknowledged, by the list.
pub(crate) fn acked_by(acks: &[Acknowledged], member: MemberId) -> Option<u32>
    ensures { result ≡ acked_by member acks.now }
{
    match acks {
        [] => None,
        [first, rest @ ..] => {
            if first.member == member {
                Some(first.count)
            } else {
                acked_by(rest, member)
            }
        }
    }
}

/// The version that a primary knew just before the known one, and what was acknowledged in it.
#[derive(Debug, Drop)]
pub(crate) struct Earlier {
    pub(crate) version: u32,
    pub(crate) acks: Acks,
}

impl Model for Earlier {
    ghost use Rattle.partition_protocol.specs.Node.{Earlier as EarlierVersion};

    ghost Value = { EarlierVersion };

    ghost view = { λ e. record { version = e.version; acks = e.acks.list } };
}

impl Earlier {
    pub(crate) fn view(&self) -> EarlierView<'_>
        ensures version { result.version ≡ self.now.version }
        ensures acks { result.acks.now ≡ self.now.acks }
    {
        EarlierView {
            version: self.version,
            acks: self.acks.as_slice(),
        }
    }
}

/// The version before the known one, and what was acknowledged in it.
#[derive(Clone, Copy)]
pub(crate) struct EarlierView<'a> {
    pub(crate) version: u32,
    pub(crate) acks: &'a [Acknowledged],
}
