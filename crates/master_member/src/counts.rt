ghost use Rattle.std.specs.Prelude.{◌≡◌, ◌==◌, not, [], filter, IfOk, OnOk, OnErr};
ghost use Rattle.std.specs.List.{position_or_len};
ghost use Rattle.masters_protocol.specs.Members.{with_count, has_stored};

use grid_base::{MemberId, Memory};
use std::alloc::Global;
use std::marker::Model;

/// The greatest length that a member has stored in a master's term.
#[derive(Clone, Copy, Debug)]
pub struct StoredLength {
    member: MemberId,
    count: u32,
}

impl Model for StoredLength {
    ghost use Rattle.masters_protocol.specs.Members.{StoredLength};

    ghost Value = { StoredLength };

    ghost view = { λ s. record { member = s.member; count = s.count } };

    ghost inverse = { λ s. record { member = s.member; count = s.count } };
}

impl StoredLength {
    pub fn member(self) -> MemberId
        ensures { result ≡ self.member }
    {
        self.member
    }

    pub fn count(self) -> u32
        ensures { result ≡ self.count }
    {
        self.count
    }
}

/// What a serving master's peers have stored, one length of each.
#[derive(Debug, Drop)]
pub struct Counts {
    list: Vec<StoredLength>,
}

impl Model for Counts {
    ghost use Rattle.std.specs.Prelude.{◌≡◌, List, length, vec_len};
    ghost use Rattle.masters_protocol.specs.Members.{StoredLength};

    ghost Value = { List StoredLength };

    ghost view = { λ c. c.list.items };

    ghost invariant = { λ c. vec_len c.list ≡ length c.list.items };
}

impl Counts {
    /// Nobody has stored anything yet. Takes no memory.
    pub fn new(alloc: Global) -> Counts
        ensures { result ≡ [] }
    {
        Counts {
            list: Vec::new(alloc),
        }
    }

    /// Whether a member has stored so much.
    pub fn has_stored(&self, length: usize, member: MemberId) -> bool
        ensures { result ≡ has_stored length self.now member }
    {
        self.list.iter().any(|stored| stored.member() == member
            && length <= stored.count() as usize)
    }

    /// Which of these members haven't stored so much.
    pub fn behind(
        &self,
        alloc: Global,
        length: usize,
        members: &[MemberId],
    ) -> Result<Vec<MemberId>, Memory>
        ensures { IfOk result (λ behind. behind.items ≡ filter (λ m. not (has_stored length self.now m)) members.now) }
    {
        let mut behind = Vec::with_capacity(alloc, members.len())?;
        for member in members {
            if !self.has_stored(length, *member) {
                behind.push(*member)?;
            }
        }
        Ok(behind)
    }

    /// Where the length stands that a member has stored, or would stand.
    fn place_of(&self, member: MemberId) -> usize
        ensures { result ≡ position_or_len (λ stored. stored.member == member) self.now }
    {
        self.list
            .iter()
            .position(|stored| stored.member() == member)
            .unwrap_or(self.list.len())
    }

    /// A member has stored so much; the greatest is kept. Want of memory changes nothing.
    #[tactic(auto, using(crate::proofs::Keeping::counted_again, crate::proofs::Keeping::counted_first))]
    pub fn put(&mut self, member: MemberId, length: u32) -> Result<(), Memory>
        ensures ok { OnOk result (self.new ≡ with_count member length self.old) }
        ensures err { OnErr result (self.new ≡ self.old) }
    {
        let at = self.place_of(member);
        if at < self.list.len() {
            let count = length.max(self.list[at].count());
            self.list[at] = StoredLength { member, count };
        } else {
            let count = length;
            self.list.push(StoredLength { member, count })?;
        }
        Ok(())
    }
}
