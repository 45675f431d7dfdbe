ghost use Rattle.std.specs.Prelude.{◌≡◌, ◌==◌, nat_lt, not, ◌&&◌, ◌||◌, length};
ghost use Rattle.std.specs.List.{list_any};
ghost use Rattle.partition_table.specs.Rows.{is_among};
ghost use Rattle.masters_protocol.specs.Machine.{opening_member};
ghost use Rattle.masters_protocol.specs.Members.{is_master, is_serving, is_stored, has_stored, counts_of, tells_of};

use crate::counts::Counts;
use crate::peers::is_peer;
use crate::role::Role;
use crate::tells::Tells;
use grid_base::{MemberId, Memory};
use master_wire::Decision;
use std::alloc::Global;
use std::marker::Model;

/// A member's part in the mastership of one partition.
#[derive(Debug, Drop)]
pub struct Member {
    /// The members of which it was told that they crashed.
    pub(crate) told: Vec<MemberId>,
    /// The greatest term that it has seen.
    pub(crate) seen: u8,
    pub(crate) log: Vec<Decision>,
    pub(crate) role: Role,
}

impl Model for Member {
    ghost use Rattle.std.specs.Prelude.{◌≡◌, length, vec_len};
    ghost use Rattle.masters_protocol.specs.Members.{Member};
    ghost use Rattle.master_wire.specs.declared.decision.Decision.{Decision};

    ghost Value = { Member Decision };

    ghost use Rattle.master_member.specs.Roles.{role_of};

    ghost view = { λ m. record { told = m.told.items; seen = m.seen; log = m.log.items; role = role_of m.role } };

    ghost invariant = { λ m. vec_len m.log ≡ length m.log.items };
}

impl Member {
    /// A member as it begins. The first one serves.
    pub fn new(alloc: Global, number: MemberId) -> Member
        ensures { result ≡ opening_member number }
    {
        let role = if number == 0 {
            Role::Serving {
                counts: Counts::new(alloc),
            }
        } else {
            Role::Following
        };
        Member {
            told: Vec::new(alloc),
            seen: 0,
            log: Vec::new(alloc),
            role,
        }
    }

    pub fn log(&self) -> &[Decision]
        ensures { result.now ≡ self.now.log }
    {
        self.log.as_slice()
    }

    pub fn is_serving(&self) -> bool
        ensures { result ≡ is_serving self.now.role }
    {
        matches!(&self.role, Role::Serving { .. })
    }

    pub fn is_master(&self) -> bool
        ensures { result ≡ is_master self.now.role }
    {
        !matches!(&self.role, Role::Following)
    }

    /// Whether its log, or one that it was told as a gathering master, has more decisions than that.
    pub fn is_ahead(&self, published: usize) -> bool
        ensures { result ≡ (nat_lt published (length self.now.log) || list_any (λ told. nat_lt published (length told.log)) (tells_of self.now.role)) }
    {
        published < self.log.len() || self.has_longer_tell(published)
    }

    fn has_longer_tell(&self, published: usize) -> bool
        ensures { result ≡ list_any (λ told. nat_lt published (length told.log)) (tells_of self.now.role) }
    {
        match &self.role {
            Role::Gathering { tells } => tells.has_longer(published),
            _ => false,
        }
    }

    /// Whether it was told that another one has crashed.
    pub fn was_told(&self, crashed: MemberId) -> bool
        ensures { result ≡ is_among self.now.told crashed }
    {
        self.told.contains(&crashed)
    }

    fn is_peer(&self, number: MemberId, other: MemberId) -> bool
        ensures { result ≡ (not (other == number) && not (is_among self.now.told other)) }
    {
        is_peer(number, self.told.as_slice(), other)
    }

    fn has_stored_all(&self, other: MemberId) -> bool
        ensures { result ≡ has_stored (length self.now.log) (counts_of self.now.role) other }
    {
        match &self.role {
            Role::Serving { counts } => counts.has_stored(self.log.len(), other),
            _ => false,
        }
    }

    /// Whether it serves, and each of its peers has stored all of its log. Goes over the members, and takes no memory.
    pub fn is_stored(&self, size: u8, number: MemberId) -> bool
        ensures { result ≡ is_stored size number self.now }
    {
        let mut stored = self.is_serving();
        for other in 0..size {
            if self.is_peer(number, other) && !self.has_stored_all(other) {
                stored = false;
            }
        }
        stored
    }
}
