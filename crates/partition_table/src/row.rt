ghost use Rattle.std.specs.Prelude.{◌≡◌, ◌+◌, ◌<◌, ◌↔◌, [], false, IsTrue, IfOk};
ghost use Rattle.partition_table.specs.RowFacts.{are_distinct, HasDistinctMembers, KeepsDistinct, begins_eligible};
ghost use Rattle.partition_table.specs.Rows.{first_of, is_primary, is_backup, is_in, is_eligible, backups_of, first_live_eligible, initial_row, without, with_joiner, handed, with_eligible, reopened, next_row};

use crate::members::{
    RowMember, RowMembers, begun_by, first_eligible_but, joined, led_by, opening,
};
use grid_base::{MemberId, Memory, PartitionId};
use std::alloc::Global;

/// Who keeps a partition, in which version.
#[derive(Debug, Drop)]
pub struct Row {
    /// One more with each new row of the partition.
    pub version: u32,
    /// The version of the last row that began empty, or 0.
    pub reset: u32,
    /// A lost row has no members.
    pub lost: bool,
    /// The primary first.
    pub members: RowMembers,
}

impl Row {
    /// The opening row of a partition: the member whose number is the partition's modulo `members`
    /// leads, and up to `backups` of the next ones are its backups. Costs as many steps as members.
    pub fn initial(
        alloc: Global,
        partition: PartitionId,
        members: u8,
        backups: u8,
    ) -> Result<Row, Memory>
        ensures row { IfOk result (λ row. row ≡ initial_row partition members backups) }
        ensures distinct { IfOk result HasDistinctMembers }
    {
        let members = opening(alloc, partition, members, backups)?;
        Ok(Row {
            version: 1,
            reset: 0,
            lost: false,
            members,
        })
    }

    /// The first member, or none where the row is lost. Takes no memory.
    pub fn primary(&self) -> Option<MemberId>
        ensures { result ≡ first_of self.now.members }
    {
        self.members.as_slice().first().map(|first| first.member)
    }

    /// Whether the member is the first. Takes no memory.
    pub fn is_primary(&self, member: MemberId) -> bool
        ensures { result ≡ is_primary self.now member }
    {
        match self.members.as_slice() {
            [] => false,
            [first, ..] => first.member == member,
        }
    }

    /// Whether the member keeps the partition, in either role. Takes no memory.
    pub fn contains(&self, member: MemberId) -> bool
        ensures { result ≡ is_in self.now member }
    {
        self.members
            .as_slice()
            .iter()
            .map(|listed| listed.member)
            .any(|listed| member == listed)
    }

    /// Whether the member keeps the partition and isn't its primary. Takes no memory.
    pub fn is_backup(&self, member: MemberId) -> bool
        ensures { result ≡ is_backup self.now member }
    {
        !self.is_primary(member) && self.contains(member)
    }

    /// Whether the member may lead the partition. Takes no memory.
    pub fn is_eligible(&self, member: MemberId) -> bool
        ensures { result ≡ is_eligible self.now member }
    {
        self.members
            .as_slice()
            .iter()
            .any(|listed| listed.member == member && listed.eligible)
    }

    /// The members after the primary, in order. Takes no memory.
    pub fn backups(&self) -> &[RowMember]
        ensures { result.now ≡ backups_of self.now }
    {
        match self.members.as_slice() {
            [] => &[],
            [_, backups @ ..] => backups,
        }
    }

    /// The first member that may lead and isn't among the detected ones. Takes no memory.
    pub fn first_live_eligible(&self, detected: &[MemberId]) -> Option<MemberId>
        ensures { result ≡ first_live_eligible self.now detected.now }
    {
        self.members
            .as_slice()
            .iter()
            .find(|listed| listed.eligible && !detected.contains(&listed.member))
            .map(|listed| listed.member)
    }

    /// Lets a joiner lead from now on, in the same version. Takes no memory.
    pub fn mark_eligible(&mut self, member: MemberId)
        ensures { self.new ≡ with_eligible self.old member }
    {
        self.members.mark_eligible(member);
    }

    /// The same row again, at the cost of its members' number.
    pub fn copied(&self, alloc: Global) -> Result<Row, Memory>
        ensures { IfOk result (λ copy. copy ≡ self.now) }
    {
        Ok(Row {
            version: self.version,
            reset: self.reset,
            lost: self.lost,
            members: RowMembers::copied_from(alloc, self.members.as_slice())?,
        })
    }

    /// Without that member: the first eligible of the others leads, and the row is lost if none is.
    /// Goes over the members twice.
    pub fn without(&self, alloc: Global, member: MemberId) -> Result<Row, Memory>
        requires { self.now.version < u32.MAX }
        ensures row { IfOk result (λ row. row ≡ without self.now member) }
        ensures version { IfOk result (λ row. row.version ≡ self.now.version + 1) }
        ensures lost { IfOk result (λ row. IsTrue row.lost ↔ (row.members ≡ [])) }
        ensures gone { IfOk result (λ row. is_in row member ≡ false) }
        ensures led { IfOk result (λ row. row.lost ≡ false → IsTrue (begins_eligible row.members)) }
        ensures distinct { IfOk result (KeepsDistinct self.now) }
    {
        let members = self.members.as_slice();
        match first_eligible_but(members, member) {
            None => Ok(self.next(RowMembers::from_vec(Vec::new(alloc)))),
            Some(leader) => Ok(self.next(led_by(alloc, leader, members, member)?)),
        }
    }

    /// With that member last, as one that may not lead yet. Goes over the members once.
    pub fn with_joiner(&self, alloc: Global, member: MemberId) -> Result<Row, Memory>
        requires { self.now.version < u32.MAX }
        ensures row { IfOk result (λ row. row ≡ with_joiner self.now member) }
        ensures version { IfOk result (λ row. row.version ≡ self.now.version + 1) }
        ensures lost { IfOk result (λ row. IsTrue row.lost ↔ (row.members ≡ [])) }
        ensures distinct { is_in self.now member ≡ false → IfOk result (KeepsDistinct self.now) }
    {
        Ok(self.next(joined(alloc, self.members.as_slice(), member)?))
    }

    /// Handed over: `from` leaves, and `to` leads. Goes over the members once.
    pub fn handed(&self, alloc: Global, from: MemberId, to: MemberId) -> Result<Row, Memory>
        requires { self.now.version < u32.MAX }
        ensures row { IfOk result (λ row. row ≡ handed self.now from to) }
        ensures version { IfOk result (λ row. row.version ≡ self.now.version + 1) }
        ensures lost { IfOk result (λ row. IsTrue row.lost ↔ (row.members ≡ [])) }
        ensures distinct { IfOk result (KeepsDistinct self.now) }
    {
        let leader = RowMember {
            member: to,
            eligible: true,
        };
        Ok(self.next(led_by(alloc, leader, self.members.as_slice(), from)?))
    }

    /// Reopened by these members: the row begins empty, and its first member alone may lead.
    /// Goes over the members once.
    pub fn reopened(&self, alloc: Global, members: &[MemberId]) -> Result<Row, Memory>
        requires { self.now.version < u32.MAX }
        ensures row { IfOk result (λ row. row ≡ reopened self.now members.now) }
        ensures version { IfOk result (λ row. row.version ≡ self.now.version + 1) }
        ensures reset { IfOk result (λ row. row.reset ≡ row.version) }
        ensures distinct { IsTrue (are_distinct members.now) → IfOk result HasDistinctMembers }
    {
        let version = self.version + 1;
        Ok(Row {
            version,
            reset: version,
            lost: false,
            members: begun_by(alloc, members)?,
        })
    }

    fn next(&self, members: RowMembers) -> Row
        requires { self.now.version < u32.MAX }
        ensures { result ≡ next_row self.now members }
    {
        Row {
            version: self.version + 1,
            reset: self.reset,
            lost: members.is_empty(),
            members,
        }
    }
}
