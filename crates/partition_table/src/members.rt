ghost use Rattle.std.specs.Prelude.{◌≡◌, ◌↔◌, length, vec_len, map, IsTrue, ◌∷◌, [], ◌++◌, false, IfOk};
ghost use Rattle.partition_table.specs.Rows.{marked, others, first_eligible, eligible_member, members_from, with_backups, begun_by as members_begun_by};

use grid_base::{MemberId, Memory, PartitionId};
use std::alloc::Global;
use std::iter;
use std::marker::Model;

/// A member of a row.
#[derive(Clone, Copy, Debug, PartialEq, Eq)]
pub struct RowMember {
    pub member: MemberId,
    /// Whether it may lead the partition.
    pub eligible: bool,
}

/// An owned list of the members of a row, the primary first.
#[derive(Debug, Drop)]
pub struct RowMembers {
    listed: Vec<RowMember>,
}

impl Model for RowMembers {
    ghost use Rattle.std.specs.Prelude.{◌≡◌, List, length, vec_len};
    ghost use Rattle.partition_table.specs.declared.members.RowMember.{RowMember};

    ghost Value = { List RowMember };

    ghost view = { λ r. r.listed.items };

    ghost invariant = { λ r. vec_len r.listed ≡ length r.listed.items };
}

impl RowMembers {
    /// A copy of these members, at the cost of their number.
    pub fn copied_from(alloc: Global, listed: &[RowMember]) -> Result<Self, Memory>
        ensures { IfOk result (λ copy. copy ≡ listed.now) }
    {
        Ok(RowMembers {
            listed: Vec::from_slice(alloc, listed)?,
        })
    }

    /// Takes the list over, in constant time and with no memory.
    pub fn from_vec(listed: Vec<RowMember>) -> Self
        ensures { result ≡ listed.items }
    {
        RowMembers { listed }
    }

    /// Gives the list back, in constant time and with no memory.
    pub fn into_vec(self) -> Vec<RowMember>
        ensures { result.items ≡ self }
    {
        self.listed
    }

    /// How many members there are.
    pub fn len(&self) -> usize
        ensures { result ≡ length self.now }
    {
        self.listed.len()
    }

    /// Whether there are none.
    pub fn is_empty(&self) -> bool
        ensures { IsTrue result ↔ (self.now ≡ []) }
    {
        self.listed.is_empty()
    }

    /// The members in order, the primary first.
    pub fn as_slice(&self) -> &[RowMember]
        ensures { result.now ≡ self.now }
    {
        self.listed.as_slice()
    }

    /// Lets that member lead, in one pass and with no memory.
    pub fn mark_eligible(&mut self, member: MemberId)
        ensures { self.new ≡ map (marked member) self.old }
    {
        for listed in self.listed.iter_mut() {
            listed.eligible |= listed.member == member;
        }
    }
}

/// Of so many members, the one whose number is the partition's modulo theirs, and those that follow.
pub(crate) fn opening(
    alloc: Global,
    partition: PartitionId,
    members: u8,
    backups: u8,
) -> Result<RowMembers, Memory>
    ensures { let all = with_backups backups (members_from members members partition) in
        IfOk result (λ opening. opening ≡ map eligible_member all) }
{
    let count = members.min(backups.saturating_add(1));
    let mut opening = Vec::new(alloc);
    for k in 0..count {
        let member = (u32::from(partition) + u32::from(k)) % u32::from(members);
        opening.push(RowMember {
            member: member as MemberId,
            eligible: true,
        })?;
    }
    Ok(RowMembers::from_vec(opening))
}

/// The first of the members but `leaving` that may lead.
pub(crate) fn first_eligible_but(members: &[RowMember], leaving: MemberId) -> Option<RowMember>
    ensures { result ≡ first_eligible (others leaving members.now) }
{
    members
        .iter()
        .copied()
        .filter(|listed| listed.member != leaving)
        .find(|listed| listed.eligible)
}

/// The leader, and then the others but `leaving`.
pub(crate) fn led_by(
    alloc: Global,
    leader: RowMember,
    members: &[RowMember],
    leaving: MemberId,
) -> Result<RowMembers, Memory>
    ensures { IfOk result (λ led. led ≡ leader ∷ others leader.member (others leaving members.now)) }
{
    let led = iter::once(leader).chain(
        members
            .iter()
            .copied()
            .filter(|listed| listed.member != leaving)
            .filter(|listed| listed.member != leader.member),
    );
    Ok(RowMembers::from_vec(led.collect(alloc)?))
}

/// The members, and then one more that may not lead yet.
pub(crate) fn joined(
    alloc: Global,
    members: &[RowMember],
    member: MemberId,
) -> Result<RowMembers, Memory>
    ensures { IfOk result (λ all. all ≡ members.now ++ record { member = member; eligible = false } ∷ []) }
{
    let joiner = RowMember {
        member,
        eligible: false,
    };
    let all = members.iter().copied().chain(iter::once(joiner));
    Ok(RowMembers::from_vec(all.collect(alloc)?))
}

/// The first of these may lead, and the others not yet.
pub(crate) fn begun_by(alloc: Global, members: &[MemberId]) -> Result<RowMembers, Memory>
    ensures { IfOk result (λ begun. begun ≡ members_begun_by members.now) }
{
    match members {
        [] => Ok(RowMembers::from_vec(Vec::new(alloc))),
        [leader, others @ ..] => begun_with(alloc, *leader, others),
    }
}

fn begun_with(alloc: Global, leader: MemberId, others: &[MemberId]) -> Result<RowMembers, Memory>
    ensures { IfOk result (λ begun. begun ≡ members_begun_by (leader ∷ others.now)) }
{
    let leader = RowMember {
        member: leader,
        eligible: true,
    };
    let others = others.iter().copied().map(|member| RowMember {
        member,
        eligible: false,
    });
    Ok(RowMembers::from_vec(iter::once(leader).chain(others).collect(alloc)?))
}
