ghost use Rattle.std.specs.Prelude.{◌≡◌, ◌≤◌, [], map, vec_len, IfOk};
ghost use Rattle.partition_protocol.specs.Service.{numbers_below};
ghost use Rattle.masters_protocol.specs.Machine.{opening_member};
ghost use Rattle.master_log.specs.Standing.{StandsFor, size_of};

use grid_base::{MemberId, Memory};
use link_net::Links;
use master_member::Member;
use std::alloc::Global;

/// The masters of one partition: each member's log and what it does as a master, who has crashed, and the messages in
/// flight between members, on links of their own.
///
/// A message is kept as its bytes until it is delivered or lost. What was published is a front of the log of the member
/// that published it, so it is kept as that member's number and a length.
///
/// To contracts the masters stand for a list of the machine's events: they are as the machine's run of them.
#[derive(Debug, Drop)]
pub struct Masters {
    /// How many members there are.
    pub(crate) size: u8,
    pub(crate) members: Vec<Member>,
    /// Which of them have crashed.
    pub(crate) crashed: Vec<bool>,
    pub(crate) links: Links,
    /// Who published last; at the start the first member.
    pub(crate) publisher: MemberId,
    /// How many decisions are published.
    pub(crate) published: usize,
}

impl Masters {
    /// So many members, the first of which serves, with empty logs. Takes memory for each member and for a link from each
    /// to each.
    pub fn new(alloc: Global, members: u8) -> Result<Masters, Memory>
        requires some { 1 ≤ members }
        requires most { members ≤ 8 }
        ensures stands { IfOk result (λ masters. StandsFor masters []) }
        ensures size { IfOk result (λ masters. size_of masters ≡ members) }
    {
        Ok(Masters {
            size: members,
            members: opening_members(alloc, members)?,
            crashed: vec![in alloc; false; usize::from(members)]?,
            links: Links::new(alloc, members)?,
            publisher: 0,
            published: 0,
        })
    }
}

/// The members at the start.
fn opening_members(alloc: Global, size: u8) -> Result<Vec<Member>, Memory>
    ensures len { IfOk result (λ members. vec_len members ≡ size) }
    ensures members { IfOk result (λ members. members.items ≡ map opening_member (numbers_below size)) }
{
    let mut members = Vec::with_capacity(alloc, usize::from(size))?;
    for number in 0..size {
        members.push(Member::new(alloc, number))?;
    }
    Ok(members)
}
