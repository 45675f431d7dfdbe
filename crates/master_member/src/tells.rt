ghost use Rattle.std.specs.Prelude.{◌≡◌, ◌==◌, nat_lt, not, [], filter, length, IfOk, OnOk, OnErr};
ghost use Rattle.std.specs.List.{list_all, list_any, position_or_len};
ghost use Rattle.masters_protocol.specs.Members.{with_tell, has_told, longer, longest};

use grid_base::{MemberId, Memory};
use master_wire::Decision;
use std::alloc::Global;
use std::marker::Model;

/// A log that a member told a gathering master.
#[derive(Debug, Drop)]
pub struct ToldLog {
    member: MemberId,
    log: Vec<Decision>,
}

impl Model for ToldLog {
    ghost use Rattle.std.specs.Prelude.{◌≡◌, length, vec_len};
    ghost use Rattle.masters_protocol.specs.Members.{ToldLog};
    ghost use Rattle.master_wire.specs.declared.decision.Decision.{Decision};

    ghost Value = { ToldLog Decision };

    ghost view = { λ t. record { member = t.member; log = t.log.items } };

    ghost invariant = { λ t. vec_len t.log ≡ length t.log.items };
}

impl ToldLog {
    pub fn member(&self) -> MemberId
        ensures { result ≡ self.now.member }
    {
        self.member
    }

    pub fn log(&self) -> &[Decision]
        ensures { result.now ≡ self.now.log }
    {
        self.log.as_slice()
    }

    /// Gives the log up.
    pub fn into_log(self) -> Vec<Decision>
        ensures { result.items ≡ self.log }
    {
        self.log
    }
}

/// The logs that a gathering master was told, one of each member.
#[derive(Debug, Drop)]
pub struct Tells {
    list: Vec<ToldLog>,
}

impl Model for Tells {
    ghost use Rattle.std.specs.Prelude.{◌≡◌, List, length, vec_len};
    ghost use Rattle.masters_protocol.specs.Members.{ToldLog};
    ghost use Rattle.master_wire.specs.declared.decision.Decision.{Decision};

    ghost Value = { List (ToldLog Decision) };

    ghost view = { λ t. t.list.items };

    ghost invariant = { λ t. vec_len t.list ≡ length t.list.items };
}

/// The longer log, the first among equals.
pub fn longer<'a>(first: &'a [Decision], second: &'a [Decision]) -> &'a [Decision]
    ensures { result.now ≡ longer first.now second.now }
{
    if first.len() < second.len() {
        second
    } else {
        first
    }
}

/// The longest of a log and of those told.
fn longest_of<'a>(own: &'a [Decision], tells: &'a [ToldLog]) -> &'a [Decision]
    ensures { result.now ≡ longest own.now tells.now }
{
    let mut longest = own;
    for told in tells {
        longest = longer(longest, told.log());
    }
    longest
}

impl Tells {
    /// Nobody has told yet. Takes no memory.
    pub fn new(alloc: Global) -> Tells
        ensures { result ≡ [] }
    {
        Tells {
            list: Vec::new(alloc),
        }
    }

    /// Whether a member has told.
    pub fn has_told(&self, member: MemberId) -> bool
        ensures { result ≡ has_told self.now member }
    {
        self.list.iter().any(|told| told.member() == member)
    }

    /// Whether each of these members has told.
    pub fn have_told(&self, members: &[MemberId]) -> bool
        ensures { result ≡ list_all (has_told self.now) members.now }
    {
        members.iter().all(|member| self.has_told(*member))
    }

    /// Which of these members haven't told.
    pub fn silent(&self, alloc: Global, members: &[MemberId]) -> Result<Vec<MemberId>, Memory>
        ensures { IfOk result (λ silent. silent.items ≡ filter (λ m. not (has_told self.now m)) members.now) }
    {
        let mut silent = Vec::with_capacity(alloc, members.len())?;
        for member in members {
            if !self.has_told(*member) {
                silent.push(*member)?;
            }
        }
        Ok(silent)
    }

    /// Whether a log of more decisions than that was told.
    pub fn has_longer(&self, decisions: usize) -> bool
        ensures { result ≡ list_any (λ told. nat_lt decisions (length told.log)) self.now }
    {
        self.list.iter().any(|told| decisions < told.log().len())
    }

    /// Where the log stands that a member told, or would stand.
    fn place_of(&self, member: MemberId) -> usize
        ensures { result ≡ position_or_len (λ told. told.member == member) self.now }
    {
        self.list
            .iter()
            .position(|told| told.member() == member)
            .unwrap_or(self.list.len())
    }

    /// The longest of a log and of those told, the first among equals.
    pub fn longest<'a>(&'a self, own: &'a [Decision]) -> &'a [Decision]
        ensures { result.now ≡ longest own.now self.now }
    {
        longest_of(own, self.list.as_slice())
    }

    /// The same, once a member has told this log too.
    #[tactic(auto, using(crate::proofs::Keeping::longest_again, crate::proofs::Keeping::longest_first))]
    pub fn longest_with<'a>(
        &'a self,
        own: &'a [Decision],
        member: MemberId,
        log: &'a [Decision],
    ) -> &'a [Decision]
        ensures { result.now ≡ longest own.now (with_tell member log.now self.now) }
    {
        let tells = self.list.as_slice();
        let at = self.place_of(member);
        if at < tells.len() {
            let before = longer(longest_of(own, &tells[..at]), log);
            longest_of(before, &tells[at + 1..])
        } else {
            longer(longest_of(own, tells), log)
        }
    }

    /// A member has told this log, in place of what it told before. Want of memory changes nothing.
    #[tactic(auto, using(crate::proofs::Keeping::told_again, crate::proofs::Keeping::told_first))]
    pub fn put(&mut self, member: MemberId, log: Vec<Decision>) -> Result<(), Memory>
        ensures ok { OnOk result (self.new ≡ with_tell member log.items self.old) }
        ensures err { OnErr result (self.new ≡ self.old) }
    {
        let at = self.place_of(member);
        let told = ToldLog { member, log };
        if at < self.list.len() {
            self.list[at] = told;
        } else {
            self.list.push(told)?;
        }
        Ok(())
    }

    /// The longest of a log and of those told, the first among equals, which is moved out.
    pub fn into_longest(self, own: Vec<Decision>) -> Vec<Decision>
        ensures { result.items ≡ longest own.items self }
    {
        let mut longest = own;
        for told in self.list {
            if longest.len() < told.log().len() {
                longest = told.into_log();
            }
        }
        longest
    }
}
