ghost use Rattle.std.specs.Prelude.{◌≡◌, ◌<◌, ◌≤◌, ◌∷◌, [], ◌&&◌, ◌||◌, ◌==◌, true, false, nat_lt, length, IfOk, OnOk, OnErr};
ghost use Rattle.std.specs.List.{list_all};
ghost use Rattle.masters_protocol.specs.Members as machine;
ghost use Rattle.masters_protocol.specs.Members.{is_gathered, is_gathering, taking, tells_of, with_tell, with_role, has_told, longest};
ghost use Rattle.master_wire.specs.Said.{said};
ghost use Rattle.master_member.specs.Steps.{HasTaken};

use crate::member::Member;
use crate::peers::peers;
use crate::role::Role;
use crate::stepping::{Sent, stores};
use crate::tells::longer;
use crate::took::MasterTook;
use grid_base::{Bytes, MemberId, Memory};
use master_wire::{Decision, MasterMessage, write_stored, write_tell};
use std::alloc::Global;

/// What a member did with a message, and what it sends.
#[derive(Debug, Drop)]
pub struct Taken {
    pub took: MasterTook,
    pub sent: Sent,
}

impl Taken {
    /// Nothing is sent.
    fn quiet(alloc: Global, took: MasterTook) -> Taken
        ensures took { result.took ≡ took }
        ensures sent { result.sent.items ≡ [] }
    {
        Taken {
            took,
            sent: Vec::new(alloc),
        }
    }
}

/// One message to one member.
fn to_one(alloc: Global, to: MemberId, message: Bytes) -> Result<Sent, Memory>
    ensures { IfOk result (λ sent. sent.items ≡ (to, message) ∷ []) }
{
    let mut sent = Vec::with_capacity(alloc, 1)?;
    sent.push((to, message))?;
    Ok(sent)
}

impl Member {
    /// It takes a message that another one sent. Costs the logs that it sends, and else goes over the members. Want of
    /// memory changes nothing.
    pub fn take(
        &mut self,
        alloc: Global,
        size: u8,
        number: MemberId,
        from: MemberId,
        message: MasterMessage,
    ) -> Result<Taken, Memory>
        requires from { from < size }
        requires rests { is_gathered size number self.old ≡ false }
        requires short { length self.old.log ≤ 10000 }
        requires shorter { length (machine.log_of (said message)) ≤ 10000 }
        ensures ok { IfOk result (HasTaken size number (taking number from (said message) self.old) self.new) }
        ensures err { OnErr result (self.new ≡ self.old) }
    {
        match message {
            MasterMessage::Store { term, log } => self.take_store(
                alloc, size, number, from, term, log,
            ),
            MasterMessage::Stored { term, length } => {
                self.take_stored(alloc, size, number, from, term, length)
            }
            MasterMessage::Ask { term } => self.take_ask(alloc, size, number, from, term),
            MasterMessage::Tell { term, log } => {
                self.take_tell(alloc, size, number, from, term, log)
            }
        }
    }

    /// Whether it has seen a greater term.
    fn is_over(&self, term: u8) -> bool
        ensures { result ≡ nat_lt term self.now.seen }
    {
        term < self.seen
    }

    /// A log that it takes where it is longer than its own.
    fn take_store(
        &mut self,
        alloc: Global,
        size: u8,
        number: MemberId,
        from: MemberId,
        term: u8,
        log: Vec<Decision>,
    ) -> Result<Taken, Memory>
        requires from { from < size }
        requires rests { is_gathered size number self.old ≡ false }
        requires short { length self.old.log ≤ 10000 }
        requires shorter { length log.items ≤ 10000 }
        ensures ok { IfOk result (HasTaken size number (taking number from (machine.Store term log.items) self.old) self.new) }
        ensures err { OnErr result (self.new ≡ self.old) }
    {
        if self.is_over(term) {
            return Ok(Taken::quiet(alloc, MasterTook::Other));
        }
        let length = longer(self.log.as_slice(), log.as_slice()).len();
        let stored = write_stored(alloc, term, length as u32)?;
        let sent = to_one(alloc, from, stored)?;
        self.seen = term;
        if self.log.len() < log.len() {
            self.log = log;
        }
        Ok(Taken {
            took: MasterTook::Stored,
            sent,
        })
    }

    /// So much is stored at another member.
    fn take_stored(
        &mut self,
        alloc: Global,
        size: u8,
        number: MemberId,
        from: MemberId,
        term: u8,
        length: u32,
    ) -> Result<Taken, Memory>
        requires { is_gathered size number self.old ≡ false }
        ensures ok { IfOk result (HasTaken size number (taking number from (machine.Stored term length) self.old) self.new) }
        ensures err { OnErr result (self.new ≡ self.old) }
    {
        match &mut self.role {
            Role::Serving { counts } if term == number => {
                counts.put(from, length)?;
                Ok(Taken::quiet(alloc, MasterTook::Counted))
            }
            _ => Ok(Taken::quiet(alloc, MasterTook::Stale)),
        }
    }

    /// A gathering master asks for its log.
    fn take_ask(
        &mut self,
        alloc: Global,
        size: u8,
        number: MemberId,
        from: MemberId,
        term: u8,
    ) -> Result<Taken, Memory>
        requires from { from < size }
        requires rests { is_gathered size number self.old ≡ false }
        ensures ok { IfOk result (HasTaken size number (taking number from (machine.Ask term) self.old) self.new) }
        ensures err { OnErr result (self.new ≡ self.old) }
    {
        if self.is_over(term) {
            return Ok(Taken::quiet(alloc, MasterTook::Other));
        }
        let tell = write_tell(alloc, term, self.log.as_slice())?;
        let sent = to_one(alloc, from, tell)?;
        self.seen = term;
        Ok(Taken {
            took: MasterTook::Asked,
            sent,
        })
    }

    /// The log of another member. Where each peer has told, this one serves.
    fn take_tell(
        &mut self,
        alloc: Global,
        size: u8,
        number: MemberId,
        from: MemberId,
        term: u8,
        log: Vec<Decision>,
    ) -> Result<Taken, Memory>
        requires { is_gathered size number self.old ≡ false }
        ensures ok { IfOk result (HasTaken size number (taking number from (machine.Tell term log.items) self.old) self.new) }
        ensures err { OnErr result (self.new ≡ self.old) }
    {
        if !self.gathers_in(number, term) {
            return Ok(Taken::quiet(alloc, MasterTook::Stale));
        }
        let peers = peers(alloc, size, number, self.told.as_slice())?;
        if !self.have_told_with(from, peers.as_slice()) {
            self.keep(from, log)?;
            return Ok(Taken::quiet(alloc, MasterTook::Told));
        }
        let longest = self.longest_with(from, log.as_slice());
        let sent = stores(alloc, number, longest, peers.as_slice())?;
        self.keep(from, log)?;
        self.serve(alloc);
        Ok(Taken {
            took: MasterTook::Told,
            sent,
        })
    }

    /// Whether it gathers in that term.
    fn gathers_in(&self, number: MemberId, term: u8) -> bool
        ensures { result ≡ (is_gathering self.now.role && (term == number)) }
    {
        matches!(&self.role, Role::Gathering { .. }) && term == number
    }

    /// Whether each of these members has told, once this one has.
    fn have_told_with(&self, from: MemberId, members: &[MemberId]) -> bool
        ensures { result ≡ list_all (λ m. (from == m) || has_told (tells_of self.now.role) m) members.now }
    {
        members
            .iter()
            .all(|member| from == *member || self.has_told(*member))
    }

    fn has_told(&self, member: MemberId) -> bool
        ensures { result ≡ has_told (tells_of self.now.role) member }
    {
        match &self.role {
            Role::Gathering { tells } => tells.has_told(member),
            _ => false,
        }
    }

    /// The longest of its log and those told it, once a member has told this one.
    fn longest_with<'a>(&'a self, from: MemberId, log: &'a [Decision]) -> &'a [Decision]
        requires { is_gathering self.now.role ≡ true }
        ensures { result.now ≡ longest self.now.log (with_tell from log.now (tells_of self.now.role)) }
    {
        match &self.role {
            Role::Gathering { tells } => tells.longest_with(self.log.as_slice(), from, log),
            _ => log,
        }
    }

    /// It keeps the log that another one told it. Want of memory changes nothing.
    fn keep(&mut self, from: MemberId, log: Vec<Decision>) -> Result<(), Memory>
        requires { is_gathering self.old.role ≡ true }
        ensures ok { OnOk result (self.new ≡ with_role (machine.Gathering (with_tell from log.items (tells_of self.old.role))) self.old) }
        ensures err { OnErr result (self.new ≡ self.old) }
    {
        match &mut self.role {
            Role::Gathering { tells } => tells.put(from, log),
            _ => Ok(()),
        }
    }
}
