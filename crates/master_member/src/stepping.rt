ghost use Rattle.std.specs.Prelude.{◌≡◌, ◌<◌, ◌∷◌, ◌++◌, [], ◌&&◌, false, true, map, length, if◌then◌else◌, IfOk, OnErr, OnOk};
ghost use Rattle.std.specs.List.{list_all};
ghost use Rattle.partition_protocol.specs.Service.{numbers_below};
ghost use Rattle.partition_table.specs.Rows.{is_among};
ghost use Rattle.masters_protocol.specs.Members as machine;
ghost use Rattle.masters_protocol.specs.Members.{with_one, hearing, going_on, begins, proposing, is_gathering, is_serving, has_told, tells_of, longest, server};
ghost use Rattle.master_wire.specs.Spelling.{spelling, IsSpelled};
ghost use Rattle.master_member.specs.Roles.{role_of};
ghost use Rattle.master_member.specs.Steps.{HasStepped};

use crate::counts::Counts;
use crate::member::Member;
use crate::peers::{peers, to_each};
use crate::role::Role;
use crate::tells::Tells;
use grid_base::{Bytes, MemberId, Memory};
use master_wire::{Decision, write_ask, write_store, write_store_with};
use std::alloc::Global;
use std::mem;

/// What a member sends, and to whom.
pub type Sent = Vec<(u8, Bytes)>;

/// The list with one more number, unless it has that.
fn with_one(alloc: Global, one: u8, list: &[u8]) -> Result<Vec<u8>, Memory>
    ensures { IfOk result (λ with. with.items ≡ with_one one list.now) }
{
    let mut with = Vec::with_capacity(alloc, list.len() + 1)?;
    with.extend_from_slice(list)?;
    if !list.contains(&one) {
        with.push(one)?;
    }
    Ok(with)
}

/// Whether a list has every number below this one.
fn has_all_below(list: &[u8], number: u8) -> bool
    ensures { result ≡ list_all (is_among list.now) (numbers_below number) }
{
    let mut all = true;
    for lower in 0..number {
        if !list.contains(&lower) {
            all = false;
        }
    }
    all
}

/// A log, to be stored by each of these members.
pub fn stores(
    alloc: Global,
    number: MemberId,
    log: &[Decision],
    members: &[MemberId],
) -> Result<Sent, Memory>
    ensures sent { IfOk result (λ out. out.items ≡ map (λ m. (m, spelling (machine.Store number log.now))) members.now) }
    ensures spelled { OnOk result (IsSpelled (machine.Store number log.now)) }
{
    let message = write_store(alloc, number, log)?;
    to_each(alloc, &message, members)
}

/// What a member does as it becomes master: without a peer it serves at once.
fn master_role(alloc: Global, is_alone: bool) -> Role
    ensures { role_of result ≡ (if is_alone then machine.Serving [] else machine.Gathering []) }
{
    if is_alone {
        Role::Serving {
            counts: Counts::new(alloc),
        }
    } else {
        Role::Gathering {
            tells: Tells::new(alloc),
        }
    }
}

impl Member {
    /// It is told that another one has crashed. Told of every lower one, it begins to gather; and where all that are left
    /// have told, it serves. Costs the logs that it sends, and else goes over the members. Want of memory changes nothing.
    pub fn hear(
        &mut self,
        alloc: Global,
        size: u8,
        number: MemberId,
        crashed: MemberId,
    ) -> Result<Sent, Memory>
        ensures ok { IfOk result (λ sent. HasStepped size number (hearing size number crashed self.old) self.new sent.items) }
        ensures err { OnErr result (self.new ≡ self.old) }
    {
        let told = with_one(alloc, crashed, self.told.as_slice())?;
        let peers = peers(alloc, size, number, told.as_slice())?;
        if !self.is_master() && has_all_below(told.as_slice(), number) {
            self.begin(alloc, size, number, told, peers.as_slice())
        } else {
            self.go_on(alloc, size, number, told, peers.as_slice())
        }
    }

    /// It asks its peers for their logs; without any it serves at once.
    fn begin(
        &mut self,
        alloc: Global,
        size: u8,
        number: MemberId,
        told: Vec<MemberId>,
        peers: &[MemberId],
    ) -> Result<Sent, Memory>
        requires peers { peers.now ≡ machine.peers size number (record self.old { told = told.items }) }
        requires begins { begins number (record self.old { told = told.items }) ≡ true }
        ensures ok { let n = record self.old { told = told.items } in
            IfOk result (λ sent. HasStepped size number (going_on size number n) self.new sent.items) }
        ensures err { OnErr result (self.new ≡ self.old) }
    {
        let ask = write_ask(alloc, number)?;
        let sent = to_each(alloc, &ask, peers)?;
        self.told = told;
        self.seen = number;
        self.role = master_role(alloc, peers.is_empty());
        Ok(sent)
    }

    /// It is told of these; where it gathers and each peer has told, it serves.
    fn go_on(
        &mut self,
        alloc: Global,
        size: u8,
        number: MemberId,
        told: Vec<MemberId>,
        peers: &[MemberId],
    ) -> Result<Sent, Memory>
        requires peers { peers.now ≡ machine.peers size number (record self.old { told = told.items }) }
        requires rests { begins number (record self.old { told = told.items }) ≡ false }
        ensures ok { let n = record self.old { told = told.items } in
            IfOk result (λ sent. HasStepped size number (going_on size number n) self.new sent.items) }
        ensures err { OnErr result (self.new ≡ self.old) }
    {
        if !self.is_gathered_by(peers) {
            self.told = told;
            return Ok(Vec::new(alloc));
        }
        let sent = stores(alloc, number, self.longest(), peers)?;
        self.told = told;
        self.serve(alloc);
        Ok(sent)
    }

    /// Whether it gathers, and each of these members has told.
    fn is_gathered_by(&self, peers: &[MemberId]) -> bool
        ensures { result ≡ (is_gathering self.now.role && list_all (has_told (tells_of self.now.role)) peers.now) }
    {
        match &self.role {
            Role::Gathering { tells } => tells.have_told(peers),
            _ => false,
        }
    }

    /// The longest of its log and those told it.
    fn longest(&self) -> &[Decision]
        ensures { result.now ≡ longest self.now.log (tells_of self.now.role) }
    {
        match &self.role {
            Role::Gathering { tells } => tells.longest(self.log.as_slice()),
            _ => self.log.as_slice(),
        }
    }

    /// It serves, with the longest of its log and those told it. Takes no memory, and moves the log.
    pub fn serve(&mut self, alloc: Global)
        ensures { self.new ≡ server self.old }
    {
        let serving = Role::Serving {
            counts: Counts::new(alloc),
        };
        if let Role::Gathering { tells } = mem::replace(&mut self.role, serving) {
            let own = mem::replace(&mut self.log, Vec::new(alloc));
            self.log = tells.into_longest(own);
        }
    }

    /// The decision comes last in its log, and goes to each of its peers to be stored. Costs the log for each of them. Want
    /// of memory changes nothing.
    pub fn propose(
        &mut self,
        alloc: Global,
        size: u8,
        number: MemberId,
        decision: &Decision,
    ) -> Result<Sent, Memory>
        requires serving { is_serving self.old.role ≡ true }
        requires room { length self.old.log < 10000 }
        ensures ok { IfOk result (λ sent. HasStepped size number (proposing size number decision.now self.old) self.new sent.items) }
        ensures err { OnErr result (self.new ≡ self.old) }
    {
        let peers = peers(alloc, size, number, self.told.as_slice())?;
        let store = write_store_with(alloc, number, self.log.as_slice(), decision)?;
        let sent = to_each(alloc, &store, peers.as_slice())?;
        self.log.push(decision.copied(alloc)?)?;
        Ok(sent)
    }
}
