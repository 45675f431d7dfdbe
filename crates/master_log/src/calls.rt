ghost use Rattle.std.specs.Prelude.{◌≡◌, ℕ, ◌+◌, ◌≤◌, ◌<◌, ◌&&◌, true, false, List, Some, length, vec_len, slice_get, IfOk, IfSome, OnOk, OnErr};
ghost use Rattle.masters_protocol.specs.Members.{Member, Sent as SentThere, Proposed, is_stored};
ghost use Rattle.masters_protocol.specs.Machine.{Masters as Machine, Packet, Event, Told, Crash, Propose, Deliver, Lose, Resend, link, is_live, is_ahead, master, sending, publishing};
ghost use Rattle.link_net.specs.Links.{list_of, spare_of, sent_to};
ghost use Rattle.master_wire.specs.Said.{said};
ghost use Rattle.master_member.specs.Steps.{AreWritten};
ghost use Rattle.master_wire.specs.declared.decision.Decision.{Decision as DecisionOf};
ghost use Rattle.master_log.specs.Outcomes.{done_if, proposal_of};
ghost use Rattle.master_member.specs.Outcomes.{outcome_of};
ghost use Rattle.master_log.specs.Standing.{Shows, StandsFor, HasRun, IsKept, size_of, run_of, log_at};

use crate::masters::Masters;
use crate::refusal::ProposeRefused;
use grid_base::{MemberId, Memory};
use master_member::{MasterTook, Sent};
use master_wire::{Decision, MasterMessage, read_master};
use std::alloc::{AllocError, Global};

/// A log has at most so many decisions.
pub const MOST_DECISIONS: usize = 10_000;

impl Masters {
    /// A member is told that another has crashed. False exactly where the member isn't live or the other hasn't crashed.
    ///
    /// By that it may begin to gather, to serve, or publish. Costs the logs that it sends, and else goes over the members.
    /// Want of memory changes nothing.
    pub fn told(
        &mut self,
        alloc: Global,
        member: MemberId,
        crashed: MemberId,
    ) -> Result<bool, Memory>
        requires { (events : List (Event DecisionOf)) × StandsFor self.old events }
        ensures ok { (events : List (Event DecisionOf)) → StandsFor self.old events →
            IfOk result (λ done. HasRun self.old self.new events (Told member crashed) (done_if done)) }
        ensures err { (events : List (Event DecisionOf)) → StandsFor self.old events → OnErr result (IsKept self.old self.new events) }
    {
        if !self.has_crashed(crashed) {
            return Ok(false);
        }
        if !self.is_live(member) {
            return Ok(false);
        }
        self.links.reserve(member, 1)?;
        let sent = self.members[usize::from(member)].hear(alloc, self.size, member, crashed)?;
        self.finish(member, sent);
        Ok(true)
    }

    /// A member takes no further step. False exactly where it isn't live. In constant time and with no memory.
    pub fn crash(&mut self, member: MemberId) -> bool
        requires { (events : List (Event DecisionOf)) × StandsFor self.old events }
        ensures { (events : List (Event DecisionOf)) → StandsFor self.old events → HasRun self.old self.new events (Crash member) (done_if result) }
    {
        if !self.is_live(member) {
            return false;
        }
        self.crashed[usize::from(member)] = true;
        true
    }

    /// The live master that serves takes a decision on, and has its peers store it; without any it is published at once.
    /// The decision's number is answered. A refusal changes nothing, nor does want of memory.
    ///
    /// Costs the log for each peer.
    pub fn propose(&mut self, alloc: Global, decision: &Decision) -> Result<u32, ProposeRefused>
        requires { (events : List (Event DecisionOf)) × StandsFor self.old events }
        ensures answered { (events : List (Event DecisionOf)) → StandsFor self.old events →
            IfSome (proposal_of result) (HasRun self.old self.new events (Propose decision.now)) }
        ensures err { (events : List (Event DecisionOf)) → StandsFor self.old events → OnErr result (IsKept self.old self.new events) }
    {
        match self.serving() {
            None => Err(ProposeRefused::NoMaster),
            Some(leader) => self.propose_to(alloc, leader, decision),
        }
    }

    /// The same, where that member is the live master that serves.
    fn propose_to(
        &mut self,
        alloc: Global,
        leader: MemberId,
        decision: &Decision,
    ) -> Result<u32, ProposeRefused>
        requires stands { (events : List (Event DecisionOf)) × StandsFor self.old events }
        requires leads { (events : List (Event DecisionOf)) → StandsFor self.old events → master (run_of self.old events) ≡ Some leader }
        ensures answered { (events : List (Event DecisionOf)) → StandsFor self.old events →
            IfSome (proposal_of result) (HasRun self.old self.new events (Propose decision.now)) }
        ensures err { (events : List (Event DecisionOf)) → StandsFor self.old events → OnErr result (IsKept self.old self.new events) }
    {
        let length = self.members[usize::from(leader)].log().len();
        if self.published < length {
            return Err(ProposeRefused::Busy {
                length: length as u32,
            });
        }
        if MOST_DECISIONS <= length {
            return Err(ProposeRefused::Full);
        }
        self.put_forward(alloc, leader, decision)?;
        Ok(length as u32 + 1)
    }

    /// The decision is the next one of the serving master's log, which isn't full and is published as far as it goes.
    fn put_forward(
        &mut self,
        alloc: Global,
        leader: MemberId,
        decision: &Decision,
    ) -> Result<(), Memory>
        requires stands { (events : List (Event DecisionOf)) × StandsFor self.old events }
        requires leads { (events : List (Event DecisionOf)) → StandsFor self.old events → master (run_of self.old events) ≡ Some leader }
        requires free { (events : List (Event DecisionOf)) → StandsFor self.old events → let w = run_of self.old events in
            is_ahead w (log_at w leader) ≡ false }
        requires room { (events : List (Event DecisionOf)) → StandsFor self.old events → length (log_at (run_of self.old events) leader) < 10000 }
        ensures ok { (events : List (Event DecisionOf)) → StandsFor self.old events → let number = length (log_at (run_of self.old events) leader) + 1 in
            OnOk result (HasRun self.old self.new events (Propose decision.now) (Proposed number)) }
        ensures err { (events : List (Event DecisionOf)) → StandsFor self.old events → OnErr result (IsKept self.old self.new events) }
    {
        self.links.reserve(leader, 1)?;
        let sent = self.members[usize::from(leader)].propose(alloc, self.size, leader, decision)?;
        self.finish(leader, sent);
        Ok(())
    }

    /// The message at that place of a link is handed over, or dropped where its taker has crashed. It is `Nothing` exactly
    /// where the place isn't there.
    ///
    /// Costs the message's bytes, and the logs that the taker sends. Want of memory changes nothing.
    pub fn deliver(
        &mut self,
        alloc: Global,
        from: u8,
        to: u8,
        place: usize,
    ) -> Result<MasterTook, Memory>
        requires { (events : List (Event DecisionOf)) × StandsFor self.old events }
        ensures ok { (events : List (Event DecisionOf)) → StandsFor self.old events →
            IfOk result (λ took. HasRun self.old self.new events (Deliver from to place) (outcome_of took)) }
        ensures err { (events : List (Event DecisionOf)) → StandsFor self.old events → OnErr result (IsKept self.old self.new events) }
    {
        if place >= self.links.list(from, to).len() {
            return Ok(MasterTook::Nothing);
        }
        if !self.is_live(to) {
            self.links.lose(from, to, place);
            return Ok(MasterTook::Dropped);
        }
        self.hand_over(alloc, from, to, place)
    }

    /// The message that is there is taken by a live member.
    fn hand_over(
        &mut self,
        alloc: Global,
        from: u8,
        to: u8,
        place: usize,
    ) -> Result<MasterTook, Memory>
        requires stands { (events : List (Event DecisionOf)) × StandsFor self.old events }
        requires there { place < length (list_of self.old.links from to) }
        requires lives { (events : List (Event DecisionOf)) → StandsFor self.old events → is_live (run_of self.old events) to ≡ true }
        ensures ok { (events : List (Event DecisionOf)) → StandsFor self.old events →
            IfOk result (λ took. HasRun self.old self.new events (Deliver from to place) (outcome_of took)) }
        ensures err { (events : List (Event DecisionOf)) → StandsFor self.old events → OnErr result (IsKept self.old self.new events) }
    {
        let message = self.message(alloc, from, to, place)?;
        self.links.reserve(to, 1)?;
        let taken = self.members[usize::from(to)].take(alloc, self.size, to, from, message)?;
        self.links.lose(from, to, place);
        self.finish(to, taken.sent);
        Ok(taken.took)
    }

    /// The message at that place of a link, from its bytes.
    fn message(
        &self,
        alloc: Global,
        from: u8,
        to: u8,
        place: usize,
    ) -> Result<MasterMessage, Memory>
        requires { place < length (list_of self.now.links from to) }
        ensures { (w : Machine DecisionOf) (packet : Packet DecisionOf) → Shows self.now w → slice_get (link from to w.packets) place ≡ Some packet →
            IfOk result (λ message. said message ≡ packet.message) }
    {
        match read_master(alloc, self.links.list(from, to)[place].as_slice()) {
            Ok(message) => Ok(message),
            Err(_) => Err(AllocError),
        }
    }

    /// The message at that place of a link is lost. False exactly where the place isn't there. Takes no memory, and costs
    /// what `Links::lose` does.
    pub fn lose(&mut self, from: u8, to: u8, place: usize) -> bool
        requires { (events : List (Event DecisionOf)) × StandsFor self.old events }
        ensures { (events : List (Event DecisionOf)) → StandsFor self.old events → HasRun self.old self.new events (Lose from to place) (done_if result) }
    {
        if place >= self.links.list(from, to).len() {
            return false;
        }
        self.links.lose(from, to, place);
        true
    }

    /// A live master sends again what isn't answered: who gathers asks each peer that hasn't told, and who serves has each
    /// peer store its log that hasn't stored all of it. False exactly where there is nothing to send again.
    ///
    /// Costs the log for each member to whom it goes. Want of memory changes nothing.
    pub fn resend(&mut self, alloc: Global, member: MemberId) -> Result<bool, Memory>
        requires { (events : List (Event DecisionOf)) × StandsFor self.old events }
        ensures ok { (events : List (Event DecisionOf)) → StandsFor self.old events →
            IfOk result (λ done. HasRun self.old self.new events (Resend member) (done_if done)) }
        ensures err { (events : List (Event DecisionOf)) → StandsFor self.old events → OnErr result (IsKept self.old self.new events) }
    {
        if !self.is_live(member) {
            return Ok(false);
        }
        self.links.reserve(member, 1)?;
        let sent = self.members[usize::from(member)].sent_again(alloc, self.size, member)?;
        if sent.is_empty() {
            return Ok(false);
        }
        self.links.send_all(member, sent);
        Ok(true)
    }

    /// A member has taken its step: what it sends is in flight, and what each of its peers has stored is published.
    fn finish(&mut self, member: MemberId, sent: Sent)
        requires member { member < vec_len self.old.members }
        requires room { (to : ℕ) → length (sent_to to sent.items) ≤ spare_of self.old.links member to }
        ensures shows { (w : Machine DecisionOf) (all : List (SentThere DecisionOf)) → Shows self.old w → AreWritten sent.items all →
            Shows self.new (publishing (sending w member all) member) }
        ensures size { size_of self.new ≡ size_of self.old }
    {
        self.links.send_all(member, sent);
        self.publish(member);
    }

    /// A master's log is published where each of its peers has stored all of it. Takes no memory.
    fn publish(&mut self, member: MemberId)
        requires { member < vec_len self.old.members }
        ensures shows { (w : Machine DecisionOf) → Shows self.old w → Shows self.new (publishing w member) }
        ensures size { size_of self.new ≡ size_of self.old }
    {
        if self.can_publish(member) {
            self.published = self.members[usize::from(member)].log().len();
            self.publisher = member;
        }
    }

    /// Whether each of its peers has stored all of a master's log, and it is longer than what is published.
    fn can_publish(&self, member: MemberId) -> bool
        requires { member < vec_len self.now.members }
        ensures { (w : Machine DecisionOf) (n : Member DecisionOf) → Shows self.now w → slice_get w.members member ≡ Some n →
            result ≡ (is_stored w.size member n && is_ahead w n.log) }
    {
        let master = &self.members[usize::from(member)];
        master.is_stored(self.size, member) && self.published < master.log().len()
    }
}
