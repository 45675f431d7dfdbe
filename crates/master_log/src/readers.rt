ghost use Rattle.std.specs.Prelude.{◌≡◌, ◌<◌, ◌++◌, true, nat_lt, List};
ghost use Rattle.std.specs.List.{list_any};
ghost use Rattle.partition_protocol.specs.Sequences.{IsFrontOf};
ghost use Rattle.partition_protocol.specs.Service.{numbers_below};
ghost use Rattle.partition_table.specs.Rows.{is_among};
ghost use Rattle.masters_protocol.specs.Members.{log_of};
ghost use Rattle.masters_protocol.specs.Machine.{Event, is_live, is_ahead, is_pending_member, serves, master, pending};
ghost use Rattle.link_net.specs.Links.{HasLists, list_of};
ghost use Rattle.master_wire.specs.declared.decision.Decision.{Decision as DecisionOf};
ghost use Rattle.master_wire.specs.Reading.{log_length};
ghost use Rattle.master_log.specs.declared.masters.Masters.{Masters as MastersOf};
ghost use Rattle.master_log.specs.Standing.{StandsFor, run_of, size_of, log_at, was_told, flying};
ghost use Rattle.master_log.specs.Laws.{published_of, IsLater};

use crate::masters::Masters;
use grid_base::{Bytes, MemberId};
use link_net::Links;
use master_wire::{Decision, log_length};

impl Masters {
    /// What has been decided for good, in order. In constant time and with no memory.
    pub fn published(&self) -> &[Decision]
        requires { (events : List (Event DecisionOf)) × StandsFor self.now events }
        ensures published { (events : List (Event DecisionOf)) → StandsFor self.now events → result.now ≡ published_of self.now events }
        // At any two moments the earlier list is a front of the later one, whoever was master.
        ensures earlier { (old : MastersOf) (before after : List (Event DecisionOf)) → IsLater old self.now before after
            → IsFrontOf (published_of old before) result.now }
        ensures later { (new : MastersOf) (before after : List (Event DecisionOf)) → IsLater self.now new before after
            → IsFrontOf result.now (published_of new (before ++ after)) }
    {
        let log = self.members[usize::from(self.publisher)].log();
        &log[..self.published]
    }

    /// A member's log. In constant time and with no memory.
    pub fn log(&self, member: MemberId) -> &[Decision]
        requires stands { (events : List (Event DecisionOf)) × StandsFor self.now events }
        requires member { member < size_of self.now }
        ensures log { (events : List (Event DecisionOf)) → StandsFor self.now events → result.now ≡ log_at (run_of self.now events) member }
        // While the member lives, what was published at any earlier moment is a front of its log.
        ensures earlier { (old : MastersOf) (before after : List (Event DecisionOf)) → IsLater old self.now before after
            → is_live (run_of self.now (before ++ after)) member ≡ true → IsFrontOf (published_of old before) result.now }
    {
        self.members[usize::from(member)].log()
    }

    /// The messages in flight, as bytes. Takes no memory.
    pub fn links(&self) -> &Links
        ensures links { (events : List (Event DecisionOf)) → StandsFor self.now events → HasLists result.now (flying (run_of self.now events)) }
        ensures ends { (events : List (Event DecisionOf)) → StandsFor self.now events → result.now.ends ≡ size_of self.now }
    {
        &self.links
    }

    /// Whether a member takes steps. Another number is no member's. Takes no memory.
    pub fn is_live(&self, member: MemberId) -> bool
        ensures { (events : List (Event DecisionOf)) → StandsFor self.now events → result ≡ is_live (run_of self.now events) member }
    {
        member < self.size && !self.has_crashed(member)
    }

    /// Whether a member has crashed.
    pub(crate) fn has_crashed(&self, member: MemberId) -> bool
        ensures { (events : List (Event DecisionOf)) → StandsFor self.now events → result ≡ is_among (run_of self.now events).crashed member }
    {
        match self.crashed.get(usize::from(member)) {
            Some(crashed) => *crashed,
            None => false,
        }
    }

    /// The live master that serves; none exactly where there is none. Goes over the members, and takes no memory.
    pub fn serving(&self) -> Option<MemberId>
        requires { (events : List (Event DecisionOf)) × StandsFor self.now events }
        ensures { (events : List (Event DecisionOf)) → StandsFor self.now events → result ≡ master (run_of self.now events) }
    {
        for member in 0..self.size {
            if self.serves(member) {
                return Some(member);
            }
        }
        None
    }

    fn serves(&self, member: MemberId) -> bool
        requires { (events : List (Event DecisionOf)) × StandsFor self.now events }
        ensures { (events : List (Event DecisionOf)) → StandsFor self.now events → result ≡ serves (run_of self.now events) member }
    {
        self.is_live(member) && self.members[usize::from(member)].is_serving()
    }

    /// Whether a member was told that another one has crashed. Another number is no member's. Takes no memory.
    pub fn was_told(&self, member: MemberId, crashed: MemberId) -> bool
        ensures { (events : List (Event DecisionOf)) → StandsFor self.now events → result ≡ was_told (run_of self.now events) member crashed }
    {
        match self.members.get(usize::from(member)) {
            Some(member) => member.was_told(crashed),
            None => false,
        }
    }

    /// Whether a proposal that isn't published may still come to hold: a log longer than the published list is a live
    /// member's own, is kept by a live master that was told it, or is in flight. Takes no memory.
    ///
    /// Costs a look at each member, at each log that a master was told, and at the first bytes of each message in flight.
    pub fn pending(&self) -> bool
        requires { (events : List (Event DecisionOf)) × StandsFor self.now events }
        ensures { (events : List (Event DecisionOf)) → StandsFor self.now events → result ≡ pending (run_of self.now events) }
    {
        self.has_pending_member() || self.has_pending_message()
    }

    fn has_pending_member(&self) -> bool
        requires { (events : List (Event DecisionOf)) × StandsFor self.now events }
        ensures { (events : List (Event DecisionOf)) → StandsFor self.now events → let w = run_of self.now events in
            result ≡ list_any (is_pending_member w) (numbers_below w.size) }
    {
        for member in 0..self.size {
            if self.is_pending_member(member) {
                return true;
            }
        }
        false
    }

    fn is_pending_member(&self, member: MemberId) -> bool
        requires { (events : List (Event DecisionOf)) × StandsFor self.now events }
        ensures { (events : List (Event DecisionOf)) → StandsFor self.now events → result ≡ is_pending_member (run_of self.now events) member }
    {
        self.is_live(member) && self.members[usize::from(member)].is_ahead(self.published)
    }

    fn has_pending_message(&self) -> bool
        requires { (events : List (Event DecisionOf)) × StandsFor self.now events }
        ensures { (events : List (Event DecisionOf)) → StandsFor self.now events → let w = run_of self.now events in
            result ≡ list_any (λ packet. is_ahead w (log_of packet.message)) w.packets }
    {
        for from in 0..self.size {
            if self.has_pending_message_from(from) {
                return true;
            }
        }
        false
    }

    fn has_pending_message_from(&self, from: MemberId) -> bool
        ensures { let longer = list_any (λ bytes. nat_lt self.now.published (log_length bytes)) in
            result ≡ list_any (λ to. longer (list_of self.now.links from to)) (numbers_below (size_of self.now)) }
    {
        for to in 0..self.size {
            if has_longer(self.links.list(from, to), self.published) {
                return true;
            }
        }
        false
    }
}

/// Whether one of these messages has a log of more decisions than that.
fn has_longer(messages: &[Bytes], length: usize) -> bool
    ensures { result ≡ list_any (λ bytes. nat_lt length (log_length bytes)) messages.now }
{
    messages
        .iter()
        .any(|bytes| length < log_length(bytes.as_slice()) as usize)
}
