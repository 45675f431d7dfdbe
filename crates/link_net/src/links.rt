ghost use Rattle.std.specs.Prelude.{◌≡◌, ℕ, ◌↔◌, ◌+◌, ◌-◌, ◌*◌, ◌/◌, ◌%◌, ◌≤◌, ◌<◌, ◌++◌, ◌∷◌, [], nat_le, length, remove, slice_get, IsTrue, IfOk, IfSome, OnOk, OnErr};
ghost use Rattle.std.specs.List.{list_any};
ghost use Rattle.std.specs.Option.{option_to_list};
ghost use Rattle.link_net.specs.Links.{place_of, list_of, spare_of, except, sent_to, with_sent, less_sent, next_link, has_crowded_link, HasLists, HasSpares, LowersNoSpare, LowersByOneAtMost, HasRoom};

use crate::lane::Lane;
use crate::link::Link;
use crate::tally::Tally;
use grid_base::{Bytes, Memory};
use std::alloc::Global;
use std::marker::Model;

/// The messages in flight between some ends, in the order in which each link got them.
///
/// Ends are numbered from 0, and there is a link from each to each. A number that is no end's has no messages,
/// and nothing happens there. On a link beside its messages there is room for some more, the spare ones.
///
/// It is kept which links have messages, and how many messages all have. So a call by which a link gets its first message
/// or loses its last costs in addition the number of the links that have some.
#[derive(Debug, Drop)]
pub struct Links {
    ends: u8,
    /// Those from the first end, to each end in order; then those from the next.
    lanes: Vec<Lane>,
    tally: Tally,
}

impl Model for Links {
    ghost use Rattle.std.specs.Prelude.{◌≡◌, ◌*◌, length, vec_len};
    ghost use Rattle.link_net.specs.Links.{Net};
    ghost use Rattle.link_net.specs.Counting.{AreCountsOf};

    ghost Value = { Net };

    ghost view = { λ l. record { ends = l.ends; lanes = l.lanes.items } };

    ghost invariant = { λ l. (vec_len l.lanes ≡ l.ends * l.ends) × (length l.lanes.items ≡ l.ends * l.ends) × AreCountsOf l.lanes.items l.tally };
}

fn place_of(ends: u8, from: u8, to: u8) -> Option<usize>
    ensures place { result ≡ place_of ends from to }
    ensures within { IfSome result (λ at. at < ends * ends) }
{
    if from < ends && to < ends {
        Some(from as usize * ends as usize + to as usize)
    } else {
        None
    }
}

/// The link whose lane stands at a place.
fn link_at(ends: u8, at: usize) -> Link
    requires { at < ends * ends }
    ensures { result ≡ record { from = at / ends; to = at % ends } }
{
    Link {
        from: (at / ends as usize) as u8,
        to: (at % ends as usize) as u8,
    }
}

/// Whether a lane has so many messages or more.
fn has_crowded_lane(lanes: &[Lane], most: usize) -> bool
    ensures { result ≡ list_any (λ lane. nat_le most (length lane.list)) lanes.now }
{
    lanes.iter().any(|lane| lane.len() >= most)
}

impl Links {
    /// The links between so many ends, without messages, at the cost of the square of the ends.
    pub fn new(alloc: Global, ends: u8) -> Result<Links, Memory>
        ensures ends { IfOk result (λ links. links.ends ≡ ends) }
        ensures lists { IfOk result (λ links. HasLists links (λ _ _. [])) }
    {
        let count = ends as usize * ends as usize;
        let tally = Tally::new(alloc, count)?;
        let mut lanes = Vec::with_capacity(alloc, count)?;
        for _ in 0..count {
            lanes.push(Lane::new(alloc))?;
        }
        Ok(Links { ends, lanes, tally })
    }

    /// The messages from one end to another. Takes no memory.
    pub fn list(&self, from: u8, to: u8) -> &[Bytes]
        ensures { result.now ≡ list_of self.now from to }
    {
        match place_of(self.ends, from, to) {
            None => &[],
            Some(at) => self.lanes[at].as_slice(),
        }
    }

    /// The first link that has a message, if one has, in order of the ends that the links are from, and then of those that
    /// they are to. In constant time and with no memory.
    pub fn next_link(&self) -> Option<Link>
        ensures { result ≡ next_link self.now }
    {
        let at = self.tally.first_busy()?;
        Some(link_at(self.ends, at))
    }

    /// Whether a link has so many messages or more. Takes no memory.
    ///
    /// Costs a constant while all links together have fewer, and else the square of the ends.
    pub fn has_crowded_link(&self, most: usize) -> bool
        ensures { result ≡ has_crowded_link most self.now }
    {
        self.tally.messages() >= most as u128 && has_crowded_lane(self.lanes.as_slice(), most)
    }

    /// Takes the message at a place out, if there is one. Takes no memory.
    ///
    /// The first of a link is taken in constant time over many takings, and another at the cost of the messages
    /// before it or of those behind it, whichever are fewer.
    pub fn deliver(&mut self, from: u8, to: u8, place: usize) -> Option<Bytes>
        ensures taken { result ≡ slice_get (list_of self.old from to) place }
        ensures lists { let left = remove (list_of self.old from to) place in
            HasLists self.new (except from to left (list_of self.old)) }
        ensures spare { LowersNoSpare self.old self.new }
        ensures ends { self.new.ends ≡ self.old.ends }
    {
        let at = place_of(self.ends, from, to)?;
        let lane = &mut self.lanes[at];
        let before = lane.len();
        let taken = lane.take(place);
        self.tally.change(at, before, lane.len());
        taken
    }

    /// Drops the message at a place, if there is one. Takes no memory, and costs what a delivery does.
    pub fn lose(&mut self, from: u8, to: u8, place: usize) -> bool
        ensures lost { IsTrue result ↔ (place < length (list_of self.old from to)) }
        ensures lists { let left = remove (list_of self.old from to) place in
            HasLists self.new (except from to left (list_of self.old)) }
        ensures spare { LowersNoSpare self.old self.new }
        ensures ends { self.new.ends ≡ self.old.ends }
    {
        self.deliver(from, to, place).is_some()
    }

    /// Puts a copy of the message at a place last on its link, if there is one, at the cost of its length.
    /// It may take the room of one spare message. Want of memory leaves the lists as they were.
    pub fn repeat(&mut self, alloc: Global, from: u8, to: u8, place: usize) -> Result<bool, Memory>
        ensures repeated { let list = list_of self.old from to in
            IfOk result (λ repeated. IsTrue repeated ↔ (place < length list)) }
        ensures ok { let list = list_of self.old from to in
            let repeated = list ++ option_to_list (slice_get list place) in
            OnOk result (HasLists self.new (except from to repeated (list_of self.old))) }
        ensures err { OnErr result (HasLists self.new (list_of self.old)) }
        ensures spare { LowersByOneAtMost self.old self.new }
        ensures ends { self.new.ends ≡ self.old.ends }
    {
        let Some(at) = place_of(self.ends, from, to) else {
            return Ok(false);
        };
        let lane = &mut self.lanes[at];
        let before = lane.len();
        let repeated = lane.repeat(alloc, place);
        self.tally.change(at, before, lane.len());
        repeated
    }

    /// Makes room for so many messages more on each link from an end. Want of memory leaves the lists as they were.
    ///
    /// Costs the number of ends; a link whose room has to grow costs its messages, which is rare as it doubles.
    pub fn reserve(&mut self, from: u8, extra: usize) -> Result<(), Memory>
        ensures lists { HasLists self.new (list_of self.old) }
        ensures spare { LowersNoSpare self.old self.new }
        ensures ok { OnOk result (HasRoom self.new from extra) }
        ensures ends { self.new.ends ≡ self.old.ends }
    {
        for to in 0..self.ends {
            self.reserve_link(from, to, extra)?;
        }
        Ok(())
    }

    fn reserve_link(&mut self, from: u8, to: u8, extra: usize) -> Result<(), Memory>
        ensures lists { HasLists self.new (list_of self.old) }
        ensures spare { LowersNoSpare self.old self.new }
        ensures ok { let ends = self.new.ends in
            OnOk result (from < ends → to < ends → extra ≤ spare_of self.new from to) }
        ensures ends { self.new.ends ≡ self.old.ends }
    {
        match place_of(self.ends, from, to) {
            None => Ok(()),
            Some(at) => self.lanes[at].reserve(extra),
        }
    }

    /// Puts a message last on a link, in constant time and with no memory: it takes the room of a spare one.
    pub fn send(&mut self, from: u8, to: u8, bytes: Bytes)
        requires { 1 ≤ spare_of self.old from to }
        ensures lists { let sent = list_of self.old from to ++ bytes ∷ [] in
            HasLists self.new (except from to sent (list_of self.old)) }
        ensures spare { let less = spare_of self.old from to - 1 in
            HasSpares self.new (except from to less (spare_of self.old)) }
        ensures ends { self.new.ends ≡ self.old.ends }
    {
        let at = from as usize * self.ends as usize + to as usize;
        let lane = &mut self.lanes[at];
        let before = lane.len();
        lane.send(bytes);
        self.tally.change(at, before, lane.len());
    }

    /// Puts each message last on its link from that end, in order, each as `send` does.
    pub fn send_all(&mut self, from: u8, messages: Vec<(u8, Bytes)>)
        requires { (to : ℕ) → length (sent_to to messages.items) ≤ spare_of self.old from to }
        ensures lists { HasLists self.new (with_sent from messages.items (list_of self.old)) }
        ensures spare { HasSpares self.new (less_sent from messages.items (spare_of self.old)) }
        ensures ends { self.new.ends ≡ self.old.ends }
    {
        for (to, bytes) in messages {
            self.send(from, to, bytes);
        }
    }
}
