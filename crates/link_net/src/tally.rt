ghost use Rattle.std.specs.Prelude.{◌≡◌, ◌≢◌, ◌≤◌, ◌<◌, List, [], Some, nat_le, length, position, slice_get, slice_set, IfOk};
ghost use Rattle.link_net.specs.Links.{Lane};
ghost use Rattle.link_net.specs.Counting.{AreCountsOf, length_at, rank, with_place, without_place, after_change};

use grid_base::Memory;
use std::alloc::Global;
use std::marker::Model;

/// Which lanes have messages, and how many messages all have.
#[derive(Debug, Drop)]
pub(crate) struct Tally {
    /// The places of the lanes with messages, in rising order. There is room for the place of each lane.
    busy: Vec<usize>,
    messages: u128,
}

impl Model for Tally {
    ghost use Rattle.std.specs.Prelude.{◌≡◌, length, vec_len, vec_capacity};
    ghost use Rattle.link_net.specs.Counting.{Counts};

    ghost Value = { Counts };

    ghost view = { λ t. record { busy = t.busy.items; room = vec_capacity t.busy; messages = t.messages } };

    ghost invariant = { λ t. vec_len t.busy ≡ length t.busy.items };
}

impl Tally {
    /// The tally of so many lanes without messages.
    pub fn new(alloc: Global, lanes: usize) -> Result<Tally, Memory>
        ensures { IfOk result (λ tally. tally ≡ record { busy = []; room = lanes; messages = 0 }) }
    {
        Ok(Tally {
            busy: Vec::with_capacity(alloc, lanes)?,
            messages: 0,
        })
    }

    /// The place of the first lane that has messages.
    pub fn first_busy(&self) -> Option<usize>
        ensures { result ≡ slice_get self.now.busy 0 }
    {
        self.busy.first().copied()
    }

    pub fn messages(&self) -> u128
        ensures { result ≡ self.now.messages }
    {
        self.messages
    }

    /// The lane at a place had so many messages, and now has so many. Takes no memory.
    ///
    /// Costs a constant, or the number of the lanes with messages where this one got its first or lost its last.
    pub fn change(&mut self, at: usize, before: usize, after: usize)
        requires { (lanes : List Lane) × AreCountsOf lanes self.old × (length_at lanes at ≡ Some before) }
        ensures { (lanes : List Lane) (lane : Lane) → AreCountsOf lanes self.old → length_at lanes at ≡ Some before → length lane.list ≡ after → AreCountsOf (slice_set lanes at lane) self.new }
    {
        self.messages = self.messages - before as u128 + after as u128;
        self.change_busy(at, before, after);
    }

    fn change_busy(&mut self, at: usize, before: usize, after: usize)
        requires room { before ≡ 0 → length self.old.busy < self.old.room }
        requires there { before ≢ 0 → rank at self.old.busy < length self.old.busy }
        ensures { self.new ≡ record self.old { busy = after_change at before after self.old.busy } }
    {
        if before == 0 && after != 0 {
            self.insert(at);
        } else if before != 0 && after == 0 {
            self.remove(at);
        }
    }

    fn insert(&mut self, at: usize)
        requires { length self.old.busy < self.old.room }
        ensures { self.new ≡ record self.old { busy = with_place at self.old.busy } }
    {
        let rank = self.rank(at);
        self.busy.push_reserved(at);
        self.busy[rank..].rotate_right(1);
    }

    fn remove(&mut self, at: usize)
        requires { rank at self.old.busy < length self.old.busy }
        ensures { self.new ≡ record self.old { busy = without_place at self.old.busy } }
    {
        let rank = self.rank(at);
        self.busy.remove(rank);
    }

    /// Where a place stands, or would stand, among those of the lanes with messages.
    #[tactic(auto, using(crate::proofs::Counting::position_or_length))]
    fn rank(&self, at: usize) -> usize
        ensures rank { result ≡ rank at self.now.busy }
        ensures within { result ≤ length self.now.busy }
    {
        self.first_from(at).unwrap_or(self.busy.len())
    }

    /// Where the first of these places stands that isn't before this one.
    fn first_from(&self, at: usize) -> Option<usize>
        ensures { result ≡ position (λ place. nat_le at place) self.now.busy }
    {
        self.busy.iter().position(|place| *place >= at)
    }
}
