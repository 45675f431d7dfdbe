ghost use Rattle.std.specs.Prelude.{◌≡◌, Some, IfSome, ◌↔◌, ◌+◌, ◌-◌, ◌≤◌, ◌<◌, ◌++◌, ◌∷◌, [], length, drop, remove, slice_get, IsTrue, IfOk, OnOk, OnErr};
ghost use Rattle.std.specs.Option.{option_to_list};

use grid_base::{Bytes, Memory};
use std::alloc::Global;
use std::marker::Model;
use std::mem;

/// The messages in flight on one link, in the order in which they were sent.
#[derive(Debug, Drop)]
pub(crate) struct Lane {
    /// The messages, behind those that have left from the front.
    messages: Vec<Bytes>,
    /// How many have left from the front; nothing is kept of them.
    left: usize,
}

impl Model for Lane {
    ghost use Rattle.std.specs.Prelude.{◌≡◌, ◌-◌, ◌≤◌, length, drop, vec_len, vec_capacity};
    ghost use Rattle.link_net.specs.Links.{Lane};

    ghost Value = { Lane };

    ghost view = { λ l. record {
      list = drop l.left l.messages.items;
      spare = vec_capacity l.messages - vec_len l.messages;
    } };

    ghost invariant = { λ l. (vec_len l.messages ≡ length l.messages.items) × (l.left ≤ vec_len l.messages) };
}

/// Puts the message at a place behind the first `left` before all others there, at the cost of those it passes.
fn rotate_to_front(messages: &mut [Bytes], left: usize, place: usize)
    requires { left + place < length messages.old }
    ensures { let list = drop left messages.old in
        IfSome (slice_get list place) (λ first. drop left messages.new ≡ first ∷ remove list place) }
{
    messages[left..left + place + 1].rotate_right(1);
}

impl Lane {
    /// No messages. Takes no memory.
    pub fn new(alloc: Global) -> Self
        ensures list { result.list ≡ [] }
        ensures spare { result.spare ≡ 0 }
    {
        Lane {
            messages: Vec::new(alloc),
            left: 0,
        }
    }

    pub fn as_slice(&self) -> &[Bytes]
        ensures { result.now ≡ self.now.list }
    {
        &self.messages[self.left..]
    }

    pub fn len(&self) -> usize
        ensures { result ≡ length self.now.list }
    {
        self.as_slice().len()
    }

    /// Makes room for so many messages more.
    pub fn reserve(&mut self, extra: usize) -> Result<(), Memory>
        ensures list { self.new.list ≡ self.old.list }
        ensures spare { self.old.spare ≤ self.new.spare }
        ensures ok { OnOk result (extra ≤ self.new.spare) }
    {
        self.messages.reserve(extra)
    }

    /// Puts a message last, into the room that there is.
    pub fn send(&mut self, bytes: Bytes)
        requires { 1 ≤ self.old.spare }
        ensures list { self.new.list ≡ self.old.list ++ bytes ∷ [] }
        ensures spare { self.new.spare + 1 ≡ self.old.spare }
    {
        self.messages.push_reserved(bytes);
    }

    /// Puts a copy of the message at a place last, if there is one. Costs the message's length.
    #[tactic(auto, using(crate::proofs::Lists::none_repeated, crate::proofs::Lists::one_repeated))]
    pub fn repeat(&mut self, alloc: Global, place: usize) -> Result<bool, Memory>
        ensures there { IfOk result (λ there. IsTrue there ↔ (place < length self.old.list)) }
        ensures ok { let repeated = option_to_list (slice_get self.old.list place) in
            OnOk result (self.new.list ≡ self.old.list ++ repeated) }
        ensures err { OnErr result (self.new.list ≡ self.old.list) }
        ensures spare { self.old.spare ≤ self.new.spare + 1 }
    {
        let messages = self.as_slice();
        if place >= messages.len() {
            return Ok(false);
        }
        let copy = messages[place].copied(alloc)?;
        self.messages.push(copy)?;
        Ok(true)
    }

    /// Takes the message at a place out, if there is one, at the cost of those before it or of those behind it,
    /// whichever are fewer; the first in constant time over many takings. Takes no memory.
    pub fn take(&mut self, place: usize) -> Option<Bytes>
        ensures taken { result ≡ slice_get self.old.list place }
        ensures list { self.new.list ≡ remove self.old.list place }
        ensures spare { self.old.spare ≤ self.new.spare }
    {
        let count = self.len();
        if place >= count {
            None
        } else if place > count / 2 {
            Some(self.take_from_behind(place))
        } else {
            Some(self.take_from_before(place))
        }
    }

    #[tactic(auto, using(crate::proofs::Lists::drop_remove))]
    fn take_from_behind(&mut self, place: usize) -> Bytes
        requires { place < length self.old.list }
        ensures taken { slice_get self.old.list place ≡ Some result }
        ensures list { self.new.list ≡ remove self.old.list place }
        ensures spare { self.old.spare ≤ self.new.spare }
    {
        self.messages.remove(self.left + place)
    }

    fn take_from_before(&mut self, place: usize) -> Bytes
        requires { place < length self.old.list }
        ensures taken { slice_get self.old.list place ≡ Some result }
        ensures list { self.new.list ≡ remove self.old.list place }
        ensures spare { self.old.spare ≤ self.new.spare }
    {
        self.bring_to_front(place);
        self.take_first()
    }

    fn bring_to_front(&mut self, place: usize)
        requires { place < length self.old.list }
        ensures list { let others = remove self.old.list place in
            IfSome (slice_get self.old.list place) (λ first. self.new.list ≡ first ∷ others) }
        ensures spare { self.new.spare ≡ self.old.spare }
    {
        rotate_to_front(&mut self.messages, self.left, place);
    }

    fn take_first(&mut self) -> Bytes
        requires { 0 < length self.old.list }
        ensures list { self.old.list ≡ result ∷ self.new.list }
        ensures spare { self.old.spare ≤ self.new.spare }
    {
        let nothing = Bytes::new(*self.messages.allocator());
        let first = mem::replace(&mut self.messages[self.left], nothing);
        self.left += 1;
        if self.left >= self.messages.len() - self.left {
            self.forget_left();
        }
        first
    }

    /// Keeps nothing more of those that have left, at the cost of the whole list.
    fn forget_left(&mut self)
        ensures list { self.new.list ≡ self.old.list }
        ensures spare { self.old.spare ≤ self.new.spare }
    {
        self.messages.rotate_left(self.left);
        self.messages.truncate(self.messages.len() - self.left);
        self.left = 0;
    }
}
