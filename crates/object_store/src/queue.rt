ghost use Rattle.std.specs.Prelude.{◌≡◌, ◌↔◌, ◌<◌, ◌∷◌, ◌++◌, [], Some, length, drop, IsTrue, OnOk, OnErr};
ghost use Rattle.queue_records.specs.Queues.{front};

use grid_base::{Bytes, Memory};
use std::alloc::Global;
use std::marker::Model;
use std::mem;

/// The values of a queue, the front first.
#[derive(Debug, Drop)]
pub struct Queue {
    /// The values, behind as many empty places as were taken and not yet given back.
    places: Vec<Bytes>,
    taken: usize,
}

impl Model for Queue {
    ghost use Rattle.std.specs.Prelude.{ℕ, ◌≤◌, List, length, vec_len, drop, ◌≡◌};

    ghost Value = { List (List ℕ) };

    ghost view = { λ q. drop q.taken q.places.items };

    ghost invariant = { λ q. (q.taken ≤ vec_len q.places) × (vec_len q.places ≡ length q.places.items) };
}

impl Queue {
    /// A queue without values. Takes no memory.
    pub fn new(alloc: Global) -> Self
        ensures { result ≡ [] }
    {
        Queue {
            places: Vec::new(alloc),
            taken: 0,
        }
    }

    /// The values, the front first.
    pub fn as_slice(&self) -> &[Bytes]
        ensures { result.now ≡ self.now }
    {
        &self.places[self.taken..]
    }

    pub fn is_empty(&self) -> bool
        ensures { IsTrue result ↔ (self.now ≡ []) }
    {
        self.as_slice().is_empty()
    }

    /// Puts a value at the back. Want of memory changes nothing.
    pub fn push(&mut self, value: Bytes) -> Result<(), Memory>
        ensures ok { OnOk result (self.new ≡ self.old ++ value ∷ []) }
        ensures err { OnErr result (self.new ≡ self.old) }
    {
        self.places.push(value)?;
        Ok(())
    }

    /// Takes the value at the front, if there is one. Takes no memory.
    pub fn pop(&mut self) -> Option<Bytes>
        ensures value { result ≡ front self.old }
        ensures rest { self.new ≡ drop 1 self.old }
    {
        if self.is_empty() {
            return None;
        }
        let value = self.take_front();
        self.give_back();
        Some(value)
    }

    /// Takes the value at the front, and leaves its place empty.
    fn take_front(&mut self) -> Bytes
        requires { 0 < length self.old }
        ensures value { Some result ≡ front self.old }
        ensures rest { self.new ≡ drop 1 self.old }
    {
        let empty = Bytes::new(*self.places.allocator());
        let value = mem::replace(&mut self.places[self.taken], empty);
        self.taken += 1;
        value
    }

    /// Gives the taken places back once they are at least half of all, so that a value is moved once at most for each
    /// value that is taken.
    fn give_back(&mut self)
        ensures { self.new ≡ self.old }
    {
        if self.places.len() - self.taken <= self.taken {
            self.places.drain(..self.taken);
            self.taken = 0;
        }
    }
}
