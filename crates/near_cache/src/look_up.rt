ghost use Rattle.std.specs.Prelude.{◌≡◌, ℕ, option_map};
ghost use Rattle.slab.specs.Slab.{get};
ghost use Rattle.near_cache.specs.Scopes.{is_covered};
ghost use Rattle.near_cache.specs.LookUps.{overtaking};

use crate::scope::Scope;
use grid_base::Bytes;
use slab::Slab;
use std::marker::Model;

/// An open look-up of a near cache: `fill` spends it, and `give_up` closes it. One that is dropped stays open.
#[must_use]
#[derive(Debug, Drop)]
pub struct Reservation {
    pub(crate) number: usize,
}

impl Model for Reservation {
    ghost Value = { ℕ };

    ghost view = { λ r. r.number };
}

/// What became of an answer.
#[derive(Clone, Copy, Debug, PartialEq, Eq)]
pub enum Filled {
    /// It is kept.
    Kept,
    /// It isn't, since the key was invalidated, or its partition cleared, after the look-up was opened. The last one tells
    /// the version and the number of its effect there, or the version of its row and the number 0.
    Overtaken { version: u32, number: u32 },
}

/// An invalidation by its version and number, or a row by its version and the number 0.
#[derive(Clone, Copy, Debug, PartialEq, Eq)]
pub(crate) struct Overtaking {
    pub version: u32,
    pub number: u32,
}

/// A look-up that waits for its answer.
#[derive(Debug, Drop)]
pub(crate) struct LookUp {
    pub key: Bytes,
    /// What overtook it last since it was opened.
    pub overtaken: Option<Overtaking>,
}

impl LookUp {
    ghost use Rattle.near_cache.specs.Scopes.{is_covered};
    ghost use Rattle.near_cache.specs.LookUps.{overtaking};

    /// Where its key goes, this overtook it last.
    fn overtake(&mut self, scope: &Scope<'_>, by: Overtaking)
        ensures { self.new ≡ overtaking (is_covered scope.now) by self.old }
    {
        if scope.covers(&self.key) {
            self.overtaken = Some(by);
        }
    }
}

/// Overtakes the look-ups of the keys that go, at a cost in proportion to the most that were ever open at once. Takes no
/// memory.
pub(crate) fn overtake_all(waiting: &mut Slab<LookUp>, scope: &Scope<'_>, by: Overtaking)
    ensures { (n : ℕ) → get waiting.new n ≡ option_map (overtaking (is_covered scope.now) by) (get waiting.old n) }
{
    for number in 0..waiting.capacity() {
        if let Some(look_up) = waiting.get_mut(number) {
            look_up.overtake(scope, by);
        }
    }
}
