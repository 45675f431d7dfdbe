ghost use Rattle.std.specs.Prelude.{◌≡◌, ℕ, List, true};
ghost use Rattle.grid_base.specs.declared.calls.GridCall.TheVariants.{Queue};
ghost use Rattle.grid_base.specs.declared.calls.QueueCall.TheVariants.{Offer, Poll};
ghost use Rattle.call_engine.specs.Env.{settings_of};
ghost use Rattle.wait_sets.specs.Boxes.{boxed};
ghost use Rattle.call_engine.specs.Readiness.{wish_of};
ghost use Rattle.wait_sets.specs.WaitSets.{deadline_of as deadline_after};

use call_engine::{GridEnv, GridShelf};
use grid_base::{GridCall, Moment, QueueCall, Request};
use key_locks::has_ended;

/// A call that waits: its plain call, and the moment from which it is due, if there is one.
#[derive(Debug, Drop)]
pub struct Waiter {
    pub request: Request,
    pub deadline: Option<Moment>,
}

impl Waiter {
    ghost use Rattle.wait_sets.specs.WaitSets.{is_its_turn, is_due as is_due_at};

    /// Whether it is ready or due at that moment. Where it is nobody's turn in a set, a call that arrives is looked at
    /// alone, before it joins or after. Takes no memory.
    pub fn is_its_turn(&self, shelf: &GridShelf, env: &GridEnv, now: Moment) -> bool
        ensures { result ≡ is_its_turn (settings_of (boxed form) env.now) shelf.now now self.now }
    {
        shelf.ready(env, &self.request, now) || self.is_due(now)
    }

    pub(crate) fn is_due(&self, now: Moment) -> bool
        ensures { result ≡ is_due_at now self.now }
    {
        has_ended(self.deadline, now)
    }
}

/// Whether both offer to one queue, or both poll one: then one is ready exactly where the other is.
pub(crate) fn wish_the_same(one: &GridCall, other: &GridCall) -> bool
    ensures alike { result ≡ true → wish_of one.now ≡ wish_of other.now }
    ensures offers { (name value another : List ℕ) → one.now ≡ Queue (Offer name value) → other.now ≡ Queue (Offer name another) → result ≡ true }
    ensures polls { (name : List ℕ) → one.now ≡ Queue (Poll name) → other.now ≡ Queue (Poll name) → result ≡ true }
{
    match (one, other) {
        (
            GridCall::Queue(QueueCall::Offer { name, .. }),
            GridCall::Queue(QueueCall::Offer { name: other, .. }),
        ) => name == other,
        (
            GridCall::Queue(QueueCall::Poll { name }),
            GridCall::Queue(QueueCall::Poll { name: other }),
        ) => name == other,
        _ => false,
    }
}

/// The moment from which a call is due that arrives now and waits `timeout` milliseconds; none where it waits without an
/// end, as with a timeout below 0 or one that ends past the last moment.
pub fn deadline_of(now: Moment, timeout: i64) -> Option<Moment>
    ensures { result ≡ deadline_after now timeout }
{
    match timeout {
        ..0 => None,
        0.. => now.checked_add(timeout.unsigned_abs()),
    }
}
