use grid_base::{CallId, Memory};
use hand_cell::{Runs, Stands};
use std::alloc::Global;

/// A value that counts its events.
#[derive(Drop)]
pub struct Counter {
    pub count: u64,
}

/// The event of a call.
#[derive(Drop, Clone, Copy)]
pub struct Count {
    pub call: CallId,
}

impl Stands for Counter {
    ghost use Rattle.std.specs.Prelude.{◌≡◌, length};
    ghost use Rattle.cell_examples.specs.Counting.{key_of};

    type Plan = ();

    type Event = Count;

    type Outcome = u64;

    ghost stands = { λ counter _ history. counter.count ≡ length history };

    ghost gives = { λ _ history _ before. before ≡ length history };

    ghost key_of = { key_of };

    ghost admits = { λ _. Unit {0} };
}

impl Runs<()> for Counter {
    ghost means = { λ _ _. Unit {0} };

    /// Counts the event, and answers the count before.
    fn run(&mut self, _alloc: Global, _env: &(), _event: Count) -> Result<u64, Memory> {
        let before = self.count;
        self.count += 1;
        Ok(before)
    }
}
