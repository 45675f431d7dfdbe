use grid_base::Memory;
use hand_cell::{Runs, Stands};
use std::alloc::Global;

/// A value that counts its events.
#[derive(Drop)]
pub struct Ticks {
    pub count: u64,
}

/// An event that any pass may run.
#[derive(Drop, Clone, Copy)]
pub struct Tick;

impl Stands for Ticks {
    ghost use Rattle.std.specs.Prelude.{◌≡◌, length};
    ghost use Rattle.hand_cell.specs.declared.names.Key.TheVariants.{Free};

    type Plan = ();

    type Event = Tick;

    type Outcome = ();

    ghost stands = { λ ticks _ history. ticks.count ≡ length history };

    ghost gives = { λ _ _ _ _. Unit {0} };

    ghost key_of = { λ _. Free };

    ghost admits = { λ _. Unit {0} };
}

impl Runs<()> for Ticks {
    ghost means = { λ _ _. Unit {0} };

    fn run(&mut self, _alloc: Global, _env: &(), _event: Tick) -> Result<(), Memory> {
        self.count += 1;
        Ok(())
    }
}
