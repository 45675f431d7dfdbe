//! A value whose calls are answered at once.
ghost use Rattle.std.specs.Prelude.{◌≡◌};

use grid_base::{CallId, MemberId, Memory, Moment, Request};
use hand_cell::{LiveOutcome, Runs, Served, Stands};
use std::alloc::Global;

/// A value that counts its calls. Each is answered at once, by an outcome that takes no memory.
#[derive(Drop)]
pub struct Echo {
    pub calls: u64,
}

/// The event of a call.
#[derive(Drop, Clone, Copy)]
pub struct Asked {
    pub call: CallId,
}

impl Stands for Echo {
    ghost use Rattle.turns_bench.specs.Echoes.{key_of};

    type Plan = ();

    type Event = Asked;

    type Outcome = ();

    ghost stands = { λ _ _ _. Unit {0} };

    ghost gives = { λ _ _ _ _. Unit {0} };

    ghost key_of = { key_of };

    ghost admits = { λ _. Unit {0} };
}

impl Runs<()> for Echo {
    ghost means = { λ _ _. Unit {0} };

    fn run(&mut self, _alloc: Global, _env: &(), _event: Asked) -> Result<(), Memory> {
        self.calls = self.calls.wrapping_add(1);
        Ok(())
    }
}

impl Served for Echo {
    ghost use Rattle.std.specs.Prelude.{refl};
    ghost use Rattle.turns_bench.specs.Echoes.{asked_of};

    ghost call_of = { λ _ request _. asked_of request };

    ghost fits = { λ _. Unit {0} };

    ghost tells = { λ _ _ _ _. Unit {0} };

    ghost call_key = { λ _ _ _. refl };

    fn call_event(_member: MemberId, request: Request, _now: Moment) -> Asked {
        Asked { call: request.id }
    }

    fn next_event(&self) -> Option<Asked> {
        None
    }

    fn settled(_outcome: &()) -> Option<LiveOutcome> {
        Some(LiveOutcome::MemberGone)
    }

    fn outcome_of(&mut self, _member: MemberId, _id: CallId) -> Option<LiveOutcome> {
        None
    }
}
