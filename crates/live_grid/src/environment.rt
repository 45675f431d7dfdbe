//! An environment that any thread may use, and the form in which a grid's shelves take it.
use call_engine::{GridEnv, GridShelf};
use entry_processors::Processor;
use grid_base::{Executed, Executes, Memory, Moment, Request};
use std::alloc::Global;

/// What a grid's calls are run in, by any thread. To calls it is plain data.
pub trait Environment: Sync + Drop {
    ghost use Rattle.std.specs.Prelude.{◌≡◌, IfOk};
    ghost use Rattle.grid_base.specs.Objects.{IsSmall};
    ghost use Rattle.call_engine.specs.Calls.{Settings};
    ghost use Rattle.call_engine.specs.Changes.{change_of};
    ghost use Rattle.call_engine.specs.Effects.{effect_of};
    ghost use Rattle.call_engine.specs.Limits.{RequestFits, IsWithin};
    ghost use Rattle.call_engine.specs.Objects.{partition_object};

    /// How it holds a processor.
    type Held;

    /// What it means to calls.
    ghost settings: { Self → Settings };

    /// What a call on these objects answers, changes and reports at a moment. Only looks: the caller applies the effect.
    fn execute(
        &self,
        alloc: Global,
        shelf: &GridShelf,
        call: &Request,
        now: Moment,
    ) -> Result<Executed, Memory>
        requires limits { RequestFits call.now }
        requires small { IsSmall IsWithin shelf.now }
        ensures reply { IfOk result (λ e. e.reply ≡ (partition_object (settings self.now)).reply shelf.now call.now now) }
        ensures effect { IfOk result (λ e. e.effect ≡ effect_of (settings self.now) shelf.now call.now now) }
        ensures change { IfOk result (λ e. e.change ≡ change_of (settings self.now) shelf.now call.now now) };
}

impl Environment for GridEnv {
    ghost use Rattle.call_engine.specs.Env.{settings_of};

    type Held = Box<dyn Processor>;

    ghost settings = { λ env. settings_of (λ b. (Processor-box b).form b.value) env };

    fn execute(
        &self,
        alloc: Global,
        shelf: &GridShelf,
        call: &Request,
        now: Moment,
    ) -> Result<Executed, Memory> {
        shelf.execute(alloc, self, call, now)
    }
}

/// An environment, as a grid's shelves take it.
#[derive(Drop)]
pub struct Shared<N> {
    pub env: N,
}

impl<N: Environment> Executes<Shared<N>> for GridShelf {
    ghost plan_of = { λ shared. N.settings shared.env };

    fn execute(
        &self,
        alloc: Global,
        shared: &Shared<N>,
        call: &Request,
        now: Moment,
    ) -> Result<Executed, Memory> {
        shared.env.execute(alloc, self, call, now)
    }
}
