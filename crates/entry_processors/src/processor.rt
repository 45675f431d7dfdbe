ghost use Rattle.std.specs.Prelude.{◌≡◌, IfOk};
ghost use Rattle.std.specs.Option.{option_copied};

use grid_base::{Bytes, Memory};
use std::alloc::Global;

/// What a processor leaves as the value, and what it answers.
#[derive(Debug, Drop)]
pub struct Outcome {
    /// None where no value is left.
    pub value: Option<Bytes>,
    /// None is the answer null.
    pub answer: Option<Bytes>,
}

/// A rule that makes a new value of an entry's value, or of none, and an argument.
///
/// To contracts a processor is its form: it is of no account which type follows it.
pub trait Processor: Drop + Send + Sync {
    ghost use Rattle.entry_processors.specs.Processors.{ProcessorForm, outcome};

    /// The rule.
    ghost form: { Self → ProcessorForm };

    /// Costs as much as the bytes of the value, the argument and the outcome.
    fn run(&self, alloc: Global, old: Option<&Bytes>, argument: &Bytes) -> Result<Outcome, Memory>
        ensures { IfOk result (λ made. made ≡ outcome (form self.now) (option_copied old.entry) argument.now) };
}
