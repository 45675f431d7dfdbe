ghost use Rattle.std.specs.Prelude.{◌≡◌, ◌↔◌, map, Some, None, IfOk, IfErr, IsErrOf};
ghost use Rattle.std.specs.Option.{option_copied};
ghost use Rattle.entry_processors.specs.Places.{item_at};
ghost use Rattle.entry_processors.specs.Processors.{outcome, outcome_at};

use crate::numbered::Numbered;
use crate::processor::{Outcome, Processor};
use grid_base::{Bytes, Memory};
use std::alloc::Global;
use thiserror::Error;

/// Why a registry ran no processor.
#[derive(Clone, Copy, Debug, PartialEq, Eq, Error)]
pub enum ProcessorRefused {
    #[error("no processor has that number")]
    Unknown,
    #[error("out of memory")]
    Memory,
}

/// Processors by number. Contracts see the list of its boxes, and name their forms `map form registry`.
pub type Registry = Numbered<Box<dyn Processor>>;

impl Numbered<Box<dyn Processor>> {
    /// Runs the processor of a number, at the cost of that one.
    pub fn run(
        &self,
        alloc: Global,
        number: i32,
        old: Option<&Bytes>,
        argument: &Bytes,
    ) -> Result<Outcome, ProcessorRefused>
        ensures ok { IfOk result (λ made. outcome_at (map form self.now) number (option_copied old.entry) argument.now ≡ Some made) }
        ensures unknown { IsErrOf result ProcessorRefused.Unknown ↔ (item_at (map form self.now) number ≡ None) }
    {
        match self.get(number) {
            None => Err(ProcessorRefused::Unknown),
            Some(processor) => run_boxed(processor, alloc, old, argument),
        }
    }
}

fn run_boxed(
    processor: &Box<dyn Processor>,
    alloc: Global,
    old: Option<&Bytes>,
    argument: &Bytes,
) -> Result<Outcome, ProcessorRefused>
    ensures ok { IfOk result (λ made. made ≡ outcome (form processor.now) (option_copied old.entry) argument.now) }
    ensures memory { IfErr result (λ refused. refused ≡ ProcessorRefused.Memory) }
{
    processor
        .run(alloc, old, argument)
        .map_err(|_| ProcessorRefused::Memory)
}
