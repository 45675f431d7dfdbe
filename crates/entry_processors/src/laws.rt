//! What holds of every processor, number value and registry. The functions compute nothing: their contracts are the laws.

ghost use Rattle.std.specs.Prelude.{ℕ, ℤ, List, Option};
ghost use Rattle.entry_processors.specs.OutcomeFacts.{IsReadAsSpelled, IsSpelledOneWay, IsNumberedFromOne, NullKeepsTheValue, KeepsToItsLimit, StaysWithin};
ghost use Rattle.entry_processors.specs.Processors.{ProcessorForm};

/// A number has one number value, and is read back from it.
pub fn every_number_has_one_value()
    ensures read { (number : ℤ) → IsReadAsSpelled number }
    ensures single { (bytes : List ℕ) (number : ℤ) → IsSpelledOneWay bytes number }
{}

/// A registry knows the numbers from 1 to its length, and no others.
pub fn every_registry_is_numbered_from_one()
    ensures { (forms : List ProcessorForm) (number : ℤ) → IsNumberedFromOne forms number }
{}

/// A processor that answers null changes nothing.
pub fn every_null_keeps_the_value()
    ensures { (form : ProcessorForm) (old : Option (List ℕ)) (argument : List ℕ) → NullKeepsTheValue form old argument }
{}

/// A sum up to a limit leaves no number above it that wasn't there before.
pub fn every_sum_keeps_to_its_limit()
    ensures { (limit : ℤ) (old : Option (List ℕ)) (argument : List ℕ) (number : ℤ) → KeepsToItsLimit limit old argument number }
{}

/// No processor leaves or answers more bytes than the value had, or 1,000,000.
pub fn every_outcome_stays_within()
    ensures { (form : ProcessorForm) (most : ℕ) (old : Option (List ℕ)) (argument : List ℕ) → StaysWithin form most old argument }
{}
