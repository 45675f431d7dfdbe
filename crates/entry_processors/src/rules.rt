ghost use Rattle.std.specs.Prelude.{◌≡◌, ◌+◌, ◌^◌, ◌<◌, [], ◌++◌, length, Some, IfOk, unwrap_or};
ghost use Rattle.std.specs.Option.{option_copied};
ghost use Rattle.entry_processors.specs.NumberValues.{number_value as value_of_number, number_in as number_of, number_of_argument as number_of_bytes};
ghost use Rattle.entry_processors.specs.Processors.{counted as counted_as, sum_of, at_most, set_to as set_to_value, kept as kept_as, refused as refused_as, set_number as number_set};

use crate::number::{number_in, number_of_argument, number_value};
use crate::processor::{Outcome, Processor};
use grid_base::{Bytes, Memory};
use std::alloc::Global;

/// The most bytes that appending may come to.
const MOST_BYTES: usize = 1_000_000;

/// Adds the argument to the number, and answers the sum. No value counts as 0. Changes nothing and answers null
/// where either isn't a number in its form, or where the sum doesn't fit an `i64`.
#[derive(Clone, Copy, Debug)]
pub struct Add;

/// As `Add`, and also changes nothing and answers null where the sum exceeds this limit.
#[derive(Clone, Copy, Debug)]
pub struct AddUpTo(pub i64);

/// Appends the argument to the value, and answers the new one. No value counts as empty. Changes nothing and
/// answers null where the new value would have more than 1,000,000 bytes.
#[derive(Clone, Copy, Debug)]
pub struct Append;

/// Sets the argument's number and answers the new value, where there is no value or its number is less. Answers
/// the value as it is otherwise, and null where either isn't a number in its form.
#[derive(Clone, Copy, Debug)]
pub struct SetIfGreater;

/// Removes the value and answers it.
#[derive(Clone, Copy, Debug)]
pub struct Clear;

impl Processor for Add {
    ghost use Rattle.entry_processors.specs.Processors.{Add as Adds};

    ghost form = { λ _. Adds };

    fn run(&self, alloc: Global, old: Option<&Bytes>, argument: &Bytes) -> Result<Outcome, Memory> {
        let sum = sum(counted(old), number_of_argument(argument.as_slice()));
        set_number(alloc, sum, old)
    }
}

impl Processor for AddUpTo {
    ghost use Rattle.entry_processors.specs.Processors.{AddUpTo as AddsUpTo};

    ghost form = { λ rule. AddsUpTo rule.0 };

    fn run(&self, alloc: Global, old: Option<&Bytes>, argument: &Bytes) -> Result<Outcome, Memory> {
        let sum = sum(counted(old), number_of_argument(argument.as_slice()));
        set_number(alloc, sum.filter(|sum| *sum <= self.0), old)
    }
}

impl Processor for Append {
    ghost use Rattle.entry_processors.specs.Processors.{Append as Appends};

    ghost form = { λ _. Appends };

    fn run(&self, alloc: Global, old: Option<&Bytes>, argument: &Bytes) -> Result<Outcome, Memory> {
        let before = bytes_of(old);
        if before.len().saturating_add(argument.len()) > MOST_BYTES {
            return refused(alloc, old);
        }
        set_to(alloc, joined(alloc, before, argument.as_slice())?)
    }
}

impl Processor for SetIfGreater {
    ghost use Rattle.entry_processors.specs.Processors.{SetIfGreater as SetsIfGreater};

    ghost form = { λ _. SetsIfGreater };

    fn run(&self, alloc: Global, old: Option<&Bytes>, argument: &Bytes) -> Result<Outcome, Memory> {
        let number = number_of_argument(argument.as_slice());
        let Some(value) = old else {
            return set_number(alloc, number, old);
        };
        match (number, number_in(value.as_slice())) {
            (Some(number), Some(before)) if before < number => {
                set_to(alloc, number_value(alloc, number)?)
            }
            (Some(_), Some(_)) => Ok(Outcome {
                value: Some(value.copied(alloc)?),
                answer: Some(value.copied(alloc)?),
            }),
            _ => refused(alloc, old),
        }
    }
}

impl Processor for Clear {
    ghost use Rattle.entry_processors.specs.Processors.{Clear as Clears};

    ghost form = { λ _. Clears };

    fn run(
        &self,
        alloc: Global,
        old: Option<&Bytes>,
        _argument: &Bytes,
    ) -> Result<Outcome, Memory> {
        Ok(Outcome {
            value: None,
            answer: copied(alloc, old)?,
        })
    }
}

/// The bytes of a value, where none counts as empty.
fn bytes_of(old: Option<&Bytes>) -> &[u8]
    ensures { result.now ≡ unwrap_or (option_copied old.entry) [] }
{
    match old {
        None => &[],
        Some(value) => value.as_slice(),
    }
}

fn joined(alloc: Global, first: &[u8], second: &[u8]) -> Result<Bytes, Memory>
    requires { length first.now + length second.now < 2 ^ 64 }
    ensures { IfOk result (λ bytes. bytes ≡ first.now ++ second.now) }
{
    let mut bytes = Vec::with_capacity(alloc, first.len() + second.len())?;
    bytes.extend_from_slice(first)?;
    bytes.extend_from_slice(second)?;
    Ok(Bytes::from_vec(bytes))
}

/// The number that a value counts as.
fn counted(old: Option<&Bytes>) -> Option<i64>
    ensures { result ≡ counted_as (option_copied old.entry) }
{
    match old {
        None => Some(0),
        Some(value) => number_in(value.as_slice()),
    }
}

/// The sum, where both numbers are there and it fits.
fn sum(a: Option<i64>, b: Option<i64>) -> Option<i64>
    ensures { result ≡ sum_of a b }
{
    a?.checked_add(b?)
}

/// The number is the new value, where there is one.
fn set_number(alloc: Global, number: Option<i64>, old: Option<&Bytes>) -> Result<Outcome, Memory>
    ensures { IfOk result (λ made. made ≡ number_set number (option_copied old.entry)) }
{
    match number {
        Some(number) => set_to(alloc, number_value(alloc, number)?),
        None => refused(alloc, old),
    }
}

/// The new value, answered.
fn set_to(alloc: Global, value: Bytes) -> Result<Outcome, Memory>
    ensures { IfOk result (λ made. made ≡ set_to_value value) }
{
    Ok(Outcome {
        answer: Some(value.copied(alloc)?),
        value: Some(value),
    })
}

/// The old value stays, and null is answered.
fn refused(alloc: Global, old: Option<&Bytes>) -> Result<Outcome, Memory>
    ensures { IfOk result (λ made. made ≡ refused_as (option_copied old.entry)) }
{
    Ok(Outcome {
        value: copied(alloc, old)?,
        answer: None,
    })
}

fn copied(alloc: Global, value: Option<&Bytes>) -> Result<Option<Bytes>, Memory>
    ensures { IfOk result (λ copy. copy ≡ option_copied value.entry) }
{
    match value {
        None => Ok(None),
        Some(value) => Ok(Some(value.copied(alloc)?)),
    }
}
