//! What the words of a line say, behind the first.
ghost use Rattle.std.specs.Prelude.{◌≡◌, ◌≤◌};
ghost use Rattle.script_lang.specs.Lines.{range_of, value_of, hex_value, number_value};
ghost use Rattle.script_lang.specs.Readings.{Reads};

use crate::numbers::number_within;
use crate::reading::Value;
use crate::refusal::{LineRefused, LineWhy};
use grid_base::Bytes;
use hex::FromHexError;
use std::alloc::Global;
use std::ops::RangeInclusive;

/// What a word says.
#[derive(Clone, Copy, Debug, PartialEq, Eq)]
pub(crate) enum Field {
    /// How many members the grid has.
    Members,
    /// How many backups a partition has.
    Backups,
    /// How many values a queue may have.
    Capacity,
    Connection,
    Member,
    /// Where a link begins or ends: a member, or the table service, whose number follows the members'.
    LinkEnd,
    Partition,
    /// A partition, or the word `all`.
    PartitionOrAll,
    /// A place among the messages in flight on a link.
    Place,
    /// A moment in milliseconds.
    Moment,
    /// How many deliveries are made at most.
    Deliveries,
    /// How many steps of a plan are run at most.
    Steps,
    /// How many entries a near cache may have.
    Entries,
    /// How many bytes are taken at most.
    Amount,
    /// Bytes in hexadecimal, at least one.
    Hex,
}

impl Field {
    /// The numbers that it may be, in a grid of `members` members.
    pub(crate) fn range(self, members: u8) -> RangeInclusive<u64>
        ensures least { result.start ≡ (range_of members self).least }
        ensures most { result.end ≡ (range_of members self).most }
    {
        match self {
            Field::Members => 1..=8,
            Field::Backups => 0..=6,
            Field::Capacity => 0..=2_147_483_647,
            Field::Connection => 0..=63,
            Field::Member => 0..=u64::from(members.saturating_sub(1)),
            Field::LinkEnd => 0..=u64::from(members),
            Field::Partition | Field::PartitionOrAll => 0..=270,
            Field::Place | Field::Moment => 0..=u64::MAX,
            Field::Deliveries => 1..=1000,
            Field::Steps => 0..=271,
            Field::Entries => 1..=100_000,
            Field::Amount => 1..=1_000_000,
            Field::Hex => 0..=0,
        }
    }

    /// The value of a word, in a grid of `members` members.
    pub(crate) fn read(self, alloc: Global, word: &[u8], members: u8) -> Result<Value, LineRefused>
        ensures { Reads (λ value. value) result (value_of members self word.now) }
    {
        match self {
            Field::Hex => read_bytes(alloc, word),
            Field::PartitionOrAll if word == b"all".as_slice() => Ok(Value::All),
            field => read_number(word, field.range(members)),
        }
    }
}

/// The number that a word spells in decimal digits.
fn read_number(word: &[u8], range: RangeInclusive<u64>) -> Result<Value, LineRefused>
    ensures { Reads (λ value. value) result (number_value (record { least = range.start; most = range.end }) word.now) }
{
    match number_within(word, *range.start(), *range.end()) {
        Some(number) => Ok(Value::Number(number)),
        None => Err(LineRefused::Why(LineWhy::Number)),
    }
}

/// The bytes that a word spells in hexadecimal, at least one.
fn read_bytes(alloc: Global, word: &[u8]) -> Result<Value, LineRefused>
    ensures { Reads (λ value. value) result (hex_value word.now) }
{
    if word.is_empty() {
        return Err(LineRefused::Why(LineWhy::Hex));
    }
    match hex::decode(alloc, word) {
        Ok(bytes) => Ok(Value::Bytes(Bytes::from_vec(bytes))),
        Err(FromHexError::OutOfMemory) => Err(LineRefused::Memory),
        Err(_) => Err(LineRefused::Why(LineWhy::Hex)),
    }
}
