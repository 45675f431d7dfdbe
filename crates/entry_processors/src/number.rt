ghost use Rattle.std.specs.Prelude.{◌≡◌, IfOk};
ghost use Rattle.entry_processors.specs.NumberValues.{number_value, number_in, number_of_argument};

use grid_base::{Bytes, Memory};
use std::alloc::Global;

/// What a number value begins with: the partition hash 0, and the type of a 64-bit number.
const HEADER: [u8; 8] = [0, 0, 0, 0, 0xff, 0xff, 0xff, 0xf8];

/// The number in a value.
pub(crate) fn number_in(value: &[u8]) -> Option<i64>
    ensures { result ≡ number_in value.now }
{
    let (header, digits) = value.split_first_chunk::<8>()?;
    let digits = digits.as_array::<8>()?;
    if *header == HEADER {
        Some(i64::from_be_bytes(*digits))
    } else {
        None
    }
}

/// The number in an argument.
pub(crate) fn number_of_argument(argument: &[u8]) -> Option<i64>
    ensures { result ≡ number_of_argument argument.now }
{
    let digits = argument.as_array::<8>()?;
    Some(i64::from_le_bytes(*digits))
}

/// The value that has a number.
pub(crate) fn number_value(alloc: Global, number: i64) -> Result<Bytes, Memory>
    ensures { IfOk result (λ value. value ≡ number_value number) }
{
    let mut value = Vec::with_capacity(alloc, 16)?;
    value.extend_from_slice(&HEADER)?;
    value.extend_from_slice(&number.to_be_bytes())?;
    Ok(Bytes::from_vec(value))
}
