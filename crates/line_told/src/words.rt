//! Words, numbers and bytes in a line's text.

ghost use Rattle.std.specs.Prelude.{◌≡◌, ◌++◌, decimal, OnOk};
ghost use Rattle.std.specs.Option.{option_copied};
ghost use Rattle.hex.specs.Hex.{encode_lower};
ghost use Rattle.line_told.specs.Words.{word, number, number_or_dash, hex_word, value_text};

use grid_base::{Bytes, Memory};
use itoa::Buffer;
use std::alloc::Global;

/// Appends text.
pub fn push_text(out: &mut Vec<u8>, text: &[u8]) -> Result<(), Memory>
    ensures { OnOk result (out.new.items ≡ out.old.items ++ text.now) }
{
    Ok(out.extend_from_slice(text)?)
}

/// Appends a word and the space after it.
pub fn push_word(out: &mut Vec<u8>, text: &[u8]) -> Result<(), Memory>
    ensures { OnOk result (out.new.items ≡ out.old.items ++ word text.now) }
{
    push_text(out, text)?;
    push_text(out, b" ")
}

/// Appends a number without a space after it.
pub fn push_decimal(out: &mut Vec<u8>, n: u64) -> Result<(), Memory>
    ensures { OnOk result (out.new.items ≡ out.old.items ++ decimal n) }
{
    push_text(out, Buffer::new().format(n).as_bytes())
}

/// Appends a number and the space after it.
pub fn push_number(out: &mut Vec<u8>, n: u64) -> Result<(), Memory>
    ensures { OnOk result (out.new.items ≡ out.old.items ++ number n) }
{
    push_word(out, Buffer::new().format(n).as_bytes())
}

/// Appends a number or `-`, and the space after it.
pub fn push_optional(out: &mut Vec<u8>, n: Option<u64>) -> Result<(), Memory>
    ensures { OnOk result (out.new.items ≡ out.old.items ++ number_or_dash n) }
{
    match n {
        None => push_text(out, b"- "),
        Some(n) => push_number(out, n),
    }
}

/// Appends bytes as lower case hexadecimal digits.
pub fn push_hex(alloc: Global, out: &mut Vec<u8>, bytes: &[u8]) -> Result<(), Memory>
    ensures { OnOk result (out.new.items ≡ out.old.items ++ encode_lower bytes.now) }
{
    let digits = hex::encode(alloc, bytes)?;
    push_text(out, digits.as_bytes())
}

/// Appends bytes as `x` and their hexadecimal digits.
pub fn push_hex_word(alloc: Global, out: &mut Vec<u8>, bytes: &[u8]) -> Result<(), Memory>
    ensures { OnOk result (out.new.items ≡ out.old.items ++ hex_word bytes.now) }
{
    push_text(out, b"x")?;
    push_hex(alloc, out, bytes)
}

/// Appends a value, or `-`.
pub fn push_value(alloc: Global, out: &mut Vec<u8>, value: Option<&Bytes>) -> Result<(), Memory>
    ensures { OnOk result (out.new.items ≡ out.old.items ++ value_text (option_copied value.entry)) }
{
    match value {
        None => push_text(out, b"-"),
        Some(value) => push_hex_word(alloc, out, value.as_slice()),
    }
}
