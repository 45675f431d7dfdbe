//! Keys, values and names as words.
ghost use Rattle.std.specs.Prelude.{◌≡◌, Err};
ghost use Rattle.script_lang.specs.declared.refusal.LineRefused.TheVariants as refusals;

use crate::numbers::{read_i64, read_partition};
use grid_base::{Bytes, Memory, PARTITIONS};
use hex::FromHexError;
use memchr::memchr;
use percent_encoding::percent_decode;
use script_lang::{LineRefused, LineWhy};
use std::alloc::Global;

/// What serialized data states where it leaves its hash to its content.
const NO_HASH: u32 = 0;

/// The type of a text, in serialized data.
const TEXT_TYPE: u32 = 0xffff_fff5;

/// The type of a number of 64 bits.
const NUMBER_TYPE: u32 = 0xffff_fff8;

/// A refusal for this cause.
pub(crate) fn refused<T>(why: LineWhy) -> Result<T, LineRefused>
    ensures { result ≡ Err (refusals.Why why) }
{
    Err(LineRefused::Why(why))
}

/// What was read, or else a refusal for this cause.
pub(crate) fn or_refused<T>(read: Option<T>, why: LineWhy) -> Result<T, LineRefused> {
    match read {
        Some(read) => Ok(read),
        None => refused(why),
    }
}

/// A text with `%` and two hexadecimal digits for a byte that it can't have else.
pub(crate) fn read_text(alloc: Global, word: &[u8]) -> Result<Bytes, LineRefused> {
    let mut text = Vec::new(alloc);
    percent_decode(word).append_to(&mut text)?;
    Ok(Bytes::from_vec(text))
}

/// Bytes of two hexadecimal digits each, maybe none.
pub(crate) fn read_hex(alloc: Global, word: &[u8]) -> Result<Bytes, LineRefused> {
    match hex::decode(alloc, word) {
        Ok(bytes) => Ok(Bytes::from_vec(bytes)),
        Err(FromHexError::OutOfMemory) => Err(LineRefused::Memory),
        Err(_) => refused(LineWhy::Hex),
    }
}

/// Data that begins with a hash and a type, high byte first.
fn serialized(alloc: Global, hash: u32, kind: u32, content: &[u8]) -> Result<Bytes, Memory> {
    let mut data = Vec::new(alloc);
    data.extend_from_slice(&hash.to_be_bytes())?;
    data.extend_from_slice(&kind.to_be_bytes())?;
    data.extend_from_slice(content)?;
    Ok(Bytes::from_vec(data))
}

/// A text as data with this hash.
pub(crate) fn text_data(alloc: Global, hash: u32, word: &[u8]) -> Result<Bytes, LineRefused> {
    let text = read_text(alloc, word)?;
    Ok(serialized(alloc, hash, TEXT_TYPE, text.as_slice())?)
}

/// The data of a text whose hash is that of its content.
pub(crate) fn plain_text_data(alloc: Global, text: &[u8]) -> Result<Bytes, Memory> {
    serialized(alloc, NO_HASH, TEXT_TYPE, text)
}

/// A text as data in a partition, of the form `P:TEXT`. A hash of 0 states none, so partition 0 is stated by the next
/// number that is in it.
fn placed_data(alloc: Global, word: &[u8]) -> Result<Bytes, LineRefused> {
    let Some(end) = memchr(b':', word) else {
        return refused(LineWhy::Word);
    };
    let partition = or_refused(read_partition(&word[..end]), LineWhy::Number)?;
    let hash = if partition == 0 {
        PARTITIONS
    } else {
        partition
    };
    text_data(alloc, u32::from(hash), &word[end + 1..])
}

/// A key or a value.
pub(crate) fn read_data(alloc: Global, word: &[u8]) -> Result<Bytes, LineRefused> {
    if let Some(text) = word.strip_prefix(b"text:") {
        return text_data(alloc, NO_HASH, text);
    }
    if let Some(digits) = word.strip_prefix(b"number:") {
        let number = or_refused(read_i64(digits), LineWhy::Number)?;
        let data = serialized(alloc, NO_HASH, NUMBER_TYPE, &number.to_be_bytes())?;
        return Ok(data);
    }
    if let Some(placed) = word.strip_prefix(b"at:") {
        return placed_data(alloc, placed);
    }
    match word.strip_prefix(b"hex:") {
        Some(digits) => read_hex(alloc, digits),
        None => refused(LineWhy::Word),
    }
}

/// What a processor is given, which isn't serialized.
pub(crate) fn read_argument(alloc: Global, word: &[u8]) -> Result<Bytes, LineRefused> {
    if let Some(text) = word.strip_prefix(b"text:") {
        return read_text(alloc, text);
    }
    if let Some(digits) = word.strip_prefix(b"number:") {
        let number = or_refused(read_i64(digits), LineWhy::Number)?;
        let bytes = Bytes::copied_from(alloc, &number.to_le_bytes())?;
        return Ok(bytes);
    }
    match word.strip_prefix(b"hex:") {
        Some(digits) => read_hex(alloc, digits),
        None => refused(LineWhy::Word),
    }
}
