//! Names, keys, values and arguments as the words of `docs/WORDS.md`, which stand for the same bytes again.

use grid_base::{Bytes, Memory, PartitionId};
use murmur_partition::{key_hash, partition_of};
use std::alloc::Global;

/// How data says that it is a text, and that it is a number, behind the four bytes of its hash.
const TEXT: u32 = 0xffff_fff5;

const NUMBER: u32 = 0xffff_fff8;

/// The hash that a key of partition 0 states, since 0 states none.
const HASH_OF_PARTITION_0: u32 = 271;

/// What the bytes of data are to a reader.
#[derive(Clone, Copy)]
enum Shape<'a> {
    Text(&'a str),
    Number(i64),
    /// A text whose hash says in which partition it is.
    Placed(u32, &'a str),
    Other,
}

/// What data of a text is that states this hash.
fn shape_of_text(hash: u32, content: &[u8]) -> Shape<'_> {
    let Ok(text) = str::from_utf8(content) else {
        return Shape::Other;
    };
    match hash {
        0 => Shape::Text(text),
        HASH_OF_PARTITION_0 => Shape::Placed(0, text),
        1..=270 => Shape::Placed(hash, text),
        _ => Shape::Other,
    }
}

/// What data of a number is that states no hash.
fn shape_of_number(content: &[u8]) -> Shape<'_> {
    match content {
        [a, b, c, d, e, f, g, h] => {
            Shape::Number(i64::from_be_bytes([*a, *b, *c, *d, *e, *f, *g, *h]))
        }
        _ => Shape::Other,
    }
}

fn shape_of(bytes: &[u8]) -> Shape<'_> {
    let Some((header, content)) = bytes.split_first_chunk::<8>() else {
        return Shape::Other;
    };
    let [a, b, c, d, e, f, g, h] = *header;
    let hash = u32::from_be_bytes([a, b, c, d]);
    match u32::from_be_bytes([e, f, g, h]) {
        TEXT => shape_of_text(hash, content),
        NUMBER if hash == 0 => shape_of_number(content),
        _ => Shape::Other,
    }
}

/// Appends bytes in hexadecimal.
pub fn push_hex(alloc: Global, out: &mut String, bytes: &[u8]) -> Result<(), Memory> {
    let digits = hex::encode(alloc, bytes)?;
    out.push_str(digits.as_str())
}

/// Appends the word of bytes that nothing else says.
fn push_plain(alloc: Global, out: &mut String, bytes: &[u8]) -> Result<(), Memory> {
    out.push_str("hex:")?;
    push_hex(alloc, out, bytes)
}

/// Appends a character, with a `%` and two digits for each of its bytes where it would end the word or can't be seen.
fn push_char(out: &mut String, c: char) -> Result<(), Memory> {
    let code = u32::from(c);
    match c {
        '%' | ' ' => write!(out, "%{code:02x}"),
        _ if c.is_ascii_control() => write!(out, "%{code:02x}"),
        // Each other control character is one of U+0080 to U+009F, which have two bytes: `c2`, and their number.
        _ if c.is_control() => write!(out, "%c2%{code:02x}"),
        _ => out.push(c),
    }
}

/// Appends a text as a part of a word.
fn push_text(out: &mut String, text: &str) -> Result<(), Memory> {
    for c in text.chars() {
        push_char(out, c)?;
    }
    Ok(())
}

/// Appends bytes as a part of a word, a `%` and two digits for each.
fn push_bytes(out: &mut String, bytes: &[u8]) -> Result<(), Memory> {
    for byte in bytes {
        write!(out, "%{byte:02x}")?;
    }
    Ok(())
}

/// Appends a name, which is UTF-8 where it was read.
pub fn push_name(out: &mut String, name: &[u8]) -> Result<(), Memory> {
    match str::from_utf8(name) {
        Ok(text) => push_text(out, text),
        Err(_) => push_bytes(out, name),
    }
}

/// Appends a key or a value.
pub fn push_data(alloc: Global, out: &mut String, bytes: &[u8]) -> Result<(), Memory> {
    match shape_of(bytes) {
        Shape::Text(text) => {
            out.push_str("text:")?;
            push_text(out, text)
        }
        Shape::Number(number) => write!(out, "number:{number}"),
        Shape::Placed(partition, text) => {
            write!(out, "at:{partition}:")?;
            push_text(out, text)
        }
        Shape::Other => push_plain(alloc, out, bytes),
    }
}

/// Appends the name of a map's entry.
pub fn push_entry_name(
    alloc: Global,
    out: &mut String,
    map: &Bytes,
    key: &Bytes,
) -> Result<(), Memory> {
    push_name(out, map.as_slice())?;
    out.push_str(" ")?;
    push_data(alloc, out, key.as_slice())
}

/// Appends a value, or `null`.
pub fn push_nullable(alloc: Global, out: &mut String, value: Option<&[u8]>) -> Result<(), Memory> {
    match value {
        Some(value) => push_data(alloc, out, value),
        None => out.push_str("null"),
    }
}

/// Appends what a processor is given, which isn't serialized.
pub(crate) fn push_argument(alloc: Global, out: &mut String, bytes: &[u8]) -> Result<(), Memory> {
    if let [a, b, c, d, e, f, g, h] = bytes {
        let number = i64::from_le_bytes([*a, *b, *c, *d, *e, *f, *g, *h]);
        return write!(out, "number:{number}");
    }
    match str::from_utf8(bytes) {
        Ok(text) => {
            out.push_str("text:")?;
            push_text(out, text)
        }
        Err(_) => push_plain(alloc, out, bytes),
    }
}

/// The partition of a key, if it is long enough to be one.
pub(crate) fn partition_of_key(key: &[u8]) -> Option<PartitionId> {
    Some(partition_of(key_hash(key).ok()?))
}

/// The partition of a queue that no message states otherwise: that of its name as a key.
pub(crate) fn partition_of_name(alloc: Global, name: &[u8]) -> Result<Option<PartitionId>, Memory> {
    let mut key = Vec::from_slice(alloc, &[0; 4])?;
    key.extend_from_slice(&TEXT.to_be_bytes())?;
    key.extend_from_slice(name)?;
    Ok(partition_of_key(key.as_slice()))
}
