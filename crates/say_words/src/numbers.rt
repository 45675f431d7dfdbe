//! Numbers in decimal digits, some with a sign.

use grid_base::PartitionId;
use simdutf8::basic::from_utf8;

/// The greatest number of a partition.
const LAST_PARTITION: PartitionId = 270;

/// The greatest number of a connection.
const LAST_CONN: u32 = 63;

/// Is the word digits, without a leading zero?
fn is_decimal(word: &[u8]) -> bool {
    match word {
        [] | [b'0', _, ..] => false,
        digits => digits.iter().all(|digit| digit.is_ascii_digit()),
    }
}

/// The text of a word that is a number without a sign.
fn unsigned_text(word: &[u8]) -> Option<&str> {
    if is_decimal(word) {
        from_utf8(word).ok()
    } else {
        None
    }
}

/// The text of a word that is a number, which may have a `-` in front.
fn signed_text(word: &[u8]) -> Option<&str> {
    let digits = word.strip_prefix(b"-").unwrap_or(word);
    if is_decimal(digits) {
        from_utf8(word).ok()
    } else {
        None
    }
}

pub(crate) fn read_i64(word: &[u8]) -> Option<i64> {
    signed_text(word)?.parse::<i64>().ok()
}

pub(crate) fn read_i32(word: &[u8]) -> Option<i32> {
    signed_text(word)?.parse::<i32>().ok()
}

pub(crate) fn read_u128(word: &[u8]) -> Option<u128> {
    unsigned_text(word)?.parse::<u128>().ok()
}

/// A connection's number.
pub(crate) fn read_conn(word: &[u8]) -> Option<u32> {
    let conn = unsigned_text(word)?.parse::<u32>().ok()?;
    (conn <= LAST_CONN).then_some(conn)
}

pub(crate) fn read_partition(word: &[u8]) -> Option<PartitionId> {
    let partition = unsigned_text(word)?.parse::<u16>().ok()?;
    (partition <= LAST_PARTITION).then_some(partition)
}
