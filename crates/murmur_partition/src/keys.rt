ghost use Rattle.std.specs.Prelude.{◌≡◌, ◌<◌, ◌↔◌, length, IsErr, IfOk};
ghost use Rattle.murmur_partition.specs.Keys.{key_hash_of, partition_of_hash};

use crate::murmur::murmur3;
use grid_base::{PARTITIONS, PartitionId};
use thiserror::Error;

/// The seed for keys that state no hash.
const SEED: u32 = 0x0100_0193;

/// Data of fewer than the eight bytes that stand before the content.
#[derive(Clone, Copy, Debug, PartialEq, Eq, Error)]
#[error("serialized data has fewer than 8 bytes")]
pub struct ShortData;

/// The hash of serialized data: the one that it states, or else that of its content. Takes no memory.
pub fn key_hash(bytes: &[u8]) -> Result<i32, ShortData>
    ensures hash { IfOk result (λ hash. hash ≡ key_hash_of bytes.now) }
    ensures short { IsErr result ↔ (length bytes.now < 8) }
{
    let Some((header, content)) = bytes.split_first_chunk::<8>() else {
        return Err(ShortData);
    };
    let [a, b, c, d, ..] = *header;
    let stated = u32::from_be_bytes([a, b, c, d]);
    let hash = if stated == 0 {
        murmur3(content, SEED)
    } else {
        stated
    };
    Ok(hash.cast_signed())
}

/// The partition of a hash. Takes no memory.
pub fn partition_of(hash: i32) -> PartitionId
    ensures { result ≡ partition_of_hash hash }
{
    match hash.checked_abs() {
        None => 0,
        Some(_) => (hash.unsigned_abs() % u32::from(PARTITIONS)) as u16,
    }
}
