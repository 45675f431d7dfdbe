ghost use Rattle.std.specs.Prelude.{◌≡◌, ◌<◌, ◌≤◌, ◌++◌, length, OnOk, OnErr};
ghost use Rattle.link_frames.specs.Spelling.{checksum, batch_bytes};

use crate::parts::{BATCH_HEADER, MAX_BATCH};
use grid_base::{Memory, PARTITIONS, PartitionId};
use murmur_partition::murmur3;

/// The checksum of a batch. Takes time in proportion to the bytes.
pub(crate) fn checksum(partition: PartitionId, bytes: &[u8]) -> u32
    ensures { result ≡ checksum partition bytes.now }
{
    murmur3(bytes, u32::from(partition))
}

/// Appends the bytes of a batch, at the cost of their number. Want of memory appends nothing.
pub fn write_batch(partition: PartitionId, bytes: &[u8], out: &mut Vec<u8>) -> Result<(), Memory>
    requires partition { partition < PARTITIONS }
    requires length { length bytes.now ≤ MAX_BATCH }
    ensures ok { OnOk result (out.new.items ≡ out.old.items ++ batch_bytes (record { partition = partition; bytes = bytes.now })) }
    ensures err { OnErr result (out.new.items ≡ out.old.items) }
{
    out.reserve(BATCH_HEADER + bytes.len())?;
    out.extend_from_slice(&partition.to_le_bytes()).unwrap();
    out.extend_from_slice(&(bytes.len() as u32).to_le_bytes())
        .unwrap();
    out.extend_from_slice(&checksum(partition, bytes).to_le_bytes())
        .unwrap();
    out.extend_from_slice(bytes).unwrap();
    Ok(())
}
