//! The rows that a client heard of.

ghost use Rattle.std.specs.Prelude.{◌≡◌, option_copied, OnOk};
ghost use Rattle.grid_client.specs.Rows.{known_in, version_in, knowing, leader_in};

use event_codecs::SeenRow;
use grid_base::{MemberId, Memory, PartitionId};

/// The row that is known of a partition.
pub(crate) fn known_in(partition: PartitionId, rows: &[SeenRow]) -> Option<&SeenRow>
    ensures { option_copied result ≡ known_in partition rows.now }
{
    rows.iter().find(|row| row.partition == partition)
}

/// Its version.
pub(crate) fn version_in(partition: PartitionId, rows: &[SeenRow]) -> Option<u32>
    ensures { result ≡ version_in partition rows.now }
{
    match known_in(partition, rows) {
        Some(row) => Some(row.version),
        None => None,
    }
}

/// The member that leads a partition by the known row.
pub(crate) fn leader_in(partition: PartitionId, rows: &[SeenRow]) -> Option<MemberId>
    ensures { result ≡ leader_in partition rows.now }
{
    let row = known_in(partition, rows)?;
    row.members.as_slice().first().copied()
}

/// Has a row take the place of an older one, at the cost of looking at all.
pub(crate) fn know(rows: &mut Vec<SeenRow>, row: SeenRow) -> Result<(), Memory>
    ensures { OnOk result (rows.new.items ≡ knowing row rows.old.items) }
{
    let partition = row.partition;
    rows.retain(|known| known.partition != partition);
    rows.push(row)?;
    Ok(())
}
