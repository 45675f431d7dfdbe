//! What a plan reads of the rows.

ghost use Rattle.std.specs.Prelude.{◌≡◌, ℕ, ◌≤◌, ◌^◌, false, length, MatchOption};
ghost use Rattle.rebalance.specs.Rows.{primary_of, may_all_lead, is_unsettled, is_unsettled_at, IsFirstUnsettled};
ghost use Rattle.rebalance.specs.Plans.{first_unsettled};

use grid_base::{MemberId, PartitionId};
use partition_table::Row;

/// The first member, or none where the row is lost.
pub(crate) fn primary_of(row: &Row) -> Option<MemberId>
    ensures { result ≡ primary_of row.now }
{
    if row.lost {
        return None;
    }
    row.primary()
}

fn may_all_lead(row: &Row) -> bool
    ensures { result ≡ may_all_lead row.now }
{
    row.members.as_slice().iter().all(|listed| listed.eligible)
}

fn is_unsettled(row: &Row, moving: bool) -> bool
    ensures { result ≡ is_unsettled row.now moving }
{
    !row.lost && (moving || !may_all_lead(row))
}

/// The first partition that isn't settled.
pub(crate) fn first_unsettled(rows: &[Row], moving: &[bool]) -> Option<PartitionId>
    requires marks { length moving.now ≡ length rows.now }
    requires size { length rows.now ≤ 2 ^ 16 }
    ensures rule { MatchOption result
        ((p : ℕ) → is_unsettled_at rows.now moving.now p ≡ false)
        (IsFirstUnsettled rows.now moving.now) }
    ensures first { result ≡ first_unsettled rows.now moving.now }
{
    for (partition, row) in rows.iter().enumerate() {
        if is_unsettled(row, moving[partition]) {
            return Some(partition as PartitionId);
        }
    }
    None
}
