//! The undetected members, and the loads.

ghost use Rattle.std.specs.Prelude.{◌≡◌, ℕ, ◌≤◌, ◌<◌, ◌^◌, ◌↔◌, IsTrue, length, IfOk, Some, slice_get, slice_index};
ghost use Rattle.rebalance.specs.Rows.{primaries, primary_of};
ghost use Rattle.rebalance.specs.Members.{IsUndetected, AreUndetected, is_undetected, undetected_count, load_of};

use crate::rows::primary_of;
use grid_base::{MemberId, Memory};
use partition_table::Row;
use std::alloc::Global;

/// Whether the member isn't detected.
pub(crate) fn is_undetected(detected: &[MemberId], member: MemberId) -> bool
    ensures { result ≡ is_undetected detected.now member }
{
    !detected.contains(&member)
}

/// How many members aren't detected.
pub(crate) fn count_undetected(detected: &[MemberId], members: u8) -> u8
    ensures { result ≡ undetected_count detected.now members }
{
    let mut undetected: u8 = 0;
    for member in 0..members {
        if is_undetected(detected, member) {
            undetected += 1;
        }
    }
    undetected
}

/// How many rows each member is the primary of.
pub(crate) fn loads_of(alloc: Global, rows: &[Row], members: u8) -> Result<Vec<u32>, Memory>
    requires size { length rows.now ≤ 2 ^ 16 }
    requires sound { (p m : ℕ) → slice_get (primaries rows.now) p ≡ Some (Some m) → m < members }
    ensures count { IfOk result (λ loads. length loads.items ≡ members) }
    ensures loads { IfOk result (λ loads. (m : ℕ) →
        slice_index loads.items m ≡ load_of (primaries rows.now) m) }
{
    let mut loads = vec![in alloc; 0u32; usize::from(members)]?;
    for row in rows {
        if let Some(primary) = primary_of(row) {
            loads[usize::from(primary)] += 1;
        }
    }
    Ok(loads)
}

fn is_undetected_member(detected: &[MemberId], members: u8, member: MemberId) -> bool
    ensures { IsTrue result ↔ IsUndetected detected.now members member }
{
    member < members && is_undetected(detected, member)
}

fn has_undetected_primary(row: &Row, detected: &[MemberId], members: u8) -> bool
    ensures { IsTrue result ↔ ((m : ℕ) → primary_of row.now ≡ Some m → IsUndetected detected.now members m) }
{
    match primary_of(row) {
        Some(primary) => is_undetected_member(detected, members, primary),
        None => true,
    }
}

/// Whether each primary is an undetected member, as `plan` requires. Takes no memory.
pub fn are_undetected(rows: &[Row], detected: &[MemberId], members: u8) -> bool
    ensures { IsTrue result ↔ AreUndetected detected.now members (primaries rows.now) }
{
    for row in rows {
        if !has_undetected_primary(row, detected, members) {
            return false;
        }
    }
    true
}
