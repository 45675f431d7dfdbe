//! The plan that balances the primaries, and gives no more partitions to another member than any other plan must.
//!
//! A member's load is the number of partitions of which it is the primary. `plan` answers what the loads are to be, the
//! targets, and the steps that lead to them. `specs/` has the members and their loads (`Members`), the targets
//! (`Targets`), the rule of the steps (`Steps`), what else could have been chosen (`Choices`), and the plan as a function
//! of what it reads (`Plans`).
//!
//! A script's line `rebalance` prints the plan, and runs the steps one after another as moves and handovers of their
//! partitions.
#![tactic(auto)]

ghost use Rattle.std.specs.Prelude.{◌≡◌, ℕ, ◌+◌, ◌≤◌, ◌<◌, ◌^◌, ◌↔◌, length, IfOk, slice_index};
ghost use Rattle.rebalance.specs.Rows.{primaries, IsFirstUnsettled};
ghost use Rattle.rebalance.specs.Members.{AreUndetected, is_undetected, undetected_count, load_of};
ghost use Rattle.rebalance.specs.Choices.{IsChoice, changes, IsBalanced, ChangesAtLeast};
ghost use Rattle.rebalance.specs.Targets.{target_of, excess_of};
ghost use Rattle.rebalance.specs.Steps.{after, FollowsRule, HasRightKinds};
ghost use Rattle.rebalance.specs.Plans.{plan_of, Gives};

pub mod laws;
mod members;
mod refusal;
mod rows;
mod steps;
mod targets;

use grid_base::MemberId;
pub use members::are_undetected;
use members::{count_undetected, loads_of};
use partition_table::Row;
pub use refusal::PlanRefused;
use rows::first_unsettled;
use std::alloc::Global;
use steps::steps_of;
pub use steps::{Plan, Step, StepKind, Steps};
pub use targets::Targets;
use targets::{excess_between, targets_of};

/// The plan for rows that are in order of partition, as the marks are that say where a move is under way.
///
/// The caller sees that no row that isn't lost is led by a member of another grid or by a detected one
/// (`are_undetected`). A lost row has no load. Costs one pass over the rows, and for each of them one over the members.
pub fn plan(
    alloc: Global,
    rows: &[Row],
    moving: &[bool],
    detected: &[MemberId],
    members: u8,
) -> Result<Plan, PlanRefused>
    requires marks { length moving.now ≡ length rows.now }
    requires size { length rows.now ≤ 2 ^ 16 }
    requires sound { AreUndetected detected.now members (primaries rows.now) }

    // It is this function of what it reads.
    ensures plan { Gives result (plan_of rows.now moving.now detected.now members) }

    ensures no_member { (result ≡ Err PlanRefused.NoMember) ↔ (undetected_count detected.now members ≡ 0) }
    ensures unsettled { (partition : ℕ) → (result ≡ Err (PlanRefused.Unsettled partition)) ↔
        ((0 < undetected_count detected.now members) × IsFirstUnsettled rows.now moving.now partition) }

    ensures target_count { IfOk result (λ plan. length plan.targets ≡ members) }
    ensures targets { IfOk result (λ plan. (m : ℕ) → m < members →
        slice_index plan.targets m ≡ target_of (is_undetected detected.now) (load_of (primaries rows.now)) members m) }
    ensures excess { IfOk result (λ plan. plan.excess ≡
        excess_of (load_of (primaries rows.now)) (slice_index plan.targets) members) }

    // The steps are the rule's, as many as the excess, and lead to the targets.
    ensures rule { IfOk result (λ plan. FollowsRule rows.now (slice_index plan.targets) members plan.steps) }
    ensures kinds { IfOk result (λ plan. HasRightKinds rows.now plan.steps) }
    ensures count { IfOk result (λ plan. length plan.steps ≡ plan.excess) }
    ensures reached { IfOk result (λ plan. (m : ℕ) → m < members →
        load_of (after plan.steps (primaries rows.now)) m ≡ slice_index plan.targets m) }

    // The primaries after the steps are a choice that balances, and changes as many partitions as there are steps.
    ensures choice { IfOk result (λ plan.
        IsChoice detected.now members (primaries rows.now) (after plan.steps (primaries rows.now))) }
    ensures changes { IfOk result (λ plan.
        changes (primaries rows.now) (after plan.steps (primaries rows.now)) ≡ plan.excess) }
    ensures balanced { IfOk result (λ plan.
        IsBalanced detected.now members (after plan.steps (primaries rows.now))) }

    // No choice that balances changes fewer.
    ensures fewest { IfOk result (λ plan.
        ChangesAtLeast detected.now members (primaries rows.now) plan.excess) }
{
    let undetected = count_undetected(detected, members);
    if undetected == 0 {
        return Err(PlanRefused::NoMember);
    }
    if let Some(partition) = first_unsettled(rows, moving) {
        return Err(PlanRefused::Unsettled { partition });
    }
    let loads = loads_of(alloc, rows, members)?;
    let targets = targets_of(alloc, &loads, detected, members, undetected)?;
    let excess = excess_between(&loads, &targets);
    let steps = steps_of(alloc, rows, loads, &targets, members)?;
    Ok(Plan {
        steps: Steps::from_vec(steps),
        targets: Targets::from_vec(targets),
        excess,
    })
}
