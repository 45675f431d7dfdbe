//! A plan and its steps.

ghost use Rattle.std.specs.Prelude.{◌≡◌, ℕ, ◌+◌, ◌≤◌, ◌<◌, ◌^◌, List, length, IfOk, IfSome, IfNone, MatchOption, Some, None, slice_get, slice_index};
ghost use Rattle.rebalance.specs.Members.{total, load_of};
ghost use Rattle.rebalance.specs.Rows.{primaries, primary_of};
ghost use Rattle.rebalance.specs.Choices.{changes};
ghost use Rattle.rebalance.specs.Targets.{excess_of};
ghost use Rattle.rebalance.specs.Steps.{after, IsLowestBelow, TakesFrom, FollowsRule};
ghost use Rattle.rebalance.specs.Plans.{steps_from};

use crate::rows::primary_of;
use crate::targets::Targets;
use grid_base::{MemberId, Memory, PartitionId};
use partition_table::Row;
use std::alloc::Global;
use std::marker::Model;

/// How a partition comes to another member.
#[derive(Debug, Clone, Copy, PartialEq, Eq)]
pub enum StepKind {
    /// The member isn't in the partition's row: it joins, and the old primary leaves.
    Move,
    /// The member is one of the partition's backups.
    Handover,
}

/// One partition gets another primary.
#[derive(Debug, Clone, Copy, PartialEq, Eq)]
pub struct Step {
    pub partition: PartitionId,
    /// Its primary until then.
    pub from: MemberId,
    /// Its primary from then on.
    pub to: MemberId,
    pub kind: StepKind,
}

/// An owned list of steps.
#[derive(Debug, Drop)]
pub struct Steps {
    listed: Vec<Step>,
}

impl Model for Steps {
    ghost use Rattle.std.specs.Prelude.{List};
    ghost use Rattle.rebalance.specs.declared.steps.Step.{Step};

    ghost Value = { List Step };

    ghost view = { λ s. s.listed.items };
}

impl Steps {
    /// Takes the list over, in constant time and with no memory.
    pub fn from_vec(listed: Vec<Step>) -> Self
        ensures { result ≡ listed.items }
    {
        Steps { listed }
    }

    /// Gives the list back, in constant time and with no memory.
    pub fn into_vec(self) -> Vec<Step>
        ensures { result.items ≡ self }
    {
        self.listed
    }

    /// The steps in order.
    pub fn as_slice(&self) -> &[Step]
        ensures { result.now ≡ self.now }
    {
        self.listed.as_slice()
    }
}

/// What leads to balanced loads.
#[derive(Debug, Drop)]
pub struct Plan {
    /// In rising order of partition, each partition at most once.
    pub steps: Steps,
    /// What each member is to lead, by its number: 0 for a detected one.
    pub targets: Targets,
    /// What the loads have above the targets: so many partitions get another primary.
    pub excess: u32,
}

/// The lowest-numbered member whose load is below its target.
fn lowest_below(loads: &[u32], targets: &[u32], members: u8) -> Option<MemberId>
    requires loads { length loads.now ≡ members }
    requires targets { length targets.now ≡ members }
    ensures { MatchOption result
        ((m : ℕ) → m < members → slice_index targets.now m ≤ slice_index loads.now m)
        (IsLowestBelow (slice_index loads.now) (slice_index targets.now) members) }
{
    (0..members).find(|&member| loads[usize::from(member)] < targets[usize::from(member)])
}

/// The step that takes the row from a primary with a load above its target.
fn step_for(
    partition: PartitionId,
    row: &Row,
    loads: &[u32],
    targets: &[u32],
    members: u8,
) -> Option<Step>
    requires loads { length loads.now ≡ members }
    requires targets { length targets.now ≡ members }
    requires sound { (m : ℕ) → primary_of row.now ≡ Some m → m < members }
    requires same { total (slice_index loads.now) members ≡ total (slice_index targets.now) members }
    ensures none { IfNone result ((m : ℕ) → primary_of row.now ≡ Some m →
        slice_index loads.now m ≤ slice_index targets.now m) }
    ensures some { IfSome result
        (TakesFrom row.now (slice_index loads.now) (slice_index targets.now) members) }
    ensures partition { IfSome result (λ step. step.partition ≡ partition) }
{
    let from = primary_of(row)?;
    if loads[usize::from(from)] <= targets[usize::from(from)] {
        return None;
    }
    let to = lowest_below(loads, targets, members)?;
    let kind = if row.contains(to) {
        StepKind::Handover
    } else {
        StepKind::Move
    };
    Some(Step {
        partition,
        from,
        to,
        kind,
    })
}

/// The steps that lead from the loads to the targets, in rising order of partition.
pub(crate) fn steps_of(
    alloc: Global,
    rows: &[Row],
    mut loads: Vec<u32>,
    targets: &[u32],
    members: u8,
) -> Result<Vec<Step>, Memory>
    requires size { length rows.now ≤ 2 ^ 16 }
    requires sound { (p m : ℕ) → slice_get (primaries rows.now) p ≡ Some (Some m) → m < members }
    requires load_count { length loads.items ≡ members }
    requires target_count { length targets.now ≡ members }
    requires loads { (m : ℕ) → slice_index loads.items m ≡ load_of (primaries rows.now) m }
    requires same { total (slice_index loads.items) members ≡ total (slice_index targets.now) members }
    ensures rule { IfOk result (λ steps.
        FollowsRule rows.now (slice_index targets.now) members steps.items) }
    ensures steps { IfOk result (λ steps. steps.items ≡ steps_from (slice_index targets.now) members (primaries rows.now) 0 rows.now) }
    ensures count { IfOk result (λ steps. length steps.items ≡
        excess_of (slice_index loads.items) (slice_index targets.now) members) }
    ensures changes { IfOk result (λ steps.
        changes (primaries rows.now) (after steps.items (primaries rows.now)) ≡ length steps.items) }
    ensures reached { IfOk result (λ steps. (m : ℕ) → m < members →
        load_of (after steps.items (primaries rows.now)) m ≡ slice_index targets.now m) }
{
    let mut steps = Vec::new(alloc);
    for (partition, row) in rows.iter().enumerate() {
        if let Some(step) = step_for(partition as PartitionId, row, &loads, targets, members) {
            loads[usize::from(step.from)] -= 1;
            loads[usize::from(step.to)] += 1;
            steps.push(step)?;
        }
    }
    Ok(steps)
}
