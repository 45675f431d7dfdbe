//! The targets of the members, and the excess of their loads.

ghost use Rattle.std.specs.Prelude.{◌≡◌, ℕ, ◌≤◌, ◌<◌, ◌^◌, length, IfOk, slice_index};
ghost use Rattle.rebalance.specs.Members.{is_undetected, undetected_count, total};
ghost use Rattle.rebalance.specs.Targets.{comes_before, place_of, target_with, target_of, excess_of};

use crate::members::is_undetected;
use grid_base::{MemberId, Memory};
use std::alloc::Global;
use std::marker::Model;

/// An owned list of what each member is to lead, by its number.
#[derive(Debug, Drop)]
pub struct Targets {
    listed: Vec<u32>,
}

impl Model for Targets {
    ghost use Rattle.std.specs.Prelude.{List, ℕ};

    ghost Value = { List ℕ };

    ghost view = { λ t. t.listed.items };
}

impl Targets {
    /// Takes the list over, in constant time and with no memory.
    pub fn from_vec(listed: Vec<u32>) -> Self
        ensures { result ≡ listed.items }
    {
        Targets { listed }
    }

    /// Gives the list back, in constant time and with no memory.
    pub fn into_vec(self) -> Vec<u32>
        ensures { result.items ≡ self }
    {
        self.listed
    }

    /// The targets in order of the members.
    pub fn as_slice(&self) -> &[u32]
        ensures { result.now ≡ self.now }
    {
        self.listed.as_slice()
    }
}

/// Whether `a` has the greater load, or the same one and the smaller number.
fn precedes(loads: &[u32], a: MemberId, b: MemberId) -> bool
    requires a_in_range { a < length loads.now }
    requires b_in_range { b < length loads.now }
    ensures { result ≡ comes_before (slice_index loads.now) a b }
{
    let load_of_a = loads[usize::from(a)];
    let load_of_b = loads[usize::from(b)];
    load_of_a > load_of_b || (load_of_a == load_of_b && a < b)
}

/// How many undetected members precede that one.
fn place_among(loads: &[u32], detected: &[MemberId], members: u8, member: MemberId) -> u8
    requires count { length loads.now ≡ members }
    requires in_range { member < members }
    ensures { result ≡ place_of (is_undetected detected.now) (slice_index loads.now) members member }
{
    let mut place: u8 = 0;
    for other in 0..members {
        if is_undetected(detected, other) && precedes(loads, other, member) {
            place += 1;
        }
    }
    place
}

/// The quotient of the loads by the undetected members, or one more for the first ones, as many as the rest.
#[derive(Clone, Copy)]
struct Share {
    quotient: u32,
    rest: u32,
}

fn target_for(
    loads: &[u32],
    detected: &[MemberId],
    members: u8,
    share: Share,
    member: MemberId,
) -> u32
    requires count { length loads.now ≡ members }
    requires in_range { member < members }
    requires fits { share.quotient < 2 ^ 31 }
    ensures { result ≡ target_with (is_undetected detected.now) (slice_index loads.now) members share.quotient share.rest member }
{
    if !is_undetected(detected, member) {
        return 0;
    }
    let place = place_among(loads, detected, members, member);
    if u32::from(place) < share.rest {
        share.quotient + 1
    } else {
        share.quotient
    }
}

fn sum_of(loads: &[u32]) -> u32
    requires { total (slice_index loads.now) (length loads.now) < 2 ^ 31 }
    ensures { result ≡ total (slice_index loads.now) (length loads.now) }
{
    let mut sum: u32 = 0;
    for load in loads {
        sum += *load;
    }
    sum
}

/// The targets by member.
pub(crate) fn targets_of(
    alloc: Global,
    loads: &[u32],
    detected: &[MemberId],
    members: u8,
    undetected: u8,
) -> Result<Vec<u32>, Memory>
    requires count { length loads.now ≡ members }
    requires undetected { undetected ≡ undetected_count detected.now members }
    requires some { 0 < undetected }
    requires fits { total (slice_index loads.now) members < 2 ^ 31 }
    ensures count { IfOk result (λ targets. length targets.items ≡ members) }
    ensures targets { IfOk result (λ targets. (m : ℕ) → m < members →
        slice_index targets.items m ≡ target_of (is_undetected detected.now) (slice_index loads.now) members m) }
{
    let sum = sum_of(loads);
    let share = Share {
        quotient: sum / u32::from(undetected),
        rest: sum % u32::from(undetected),
    };
    let mut targets = Vec::new(alloc);
    for member in 0..members {
        targets.push(target_for(loads, detected, members, share, member))?;
    }
    Ok(targets)
}

/// What the loads have above the targets.
pub(crate) fn excess_between(loads: &[u32], targets: &[u32]) -> u32
    requires count { length targets.now ≡ length loads.now }
    requires fits { total (slice_index loads.now) (length loads.now) < 2 ^ 31 }
    ensures { result ≡ excess_of (slice_index loads.now) (slice_index targets.now) (length loads.now) }
{
    let mut excess: u32 = 0;
    for (member, load) in loads.iter().enumerate() {
        excess += load.saturating_sub(targets[member]);
    }
    excess
}
