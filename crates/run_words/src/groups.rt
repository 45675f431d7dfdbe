//! Partitions of which the same is said, told together.

use grid_base::{Memory, PartitionId};
use std::alloc::Global;
use std::collections::HashMap;

/// Partitions of which the same is said.
#[derive(Drop)]
struct Group {
    words: String,
    partitions: Vec<PartitionId>,
}

/// What is said of partitions. Those of which the same is said stand together, in the order of their first ones.
#[derive(Drop)]
pub struct Groups {
    /// Where in `groups` the group of these words is.
    places: HashMap<String, usize>,
    groups: Vec<Group>,
}

/// Whether a partition is there, and the next one behind another.
fn is_next(one: Option<&PartitionId>, next: Option<&PartitionId>) -> bool {
    match (one, next) {
        (Some(one), Some(next)) => one.checked_add(1) == Some(*next),
        _ => false,
    }
}

/// How far each partition is from the one before it, where that is one number, above 1, of four partitions or more.
fn common_step(partitions: &[PartitionId]) -> Option<PartitionId> {
    let [first, second, _, _, ..] = partitions else {
        return None;
    };
    let step = second.checked_sub(*first)?;
    let behind = partitions.get(1..).unwrap_or(&[]);
    let mut pairs = partitions.iter().zip(behind.iter());
    let same = pairs.all(|(one, next)| one.checked_add(step) == Some(*next));
    (same && step > 1).then_some(step)
}

/// Appends each partition, but three and more that follow one another as `2 to 9`.
fn push_list(out: &mut String, partitions: &[PartitionId]) -> Result<(), Memory> {
    for (place, partition) in partitions.iter().enumerate() {
        let before = place
            .checked_sub(1)
            .and_then(|before| partitions.get(before));
        let after = partitions.get(place.saturating_add(1));
        let goes_on = is_next(before, Some(partition));
        if goes_on && is_next(Some(partition), after) {
            continue;
        }
        out.push_str(match (place, goes_on) {
            (0, _) => "",
            (_, true) => " to ",
            (_, false) => ", ",
        })?;
        write!(out, "{partition}")?;
    }
    Ok(())
}

/// Appends partitions that are told in rising order: `2 to 270 in steps of 4` where they are as far from one another, and
/// else each, but three and more that follow one another as `2 to 9`.
fn push_partitions(out: &mut String, partitions: &[PartitionId]) -> Result<(), Memory> {
    match (common_step(partitions), partitions) {
        (Some(step), [first, .., last]) => write!(out, "{first} to {last} in steps of {step}"),
        _ => push_list(out, partitions),
    }
}

impl Group {
    fn line(&self, alloc: Global) -> Result<String, Memory> {
        let word = match self.partitions.len() {
            1 => "partition ",
            _ => "partitions ",
        };
        let mut line = String::from_str(alloc, word)?;
        push_partitions(&mut line, self.partitions.as_slice())?;
        line.push_str(": ")?;
        line.push_str(self.words.as_str())?;
        Ok(line)
    }
}

impl Groups {
    /// Nothing is said.
    pub fn new(alloc: Global) -> Self {
        Groups {
            places: HashMap::new(alloc),
            groups: Vec::new(alloc),
        }
    }

    /// Says this of a partition.
    pub fn add(
        &mut self,
        alloc: Global,
        partition: PartitionId,
        words: &str,
    ) -> Result<(), Memory> {
        if let Some(place) = self.places.get(words) {
            if let Some(group) = self.groups.get_mut(*place) {
                group.partitions.push(partition)?;
            }
            return Ok(());
        }
        let mut partitions = Vec::new(alloc);
        partitions.push(partition)?;
        let words = String::from_str(alloc, words)?;
        let known = words.clone()?;
        let place = self.groups.len();
        self.groups.push(Group { words, partitions })?;
        self.places.insert(known, place)?;
        Ok(())
    }

    /// What was said, each with its partitions: `partitions 2 to 9, 11: WORDS`.
    pub fn lines(&self, alloc: Global) -> Result<Vec<String>, Memory> {
        let mut lines = Vec::new(alloc);
        for group in self.groups.as_slice() {
            lines.push(group.line(alloc)?)?;
        }
        Ok(lines)
    }
}
