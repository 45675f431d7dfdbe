//! What happened at a line, where what happened alike in several partitions is told together.

use crate::happening::Happening;
use crate::tale::Told;
use crate::telling::Place;
use grid_base::{Memory, PartitionId};
use run_words::Groups;
use std::alloc::Global;

/// What happened at a line, in order.
#[derive(Drop)]
pub struct LineTold {
    pub at: Place,
    pub told: Vec<Told>,
}

/// The partition in which something happened that may have happened in others alike.
fn partition_of(happening: &Happening) -> Option<PartitionId> {
    match happening {
        Happening::Row { partition, .. } | Happening::Published { partition, .. } => {
            Some(*partition)
        }
        Happening::Stepped { step, .. } | Happening::NotRun { step } => Some(step.partition),
        Happening::Sent(flight) | Happening::Delivered(flight, _) => Some(flight.partition),
        Happening::SentMore { partition, .. } => Some(*partition),
        _ => None,
    }
}

/// Whether such things happened in several partitions.
fn is_of_many(told: &[Told]) -> bool {
    let mut partitions = told.iter().filter_map(|told| partition_of(&told.happening));
    let first = partitions.next();
    partitions.any(|partition| Some(partition) != first)
}

/// Appends each thing that happened, as a line of its own.
fn push_each(out: &mut String, at: Place, told: &[Told]) -> Result<(), Memory> {
    for told in told {
        at.push(out, &told.happening)?;
    }
    Ok(())
}

/// Appends what happened, and what happened alike in several partitions together behind it.
fn push_together(alloc: Global, out: &mut String, at: Place, told: &[Told]) -> Result<(), Memory> {
    let mut groups = Groups::new(alloc);
    for told in told {
        match partition_of(&told.happening) {
            Some(partition) => {
                let mut words = String::new(alloc);
                at.push_in(&mut words, partition, &told.happening)?;
                groups.add(alloc, partition, words.as_str())?;
            }
            None => at.push(out, &told.happening)?,
        }
    }
    let line = at.line;
    for words in groups.lines(alloc)? {
        write!(out, "{line} {words}\n")?;
    }
    Ok(())
}

impl LineTold {
    /// What happened, in words: a line for each thing, which begins with the number of the script's line.
    pub fn words(&self, alloc: Global) -> Result<String, Memory> {
        let told = self.told.as_slice();
        let mut words = String::new(alloc);
        if is_of_many(told) {
            push_together(alloc, &mut words, self.at, told)?;
        } else {
            push_each(&mut words, self.at, told)?;
        }
        Ok(words)
    }
}
