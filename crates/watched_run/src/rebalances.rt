//! The line that deals the primaries out evenly: its plan, and what its steps came to.

use crate::notes::Notes;
use crate::printed::{number_in, outcome_in, outcome_of};
use grid_base::{Memory, PARTITIONS, PartitionId};
use run_tale::{Happening, PlanStep, Tale};
use run_words::refused_words;
use running_grid::RunningGrid;
use std::alloc::Global;

/// A number of a transcript that is a partition.
fn partition_in(word: &str) -> PartitionId {
    word.parse::<PartitionId>().unwrap_or(PARTITIONS)
}

/// A number of a transcript that is a member.
fn member_in(word: &str) -> u8 {
    word.parse::<u8>().unwrap_or(u8::MAX)
}

/// The step that a line of a transcript tells.
fn step_in(alloc: Global, said: &str) -> Result<Option<PlanStep>, Memory> {
    let words: Vec<&str> = said.split(' ').collect(alloc)?;
    Ok(match words.as_slice() {
        [partition, from, to, kind] => Some(PlanStep {
            partition: partition_in(partition),
            from: member_in(from),
            to: member_in(to),
            handover: *kind == "handover",
        }),
        _ => None,
    })
}

/// The steps of the plan that a text tells, in order.
fn steps_in(alloc: Global, text: &str) -> Result<Vec<PlanStep>, Memory> {
    let mut steps = Vec::new(alloc);
    for line in text.split('\n') {
        let outcome = outcome_in(line);
        if outcome.word == "step" {
            if let Some(step) = step_in(alloc, outcome.rest)? {
                steps.push(step)?;
            }
        }
    }
    Ok(steps)
}

/// Why there is no plan.
fn why_no_plan(rest: &str) -> &'static str {
    let (word, _) = rest.split_once(' ').unwrap_or((rest, ""));
    match word {
        "unsettled" => "a partition isn't settled",
        word => refused_words(word),
    }
}

/// Whether a word of a transcript says what a step came to.
fn ends_step(word: &str) -> bool {
    word == "done" || word == "open"
}

impl Notes {
    /// Tells what a step that was run came to.
    fn tell_stepped(
        &mut self,
        alloc: Global,
        running: &RunningGrid,
        step: PlanStep,
        moving: bool,
        told: &mut Tale,
    ) -> Result<(), Memory> {
        let events = self.new_events(running, step.partition);
        self.settle_links(running, step.partition, told)?;
        told.push(Happening::Stepped {
            step,
            moving,
            events,
        })?;
        self.tell_row(alloc, running, step.partition, told)
    }

    /// Tells what a text says of the steps that were run, and what it appended. Gives how many steps were run.
    fn tell_steps(
        &mut self,
        alloc: Global,
        running: &RunningGrid,
        steps: &[PlanStep],
        text: &str,
        told: &mut Tale,
    ) -> Result<usize, Memory> {
        let mut done: usize = 0;
        for line in text.split('\n') {
            let word = outcome_in(line).word;
            if !ends_step(word) {
                self.tell_appended(alloc, line, told)?;
                continue;
            }
            if let Some(step) = steps.get(done) {
                self.tell_stepped(alloc, running, *step, word == "open", told)?;
            }
            done = done.saturating_add(1);
        }
        Ok(done)
    }

    /// Tells the plan of the line `rebalance K`, and what each step that was run came to.
    pub(crate) fn tell_rebalance(
        &mut self,
        alloc: Global,
        running: &RunningGrid,
        most: u32,
        text: &str,
        told: &mut Tale,
    ) -> Result<(), Memory> {
        let outcome = outcome_of(text);
        if outcome.word == "nothing" {
            let why = "the grid has masters";
            return told.push(Happening::Nothing { why });
        }
        if outcome.word != "plan" {
            let why = why_no_plan(outcome.rest);
            return told.push(Happening::Refused { why });
        }
        let steps = steps_in(alloc, text)?;
        let count = number_in(outcome.rest);
        told.push(Happening::Planned { steps: count, most })?;
        let done = self.tell_steps(alloc, running, steps.as_slice(), text, told)?;
        for step in steps.as_slice().iter().skip(done) {
            told.push(Happening::NotRun { step: *step })?;
        }
        Ok(())
    }
}
