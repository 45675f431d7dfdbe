ghost use Rattle.std.specs.Prelude.{◌≡◌, ◌++◌, ◌∷◌, [], OnOk, length, map};
ghost use Rattle.run_tale.specs.Tales.{told_in, step_of, at_step};

use crate::happening::Happening;
use grid_base::Memory;
use std::alloc::Global;
use std::mem;

/// Something that happened, and the step of the run at which it did: a message that arrived or was delivered, or a line.
#[derive(Debug, Drop)]
pub struct Told {
    pub step: u32,
    pub happening: Happening,
}

/// What has happened, in order.
#[derive(Debug, Drop)]
pub struct Tale {
    step: u32,
    told: Vec<Told>,
}

impl Tale {
    /// Nothing has happened.
    pub fn new(alloc: Global) -> Self
        ensures { told_in result ≡ [] }
    {
        Tale {
            step: 0,
            told: Vec::new(alloc),
        }
    }

    /// A grid was made of so many members and backups, with queues of this capacity.
    pub fn begin(&mut self, members: u8, backups: u8, capacity: u32) -> Result<(), Memory>
        ensures { OnOk result (told_in self.new ≡ told_in self.old ++ at_step self.old (Happening.Made members backups capacity) ∷ []) }
    {
        self.push(Happening::Made {
            members,
            backups,
            capacity,
        })
    }

    /// A new step begins.
    pub fn go_on(&mut self)
        ensures { told_in self.new ≡ told_in self.old }
    {
        self.step = self.step.saturating_add(1);
    }

    /// The step at which what happens now is told.
    pub fn step(&self) -> u32
        ensures { result ≡ step_of self.now }
    {
        self.step
    }

    /// Something happened at this step.
    pub fn push(&mut self, happening: Happening) -> Result<(), Memory>
        ensures told { OnOk result (told_in self.new ≡ told_in self.old ++ at_step self.old happening ∷ []) }
        ensures step { step_of self.new ≡ step_of self.old }
    {
        let step = self.step;
        Ok(self.told.push(Told { step, happening })?)
    }

    /// These things happened at this step, in order.
    pub fn push_all(&mut self, happenings: Vec<Happening>) -> Result<(), Memory>
        ensures told { OnOk result (told_in self.new ≡ told_in self.old ++ map (at_step self.old) happenings.items) }
        ensures step { step_of self.new ≡ step_of self.old }
    {
        for happening in happenings {
            self.push(happening)?;
        }
        Ok(())
    }

    /// How much was told since it was taken last.
    pub fn len(&self) -> usize
        ensures { result ≡ length (told_in self.now) }
    {
        self.told.len()
    }

    /// What was told since it was taken last.
    pub fn take(&mut self, alloc: Global) -> Vec<Told>
        ensures all { result.items ≡ told_in self.old }
        ensures none { told_in self.new ≡ [] }
    {
        mem::replace(&mut self.told, Vec::new(alloc))
    }
}
