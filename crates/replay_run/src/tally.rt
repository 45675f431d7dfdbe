//! How many calls arrived, and how many of them were refused, as they arrived or as they had waited.

ghost use Rattle.std.specs.Prelude.{◌≡◌, ◌+◌, ◌<◌, ◌≤◌, ◌^◌};
ghost use Rattle.replay_run.specs.Tallies.{no_tally, tallied, tallied_later};

/// What became of a call as it arrived, or as it had waited.
#[derive(Clone, Copy)]
pub(crate) enum Reception {
    /// It is an event of its partition that refuses nothing.
    Taken,
    /// It was refused by the row that its member knows.
    Refused,
    /// It found no memory.
    OutOfMemory,
}

/// The calls so far, and those of them that were refused.
#[derive(Clone, Copy, Debug, PartialEq, Eq)]
pub(crate) struct Tally {
    pub(crate) arrived: u32,
    pub(crate) refused: u32,
    pub(crate) memory: u32,
}

impl Tally {
    pub(crate) fn new() -> Tally
        ensures { result ≡ no_tally }
    {
        Tally {
            arrived: 0,
            refused: 0,
            memory: 0,
        }
    }

    /// Counts what became of a call that was counted as it arrived, and waited.
    pub(crate) fn count_later(&mut self, reception: Reception)
        requires refused { self.old.refused < self.old.arrived }
        requires memory { self.old.memory < self.old.arrived }
        ensures { self.new ≡ tallied_later reception self.old }
    {
        match reception {
            Reception::Taken => {}
            Reception::Refused => self.refused += 1,
            Reception::OutOfMemory => self.memory += 1,
        }
    }

    /// Counts a call that arrived.
    pub(crate) fn count(&mut self, reception: Reception)
        requires room { self.old.arrived + 1 < 2 ^ 32 }
        requires refused { self.old.refused ≤ self.old.arrived }
        requires memory { self.old.memory ≤ self.old.arrived }
        ensures { self.new ≡ tallied reception self.old }
    {
        self.arrived += 1;
        match reception {
            Reception::Taken => {}
            Reception::Refused => self.refused += 1,
            Reception::OutOfMemory => self.memory += 1,
        }
    }
}
