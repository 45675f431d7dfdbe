// Sources over bytes in memory.
ghost use Rattle.std.specs.Prelude.{◌≡◌, ◌↔◌, ℕ, ◌<◌, List, [], ◌++◌, length, take, drop, min, IfOk, IsOk, IsErr, OnErr};
ghost use Rattle.grid_edge.specs.Faults.{HasCause};
ghost use Rattle.grid_edge.specs.Given.{none_given};
ghost use Rattle.grid_edge.specs.Plan.{plan_of, FailsNext};

use crate::given::ReadRecord;
use crate::plan::FaultPlan;
use crate::unread::Unread;
use crate::{ReadFault, Source};
use std::marker::Model;

/// Bytes in memory, with calls that are made to fail. Contracts see what was given and what is left, the most that
/// one call gives, and the plan of its calls, whose numbers stop at the last value of a `u64`.
#[derive(Debug, Drop)]
pub struct MemorySource {
    gave: ReadRecord,
    unread: Unread,
    most: usize,
    plan: FaultPlan,
}

impl Model for MemorySource {
    ghost use Rattle.std.specs.Prelude.{◌<◌};
    ghost use Rattle.grid_edge.specs.Memory.{Input};

    ghost Value = { Input };

    ghost view = { λ s. record { given = s.gave; left = s.unread; most = s.most; plan = s.plan } };

    ghost invariant = { λ s. 0 < s.most };
}

impl MemorySource {
    /// Gives these bytes, as many a call as fit, and fails at the calls with these numbers, counted from 0.
    /// Takes no memory.
    pub fn new(bytes: Vec<u8>, fails: Vec<u64>) -> Self
        ensures { result ≡ record { given = none_given; left = bytes.items; most = usize.MAX; plan = plan_of fails.items } }
    {
        Self::in_pieces(bytes, fails, usize::MAX)
    }

    /// The same, with at most `most` bytes a call.
    pub fn in_pieces(bytes: Vec<u8>, fails: Vec<u64>, most: usize) -> Self
        requires { 0 < most }
        ensures { result ≡ record { given = none_given; left = bytes.items; most = most; plan = plan_of fails.items } }
    {
        MemorySource {
            gave: ReadRecord::new(),
            unread: Unread::new(bytes),
            most,
            plan: FaultPlan::new(fails),
        }
    }
}

impl Source for MemorySource {
    ghost use Rattle.grid_edge.specs.Memory.{after_read, after_failed_read};

    ghost faults = { λ s. s.plan.faults };

    ghost given = { λ s. s.given };

    /// Costs a copy of the bytes that it gives, and a look through the numbers of the failing calls.
    fn read(&mut self, into: &mut [u8]) -> Result<usize, ReadFault>
        // It fails at the calls of its plan and at no other.
        ensures failed { IsErr result ↔ FailsNext self.old.plan }
        ensures cause { HasCause self.old.plan.faults self.new.plan.faults result }

        ensures count { IfOk result (λ n. n ≡ min (min self.old.most (length into.old)) (length self.old.left)) }
        ensures given { IfOk result (λ n. into.new ≡ take n self.old.left ++ drop n into.old) }
        ensures end { IfOk result (λ n. n ≡ 0 → 0 < length into.old → self.old.left ≡ []) }

        ensures ok { IfOk result (λ n. self.new ≡ after_read self.old (length into.new) n) }
        ensures err { OnErr result (self.new ≡ after_failed_read self.old) }
    {
        if self.plan.fails_next() {
            self.plan.count_fault();
            return Err(ReadFault);
        }
        self.plan.count_call();
        let room = self.most.min(into.len());
        let count = self.unread.give(&mut into[..room]);
        self.gave.note(into.len(), &into[..count]);
        Ok(count)
    }
}

/// Bytes in memory whose reading never fails. Contracts see what was given and what is left.
#[derive(Debug, Drop)]
pub struct SteadySource {
    gave: ReadRecord,
    unread: Unread,
}

impl Model for SteadySource {
    ghost use Rattle.grid_edge.specs.Memory.{Steady};

    ghost Value = { Steady };

    ghost view = { λ s. record { given = s.gave; left = s.unread } };
}

impl SteadySource {
    /// Gives these bytes, as many a call as fit. Takes no memory.
    pub fn new(bytes: Vec<u8>) -> Self
        ensures { result ≡ record { given = none_given; left = bytes.items } }
    {
        SteadySource {
            gave: ReadRecord::new(),
            unread: Unread::new(bytes),
        }
    }
}

impl Source for SteadySource {
    ghost use Rattle.grid_edge.specs.Memory.{after_steady_read};

    ghost faults = { λ _. 0 };

    ghost given = { λ s. s.given };

    /// Costs a copy of the bytes that it gives.
    fn read(&mut self, into: &mut [u8]) -> Result<usize, ReadFault>
        ensures succeeds { IsOk result }
        ensures count { IfOk result (λ n. n ≡ min (length into.old) (length self.old.left)) }
        ensures given { IfOk result (λ n. into.new ≡ take n self.old.left ++ drop n into.old) }
        ensures after { IfOk result (λ n. self.new ≡ after_steady_read self.old (length into.new) n) }
    {
        let count = self.unread.give(into);
        self.gave.note(into.len(), &into[..count]);
        Ok(count)
    }
}
