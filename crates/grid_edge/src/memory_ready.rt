// Streams in memory that aren't always ready.
ghost use Rattle.std.specs.Prelude.{◌≡◌, ◌↔◌, ◌⊎◌, ◌<◌, ◌≤◌, [], ◌++◌, length, take, drop, IsTrue, IsErr};
ghost use Rattle.grid_edge.specs.Faults.{Rose, count_after, HasCause};
ghost use Rattle.grid_edge.specs.Given.{after_piece};
ghost use Rattle.grid_edge.specs.Plan.{plan_of, FailsNext};
ghost use Rattle.grid_edge.specs.Ready.{IfBytes, UnlessBytes, IsNotYet, HasWaited};
ghost use Rattle.grid_edge.specs.Unready.{unready_of, WaitsNext, after_wait};

use crate::count::next_count;
use crate::plan::FaultPlan;
use crate::ready::{Ready, ReadySink, ReadySource};
use crate::{MemorySink, MemorySource, ReadFault, Sink, Source, WriteFault};
use std::marker::Model;

/// A stream in memory which some calls find not ready, and at which some are made to fail. Contracts see the
/// stream, and which calls those are; what the stream itself fails at is a fault too.
#[derive(Debug, Drop)]
pub struct MemoryReady<S> {
    stream: S,
    plan: FaultPlan,
    unready: Vec<u64>,
    moments: u64,
}

impl<S> Model for MemoryReady<S> {
    ghost use Rattle.grid_edge.specs.Unready.{Unready};

    ghost Value = { Unready S };

    ghost view = { λ s. record { stream = s.stream; plan = s.plan; numbers = s.unready.items; moments = s.moments } };
}

impl<S> MemoryReady<S> {
    /// The calls with the numbers `fails` fail, and those with the numbers `unready` find it not ready,
    /// whether or not they stand in `fails`. All calls are counted, from 0. Takes no memory.
    pub fn new(stream: S, fails: Vec<u64>, unready: Vec<u64>) -> Self
        ensures { result ≡ unready_of stream fails.items unready.items }
    {
        MemoryReady {
            stream,
            plan: FaultPlan::new(fails),
            unready,
            moments: 0,
        }
    }

    /// The stream, at no cost.
    pub fn stream(&self) -> &S
        ensures { result.now ≡ self.now.stream }
    {
        &self.stream
    }

    fn waits_next(&self) -> bool
        ensures { IsTrue result ↔ WaitsNext self.now }
    {
        self.plan.is_among(&self.unready)
    }

    fn count_wait(&mut self)
        ensures after { self.new ≡ after_wait self.old }
        ensures rose { Rose self.old.moments self.new.moments }
        ensures never_falls { self.old.moments ≤ self.new.moments }
    {
        self.plan.count_call();
        self.moments = next_count(self.moments);
    }
}

impl ReadySource for MemoryReady<MemorySource> {
    ghost faults = { λ s. s.plan.faults };

    ghost unready = { λ s. s.moments };

    ghost given = { λ s. s.stream.given };

    /// It gives the front of what the stream has left. Costs a read of the stream, and a look through the numbers of
    /// the calls.
    fn read_ready(&mut self, into: &mut [u8]) -> Result<Ready, ReadFault>
        ensures waits { IsNotYet result ↔ WaitsNext self.old }
        ensures failed { FailsNext self.old.plan → IsErr result ⊎ WaitsNext self.old }
        ensures after { self.new.plan.calls ≡ count_after self.old.plan.calls }

        ensures within { IfBytes result (λ n. n ≤ length into.new) }
        ensures given { IfBytes result (λ n. self.new.stream.given ≡ after_piece self.old.stream.given (length into.new) n (take n into.new)) }
        ensures none_given { UnlessBytes result (self.new.stream.given ≡ self.old.stream.given) }
        ensures bytes { IfBytes result (λ n. self.old.stream.left ≡ take n into.new ++ self.new.stream.left) }
        ensures end { IfBytes result (λ n. n ≡ 0 → 0 < length into.new → self.old.stream.left ≡ []) }
        ensures beyond { IfBytes result (λ n. drop n into.new ≡ drop n into.old) }
        ensures none { UnlessBytes result (self.new.stream.left ≡ self.old.stream.left) }
        ensures cause { HasCause self.old.plan.faults self.new.plan.faults result }
        ensures waited { HasWaited self.old.moments self.new.moments result }
    {
        if self.waits_next() {
            self.count_wait();
            return Ok(Ready::NotYet);
        }
        if self.plan.fails_next() {
            self.plan.count_fault();
            return Err(ReadFault);
        }
        match self.stream.read(into) {
            Ok(count) => {
                self.plan.count_call();
                Ok(Ready::Bytes(count))
            }
            Err(fault) => {
                self.plan.count_fault();
                Err(fault)
            }
        }
    }
}

impl<S: Sink> ReadySink for MemoryReady<S> {
    ghost faults = { λ s. s.plan.faults };

    ghost unready = { λ s. s.moments };

    ghost taken = { λ s. S.taken s.stream };

    /// Costs a write to the stream, and a look through the numbers of the calls.
    fn write_ready(&mut self, from: &[u8]) -> Result<Ready, WriteFault>
        ensures waits { IsNotYet result ↔ WaitsNext self.old }
        ensures failed { FailsNext self.old.plan → IsErr result ⊎ WaitsNext self.old }
        ensures after { self.new.plan.calls ≡ count_after self.old.plan.calls }

        ensures within { IfBytes result (λ n. n ≤ length from.now) }
        ensures progress { IfBytes result (λ n. 0 < length from.now → 0 < n) }
        ensures bytes { IfBytes result (λ n. S.taken self.new.stream ≡ S.taken self.old.stream ++ take n from.now) }
        ensures none { UnlessBytes result (S.taken self.new.stream ≡ S.taken self.old.stream) }
        ensures cause { HasCause self.old.plan.faults self.new.plan.faults result }
        ensures waited { HasWaited self.old.moments self.new.moments result }
    {
        if self.waits_next() {
            self.count_wait();
            return Ok(Ready::NotYet);
        }
        if self.plan.fails_next() {
            self.plan.count_fault();
            return Err(WriteFault);
        }
        match self.stream.write(from) {
            Ok(count) => {
                self.plan.count_call();
                Ok(Ready::Bytes(count))
            }
            Err(fault) => {
                self.plan.count_fault();
                Err(fault)
            }
        }
    }
}

/// It is ready at each call.
impl ReadySource for MemorySource {
    ghost faults = { λ s. s.plan.faults };

    ghost unready = { λ _. 0 };

    ghost given = { λ s. s.given };

    /// It gives the front of what is left.
    fn read_ready(&mut self, into: &mut [u8]) -> Result<Ready, ReadFault>
        ensures within { IfBytes result (λ n. n ≤ length into.new) }
        ensures given { IfBytes result (λ n. self.new.given ≡ after_piece self.old.given (length into.new) n (take n into.new)) }
        ensures none_given { UnlessBytes result (self.new.given ≡ self.old.given) }
        ensures bytes { IfBytes result (λ n. self.old.left ≡ take n into.new ++ self.new.left) }
        ensures end { IfBytes result (λ n. n ≡ 0 → 0 < length into.new → self.old.left ≡ []) }
        ensures beyond { IfBytes result (λ n. drop n into.new ≡ drop n into.old) }
        ensures none { UnlessBytes result (self.new.left ≡ self.old.left) }
        ensures cause { HasCause self.old.plan.faults self.new.plan.faults result }
        ensures waited { HasWaited 0 0 result }
    {
        let count = self.read(into)?;
        Ok(Ready::Bytes(count))
    }
}

/// It is ready at each call.
impl ReadySink for MemorySink {
    ghost faults = { λ s. s.plan.faults };

    ghost unready = { λ _. 0 };

    ghost taken = { λ s. s.taken };

    fn write_ready(&mut self, from: &[u8]) -> Result<Ready, WriteFault> {
        let count = self.write(from)?;
        Ok(Ready::Bytes(count))
    }
}
