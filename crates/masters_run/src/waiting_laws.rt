//! Calls that wait in the runs of scripts: by which lines of its machine each partition has come to what it is, and that a
//! call changes nothing while it waits.
//!
//! The machine is that of `waiting_protocol`, and what is proved there of any lines holds of these. The runs are those of
//! `masters_run`, with masters or without.
//!
//! The functions compute nothing: their contracts are what holds of every run.

ghost use Rattle.masters_run.specs.ByMachine.{EveryPartitionGoesByItsMachine, EveryPartitionGoesOn};
ghost use Rattle.masters_run.specs.Silent.{EveryWaiterChangesNothing};

/// Each partition goes by lines of its machine that bring the waiting calls of the run there, each once, and no other, unless
/// the run is given up. So what the machine's laws say of such lines holds of the partition: each turn goes by the rule, of two
/// with one plain call at a member the later goes first only if it alone is due, and whoever leaves does so at a line of its
/// member.
pub fn every_partition_goes_by_its_machine()
    ensures { EveryPartitionGoesByItsMachine }
{}

/// As a script goes on, so do the lines by which a partition goes: whichever they are at one moment, those of a later one are
/// these and more, unless the run is given up. So what the machine's laws say of two moments holds of a script's.
pub fn every_partition_goes_on()
    ensures { EveryPartitionGoesOn }
{}

/// A call changes nothing while it waits: by the lines without its arrival its partition comes to the same world and the same
/// others who wait, the same events have happened there, and the same calls have left in the same way.
pub fn every_waiter_changes_nothing()
    ensures { EveryWaiterChangesNothing }
{}
