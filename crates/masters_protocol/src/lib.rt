//! The mastership of one partition on its members, as a pure machine: who decides for the partition, and when a decision
//! holds.
//!
//! The lowest live member that was told of the crash of every lower one is the master. It first gathers the logs of its
//! peers, and then it serves: a decision that it takes on is stored at each peer, and is published once each has stored
//! it. `specs/` has a member with its log and what it does at each message (`Members`), the members together with their
//! messages in flight and the published list (`Machine`), what holds of every run (`Claims`), and runs that are computed
//! (`Examples`).
//! The function here computes nothing. Its contract is what holds of every run, for decisions of any type.
//!
//! It is for table services that run on the members themselves, and docs/MASTERS.md says its rules in words. `master_log`
//! has the machine in code.
#![tactic(auto)]

ghost use Rattle.masters_protocol.specs.Claims.{EveryRunAgrees};

/// Whatever is lost, late, asked again or crashes, and whoever is master, for 1 to 8 members: a published list is the front
/// of every live member's log, and of every list that is published later. At most one live member gathers or serves, the
/// lowest that lives.
///
/// Nothing is said of progress: a crashed member of which its master isn't told stops publishing.
pub fn every_run_agrees<D>()
    ensures { EveryRunAgrees D }
{}
