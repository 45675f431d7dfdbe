//! Calls that wait at the members of a partition, as a pure machine over the partition's protocol.
//!
//! A waiting call is a plain call that is made later: once it would be answered as it wishes (it is *ready*), or once its
//! deadline has come (it is *due*). `specs/Machine.antt` has who waits, what is to be done with a waiter, and what each
//! line does to the whole: an event of the partition is asked for, a waiting call arrives, a member's moment is set, a
//! connection closes. After each line the first waiter with which something is to be done leaves, and then the list is
//! looked at anew. `Claims` has what holds, and `Examples` some runs that are computed.
//! The functions here and in `laws` compute nothing. Their contracts are what holds of every run, for any calls, any object
//! and any test of readiness.
//!
//! The runs of scripts go by it, partition by partition (`replay_run`): calls wait there for a lock, for room or for an
//! element, and docs/WAITING.md says the rule in words.
#![tactic(auto)]

pub mod laws;

ghost use Rattle.grid_base.specs.Objects.{Object};
ghost use Rattle.waiting_protocol.specs.Claims.{EveryWaiterIsRuled};

/// Whatever is asked for, and whoever waits: what happens to the partition is a run of its protocol, in which each waiting
/// call is at most one event, at its turn by the rule; and after each line nothing is left to be done.
pub fn every_waiter_is_ruled<C, S>()
    ensures { (o : Object C S) → EveryWaiterIsRuled o }
{}
