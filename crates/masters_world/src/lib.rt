//! A partition whose table service is run by masters on its members, as a pure machine over those of `masters_protocol` and
//! `partition_protocol`.
//!
//! What the service does is decided: an event of the service that is asked for becomes a proposal to the serving master, and
//! runs on the partition as its decision is published. All else runs at once. `specs/` has the decisions, and the service
//! alone over a list of them (`Decisions`), the two tables that say what the masters are asked and what runs at once
//! (`Machine`), what holds of every run (`Claims`), and runs that are computed (`Examples`).
//! The functions here and in `laws` compute nothing. Their contracts are what holds of every run, for any object.
//!
//! It is for scripts in which masters on the members take the place of the one table service (`masters_run`), and
//! docs/MASTERS.md says its rules in words.
#![tactic(auto)]

pub mod laws;

ghost use Rattle.grid_base.specs.Objects.{Object};
ghost use Rattle.masters_world.specs.Claims.{EveryRunIsWellRuled};

/// Whatever is asked for, and in whatever order, for 1 to 8 members: what happens to the partition is a run of its protocol,
/// in which the events of the table service are the published decisions, in order. Each finds what it was decided for: a
/// message that is to be taken is in its place, and a member that is said to have crashed has.
pub fn every_run_is_well_ruled<C, S>()
    ensures { (o : Object C S) → EveryRunIsWellRuled o }
{}
