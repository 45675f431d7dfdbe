//! A partition with calls that wait, in a cell at which threads take turns, as a pure machine over that of `waiting_protocol`.
//!
//! Many threads come to the cell, each for something of its own: a call, a message to be handed over, an operator's event, a
//! waiting call that arrives, a connection that closes. A turn makes at most one event. So a thread looks first whether
//! something is to be done with somebody who waits. If so its turn does just that, and it comes again; else it does its own.
//! `specs/Cell.antt` has what a turn does, `Claims` and `LookClaims` what holds of every list of turns, and `Examples` some that are
//! computed.
//! The functions here, in `laws` and in `looks` compute nothing: their contracts are what holds of every list of turns, for any
//! calls, any object and any test of readiness. docs/WAITING.md has the machine in words. No program runs it yet.
#![tactic(auto)]

pub mod laws;
pub mod looks;

ghost use Rattle.grid_base.specs.Objects.{Object};
ghost use Rattle.live_waiting.specs.Claims.{EveryCellIsUnderWay, EveryVisitDoesOneThing};

/// Whatever threads come, and in whatever order: there are lines of which the cell is a run under way. All but the last are
/// served to their end, and so many turns of the last are made. What is left of it brings the cell to the end of that run.
pub fn every_cell_is_under_way<C, S>()
    ensures { (o : Object C S) → EveryCellIsUnderWay o }
{}

/// A turn lets go the first of those with whom something is to be done, and does nothing else; or it does what its thread came
/// for, and then nothing was to be done with anybody who waits at that moment.
pub fn every_visit_does_one_thing<C, S>()
    ensures { (o : Object C S) → EveryVisitDoesOneThing o }
{}
