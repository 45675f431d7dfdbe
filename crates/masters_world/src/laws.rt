//! A further law of every run. It computes nothing: its contract is what holds of every run.

ghost use Rattle.grid_base.specs.Objects.{Object};
ghost use Rattle.masters_world.specs.Claims.{EveryRunGoesOn};

/// What was published stays, and so does what happened: more comes at the end of both. No version of the row is made twice.
pub fn every_run_goes_on<C, S>()
    ensures { (o : Object C S) → EveryRunGoesOn o }
{}
