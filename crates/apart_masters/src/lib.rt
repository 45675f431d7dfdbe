//! A partition whose members are apart, each a process of its own, and whose table service is run by masters on those
//! members, as a pure machine over those of `apart_protocol` and `masters_protocol`.
//!
//! What the masters decide are the rulings of the service, in order. A master is alone too: each of its steps is computed from
//! what it has. A log that is stored at each of its peers is decided for good, and says what the service's newest row is; so
//! the master sends, in the service's place, what the service has to say.
//!
//! `specs/` has a master alone (`Master`), the whole with what may come (`Machine`), what holds of every run (`Claims`), and
//! runs that are computed (`Examples`). The functions here compute nothing: their contracts are what holds of every run.
//! docs/MEMBERS-APART.md has both machines in words. No program runs them yet.
#![tactic(auto)]

ghost use Rattle.grid_base.specs.Objects.{Object};
ghost use Rattle.apart_masters.specs.Claims.{EveryRunIsWellRuled, EveryStateIsSmall, EveryNumberIsBounded, EveryRunExtends, EveryOneIsByItself};

use grid_base::Shelf;

/// Whatever members that are apart do, in the partition and as its masters, for 1 to 8 members: the masters are those of a run
/// of theirs, and the members with the service that the published list makes are a run of members that are apart with one
/// service. So there is one history, which has every answer that was given. What a live master knows to be decided is the
/// published list.
pub fn every_run_is_well_ruled<C, S>()
    ensures { (o : Object C S) → EveryRunIsWellRuled o }
{}

/// Where fewer than 2 ^ 32 calls arrive, each within the limits of the shelf, all states are small: those of the members, and
/// those that go with messages.
pub fn every_state_is_small<S: Shelf>()
    ensures { (plan : S.Plan) → EveryStateIsSmall (S.model.object plan) S.model.within_limits S.model.within }
{}

/// No version and no count of the partition is larger than two for each step, and one. So over fewer than 2 ^ 31 steps they have
/// four bytes. Terms and lengths of the masters' logs are bounded by their own laws.
pub fn every_number_is_bounded<C, S>()
    ensures { (o : Object C S) → EveryNumberIsBounded o }
{}

/// The log of what was executed and the list of what was answered only grow, at their ends. So no call stands in a history
/// before one that was answered before it arrived.
pub fn every_run_extends<C, S>()
    ensures { (o : Object C S) → EveryRunExtends o }
{}

/// A member is what its own list of steps makes of it, in the partition and as a master, and has sent what its own list
/// sends: nothing that others do changes it, but by what it is told and the messages that it takes.
pub fn every_one_is_by_itself<C, S>()
    ensures { (o : Object C S) → EveryOneIsByItself o }
{}
