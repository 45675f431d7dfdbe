//! A partition whose members are apart, each a process of its own, as a pure machine over that of `partition_protocol`.
//!
//! The protocol's own machine sees the whole: all nodes and all links. Here each member is alone, and so is the table service:
//! a step of a member is computed from what the member has and what it is given, and from nothing else. The network is the
//! list of all that was ever sent, and any of it may be taken, any number of times and in any order. A message carries the
//! contents that the protocol's message only names.
//!
//! `specs/` has what goes with a message (`Contents`), a member alone with each of its steps (`Member`), the service alone
//! (`Rulings`), the whole with what may come (`Machine`), what holds of every run (`Claims`, `Sizes`), and runs that are
//! computed (`Examples`). The functions here compute nothing: their contracts are what holds of every run, for any calls and any
//! object whose calls without an effect leave the state. docs/MEMBERS-APART.md has the machine in words, and its premises in one
//! place. No program runs it yet.
#![tactic(auto)]

ghost use Rattle.grid_base.specs.Objects.{Object};
ghost use Rattle.apart_protocol.specs.Claims.{EveryApartRunIsARun, EveryApartRunGoesOn, EveryApartRunIsSafe, EveryApartRunExtends, EveryOneIsByItself, EveryAnswerIsItsOwn, EveryEffectFits};
ghost use Rattle.apart_protocol.specs.Sizes.{EveryApartStateIsSmall, EveryApartEffectApplies, EveryApartNumberIsBounded};

use grid_base::Shelf;

/// Whatever members that are apart and their service do, each by what it has alone, there is a run of the protocol with the
/// same calls in the same order, of at most two events a step, that leaves the same nodes, service, crashed members, log of what
/// was executed and answers that were given. In it all that was ever sent is in flight. The contents of each member are the state that its pair names, and
/// what goes with each message is what the message names: with a Sync the state, with an Effect the call that made it.
pub fn every_apart_run_is_a_run<C, S>()
    ensures run { (o : Object C S) → EveryApartRunIsARun o }
    ensures longer { (o : Object C S) → EveryApartRunGoesOn o }
{}

/// So where no two calls have one name there is one history, that of one object used by one thread and emptied at each
/// reopening. It has every answer that was given. What it has are calls that arrived, in order of arrival, each at most once.
pub fn every_apart_run_is_safe<C, S>()
    ensures { (o : Object C S) → EveryApartRunIsSafe o }
{}

/// The log of what was executed and the list of what was answered only grow, at their ends. So no call stands in a history
/// before one that was answered before it arrived.
pub fn every_apart_run_extends<C, S>()
    ensures { (o : Object C S) → EveryApartRunExtends o }
{}

/// A member is what its own list of steps makes of it, and has sent what its own list sends: nothing that others do or the
/// network does changes it, but by the messages that it takes. So is the service. What a member's own list executes and
/// answers is in the log and among the answers of the whole.
pub fn every_one_is_by_itself<C, S>()
    ensures { (o : Object C S) → EveryOneIsByItself o }
{}

/// Whatever it takes, in a run or not, a member holds and gives only answers of calls that it executed itself: so it knows
/// their replies.
pub fn every_answer_is_its_own<C, S>()
    ensures { (o : Object C S) → EveryAnswerIsItsOwn o }
{}

/// An Effect that a member takes next was made on the very contents that the member has, and changes them: so the bytes of
/// the effect do there what they did first.
pub fn every_effect_fits<C, S>()
    ensures { (o : Object C S) → EveryEffectFits o }
{}

/// Where fewer than 2 ^ 32 calls arrive, each within the limits of the shelf, all states are small: those of the members, and
/// those that go with messages. So their snapshots can be written down and installed, and their effects applied.
pub fn every_apart_state_is_small<S: Shelf>()
    ensures { (plan : S.Plan) → EveryApartStateIsSmall (S.model.object plan) S.model.within_limits S.model.within }
{}

/// Where calls are as few, an Effect that a member takes next has bytes that apply to the contents that the member has, and make
/// of them what its call makes of them.
pub fn every_apart_effect_applies<S: Shelf>()
    ensures { (plan : S.Plan) → EveryApartEffectApplies (S.model.object plan) S.model.within_limits (S.model.effect_of plan) S.model.applied }
{}

/// No version and no count is larger than two for each step, and one. So over fewer than 2 ^ 31 steps they have four bytes.
pub fn every_apart_number_is_bounded<C, S>()
    ensures { (o : Object C S) → EveryApartNumberIsBounded o }
{}
