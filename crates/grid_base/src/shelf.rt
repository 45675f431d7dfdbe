ghost use Rattle.std.specs.Prelude.{◌≡◌, ◌≢◌, ◌≤◌, ◌+◌, ℕ, List, Some, None, IfOk, OnOk, OnErr, is_some, true};
ghost use Rattle.grid_base.specs.Objects.{IsSmall};
ghost use Rattle.grid_base.specs.Shelves.{ShelfModel};

use crate::Memory;
use crate::bytes::Bytes;
use crate::calls::Executed;
use crate::names::Moment;
use std::alloc::Global;

/// What one member keeps of one partition.
///
/// To contracts a shelf is, for each plan, a one-thread object: it has a state, and what a call answers, changes and
/// leaves is a function of the plan, the state, the call and the moment.
/// The state changes when an effect is applied, here and on each backup alike.
pub trait Shelf: Sized + Drop {
    /// What an environment means for calls, as plain data.
    type Plan;

    type Call;

    ghost State: { Type 0 };

    /// The state that a shelf has, the object that it is by a plan, and the bytes of effects and states.
    ghost model: { ShelfModel Self Self.Plan Self.Call State };

    /// The shelf without objects. Takes no memory.
    fn empty(alloc: Global) -> Self
        ensures { model.state result ≡ model.empty_state };

    /// Makes the state after an effect. Want of memory changes nothing.
    fn apply(&mut self, alloc: Global, effect: &Bytes) -> Result<(), Memory>
        requires { is_some (model.applied effect.now (model.state self.old)) ≡ true }
        ensures ok { OnOk result (model.applied effect.now (model.state self.old) ≡ Some (model.state self.new)) }
        ensures err { OnErr result (model.state self.new ≡ model.state self.old) };

    /// The bytes that stand for the state.
    fn snapshot(&self, alloc: Global) -> Result<Bytes, Memory>
        requires { IsSmall model.within (model.state self.now) }
        ensures { IfOk result (λ bytes. bytes ≡ model.snapshot_of (model.state self.now)) };

    /// The shelf that has the state for which the bytes stand.
    fn install(alloc: Global, bytes: &Bytes) -> Result<Self, Memory>
        requires { (s : State) × IsSmall model.within s × (model.snapshot_of s ≡ bytes.now) }
        ensures { (s : State) → IsSmall model.within s → model.snapshot_of s ≡ bytes.now → IfOk result (λ shelf. model.state shelf ≡ s) };

    ghost begins_empty: { (plan : Self.Plan) → (model.object plan).empty ≡ model.empty_state };

    /// A call counts as a change exactly where it has an effect.
    ghost changes_by_effect: { (plan : Self.Plan) (s : State) (call : Self.Call) (now : ℕ) → (model.object plan).changes s call now ≡ is_some (model.effect_of plan s call now) };

    /// A call without an effect leaves the state as it was.
    ghost same_without_effect: { (plan : Self.Plan) (s : State) (call : Self.Call) (now : ℕ) → model.effect_of plan s call now ≡ None → (model.object plan).after s call now ≡ s };

    /// A call with an effect leaves another state.
    ghost differs_by_effect: { (plan : Self.Plan) (s : State) (call : Self.Call) (now : ℕ) (effect : List ℕ) → model.effect_of plan s call now ≡ Some effect → (model.object plan).after s call now ≢ s };

    ghost made_by_effect: { (plan : Self.Plan) (s : State) (call : Self.Call) (now : ℕ) (effect : List ℕ) → IsSmall model.within s → model.within_limits call → model.effect_of plan s call now ≡ Some effect → model.applied effect s ≡ Some ((model.object plan).after s call now) };

    ghost begins_within: { model.within 0 model.empty_state };

    /// Each call adds one.
    ghost grows_within: { (plan : Self.Plan) (n : ℕ) (s : State) (call : Self.Call) (now : ℕ) → model.within_limits call → model.within n s → model.within (n + 1) ((model.object plan).after s call now) };

    ghost widens: { (m n : ℕ) (s : State) → m ≤ n → model.within m s → model.within n s };

    /// No two states have one snapshot.
    ghost one_spelling: { (s t : State) → IsSmall model.within s → IsSmall model.within t → model.snapshot_of s ≡ model.snapshot_of t → s ≡ t };
}

/// A shelf on which calls are executed in an environment of this type, which may hold what no thread shares.
pub trait Executes<N>: Shelf {
    /// What the environment means.
    ghost plan_of: { N → Self.Plan };

    /// What a call answers, changes and reports at a moment. Only looks: the caller applies the effect.
    fn execute(
        &self,
        alloc: Global,
        env: &N,
        call: &Self::Call,
        now: Moment,
    ) -> Result<Executed, Memory>
        requires limits { Self.model.within_limits call.now }
        requires small { IsSmall Self.model.within (Self.model.state self.now) }
        ensures reply { IfOk result (λ e. e.reply ≡ (Self.model.object (plan_of env.now)).reply (Self.model.state self.now) call.now now) }
        ensures effect { IfOk result (λ e. e.effect ≡ Self.model.effect_of (plan_of env.now) (Self.model.state self.now) call.now now) }
        ensures change { IfOk result (λ e. e.change ≡ Self.model.change_of (plan_of env.now) (Self.model.state self.now) call.now now) };
}
