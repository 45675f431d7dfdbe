//! How a client goes with the near cache's machine, step by step, and so what its hits are worth. The functions compute
//! nothing: their contracts are the laws.

ghost use Rattle.std.specs.Prelude.{List, ℕ};
ghost use Rattle.grid_base.specs.Objects.{Object};
ghost use Rattle.near_protocol.specs.Keyed.{Keyed};
ghost use Rattle.grid_client.specs.Nears.{Value};
ghost use Rattle.grid_client.specs.Ties.{EveryLookIsTheMachines, EveryHitIsTheMachines, EveryMissIsTheMachines, EveryMessageIsTheMachines, EveryCallKeepsTheTie, EveryRetryKeepsTheTie, EveryConnectionKeepsTheTie, EveryHitOfAClientStands};

/// A look-up hits what the machine's does, and brings the entry to the front as it does.
pub fn every_hit_is_the_machines<C, S>()
    ensures look { (l : Keyed C S (List ℕ) Value) → EveryLookIsTheMachines l }
    ensures hit { (l : Keyed C S (List ℕ) Value) → EveryHitIsTheMachines l }
{}

/// A miss opens a look-up of the machine's. A plain call, a call that is sent again and a further connection change nothing
/// of it.
pub fn every_call_is_the_machines()
    ensures miss { EveryMissIsTheMachines }
    ensures call { EveryCallKeepsTheTie }
    ensures retry { EveryRetryKeepsTheTie }
    ensures connection { EveryConnectionKeepsTheTie }
{}

/// What a client makes of a message is what the machine makes of it.
pub fn every_message_is_the_machines<C, S>()
    ensures { (l : Keyed C S (List ℕ) Value) → EveryMessageIsTheMachines l }
{}

/// A value that a client hits which goes with a run of the machine's stands in the run, as each hit of the machine's does.
pub fn every_hit_of_a_client_stands<C, S>()
    ensures { (o : Object C S) (l : Keyed C S (List ℕ) Value) → EveryHitOfAClientStands o l }
{}
