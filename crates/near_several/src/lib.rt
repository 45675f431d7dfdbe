//! A near client on several connections: what its hits are worth, whichever connection a get goes on, and whichever tells it
//! of a change.
//!
//! `near_protocol` has the client on one connection, of which more holds. `specs/Several` has it on any number, each to a
//! member: what it sends arrives when it does, or never, and it is handed what is said on each connection when it reads on
//! there. `Claims` has what holds of each value that it hits. The functions compute nothing: their contracts are the laws.
#![tactic(auto)]

ghost use Rattle.std.specs.Prelude.{List, ℕ};
ghost use Rattle.grid_base.specs.Objects.{Object};
ghost use Rattle.near_protocol.specs.Keyed.{Keyed};
ghost use Rattle.grid_client.specs.Nears.{Value};
ghost use Rattle.near_several.specs.Claims.{EveryHitIsAfter, EveryHitOfAClientIsAfter};

/// Whatever happens in the grid, and however late the client reads on any of its connections: where a look-up hits a value,
/// that is the reply of a get of the client which was answered and stands in the trail of the key's partition, after each
/// write that an invalidation of the key named which the client has handled on any connection.
///
/// That it also stands after each answered write, once the client has read on, is proved of one connection alone
/// (`every_hit_stands` of `near_protocol`).
pub fn every_hit_is_after<C, S, K, V>()
    ensures { (o : Object C S) (l : Keyed C S K V) → EveryHitIsAfter o l }
{}

/// The same of a client of `grid_client`, where it goes with such a run. That each of its calls and messages does to what it
/// keeps what the machine's does is said by that crate's laws; that what it is sent is what the machine hears is supposed.
pub fn every_hit_of_a_client_is_after<C, S>()
    ensures { (o : Object C S) (l : Keyed C S (List ℕ) Value) → EveryHitOfAClientIsAfter o l }
{}
