//! A near cache over the partition protocol, as a pure machine: what a client may still hit, and which get answers for it.
//!
//! `specs/` has what is asked of keys and calls (`Keyed`), what the client keeps and what each message does to it
//! (`Client`), and a grid with a client at one of its members, on one connection (`Near`): what is said on the connection
//! at each event, and in which order the client comes to read it. `Claims` has what holds of each value that is hit.
//! The functions here and in `laws` compute nothing. Their contracts are what holds of every run, for any object, any keys
//! and any values.
#![tactic(auto)]

pub mod laws;

ghost use Rattle.grid_base.specs.Objects.{Object};
ghost use Rattle.near_protocol.specs.Keyed.{Keyed};
ghost use Rattle.near_protocol.specs.Claims.{EveryHitStands};

/// Whatever happens in the grid, and however late the client reads: where a look-up hits a value, that is the reply of a
/// get of the client which was answered and stands in the trail of the key's partition. The get stands after each write
/// that an invalidation of the key named which the client has handled. Where nothing of the key is unread, it also stands
/// after each answered write, and each reset, of a version up to the one that the client's member knows.
///
/// A client of a member that has crashed, or that hasn't taken a newer row yet, may hit a value older than the newest.
pub fn every_hit_stands<C, S, K, V>()
    ensures { (o : Object C S) (l : Keyed C S K V) → EveryHitStands o l }
{}
