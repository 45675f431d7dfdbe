//! The near clients of scripts: what a value is worth that a line `nearget` hits.
//!
//! The functions compute nothing: their contracts are what holds of every script.
#![tactic(auto)]

ghost use Rattle.near_script_laws.specs.HitsStand.{EveryHitOfAScriptStands};

/// Whatever the lines of a script, and whichever of its calls find no memory: where a near client hits a value, that is the
/// reply of a get of that client that stands in the key's history, after each write that an invalidation of the key named which
/// the client has processed. Where nothing of the key is unread, it also stands after each answered write, and each reset, of a
/// version up to the one that the client's member knows.
///
/// This is of a run that isn't given up, and of a client that was sent no more messages than it numbers, 4,294,967,295.
pub fn every_hit_of_a_script_stands()
    ensures { EveryHitOfAScriptStands }
{}
