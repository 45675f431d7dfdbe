//! What holds of every spelling: each function here has an empty body, and its contract is the law.

ghost use Rattle.std.specs.Prelude.{◌≡◌, ℕ, List, Ok};
ghost use Rattle.wire_parts.specs.Parts.{AreBytes};
ghost use Rattle.object_store.specs.declared.effects.Effect.{Effect as EffectOf};
ghost use Rattle.object_store.specs.Partitions.{Partition};
ghost use Rattle.object_store.specs.Spelling.{effect_bytes, snapshot_bytes, IsSpelledEffect, IsSpelledPartition};
ghost use Rattle.object_store.specs.Reading.{effect_in, snapshot_in};

/// What is spelled is read, and what is read is spelled so: no two effects have one spelling, and no effect has two.
pub fn effects_are_read_as_spelled()
    ensures again { (e : EffectOf) → IsSpelledEffect e → effect_in (effect_bytes e) ≡ Ok e }
    ensures found { (bytes : List ℕ) (e : EffectOf) → AreBytes bytes → effect_in bytes ≡ Ok e
        → IsSpelledEffect e × (bytes ≡ effect_bytes e) }
{}

/// The same of partitions and their snapshots.
pub fn snapshots_are_read_as_spelled()
    ensures again { (s : Partition) → IsSpelledPartition s → snapshot_in (snapshot_bytes s) ≡ Ok s }
    ensures found { (bytes : List ℕ) (s : Partition) → AreBytes bytes → snapshot_in bytes ≡ Ok s
        → IsSpelledPartition s × (bytes ≡ snapshot_bytes s) }
{}
