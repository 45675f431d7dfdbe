//! What holds of every call's effect, and of every call that waits. The functions compute nothing: their contracts are the laws.

ghost use Rattle.std.specs.Prelude.{ℕ, List};
ghost use Rattle.grid_base.specs.declared.calls.MapCall.{MapCall as OnEntry};
ghost use Rattle.grid_base.specs.declared.calls.QueueCall.{QueueCall as OnQueue};
ghost use Rattle.grid_base.specs.declared.calls.Request.{Request as RequestOf};
ghost use Rattle.map_records.specs.declared.records.MapRecord.{MapRecord as RecordOf};
ghost use Rattle.object_store.specs.Partitions.{Partition};
ghost use Rattle.call_engine.specs.Calls.{Settings};
ghost use Rattle.call_engine.specs.EffectFacts.{EntryEffectIsChange, QueueEffectIsChange, RequestEffectIsChange};
ghost use Rattle.call_engine.specs.Readiness.{ReadyWhereGranted};

/// A call has an effect exactly where something changes: the record of its entry, the values of its queue, and so the
/// partition.
pub fn every_effect_is_a_change()
    ensures entry { (settings : Settings) (entry : RecordOf) (call : OnEntry) (now : ℕ) → EntryEffectIsChange settings entry call now }
    ensures queue { (settings : Settings) (items : List (List ℕ)) (call : OnQueue) → QueueEffectIsChange settings items call }
    ensures partition { (settings : Settings) (s : Partition) (request : RequestOf) (now : ℕ) → RequestEffectIsChange settings s request now }
{}

/// A call that waits is ready exactly where what it wishes is so: of the lock of its key, or of how many values its queue
/// has. So calls that wish the same are ready together.
pub fn every_wish_says_who_is_ready()
    ensures { (settings : Settings) (s : Partition) (request : RequestOf) (now : ℕ) → ReadyWhereGranted settings s request now }
{}
