//! What holds of every map entry. The functions compute nothing: their contracts are the laws.

ghost use Rattle.std.specs.Prelude.{ℕ, ℤ, List};
ghost use Rattle.grid_base.specs.declared.names.Owner.{Owner as OwnerOf};
ghost use Rattle.entry_processors.specs.Processors.{ProcessorForm};
ghost use Rattle.key_locks.specs.declared.locks.Lock.{Lock as LockOf};
ghost use Rattle.grid_base.specs.declared.calls.MapCall.{MapCall as Call};
ghost use Rattle.map_records.specs.declared.records.MapRecord.{MapRecord as RecordOf};
ghost use Rattle.map_records.specs.EntryFacts.{RefusalChangesNothing, ExpiredIsAbsent, LivesUntilItsEnd, OwnerAloneWrites, UseBeginsTheSpanAnew, OthersLeaveTheSpan, StaysWhole, LookChangesNothing};

/// A call that is answered KeyLocked or UnknownProcessor leaves the entry as it was, without what has ended.
pub fn every_refusal_changes_nothing()
    ensures { (forms : List ProcessorForm) (entry : RecordOf) (call : Call) (now : ℕ) → RefusalChangesNothing forms entry call now }
{}

/// A value that has expired is never answered, and plays no other part.
pub fn every_expired_value_is_absent()
    ensures { (forms : List ProcessorForm) (entry : RecordOf) (call : Call) (now : ℕ) → ExpiredIsAbsent forms entry call now }
{}

/// A value that is put is answered exactly until its time to live has ended.
pub fn every_value_lives_until_its_end()
    ensures { (forms : List ProcessorForm) (entry : RecordOf) (name key : List ℕ) (owner reader : OwnerOf) (value : List ℕ) (ttl : ℤ) (now later : ℕ) →
        LivesUntilItsEnd forms entry name key owner reader value ttl now later }
{}

/// While a key is locked, its owner alone changes what it holds.
pub fn every_owner_writes_alone()
    ensures { (forms : List ProcessorForm) (entry : RecordOf) (call : Call) (now : ℕ) (lock : LockOf) → OwnerAloneWrites forms entry call now lock }
{}

/// Each use of an entry begins its idle span anew, and a call on the lock is no use.
pub fn every_use_begins_the_span_anew()
    ensures used { (forms : List ProcessorForm) (entry : RecordOf) (call : Call) (now : ℕ) → UseBeginsTheSpanAnew forms entry call now }
    ensures others { (forms : List ProcessorForm) (entry : RecordOf) (call : Call) (now : ℕ) → OthersLeaveTheSpan forms entry call now }
{}

/// Where there is no value, there is no expiry and no idle span.
pub fn every_entry_stays_whole()
    ensures { (forms : List ProcessorForm) (entry : RecordOf) (call : Call) (now : ℕ) → StaysWhole forms entry call now }
{}

/// A look at an entry in which nothing has ended, and which has no idle span, leaves it as it is.
pub fn every_look_changes_nothing()
    ensures { (forms : List ProcessorForm) (entry : RecordOf) (call : Call) (now : ℕ) → LookChangesNothing forms entry call now }
{}
