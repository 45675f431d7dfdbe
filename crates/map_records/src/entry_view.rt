ghost use Rattle.std.specs.Prelude.{◌≡◌, IfOk, is_some, if◌then◌else◌};
ghost use Rattle.std.specs.Option.{option_copied};
ghost use Rattle.key_locks.specs.Locks.{may_lock, may_write as may_write_of, is_held_by, after_try_lock, after_unlock};
ghost use Rattle.map_records.specs.MapEntries.{cleaned as cleaned_at, without_value as without_value_of, with_lock as with_lock_of, with_value as with_value_of, with_value_if_absent as with_value_if_absent_of, replaced as replaced_of, is_value as is_value_of, replaced_if_same as replaced_if_same_of, removed_if_same as removed_if_same_of, with_outcome as with_outcome_of, touched as touched_at};

use crate::records::{Idle, MapRecord, is_expired, used};
use grid_base::{Answer, Bytes, Memory, Moment, Owner};
use key_locks::{Lock, cleaned, may_write, try_lock, unlock};
use std::alloc::Global;
use std::marker::Model;

/// What stands of an entry at a moment, with its value by reference. To contracts it is the record that it makes.
#[derive(Drop)]
pub(crate) struct EntryView<'a> {
    value: Option<&'a Bytes>,
    expires: Option<Moment>,
    idle: Option<Idle>,
    lock: Option<Lock>,
}

impl<'a> Model for EntryView<'a> {
    ghost use Rattle.std.specs.Option.{option_copied};
    ghost use Rattle.map_records.specs.declared.records.MapRecord.{MapRecord as RecordOf};

    ghost Value = { RecordOf };

    ghost view = { λ s. record {
      value = option_copied s.value;
      expires = s.expires;
      idle = s.idle;
      lock = s.lock;
    } };
}

impl<'a> EntryView<'a> {
    /// What of the record hasn't ended.
    pub fn of(kept: &'a MapRecord, now: Moment) -> EntryView<'a>
        ensures { result ≡ cleaned_at kept.now now }
    {
        let lock = cleaned(kept.lock, now);
        if is_expired(kept, now) {
            EntryView {
                value: None,
                expires: None,
                idle: None,
                lock,
            }
        } else {
            EntryView {
                value: kept.value.as_ref(),
                expires: kept.expires,
                idle: kept.idle,
                lock,
            }
        }
    }

    /// The record, at the cost of its value.
    pub fn copied(&self, alloc: Global) -> Result<MapRecord, Memory>
        ensures { IfOk result (λ copy. copy ≡ self.now) }
    {
        Ok(MapRecord {
            value: self.value_copied(alloc)?,
            expires: self.expires,
            idle: self.idle,
            lock: self.lock,
        })
    }

    pub fn value(&self) -> Option<&'a Bytes>
        ensures { option_copied result ≡ self.now.value }
    {
        self.value
    }

    /// The value, at the cost of its length.
    pub fn value_copied(&self, alloc: Global) -> Result<Option<Bytes>, Memory>
        ensures { IfOk result (λ copy. copy ≡ self.now.value) }
    {
        match self.value {
            None => Ok(None),
            Some(value) => Ok(Some(value.copied(alloc)?)),
        }
    }

    pub fn has_value(&self) -> bool
        ensures { result ≡ is_some self.now.value }
    {
        self.value.is_some()
    }

    /// Whether there is a value that equals this one.
    pub fn is_value(&self, test: &Bytes) -> bool
        ensures { result ≡ is_value_of self.now.value test.now }
    {
        match self.value {
            None => false,
            Some(value) => value.as_slice() == test.as_slice(),
        }
    }

    pub fn is_locked(&self) -> bool
        ensures { result ≡ is_some self.now.lock }
    {
        self.lock.is_some()
    }

    /// Whether the lock lets this owner write.
    pub fn may_write(&self, owner: &Owner) -> bool
        ensures { result ≡ may_write_of self.now.lock owner.now }
    {
        may_write(&self.lock, owner)
    }

    fn unchanged(&self) -> EntryView<'a>
        ensures { result ≡ self.now }
    {
        self.with_lock(self.lock)
    }

    pub fn without_value(&self) -> EntryView<'a>
        ensures { result ≡ without_value_of self.now }
    {
        EntryView {
            value: None,
            expires: None,
            idle: None,
            lock: self.lock,
        }
    }

    pub fn with_lock(&self, lock: Option<Lock>) -> EntryView<'a>
        ensures { result ≡ with_lock_of self.now lock }
    {
        EntryView {
            value: self.value,
            expires: self.expires,
            idle: self.idle,
            lock,
        }
    }

    pub fn with_value(
        &self,
        value: &'a Bytes,
        expires: Option<Moment>,
        idle: Option<Idle>,
    ) -> EntryView<'a>
        ensures { result ≡ with_value_of self.now value.now expires idle }
    {
        EntryView {
            value: Some(value),
            expires,
            idle,
            lock: self.lock,
        }
    }

    pub fn with_value_if_absent(&self, value: &'a Bytes, expires: Option<Moment>) -> EntryView<'a>
        ensures { result ≡ with_value_if_absent_of self.now value.now expires }
    {
        if self.has_value() {
            self.unchanged()
        } else {
            self.with_value(value, expires, None)
        }
    }

    /// A value in the place of another, if there is one.
    pub fn replaced(&self, value: &'a Bytes) -> EntryView<'a>
        ensures { result ≡ replaced_of self.now value.now }
    {
        EntryView {
            value: self.value.map(|_| value),
            expires: self.expires,
            idle: self.idle,
            lock: self.lock,
        }
    }

    pub fn replaced_if_same(&self, test: &Bytes, value: &'a Bytes) -> EntryView<'a>
        ensures { result ≡ replaced_if_same_of self.now test.now value.now }
    {
        if self.is_value(test) {
            self.replaced(value)
        } else {
            self.unchanged()
        }
    }

    pub fn removed_if_same(&self, test: &Bytes) -> EntryView<'a>
        ensures { result ≡ removed_if_same_of self.now test.now }
    {
        if self.is_value(test) {
            self.without_value()
        } else {
            self.unchanged()
        }
    }

    /// A use of the entry.
    pub fn touched(&self, now: Moment) -> EntryView<'a>
        ensures { result ≡ touched_at self.now now }
    {
        EntryView {
            value: self.value,
            expires: self.expires,
            idle: used(self.idle, now),
            lock: self.lock,
        }
    }

    /// Locks the key for the owner, if the lock lets it, and answers whether it did.
    pub fn locked(&self, owner: &Owner, until: Option<Moment>) -> (Answer, EntryView<'a>)
        ensures answer { result.0 ≡ Answer.Flag (may_lock self.now.lock owner.now) }
        ensures after { result.1 ≡ with_lock_of self.now (after_try_lock self.now.lock owner.now until) }
    {
        let mut lock = self.lock;
        let taken = try_lock(&mut lock, owner, until);
        (Answer::Flag(taken), self.with_lock(lock))
    }

    /// Releases the owner's lock once, or answers that it isn't the owner's.
    pub fn unlocked(&self, owner: &Owner) -> (Answer, EntryView<'a>)
        ensures answer { result.0 ≡ (if is_held_by self.now.lock owner.now then Answer.Void else Answer.NotOwner) }
        ensures after { result.1 ≡ with_lock_of self.now (after_unlock self.now.lock owner.now) }
    {
        let mut lock = self.lock;
        let answer = match unlock(&mut lock, owner) {
            Ok(()) => Answer::Void,
            Err(_) => Answer::NotOwner,
        };
        (answer, self.with_lock(lock))
    }

    /// The record with what a processor left as its value, which is a use. Takes no memory.
    pub fn with_outcome(&self, value: Option<Bytes>, now: Moment) -> MapRecord
        ensures { result ≡ touched_at (with_outcome_of self.now value) now }
    {
        let stays = self.has_value() && value.is_some();
        MapRecord {
            value,
            expires: self.expires.filter(|_| stays),
            idle: used(self.idle.filter(|_| stays), now),
            lock: self.lock,
        }
    }
}
