//! What holds of every lock. The functions compute nothing: their contracts are the laws.

ghost use Rattle.std.specs.Prelude.{ℕ, List, Option};
ghost use Rattle.grid_base.specs.declared.names.Owner.{Owner as OwnerOf};
ghost use Rattle.key_locks.specs.declared.locks.Lock.{Lock as LockOf};
ghost use Rattle.key_locks.specs.LockCalls.{LockCall, FreeAfterAsMany, HeldAfterFewer, StaysUnderOthers, HasOneWriter, StaysCounted};

/// A lock that its owner took so many times is free after as many unlocks, and not before.
pub fn every_lock_is_released_as_often_as_taken()
    ensures free { (owner : OwnerOf) (ends : List (Option ℕ)) → FreeAfterAsMany owner ends }
    ensures held { (owner : OwnerOf) (ends : List (Option ℕ)) (unlocks : ℕ) → HeldAfterFewer owner ends unlocks }
{}

/// Whatever others call, a lock stays as it is.
pub fn every_lock_stays_under_others()
    ensures { (lock : LockOf) (calls : List LockCall) → StaysUnderOthers lock calls }
{}

/// A locked key has one writer.
pub fn every_lock_has_one_writer()
    ensures { (lock : LockOf) → HasOneWriter lock }
{}

/// A lock's count is from 1 to 2,147,483,647, whoever calls what.
pub fn every_lock_stays_counted()
    ensures { (calls : List LockCall) → StaysCounted calls }
{}
