ghost use Rattle.std.specs.Prelude.{◌≡◌, ◌↔◌, true, false, IsOk, IfErr, OnErr};
ghost use Rattle.key_locks.specs.Locks.{may_write as may_write_of, may_lock, after_try_lock, after_unlock, is_held_by, holder_of, cleaned as cleaned_at};

use crate::ends::has_ended;
use grid_base::{Moment, Owner};
use thiserror::Error;

/// How often one owner may take a lock without releasing it.
const MOST_TIMES: u32 = 2_147_483_647;

/// The lock of one key.
#[derive(Clone, Copy, Debug, PartialEq, Eq)]
pub struct Lock {
    pub owner: Owner,
    /// How many times the owner took it and has yet to release it.
    pub count: u32,
    /// The moment at which its lease ends, if it does.
    pub until: Option<Moment>,
}

/// Someone else has the lock, or nobody.
#[derive(Clone, Copy, Debug, PartialEq, Eq, Error)]
#[error("the lock isn't the caller's")]
pub struct NotOwner {
    /// Who has the lock.
    pub owner: Option<Owner>,
}

/// Whether a key with this lock may be written by the owner.
pub fn may_write(lock: &Option<Lock>, owner: &Owner) -> bool
    ensures { result ≡ may_write_of lock.now owner.now }
{
    match lock {
        None => true,
        Some(held) => held.owner == *owner,
    }
}

/// Takes the lock, or takes it once more. A refusal, where another has it or it was taken too often, changes nothing.
pub fn try_lock(lock: &mut Option<Lock>, owner: &Owner, until: Option<Moment>) -> bool
    ensures answer { result ≡ may_lock lock.old owner.now }
    ensures after { lock.new ≡ after_try_lock lock.old owner.now until }
    ensures refused { result ≡ false → lock.new ≡ lock.old }
{
    match lock {
        None => {
            *lock = Some(Lock {
                owner: *owner,
                count: 1,
                until,
            });
            true
        }
        Some(held) if held.owner == *owner && held.count < MOST_TIMES => {
            held.count += 1;
            held.until = until;
            true
        }
        Some(_) => false,
    }
}

/// Releases the lock once. An error says who has it, and changes nothing.
pub fn unlock(lock: &mut Option<Lock>, owner: &Owner) -> Result<(), NotOwner>
    ensures ok { IsOk result ↔ (is_held_by lock.old owner.now ≡ true) }
    ensures after { lock.new ≡ after_unlock lock.old owner.now }
    ensures whose { IfErr result (λ refused. refused.owner ≡ holder_of lock.old) }
    ensures err { OnErr result (lock.new ≡ lock.old) }
{
    match lock {
        Some(held) if held.owner == *owner => {
            if held.count <= 1 {
                *lock = None;
            } else {
                held.count -= 1;
            }
            Ok(())
        }
        _ => Err(NotOwner {
            owner: lock.map(|held| held.owner),
        }),
    }
}

/// The lock without one whose lease has ended.
pub fn cleaned(lock: Option<Lock>, now: Moment) -> Option<Lock>
    ensures { result ≡ cleaned_at lock now }
{
    lock.filter(|held| !has_ended(held.until, now))
}
