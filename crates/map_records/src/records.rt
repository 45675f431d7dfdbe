ghost use Rattle.std.specs.Prelude.{◌≡◌};
ghost use Rattle.map_records.specs.Idling.{idle_from, idle_of, has_idled as has_idled_at, used as used_at};
ghost use Rattle.map_records.specs.MapEntries.{is_expired as is_expired_at};

use grid_base::{Bytes, Moment};
use key_locks::{Lock, has_ended};

/// How long a value may lie unused.
#[derive(Clone, Copy, Debug, PartialEq, Eq)]
pub struct Idle {
    /// In milliseconds.
    pub span: u64,
    /// The moment at which it goes if it isn't used before.
    pub end: Moment,
}

/// What is kept of one entry of a map. A value that goes takes its expiry and idle span along.
#[derive(Debug, PartialEq, Eq, Drop)]
pub struct MapRecord {
    pub value: Option<Bytes>,
    /// The moment at which the value expires, if it does.
    pub expires: Option<Moment>,
    pub idle: Option<Idle>,
    pub lock: Option<Lock>,
}

/// Whether the value has expired: whether its expiry moment or its idle end is at most now. Takes no memory.
pub fn is_expired(kept: &MapRecord, now: Moment) -> bool
    ensures { result ≡ is_expired_at kept.now now }
{
    has_ended(kept.expires, now) || has_idled(kept.idle, now)
}

fn has_idled(idle: Option<Idle>, now: Moment) -> bool
    ensures { result ≡ has_idled_at idle now }
{
    idle.is_some_and(|idle| has_ended(Some(idle.end), now))
}

/// A span that begins now.
fn begun(now: Moment, span: u64) -> Idle
    ensures { result ≡ idle_from now span }
{
    Idle {
        span,
        end: now.saturating_add(span),
    }
}

/// The idle span of a value that is set now; one of 0 or less is none.
pub(crate) fn max_idle(now: Moment, span: i64) -> Option<Idle>
    ensures { result ≡ idle_of now span }
{
    match span {
        ..=0 => None,
        1.. => Some(begun(now, span.unsigned_abs())),
    }
}

/// The idle span after a use.
pub(crate) fn used(idle: Option<Idle>, now: Moment) -> Option<Idle>
    ensures { result ≡ used_at idle now }
{
    idle.map(|kept| begun(now, kept.span))
}
