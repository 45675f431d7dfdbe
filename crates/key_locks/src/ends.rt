ghost use Rattle.std.specs.Prelude.{◌≡◌};
ghost use Rattle.key_locks.specs.Ends.{end_of, has_ended as has_ended_at};

use grid_base::Moment;

/// The moment at which a time to live or a lease of `span` milliseconds ends that begins now; none where it
/// never ends, as one of 0 or less.
pub fn ends_at(now: Moment, span: i64) -> Option<Moment>
    ensures { result ≡ end_of now span }
{
    match span {
        ..=0 => None,
        1.. => now.checked_add(span.unsigned_abs()),
    }
}

/// Whether what ends at `end` has ended now. What has no end never has.
pub fn has_ended(end: Option<Moment>, now: Moment) -> bool
    ensures { result ≡ has_ended_at end now }
{
    end.is_some_and(|end| end <= now)
}
