//! Values that only contracts see, as they were.
ghost use Rattle.std.specs.Prelude.{◌≡◌};
ghost use Rattle.std.specs.Borrow.{ftrue};

use std::marker::{Model, PhantomData};

/// A value as it was. It has no bytes and owns nothing, so it may go to any thread.
#[derive(Drop)]
pub struct Noted<T> {
    marker: PhantomData<T>,
    pub ghost value: { T },
}

impl<T> Model for Noted<T> {
    ghost also_owns = { λ _. ftrue };
}

// It owns nothing. Types that have one are then known to be `Send` in their own crate, at every served value; with std's
// `Snapshot` whoever sends one has it proved anew at the value at hand.
unsafe impl<T> Send for Noted<T> {}

impl<T> Noted<T> {
    /// The value as it is.
    pub fn of(_value: &T) -> Noted<T>
        ensures { result.value ≡ _value.now }
    {
        Noted {
            marker: PhantomData,
        }
    }
}
