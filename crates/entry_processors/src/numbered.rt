ghost use Rattle.std.specs.Prelude.{◌≡◌, List};
ghost use Rattle.std.specs.Option.{option_copied};
ghost use Rattle.entry_processors.specs.Places.{place_of, item_at};

use std::marker::Model;

/// A list whose items are numbered from 1.
#[derive(Drop)]
pub struct Numbered<T> {
    items: Vec<T>,
}

impl<T> Model for Numbered<T> {
    ghost Value = { List T };

    ghost view = { λ list. list.items.items };
}

impl<T> Numbered<T> {
    /// Gives number i + 1 to place i of the list. Takes no memory.
    pub fn new(list: Vec<T>) -> Numbered<T>
        ensures { result ≡ list.items }
    {
        Numbered { items: list }
    }

    /// The item of a number; none where the number isn't from 1 to the list's length. Takes no memory.
    pub fn get(&self, number: i32) -> Option<&T>
        ensures { option_copied result ≡ item_at self.now number }
    {
        let place = place_of(number)?;
        self.items.get(place)
    }
}

/// The place of a number.
fn place_of(number: i32) -> Option<usize>
    ensures { result ≡ place_of number }
{
    usize::try_from(number).ok()?.checked_sub(1)
}
