//! Lists that never change.

ghost use Rattle.std.specs.Prelude.{◌≡◌, slice_index};

use std::marker::Model;

/// A list that never changes. A contract sees the list itself, so two rows with the same items are equal.
pub struct Row<T> {
    items: Vec<T>,
}

// By hand, so that it is proved here alone, and not in each crate that owns one.
impl<T: Drop> Drop for Row<T> {
    fn drop(self) {
        let Self { items: _ } = self;
    }
}

impl<T> Model for Row<T> {
    ghost use Rattle.std.specs.Prelude.{List};

    ghost Value = { List T };

    ghost view = { λ r. r.items.items };
}

impl<T> Row<T> {
    /// The row of a vector's items.
    pub fn new(items: Vec<T>) -> Row<T>
        ensures { result ≡ items.items }
    {
        Row { items }
    }

    /// The vector of its items.
    pub fn into_items(self) -> Vec<T>
        ensures { result.items ≡ self }
    {
        let Self { items } = self;
        items
    }

    /// The items, in order.
    pub fn as_slice(&self) -> &[T]
        ensures { result.now ≡ self.now }
    {
        self.items.as_slice()
    }
}

/// The number at a place; 0 past the end.
pub fn number_at(numbers: &[usize], place: usize) -> usize
    ensures { result ≡ slice_index numbers.now place }
{
    match numbers.get(place) {
        Some(number) => *number,
        None => 0,
    }
}
