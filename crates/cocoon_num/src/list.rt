//! Lists, seen by contracts as the items that they hold.
ghost use Rattle.std.specs.Prelude.{◌≡◌};

use std::marker::Model;

/// Items in order.
#[derive(Drop)]
pub struct List<T> {
    held: Vec<T>,
}

impl<T> Model for List<T> {
    ghost use Rattle.std.specs.Prelude.{List as Items};

    ghost Value = { Items T };

    ghost view = { λ list. list.held.items };
}

impl<T> List<T> {
    /// The list of these items.
    pub fn from(items: Vec<T>) -> List<T>
        ensures { result ≡ items.items }
    {
        List { held: items }
    }

    /// The items, in order.
    pub fn items(&self) -> &[T]
        ensures { result.now ≡ self.now }
    {
        self.held.as_slice()
    }
}
