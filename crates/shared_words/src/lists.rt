//! A list that a contract sees as a list.
use std::marker::Model;

/// A list, kept in a `Vec`. A contract sees it as the list of its items, and so compares lists by
/// their items.
#[derive(Debug, Drop)]
pub struct ItemList<T> {
    values: Vec<T>,
}

impl<T> Model for ItemList<T> {
    ghost use Rattle.std.specs.Prelude.{List};

    ghost Value = { List T };

    ghost view = { λ list. list.values.items };
}

impl<T> ItemList<T> {
    ghost use Rattle.std.specs.Prelude.{◌≡◌};

    /// The list of the items of this `Vec`. No memory is taken.
    pub fn from_vec(values: Vec<T>) -> ItemList<T>
        ensures { result ≡ values.items }
    {
        ItemList { values }
    }

    /// The `Vec`, given back. No memory is taken.
    pub fn into_vec(self) -> Vec<T>
        ensures { result.items ≡ self }
    {
        self.values
    }

    /// The items, in order.
    pub fn as_slice(&self) -> &[T]
        ensures { result.now ≡ self.now }
    {
        self.values.as_slice()
    }
}
