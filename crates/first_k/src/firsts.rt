//! Lists of candidates in order.
ghost use Rattle.std.specs.Prelude.{◌≡◌};

use std::collections::VecDeque;
use std::marker::Model;

/// The first of some candidates, in order, seen as their list.
#[derive(Debug, Drop)]
pub struct Firsts<T> {
    items: Vec<T>,
}

impl<T> Model for Firsts<T> {
    ghost use Rattle.std.specs.Prelude.{List};

    ghost Value = { List T };

    ghost view = { λ firsts. firsts.items.items };
}

impl<T> Firsts<T> {
    /// The list of these items, in this order. Takes no memory.
    pub fn of(items: Vec<T>) -> Firsts<T>
        ensures { result ≡ items.items }
    {
        Firsts { items }
    }

    /// The items. Takes no memory.
    pub fn items(&self) -> &[T]
        ensures { result.now ≡ self.now }
    {
        self.items.as_slice()
    }

    /// The items, in their order. Takes no memory.
    pub fn into_items(self) -> Vec<T>
        ensures { result.items ≡ self }
    {
        self.items
    }

    /// The items, to be moved out one by one. Takes no memory.
    pub fn into_queue(self) -> VecDeque<T>
        ensures { result.items ≡ self }
    {
        VecDeque::from(self.items)
    }
}
