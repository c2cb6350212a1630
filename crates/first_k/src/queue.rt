//! Candidates that are taken one by one, the first one first.
ghost use Rattle.std.specs.Prelude.{◌≡◌, ◌<◌, ◌∷◌, List, length, slice_get, IfOk};
ghost use Rattle.std.specs.Option.{option_copied};

use crate::ranked::Ranked;
use std::alloc::{AllocError, Global};
use std::collections::VecDeque;

/// Candidates of which the first one can be taken.
pub(crate) trait Queue: Drop {
    type Item: Drop;

    ghost items: { Self → List Self.Item };

    /// How many there are.
    fn count(&self) -> usize
        ensures { result ≡ length (items self.now) };

    /// The first one.
    fn peek(&self) -> Option<&Self::Item>
        ensures { option_copied result ≡ slice_get (items self.now) 0 };

    /// Takes the first one.
    fn take(&mut self, alloc: Global) -> Result<Self::Item, AllocError>
        requires { 0 < length (items self.old) }
        ensures { IfOk result (λ item. items self.old ≡ item ∷ items self.new) };
}

/// A list of candidates that stay where they are: what is taken is copied.
#[derive(Drop)]
pub(crate) struct Lent<'a, R: Ranked> {
    pub(crate) ranked: &'a R,
    pub(crate) items: &'a [R::Item],
}

impl<'a, R: Ranked> Queue for Lent<'a, R> {
    type Item = R::Item;

    ghost items = { λ lent. lent.items.now };

    fn count(&self) -> usize {
        self.items.len()
    }

    fn peek(&self) -> Option<&R::Item> {
        self.items.first()
    }

    fn take(&mut self, alloc: Global) -> Result<R::Item, AllocError> {
        let items: &[R::Item] = self.items;
        let first = self.ranked.copy(alloc, &items[0])?;
        self.items = &items[1..];
        Ok(first)
    }
}

// What is taken is moved.
impl<T: Drop> Queue for VecDeque<T> {
    type Item = T;

    ghost items = { λ deque. deque.items };

    fn count(&self) -> usize {
        self.len()
    }

    fn peek(&self) -> Option<&T> {
        self.front()
    }

    fn take(&mut self, _alloc: Global) -> Result<T, AllocError> {
        Ok(self.pop_front().unwrap())
    }
}
