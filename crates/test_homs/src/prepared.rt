//! A test of any kind with its letters and accepted elements in lists. specs/Prepared.antt has what they are.

ghost use Rattle.std.specs.Prelude.{◌≡◌, ◌<◌, length, false, slice_index_or};

use monoid_product::Component;

/// The number of a test, in the order of the lines and from 0, its monoid, its letters by row and then by label, and
/// for each element whether it is accepted.
#[derive(Drop)]
pub(crate) struct Prepared {
    pub number: usize,
    pub component: Component,
    pub letters: Vec<u32>,
    pub accept: Vec<bool>,
}

impl Prepared {
    /// The letter at a place.
    pub(crate) fn letter(&self, place: usize) -> u32
        requires in_range { place < length self.now.letters.items }
        ensures { result ≡ slice_index_or self.now.letters.items place 0 }
    {
        self.letters[place]
    }

    /// Whether an element is accepted; what has no flag is not.
    pub(crate) fn accepts(&self, element: u32) -> bool
        ensures { result ≡ slice_index_or self.now.accept.items element false }
    {
        self.accept.get(element as usize).copied().unwrap_or(false)
    }
}
