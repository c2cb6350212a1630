//! The steps of sums: of two lists of slots by ascending key, the least slot is taken until none is left.
//! Like those of convolutions, they are methods of a trait.

ghost use Rattle.std.specs.Prelude.{◌≡◌, IfOk, IfSome};
ghost use Rattle.monoid_kit.specs.Items.{AllElements};
ghost use Rattle.semiring_kit.specs.Semiring.{SemiringOn, IsGood};
ghost use Rattle.key_map.specs.Slots.{elem_of};
ghost use Rattle.std.specs.Option.{option_copied};
ghost use Rattle.key_map.specs.Merging.{least_slot, after_key, source_of};

use crate::slot::Slot;
use crate::sparse_kit::SparseKit;
use monoid_kit::Monoid;
use semiring_kit::Semiring;
use std::alloc::{AllocError, Global};
use std::collections::VecDeque;

// Which list the next slot of a sum comes from.
enum Source {
    Left,
    Right,
    Both,
}

pub(crate) trait Merge: Drop {
    type Item: Drop;

    ghost ring: { Self → SemiringOn Self.Item };

    // The same slot once more.
    fn copy_slot(
        &self,
        alloc: Global,
        slot: &Slot<Self::Item>,
    ) -> Result<Slot<Self::Item>, AllocError>
        requires { IsGood (ring self.now) slot.now.elem }
        ensures { IfOk result (λ copy. copy ≡ slot.now) };

    // The slot with the least key of both, with the sum where both have that key.
    fn least_slot(
        &self,
        alloc: Global,
        a: &[Slot<Self::Item>],
        b: &[Slot<Self::Item>],
    ) -> Result<Option<Slot<Self::Item>>, AllocError>
        requires left_are_good { AllElements (IsGood (ring self.now)) elem_of a.now }
        requires right_are_good { AllElements (IsGood (ring self.now)) elem_of b.now }
        ensures { IfOk result (λ slot. slot ≡ least_slot (ring self.now) a.now b.now) };

    // The same, taken out of both.
    fn take_least(
        &self,
        alloc: Global,
        a: &mut VecDeque<Slot<Self::Item>>,
        b: &mut VecDeque<Slot<Self::Item>>,
    ) -> Result<Option<Slot<Self::Item>>, AllocError>
        requires left_are_good { AllElements (IsGood (ring self.now)) elem_of a.old.items }
        requires right_are_good { AllElements (IsGood (ring self.now)) elem_of b.old.items }
        ensures least { IfOk result (λ slot. slot ≡ least_slot (ring self.now) a.old.items b.old.items) }
        ensures left { IfOk result (λ slot.
            IfSome slot (λ slot. a.new.items ≡ after_key slot.key a.old.items)) }
        ensures right { IfOk result (λ slot.
            IfSome slot (λ slot. b.new.items ≡ after_key slot.key b.old.items)) };
}

impl<S: Semiring, M: Monoid> Merge for SparseKit<S, M> {
    type Item = S::Elem;

    ghost ring = { λ s. S.ring s.kit };

    fn copy_slot(&self, alloc: Global, slot: &Slot<S::Elem>) -> Result<Slot<S::Elem>, AllocError> {
        Ok(Slot {
            key: slot.key,
            elem: self.kit.copy(alloc, &slot.elem)?,
        })
    }

    fn least_slot(
        &self,
        alloc: Global,
        a: &[Slot<S::Elem>],
        b: &[Slot<S::Elem>],
    ) -> Result<Option<Slot<S::Elem>>, AllocError> {
        match (a, b) {
            ([], []) => Ok(None),
            ([x, ..], []) => Ok(Some(self.copy_slot(alloc, x)?)),
            ([], [y, ..]) => Ok(Some(self.copy_slot(alloc, y)?)),
            ([x, ..], [y, ..]) => {
                if x.key < y.key {
                    return Ok(Some(self.copy_slot(alloc, x)?));
                }
                if y.key < x.key {
                    return Ok(Some(self.copy_slot(alloc, y)?));
                }
                let elem = self.kit.add(alloc, &x.elem, &y.elem)?;
                Ok(Some(Slot { key: x.key, elem }))
            }
        }
    }

    fn take_least(
        &self,
        alloc: Global,
        a: &mut VecDeque<Slot<S::Elem>>,
        b: &mut VecDeque<Slot<S::Elem>>,
    ) -> Result<Option<Slot<S::Elem>>, AllocError> {
        match source_of(a.front(), b.front()) {
            Source::Left => Ok(a.pop_front()),
            Source::Right => Ok(b.pop_front()),
            Source::Both => match (a.pop_front(), b.pop_front()) {
                (Some(x), Some(y)) => {
                    let elem = self.kit.sum(alloc, x.elem, y.elem)?;
                    Ok(Some(Slot { key: x.key, elem }))
                }
                _ => Ok(None),
            },
        }
    }
}

// The list whose first slot is next: that with the lesser key, or both where they have one key.
fn source_of<E>(a: Option<&Slot<E>>, b: Option<&Slot<E>>) -> Source
    ensures { result ≡ source_of (option_copied a.entry) (option_copied b.entry) }
{
    match (a, b) {
        (None, Some(_)) => Source::Right,
        (Some(x), Some(y)) if y.key < x.key => Source::Right,
        (Some(x), Some(y)) if x.key == y.key => Source::Both,
        _ => Source::Left,
    }
}

// The slots without the first one, where that has the key.
pub(crate) fn after_key<E>(slots: &[Slot<E>], key: u32) -> &[Slot<E>]
    ensures { result.now ≡ after_key key slots.now }
{
    match slots {
        [first, rest @ ..] if first.key == key => rest,
        _ => slots,
    }
}
