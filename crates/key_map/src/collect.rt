//! Maps from slots in any order: values at one key that stand side by side are added up at once,
//! and where keys fall, all are gathered in a row. They are methods of a trait, like those of convolutions.

ghost use Rattle.std.specs.Prelude.{◌≡◌, ℕ, ◌+◌, ◌<◌, ◌≤◌, ◌++◌, List, length, OnOk, IfOk, IfSome};
ghost use Rattle.std.specs.Bool.{OnTrue};
ghost use Rattle.std.specs.Option.{option_to_list};
ghost use Rattle.semiring_kit.specs.Semiring.{SemiringOn, IsGood};
ghost use Rattle.semiring_kit.specs.Total.{total_at_key};
ghost use Rattle.key_map.specs.declared.slot.Slot.{Slot};
ghost use Rattle.key_map.specs.Maps.{alone, SameValues};
ghost use Rattle.key_map.specs.Slots.{key_of, elem_of, value_in, FitsSlots};
ghost use Rattle.key_map.specs.Loose.{AreLoose, IsPut};

use crate::gather::Gather;
use crate::row::{empty_row, slots_of};
use crate::slot::Slot;
use crate::sparse_kit::SparseKit;
use monoid_kit::Monoid;
use semiring_kit::Semiring;
use std::alloc::{AllocError, Global};

pub(crate) trait Collect: Drop {
    type Item: Drop;

    type Map: Drop;

    ghost ring: { Self → SemiringOn Self.Item };

    ghost size: { Self → ℕ };

    ghost items: { Self → Self.Map → List (Slot Self.Item) };

    // Adds a value to the last slot where that has the key, and else a slot at the end.
    fn put(
        &self,
        alloc: Global,
        slots: &mut Vec<Slot<Self::Item>>,
        key: u32,
        elem: Self::Item,
    ) -> Result<(), AllocError>
        requires are_loose { AreLoose (ring self.now) (size self.now) slots.old.items }
        requires is_element { key < size self.now }
        requires is_good { IsGood (ring self.now) elem }
        ensures { let added = alone (ring self.now) key elem in
            OnOk result (IsPut (ring self.now) (size self.now) slots.old.items slots.new.items added) };

    // Whether the keys ascend.
    fn ascend(&self, slots: &[Slot<Self::Item>]) -> bool
        requires { AreLoose (ring self.now) (size self.now) slots.now }
        ensures { OnTrue result (FitsSlots (ring self.now) 0 (size self.now) slots.now) };

    // The map of the sums of the slots by key.
    fn collect(&self, alloc: Global, loose: Self::Map) -> Result<Self::Map, AllocError>
        requires { AreLoose (ring self.now) (size self.now) (items self.now loose) }
        ensures fits { IfOk result (λ map. FitsSlots (ring self.now) 0 (size self.now) (items self.now map)) }
        ensures value { let sums = total_at_key (ring self.now) key_of elem_of (items self.now loose) in
            IfOk result (λ map. SameValues (value_in (ring self.now).zero (items self.now map)) sums) }
        ensures kept { let most = length (items self.now loose) in
            IfOk result (λ map. length (items self.now map) ≤ most) };
}

impl<S: Semiring, M: Monoid> Collect for SparseKit<S, M> {
    type Item = S::Elem;

    type Map = Vec<Slot<S::Elem>>;

    ghost ring = { λ s. S.ring s.kit };

    ghost size = { λ s. M.size s.keys };

    ghost items = { λ s map. map.items };

    fn put(
        &self,
        alloc: Global,
        slots: &mut Vec<Slot<S::Elem>>,
        key: u32,
        elem: S::Elem,
    ) -> Result<(), AllocError> {
        let elem = match take_last(slots, key) {
            None => elem,
            Some(held) => self.kit.sum(alloc, held.elem, elem)?,
        };
        slots.push(Slot { key, elem })?;
        Ok(())
    }

    fn ascend(&self, slots: &[Slot<S::Elem>]) -> bool {
        let mut low = 0;
        for slot in slots {
            if u64::from(slot.key) < low {
                return false;
            }
            low = u64::from(slot.key) + 1;
        }
        true
    }

    fn collect(&self, alloc: Global, mut loose: Self::Map) -> Result<Self::Map, AllocError> {
        if self.ascend(&loose) {
            return Ok(loose);
        }
        let mut row = empty_row(alloc, self.keys.size())?;
        while let Some(slot) = loose.pop() {
            self.gather(alloc, &mut row, slot.key, slot.elem)?;
        }
        slots_of(alloc, row)
    }
}

// Takes the last slot out where that has the key.
fn take_last<E: Drop>(slots: &mut Vec<Slot<E>>, key: u32) -> Option<Slot<E>>
    ensures items { slots.old.items ≡ slots.new.items ++ option_to_list result }
    ensures at_key { IfSome result (λ slot. slot.key ≡ key) }
{
    match slots.last() {
        Some(last) if last.key == key => slots.pop(),
        _ => None,
    }
}
