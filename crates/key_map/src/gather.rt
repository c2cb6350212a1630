//! The steps of convolutions: products are added up in a row with a place for each key.
//! They are methods of a trait, since a method of an impl can't call a function
//! whose bound has an associated type that is `Send`.

ghost use Rattle.std.specs.Prelude.{◌≡◌, ℕ, ◌+◌, ◌<◌, ◌≤◌, length, OnOk, IfOk};
ghost use Rattle.monoid_kit.specs.Items.{AllElements};
ghost use Rattle.semiring_kit.specs.Semiring.{SemiringOn, IsGood, weight_bound};
ghost use Rattle.key_map.specs.Maps.{alone};
ghost use Rattle.key_map.specs.Slots.{key_of, elem_of, product_of, products_at};
ghost use Rattle.key_map.specs.Rows.{IsGoodRow, IsGathered, slots_from};

use crate::slot::Slot;
use crate::sparse_kit::SparseKit;
use monoid_kit::Monoid;
use semiring_kit::Semiring;
use std::alloc::{AllocError, Global};
use std::sync::ledger::Ledger;
use step_count::Steps;

pub(crate) trait Gather: Drop {
    type Item: Drop;

    ghost ring: { Self → SemiringOn Self.Item };

    ghost size: { Self → ℕ };

    ghost times: { Self → ℕ → ℕ → ℕ };

    // Adds the value to what the row holds at the key.
    fn gather(
        &self,
        alloc: Global,
        row: &mut Vec<Option<Self::Item>>,
        key: u32,
        elem: Self::Item,
    ) -> Result<(), AllocError>
        requires key_is_in_row { key < length row.old.items }
        requires row_is_good { IsGoodRow (ring self.now) row.old.items }
        requires elem_is_good { IsGood (ring self.now) elem }
        ensures gathered { OnOk result
            (IsGathered (ring self.now) row.old.items row.new.items (alone (ring self.now) key elem)) }
        ensures few { let before = length (slots_from 0 row.old.items) in
            OnOk result (length (slots_from 0 row.new.items) ≤ before + 1) };

    // The product of two slots, in this order. It is one step.
    fn product<L: Ledger>(
        &self,
        alloc: Global,
        key: u32,
        elem: &Self::Item,
        right: &Slot<Self::Item>,
        steps: &mut Steps<L>,
    ) -> Result<Slot<Self::Item>, AllocError>
        requires left_is_element { key < size self.now }
        requires right_is_element { right.now.key < size self.now }
        requires left_is_good { IsGood (ring self.now) elem.now }
        requires right_is_good { IsGood (ring self.now) right.now.elem }
        requires reaches_add_up { let reach = (ring self.now).reach in
            reach elem.now + reach right.now.elem ≤ weight_bound }
        ensures product { let product = product_of (ring self.now) (times self.now) key elem.now right.now in
            IfOk result (λ slot. slot ≡ product) }
        ensures cost { steps.new ≡ steps.old + 1 };

    // Adds the products of the left slot with each of the right slots, in this order.
    // Each is one step.
    fn gather_products<L: Ledger>(
        &self,
        alloc: Global,
        row: &mut Vec<Option<Self::Item>>,
        left: &Slot<Self::Item>,
        right: &[Slot<Self::Item>],
        steps: &mut Steps<L>,
    ) -> Result<(), AllocError>
        requires row_has_size { length row.old.items ≡ size self.now }
        requires row_is_good { IsGoodRow (ring self.now) row.old.items }
        requires left_is_element { left.now.key < size self.now }
        requires right_are_elements { AllElements (λ key. key < size self.now) key_of right.now }
        requires left_is_good { IsGood (ring self.now) left.now.elem }
        requires right_are_good { AllElements (IsGood (ring self.now)) elem_of right.now }
        requires reaches_add_up { let reach = (ring self.now).reach in
            AllElements (λ elem. reach left.now.elem + reach elem ≤ weight_bound) elem_of right.now }
        ensures gathered { let added = products_at (ring self.now) (times self.now) left.now right.now in
            OnOk result (IsGathered (ring self.now) row.old.items row.new.items added) }
        ensures few { let most = length (slots_from 0 row.old.items) + length right.now in
            OnOk result (length (slots_from 0 row.new.items) ≤ most) }
        ensures cost { steps.new ≤ steps.old + length right.now };
}

impl<S: Semiring, M: Monoid> Gather for SparseKit<S, M> {
    type Item = S::Elem;

    ghost ring = { λ s. S.ring s.kit };

    ghost size = { λ s. M.size s.keys };

    ghost times = { λ s. M.mul s.keys };

    fn gather(
        &self,
        alloc: Global,
        row: &mut Vec<Option<S::Elem>>,
        key: u32,
        elem: S::Elem,
    ) -> Result<(), AllocError> {
        let place = key as usize;
        let sum = match row[place].take() {
            None => elem,
            Some(held) => self.kit.sum(alloc, held, elem)?,
        };
        row[place] = Some(sum);
        Ok(())
    }

    fn product<L: Ledger>(
        &self,
        alloc: Global,
        key: u32,
        elem: &S::Elem,
        right: &Slot<S::Elem>,
        steps: &mut Steps<L>,
    ) -> Result<Slot<S::Elem>, AllocError> {
        Ok(Slot {
            key: self.keys.mul(key, right.key),
            elem: self.kit.mul(alloc, elem, &right.elem, steps)?,
        })
    }

    fn gather_products<L: Ledger>(
        &self,
        alloc: Global,
        row: &mut Vec<Option<S::Elem>>,
        left: &Slot<S::Elem>,
        right: &[Slot<S::Elem>],
        steps: &mut Steps<L>,
    ) -> Result<(), AllocError> {
        for slot in right {
            let product = self.product(alloc, left.key, &left.elem, slot, steps)?;
            self.gather(alloc, row, product.key, product.elem)?;
        }
        Ok(())
    }
}
