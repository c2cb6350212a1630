//! Maps that keep a vector of slots, their keys strictly ascending.
//! What they stand for is in specs/Slots.antt.

ghost use Rattle.std.specs.Prelude.{length};

use crate::collect::Collect;
use crate::gather::Gather;
use crate::map_kit::MapKit;
use crate::merge::{Merge, after_key};
use crate::row::{empty_row, slots_of};
use crate::slot::{Slot, find_slot};
use monoid_kit::Monoid;
use semiring_kit::Semiring;
use std::alloc::{AllocError, Global};
use std::collections::VecDeque;
use std::sync::ledger::Ledger;
use step_count::Steps;

/// Maps that keep a slot for each key that was given a value, by ascending key.
/// A sum takes time in proportion to the kept keys of both maps, and `get` looks by halves.
/// A convolution looks at each pair of kept keys once. It adds up the products in a row with a place
/// for each key, so that it also takes time and memory in proportion to the number of keys.
#[derive(Drop)]
pub struct SparseKit<S: Semiring, M: Monoid> {
    pub kit: S,
    pub keys: M,
}

impl<S: Semiring, M: Monoid> MapKit for SparseKit<S, M> {
    ghost use Rattle.std.specs.Prelude.{length};
    ghost use Rattle.key_map.specs.Slots.{value_in, FitsSlots};
    ghost use Rattle.key_map.specs.SlotLaws.{value_in_is_good, few_slots_kept};

    type Kit = S;

    type Keys = M;

    type Map = Vec<Slot<S::Elem>>;

    ghost kit = { λ s. s.kit };

    ghost keys = { λ s. s.keys };

    ghost fits = { λ s map. FitsSlots (S.ring s.kit) 0 (M.size s.keys) map.items };

    ghost value_at = { λ s map k. value_in (S.ring s.kit).zero map.items k };

    ghost kept = { λ s map. length map.items };

    ghost value_is_good = { λ s map k fits.
        value_in_is_good (S.laws s.kit) 0 (M.size s.keys) map.items k fits };

    ghost few_kept = { λ s map fits. few_slots_kept (S.ring s.kit) (M.size s.keys) map.items fits };

    fn kit(&self) -> &S {
        &self.kit
    }

    fn keys(&self) -> &M {
        &self.keys
    }

    fn none(&self, alloc: Global) -> Result<Self::Map, AllocError> {
        Ok(Vec::new(alloc))
    }

    fn single(&self, alloc: Global, key: u32, elem: S::Elem) -> Result<Self::Map, AllocError> {
        let mut slots = Vec::with_capacity(alloc, 1)?;
        slots.push(Slot { key, elem })?;
        Ok(slots)
    }

    fn add(&self, alloc: Global, a: &Self::Map, b: &Self::Map) -> Result<Self::Map, AllocError> {
        let mut sums = Vec::with_capacity(alloc, a.len().max(b.len()))?;
        let (mut left, mut right) = (a.as_slice(), b.as_slice());
        while let Some(slot) = self.least_slot(alloc, left, right)? {
            left = after_key(left, slot.key);
            right = after_key(right, slot.key);
            sums.push(slot)?;
        }
        Ok(sums)
    }

    fn sum(&self, alloc: Global, a: Self::Map, b: Self::Map) -> Result<Self::Map, AllocError> {
        if a.is_empty() {
            return Ok(b);
        }
        let mut sums = Vec::with_capacity(alloc, a.len().saturating_add(b.len()))?;
        let (mut left, mut right) = (VecDeque::from(a), VecDeque::from(b));
        while let Some(slot) = self.take_least(alloc, &mut left, &mut right)? {
            sums.push(slot)?;
        }
        Ok(sums)
    }

    fn copy(&self, alloc: Global, map: &Self::Map) -> Result<Self::Map, AllocError> {
        let mut slots = Vec::with_capacity(alloc, map.len())?;
        for slot in map {
            slots.push(self.copy_slot(alloc, slot)?)?;
        }
        Ok(slots)
    }

    fn convolve<L: Ledger>(
        &self,
        alloc: Global,
        a: &Self::Map,
        b: &Self::Map,
        steps: &mut Steps<L>,
    ) -> Result<Self::Map, AllocError> {
        let mut row = empty_row(alloc, self.keys.size())?;
        for left in a {
            self.gather_products(alloc, &mut row, left, b, steps)?;
        }
        slots_of(alloc, row)
    }

    fn shifted<L: Ledger>(
        &self,
        alloc: Global,
        key: u32,
        elem: &S::Elem,
        map: &Self::Map,
        steps: &mut Steps<L>,
    ) -> Result<Self::Map, AllocError> {
        let mut slots = Vec::with_capacity(alloc, map.len())?;
        for slot in map {
            let product = self.product(alloc, key, elem, slot, steps)?;
            self.put(alloc, &mut slots, product.key, product.elem)?;
        }
        self.collect(alloc, slots)
    }

    fn get(&self, alloc: Global, map: &Self::Map, key: u32) -> Result<S::Elem, AllocError> {
        match find_slot(map, key) {
            Some(slot) => self.kit.copy(alloc, &slot.elem),
            None => self.kit.zero(alloc),
        }
    }
}
