//! Maps that keep a row with a lane for each key. What a row shows is in specs/Rows.antt.

use crate::lanes::Lanes;
use crate::lift::Lift;
use key_map::MapKit;
use monoid_kit::Monoid;
use semiring_kit::Semiring;
use std::alloc::{AllocError, Global};
use std::sync::ledger::Ledger;
use step_count::Steps;

/// Maps that keep a row with a lane for each key. No key counts as kept, and no step is taken.
/// A sum takes time in proportion to the number of keys, and a convolution as much for each key that
/// the left map has a value at: it lifts the right row run by run, and computes no product of keys.
/// Besides the row that it gives, it takes memory for one list of runs at a time.
#[derive(Drop)]
pub struct DenseKit<S: Lanes, M: Monoid> {
    pub kit: S,
    pub keys: M,
}

impl<S: Lanes, M: Monoid> MapKit for DenseKit<S, M> {
    ghost use Rattle.lane_rows.specs.Rows.{shown, FitsRow};
    ghost use Rattle.lane_rows.specs.RowLaws.{shown_is_good};
    ghost use Rattle.std.proofs.Common.{arith};

    type Kit = S;

    type Keys = M;

    type Map = Vec<S::Lane>;

    ghost kit = { λ s. s.kit };

    ghost keys = { λ s. s.keys };

    ghost fits = { λ s map. FitsRow (S.ring s.kit) (S.is_lane s.kit) (S.shows s.kit)
        (M.size s.keys) map.items };

    ghost value_at = { λ s map. shown (S.ring s.kit) (S.shows s.kit) map.items };

    ghost kept = { λ s map. 0 };

    ghost value_is_good = { λ s map k fits. shown_is_good (S.laws s.kit) (S.is_lane s.kit) (S.shows s.kit)
        (M.size s.keys) map.items k fits };

    ghost few_kept = { λ s map fits. Prim.omega arith };

    fn kit(&self) -> &S {
        &self.kit
    }

    fn keys(&self) -> &M {
        &self.keys
    }

    fn none(&self, alloc: Global) -> Result<Self::Map, AllocError> {
        let mut row = Vec::new(alloc);
        row.resize(self.keys.size() as usize, self.kit.absent())?;
        Ok(row)
    }

    fn single(&self, alloc: Global, key: u32, elem: S::Elem) -> Result<Self::Map, AllocError> {
        let mut row = self.none(alloc)?;
        row[key as usize] = self.kit.lane_of(&elem);
        Ok(row)
    }

    fn add(&self, alloc: Global, a: &Self::Map, b: &Self::Map) -> Result<Self::Map, AllocError> {
        let mut sums = self.copy(alloc, a)?;
        self.add_row(alloc, &mut sums, b)?;
        Ok(sums)
    }

    fn sum(&self, alloc: Global, mut a: Self::Map, b: Self::Map) -> Result<Self::Map, AllocError> {
        self.add_row(alloc, &mut a, &b)?;
        Ok(a)
    }

    fn copy(&self, alloc: Global, map: &Self::Map) -> Result<Self::Map, AllocError> {
        Vec::from_slice(alloc, map)
    }

    fn convolve<L: Ledger>(
        &self,
        alloc: Global,
        a: &Self::Map,
        b: &Self::Map,
        _steps: &mut Steps<L>,
    ) -> Result<Self::Map, AllocError> {
        let mut row = self.none(alloc)?;
        for key in 0..self.keys.size() {
            let by = a[key as usize];
            if !self.kit.is_absent(by) {
                self.lift_key(alloc, &mut row, key, b, by)?;
            }
        }
        Ok(row)
    }

    fn shifted<L: Ledger>(
        &self,
        alloc: Global,
        key: u32,
        elem: &S::Elem,
        map: &Self::Map,
        _steps: &mut Steps<L>,
    ) -> Result<Self::Map, AllocError> {
        let mut row = self.none(alloc)?;
        self.lift_key(alloc, &mut row, key, map, self.kit.lane_of(elem))?;
        Ok(row)
    }

    fn with_shifted<L: Ledger>(
        &self,
        alloc: Global,
        mut into: Self::Map,
        key: u32,
        elem: &S::Elem,
        map: &Self::Map,
        _steps: &mut Steps<L>,
    ) -> Result<Self::Map, AllocError> {
        self.lift_key(alloc, &mut into, key, map, self.kit.lane_of(elem))?;
        Ok(into)
    }

    fn get(&self, alloc: Global, map: &Self::Map, key: u32) -> Result<S::Elem, AllocError> {
        self.kit.elem_of(alloc, map[key as usize])
    }
}
