//! Plans: a shape, its rows and labels, and their letters, with leaves and joins as maps.

ghost use Rattle.std.specs.Prelude.{◌≡◌, ◌⊎◌, ℕ, ◌+◌, ◌*◌, ◌<◌, ◌≤◌, length};
ghost use Rattle.monoid_kit.specs.Items.{AllElements};
ghost use Rattle.semiring_kit.specs.Semiring.{IsGood, weight_bound};
ghost use Rattle.shape_gen.specs.declared.shape.Shape.TheVariants.{Assign};
ghost use Rattle.fuse_core.specs.Letters.{rows_reach};

use crate::growing::{no_row, with_row};
use crate::joining::joined;
use crate::letter::{Letter, Tuple};
use crate::maps::Maps;
use crate::shapes::wiring_of;
use crate::wiring::Wires;
use interval_kit::Fused;
use key_map::MapKit;
use monoid_kit::Monoid;
use semiring_kit::Semiring;
use shape_gen::Shape;
use std::alloc::{AllocError, Global};
use std::marker::Model;
use std::sync::ledger::Ledger;
use step_count::Steps;

/// A shape over rows and labels, with the kit of its maps and a letter for each row and label.
#[derive(Drop)]
pub struct Plan<K: MapKit> {
    pub(crate) shape: Shape,
    rows: u32,
    labels: u32,
    pub(crate) kit: K,
    letters: Vec<Letter<<K::Kit as Semiring>::Elem>>,
}

impl<K: MapKit> Model for Plan<K> {
    ghost use Rattle.fuse_core.specs.Letters.{HasLetters};
    ghost use Rattle.fuse_core.specs.Plans.{Planned};

    ghost Value = { Planned K K.Kit.Elem };

    ghost view = { λ p. record {
      shape = p.shape;
      rows = p.rows;
      labels = p.labels;
      kit = p.kit;
      letters = p.letters.items;
    } };

    ghost invariant = { λ p. HasLetters
        (K.Kit.ring (K.kit p.kit))
        (K.Keys.size (K.keys p.kit))
        p.shape
        p.rows
        p.labels
        p.letters.items };
}

/// The plan of a shape over these rows and labels, labels being 1 unless the shape is Assign. Letters stand by row, and
/// then by label. Takes no memory.
pub fn plan_of<K: MapKit>(
    shape: Shape,
    rows: u32,
    labels: u32,
    kit: K,
    letters: Vec<Letter<<K::Kit as Semiring>::Elem>>,
) -> Plan<K>
    requires some_label { 1 ≤ labels }
    requires one_label { (shape ≡ Assign) ⊎ (labels ≡ 1) }
    requires count { length letters.items ≡ rows * labels }
    requires keys_are_elements { let size = K.Keys.size (K.keys kit) in
        AllElements (λ key. key < size) (λ letter. letter.key) letters.items }
    requires elems_are_good { AllElements (IsGood (K.Kit.ring (K.kit kit))) (λ letter. letter.elem) letters.items }
    requires reaches_add_up { rows_reach (K.Kit.ring (K.kit kit)) labels letters.items 0 rows ≤ weight_bound }
    ensures { result ≡ record { shape = shape; rows = rows; labels = labels; kit = kit; letters = letters.items } }
{
    Plan {
        shape,
        rows,
        labels,
        kit,
        letters,
    }
}

impl<K: MapKit> Fused for Plan<K> {
    ghost use Rattle.fuse_core.specs.Letters.{key_of, weight_of};
    ghost use Rattle.fuse_core.specs.Stands.{Stands};

    type Value = Tuple<K::Map>;

    ghost rows = { λ p. p.rows };

    ghost stands = { λ p lo hi tuple. Stands
        (K.Kit.ring (K.kit p.kit))
        (key_of (K.Keys.unit (K.keys p.kit)) (K.Keys.mul (K.keys p.kit)) p.labels p.letters)
        (weight_of (K.Kit.ring (K.kit p.kit)) p.labels p.letters)
        (K.fits p.kit)
        (K.value_at p.kit)
        p.shape
        p.labels
        lo
        hi
        tuple.maps.items };

    ghost leaf_bound = { λ p b. 4 * b * K.Keys.size (K.keys p.kit) * (p.labels + 1) };

    ghost join_bound = { λ p. 4 * K.Keys.size (K.keys p.kit) * K.Keys.size (K.keys p.kit) };

    fn rows(&self) -> u32 {
        self.rows
    }

    /// From the last row to the first.
    fn leaf<L: Ledger>(
        &self,
        alloc: Global,
        lo: u32,
        hi: u32,
        steps: &mut Steps<L>,
    ) -> Result<Tuple<K::Map>, AllocError> {
        let wiring = self.components(alloc)?;
        let mut maps = no_row(self, alloc, &wiring)?;
        for row in (lo..hi).rev() {
            maps = with_row(self, alloc, row, &wiring, maps, steps)?;
        }
        Ok(Tuple { maps })
    }

    fn join<L: Ledger>(
        &self,
        alloc: Global,
        _lo: u32,
        _mid: u32,
        _hi: u32,
        left: &Tuple<K::Map>,
        right: &Tuple<K::Map>,
        steps: &mut Steps<L>,
    ) -> Result<Tuple<K::Map>, AllocError> {
        let wiring = self.components(alloc)?;
        let maps = joined(self, alloc, &wiring, &left.maps, &right.maps, steps)?;
        Ok(Tuple { maps })
    }
}

impl<K: MapKit> Maps for Plan<K> {
    ghost use Rattle.fuse_core.specs.Letters.{elem_at, key_of, weight_of, HasLetters};
    ghost use Rattle.fuse_core.specs.Stands.{Shows};
    ghost use Rattle.fuse_core.specs.Wirings.{wiring};
    ghost use Rattle.key_map.specs.Maps.{ReachesAddUp};

    type Map = K::Map;

    ghost rows = { λ p. p.rows };

    ghost labels = { λ p. p.labels };

    ghost size = { λ p. K.Keys.size (K.keys p.kit) };

    ghost fits = { λ p map. K.fits p.kit map };

    ghost shows = { λ p lists map. Shows
        (K.Kit.ring (K.kit p.kit))
        (key_of (K.Keys.unit (K.keys p.kit)) (K.Keys.mul (K.keys p.kit)) p.labels p.letters)
        (weight_of (K.Kit.ring (K.kit p.kit)) p.labels p.letters)
        (K.fits p.kit)
        (K.value_at p.kit)
        lists
        map };

    ghost follows = { λ p row label map. (k : ℕ)
        → (K.Kit.ring (K.kit p.kit)).reach
        (elem_at (K.Kit.ring (K.kit p.kit)).one p.letters (row * p.labels + label))
        + (K.Kit.ring (K.kit p.kit)).reach (K.value_at p.kit map k)
        ≤ weight_bound };

    ghost crosses = { λ p a b. ReachesAddUp
        (K.Kit.ring (K.kit p.kit))
        (K.value_at p.kit a)
        (K.value_at p.kit b) };

    ghost components = { λ p. wiring p.shape p.labels };

    ghost is_lawful = { λ p. HasLetters
        (K.Kit.ring (K.kit p.kit))
        (K.Keys.size (K.keys p.kit))
        p.shape
        p.rows
        p.labels
        p.letters };

    fn components(&self, alloc: Global) -> Result<Vec<Wires>, AllocError> {
        wiring_of(alloc, self.shape, self.labels)
    }

    fn nothing(&self, alloc: Global) -> Result<K::Map, AllocError> {
        self.kit.none(alloc)
    }

    fn empty(&self, alloc: Global) -> Result<K::Map, AllocError> {
        let unit = self.kit.keys().unit();
        let one = self.kit.kit().one(alloc)?;
        self.kit.single(alloc, unit, one)
    }

    fn marked(&self, alloc: Global, row: u32, label: u32) -> Result<K::Map, AllocError> {
        let letter = &self.letters[row as usize * self.labels as usize + label as usize];
        let elem = self.kit.kit().copy(alloc, &letter.elem)?;
        self.kit.single(alloc, letter.key, elem)
    }

    fn same(&self, alloc: Global, map: &K::Map) -> Result<K::Map, AllocError> {
        self.kit.copy(alloc, map)
    }

    fn both(&self, alloc: Global, a: K::Map, b: K::Map) -> Result<K::Map, AllocError> {
        self.kit.sum(alloc, a, b)
    }

    fn before<L: Ledger>(
        &self,
        alloc: Global,
        row: u32,
        label: u32,
        later: &K::Map,
        steps: &mut Steps<L>,
    ) -> Result<K::Map, AllocError> {
        let letter = &self.letters[row as usize * self.labels as usize + label as usize];
        self.kit
            .shifted(alloc, letter.key, &letter.elem, later, steps)
    }

    fn with_before<L: Ledger>(
        &self,
        alloc: Global,
        into: K::Map,
        row: u32,
        label: u32,
        later: &K::Map,
        steps: &mut Steps<L>,
    ) -> Result<K::Map, AllocError> {
        let letter = &self.letters[row as usize * self.labels as usize + label as usize];
        self.kit
            .with_shifted(alloc, into, letter.key, &letter.elem, later, steps)
    }

    fn across<L: Ledger>(
        &self,
        alloc: Global,
        a: &K::Map,
        b: &K::Map,
        steps: &mut Steps<L>,
    ) -> Result<K::Map, AllocError> {
        self.kit.convolve(alloc, a, b, steps)
    }
}
