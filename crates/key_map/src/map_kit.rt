//! Maps from keys to values, whatever their form. What they stand for is in specs/Maps.antt,
//! and the convolution in specs/Convolution.antt.

ghost use Rattle.std.specs.Prelude.{◌≡◌, ℕ, ◌+◌, ◌*◌, ◌<◌, ◌≤◌, IfOk};
ghost use Rattle.semiring_kit.specs.Semiring.{IsGood};
ghost use Rattle.key_map.specs.Maps.{nothing, alone, sums, SameValues, ReachesAddUp};
ghost use Rattle.key_map.specs.Convolution.{convolution};

use monoid_kit::Monoid;
use semiring_kit::Semiring;
use std::alloc::{AllocError, Global};
use std::sync::ledger::Ledger;
use step_count::Steps;

/// Maps from the elements of a monoid, the keys, to the elements of a semiring, the values.
/// A map stands for a value per key; a key that it doesn't keep has zero.
pub trait MapKit: Drop {
    type Kit: Semiring;

    type Keys: Monoid;

    type Map: Send + Drop;

    ghost kit: { Self → Self.Kit };

    ghost keys: { Self → Self.Keys };

    ghost fits: { Self → Self.Map → Type 0 };

    ghost value_at: { Self → Self.Map → ℕ → Self.Kit.Elem };

    ghost kept: { Self → Self.Map → ℕ };

    /// The semiring of the values.
    fn kit(&self) -> &Self::Kit
        ensures { result.now ≡ kit self.now };

    /// The monoid of the keys.
    fn keys(&self) -> &Self::Keys
        ensures { result.now ≡ keys self.now };

    /// The map that keeps no key.
    fn none(&self, alloc: Global) -> Result<Self::Map, AllocError>
        ensures fits { IfOk result (fits self.now) }
        ensures value { let ring = Self.Kit.ring (kit self.now) in
            IfOk result (λ map. SameValues (value_at self.now map) (nothing ring)) }
        ensures kept { IfOk result (λ map. kept self.now map ≡ 0) };

    /// The map that has this value at this key, and zero elsewhere.
    fn single(
        &self,
        alloc: Global,
        key: u32,
        elem: <Self::Kit as Semiring>::Elem,
    ) -> Result<Self::Map, AllocError>
        requires key_is_element { key < Self.Keys.size (keys self.now) }
        requires elem_is_good { IsGood (Self.Kit.ring (kit self.now)) elem }
        ensures fits { IfOk result (fits self.now) }
        ensures value { let ring = Self.Kit.ring (kit self.now) in
            IfOk result (λ map. SameValues (value_at self.now map) (alone ring key elem)) }
        ensures kept { IfOk result (λ map. kept self.now map ≤ 1) };

    /// The map of the sums, key by key.
    fn add(&self, alloc: Global, a: &Self::Map, b: &Self::Map) -> Result<Self::Map, AllocError>
        requires left_fits { fits self.now a.now }
        requires right_fits { fits self.now b.now }
        ensures fits { IfOk result (fits self.now) }
        ensures value { let ring = Self.Kit.ring (kit self.now) in
            let x = value_at self.now a.now in
            let y = value_at self.now b.now in
            IfOk result (λ map. SameValues (value_at self.now map) (sums ring x y)) }
        ensures kept { let most = kept self.now a.now + kept self.now b.now in
            IfOk result (λ map. kept self.now map ≤ most) };

    /// The map of the sums of two maps that are needed no more.
    fn sum(&self, alloc: Global, a: Self::Map, b: Self::Map) -> Result<Self::Map, AllocError>
        requires left_fits { fits self.now a }
        requires right_fits { fits self.now b }
        ensures fits { IfOk result (fits self.now) }
        ensures value { let ring = Self.Kit.ring (kit self.now) in
            let x = value_at self.now a in
            let y = value_at self.now b in
            IfOk result (λ map. SameValues (value_at self.now map) (sums ring x y)) }
        ensures kept { let most = kept self.now a + kept self.now b in
            IfOk result (λ map. kept self.now map ≤ most) }
    {
        self.add(alloc, &a, &b)
    }

    /// The same map once more.
    fn copy(&self, alloc: Global, map: &Self::Map) -> Result<Self::Map, AllocError>
        requires { fits self.now map.now }
        ensures fits { IfOk result (fits self.now) }
        ensures value { let x = value_at self.now map.now in
            IfOk result (λ copy. SameValues (value_at self.now copy) x) }
        ensures kept { IfOk result (λ copy. kept self.now copy ≤ kept self.now map.now) }
    {
        let none = self.none(alloc)?;
        self.add(alloc, &none, map)
    }

    /// The convolution: at a key, the sum over all pairs of keys whose product is this key,
    /// of the products of their values, the factors in this order.
    /// It takes at most a step for each pair of kept keys, also where memory is refused.
    fn convolve<L: Ledger>(
        &self,
        alloc: Global,
        a: &Self::Map,
        b: &Self::Map,
        steps: &mut Steps<L>,
    ) -> Result<Self::Map, AllocError>
        requires left_fits { fits self.now a.now }
        requires right_fits { fits self.now b.now }
        requires reaches_add_up { let ring = Self.Kit.ring (kit self.now) in
            ReachesAddUp ring (value_at self.now a.now) (value_at self.now b.now) }
        ensures fits { IfOk result (fits self.now) }
        ensures value { let ring = Self.Kit.ring (kit self.now) in
            let size = Self.Keys.size (keys self.now) in
            let times = Self.Keys.mul (keys self.now) in
            let x = value_at self.now a.now in
            let y = value_at self.now b.now in
            IfOk result (λ map.
            SameValues (value_at self.now map) (convolution ring size times x y)) }
        ensures kept { let most = kept self.now a.now * kept self.now b.now in
            IfOk result (λ map. kept self.now map ≤ most) }
        ensures cost { steps.new ≤ steps.old + kept self.now a.now * kept self.now b.now };

    /// The convolution of the map that has this value at this key alone with a map, in this order.
    /// It takes at most a step for each kept key, also where memory is refused.
    fn shifted<L: Ledger>(
        &self,
        alloc: Global,
        key: u32,
        elem: &<Self::Kit as Semiring>::Elem,
        map: &Self::Map,
        steps: &mut Steps<L>,
    ) -> Result<Self::Map, AllocError>
        requires key_is_element { key < Self.Keys.size (keys self.now) }
        requires elem_is_good { IsGood (Self.Kit.ring (kit self.now)) elem.now }
        requires fits { fits self.now map.now }
        requires reaches_add_up { let ring = Self.Kit.ring (kit self.now) in
            ReachesAddUp ring (alone ring key elem.now) (value_at self.now map.now) }
        ensures fits { IfOk result (fits self.now) }
        ensures value { let ring = Self.Kit.ring (kit self.now) in
            let size = Self.Keys.size (keys self.now) in
            let times = Self.Keys.mul (keys self.now) in
            let x = alone ring key elem.now in
            let y = value_at self.now map.now in
            IfOk result (λ shifted.
            SameValues (value_at self.now shifted) (convolution ring size times x y)) }
        ensures kept { IfOk result (λ shifted. kept self.now shifted ≤ kept self.now map.now) }
        ensures cost { steps.new ≤ steps.old + kept self.now map.now }
    {
        let elem = self.kit().copy(alloc, elem)?;
        let single = self.single(alloc, key, elem)?;
        self.convolve(alloc, &single, map, steps)
    }

    /// The sum of a map that is needed no more, and the convolution of the map that has this value at this key
    /// alone with another map, in this order.
    /// It takes at most a step for each key that the other map keeps, also where memory is refused.
    fn with_shifted<L: Ledger>(
        &self,
        alloc: Global,
        into: Self::Map,
        key: u32,
        elem: &<Self::Kit as Semiring>::Elem,
        map: &Self::Map,
        steps: &mut Steps<L>,
    ) -> Result<Self::Map, AllocError>
        requires into_fits { fits self.now into }
        requires key_is_element { key < Self.Keys.size (keys self.now) }
        requires elem_is_good { IsGood (Self.Kit.ring (kit self.now)) elem.now }
        requires fits { fits self.now map.now }
        requires reaches_add_up { let ring = Self.Kit.ring (kit self.now) in
            ReachesAddUp ring (alone ring key elem.now) (value_at self.now map.now) }
        ensures fits { IfOk result (fits self.now) }
        ensures value { let ring = Self.Kit.ring (kit self.now) in
            let size = Self.Keys.size (keys self.now) in
            let times = Self.Keys.mul (keys self.now) in
            let x = alone ring key elem.now in
            let y = value_at self.now map.now in
            let shifted = convolution ring size times x y in
            IfOk result (λ sum.
            SameValues (value_at self.now sum) (sums ring (value_at self.now into) shifted)) }
        ensures kept { let most = kept self.now into + kept self.now map.now in
            IfOk result (λ sum. kept self.now sum ≤ most) }
        ensures cost { steps.new ≤ steps.old + kept self.now map.now }
    {
        let shifted = self.shifted(alloc, key, elem, map, steps)?;
        self.sum(alloc, into, shifted)
    }

    /// The value at a key.
    fn get(
        &self,
        alloc: Global,
        map: &Self::Map,
        key: u32,
    ) -> Result<<Self::Kit as Semiring>::Elem, AllocError>
        requires fits { fits self.now map.now }
        requires key_is_element { key < Self.Keys.size (keys self.now) }
        ensures { IfOk result (λ elem. elem ≡ value_at self.now map.now key) };

    ghost value_is_good: { (s : Self) (map : Self.Map) (k : ℕ)
        → fits s map
        → IsGood (Self.Kit.ring (kit s)) (value_at s map k) };

    ghost few_kept: { (s : Self) (map : Self.Map)
        → fits s map
        → kept s map ≤ Self.Keys.size (keys s) };
}
