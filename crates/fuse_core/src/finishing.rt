//! The answer of all rows: the sum over the accepted candidates.

ghost use Rattle.std.specs.Prelude.{◌≡◌, ◌<◌, length, IfOk};
ghost use Rattle.std.specs.List.{range_with_len};
ghost use Rattle.semiring_kit.specs.Semiring.{IsGood};
ghost use Rattle.semiring_kit.specs.Total.{total, masked};
ghost use Rattle.shape_gen.specs.Candidates.{candidates};
ghost use Rattle.fuse_core.specs.Letters.{key_of, weight_of};
ghost use Rattle.fuse_core.specs.Plans.{accepts, accepted_sum};

use crate::letter::Tuple;
use crate::plan::Plan;
use crate::shapes::ending_of;
use interval_kit::Fused;
use key_map::MapKit;
use monoid_kit::Monoid;
use semiring_kit::Semiring;
use std::alloc::{AllocError, Global};

/// The sum of the weights of exactly those candidates whose keys are accepted, from a value that stands for all rows.
/// `accept` has an entry for each key. A sum takes time in proportion to the number of keys, and it is good.
pub fn finish<K: MapKit>(
    alloc: Global,
    plan: &Plan<K>,
    value: &Tuple<K::Map>,
    accept: &[bool],
) -> Result<<K::Kit as Semiring>::Elem, AllocError>
    requires stands { ⟦<Plan<K> as Fused>⟧.stands plan.now 0 plan.now.rows value.now }
    requires one_a_key { length accept.now ≡ K.Keys.size (K.keys plan.now.kit) }
    ensures sum { let ring = K.Kit.ring (K.kit plan.now.kit) in
        let unit = K.Keys.unit (K.keys plan.now.kit) in
        let times = K.Keys.mul (K.keys plan.now.kit) in
        let key = key_of unit times plan.now.labels plan.now.letters in
        let weight = weight_of ring plan.now.labels plan.now.letters in
        let all = candidates plan.now.shape plan.now.rows plan.now.labels in
        IfOk result (λ sum. sum ≡ accepted_sum ring key weight accept.now all) }
    ensures is_good { IfOk result (IsGood (K.Kit.ring (K.kit plan.now.kit))) }
{
    let ending = ending_of(plan.shape);
    let sum = accepted_of(alloc, &plan.kit, &value.maps[ending.place], accept)?;
    if ending.adds_empty {
        with_empty(alloc, &plan.kit, sum, accept)
    } else {
        Ok(sum)
    }
}

/// The sum of a map's values at the accepted keys.
fn accepted_of<K: MapKit>(
    alloc: Global,
    kit: &K,
    map: &K::Map,
    accept: &[bool],
) -> Result<<K::Kit as Semiring>::Elem, AllocError>
    requires fits { K.fits kit.now map.now }
    requires one_a_key { length accept.now ≡ K.Keys.size (K.keys kit.now) }
    ensures value { let ring = K.Kit.ring (K.kit kit.now) in
        let all = range_with_len 0 (K.Keys.size (K.keys kit.now)) in
        let value = K.value_at kit.now map.now in
        IfOk result (λ sum. sum ≡ total ring (λ k. masked ring (accepts accept.now k) (value k)) all) }
    ensures is_good { IfOk result (IsGood (K.Kit.ring (K.kit kit.now))) }
{
    let mut sum = kit.kit().zero(alloc)?;
    for key in 0..kit.keys().size() {
        sum = with_key(alloc, kit, map, accept, key, sum)?;
    }
    Ok(sum)
}

/// The sum with the value at a key, where the key is accepted.
fn with_key<K: MapKit>(
    alloc: Global,
    kit: &K,
    map: &K::Map,
    accept: &[bool],
    key: u32,
    sum: <K::Kit as Semiring>::Elem,
) -> Result<<K::Kit as Semiring>::Elem, AllocError>
    requires fits { K.fits kit.now map.now }
    requires key_is_element { key < K.Keys.size (K.keys kit.now) }
    requires one_a_key { length accept.now ≡ K.Keys.size (K.keys kit.now) }
    requires is_good { IsGood (K.Kit.ring (K.kit kit.now)) sum }
    ensures { let ring = K.Kit.ring (K.kit kit.now) in
        let value = masked ring (accepts accept.now key) (K.value_at kit.now map.now key) in
        IfOk result (λ with_key. with_key ≡ ring.add sum value) }
{
    if accept[key as usize] {
        let value = kit.get(alloc, map, key)?;
        kit.kit().sum(alloc, sum, value)
    } else {
        Ok(sum)
    }
}

/// The sum with the empty candidate, where its key is accepted.
fn with_empty<K: MapKit>(
    alloc: Global,
    kit: &K,
    sum: <K::Kit as Semiring>::Elem,
    accept: &[bool],
) -> Result<<K::Kit as Semiring>::Elem, AllocError>
    requires one_a_key { length accept.now ≡ K.Keys.size (K.keys kit.now) }
    requires is_good { IsGood (K.Kit.ring (K.kit kit.now)) sum }
    ensures value { let ring = K.Kit.ring (K.kit kit.now) in
        let empty = masked ring (accepts accept.now (K.Keys.unit (K.keys kit.now))) ring.one in
        IfOk result (λ with_empty. with_empty ≡ ring.add empty sum) }
    ensures is_good { IfOk result (IsGood (K.Kit.ring (K.kit kit.now))) }
{
    if accept[kit.keys().unit() as usize] {
        let one = kit.kit().one(alloc)?;
        kit.kit().sum(alloc, one, sum)
    } else {
        Ok(sum)
    }
}
