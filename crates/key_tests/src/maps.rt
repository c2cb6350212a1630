//! Worked sums and convolutions, through the trait, over a monoid in which factors may not change places.

ghost use Rattle.std.specs.Prelude.{◌≡◌, ℕ, ◌+◌, ◌<◌, ◌≤◌, IfOk};
ghost use Rattle.step_count.specs.Blanks.{IsBlankOf};
ghost use Rattle.semiring_kit.specs.Semiring.{IsGood};
ghost use Rattle.semiring_kit.specs.MaxPlus.{max_plus};
ghost use Rattle.key_map.specs.Maps.{ReachesAddUp};
ghost use Rattle.key_map.specs.Slots.{FitsSlots, value_in};

use key_map::{MapKit, Slot, SparseKit};
use monoid_kit::Monoid;
use semiring_kit::{MaxPlus, Semiring};
use std::alloc::{AllocError, Global};
use std::marker::Brand;
use std::sync::ledger::{Blank, Ledger};
use std::test::Fail;
use step_count::Steps;

// Three elements, of which 0 is the unit. Of two others the right one is the product, or the left one.
#[derive(Drop)]
struct ZeroBand {
    right: bool,
}

impl Monoid for ZeroBand {
    ghost use Rattle.key_map.specs.ZeroBand.{zero_band, zero_band-IsMonoid};

    ghost size = { λ band. 3 };

    ghost unit = { λ band. 0 };

    ghost mul = { λ band. zero_band band.right };

    ghost laws = { λ band. zero_band-IsMonoid band.right };

    fn size(&self) -> u32 {
        3
    }

    fn unit(&self) -> u32 {
        0
    }

    fn mul(&self, a: u32, b: u32) -> u32 {
        if self.right {
            if b == 0 { a } else { b }
        } else {
            if a == 0 { b } else { a }
        }
    }
}

// The weights at the keys 1 and 2.
fn map_of(alloc: Global, first: i32, second: i32) -> Result<Vec<Slot<Option<i64>>>, AllocError>
    ensures fits { IfOk result (λ map. FitsSlots max_plus 0 3 map.items) }
    ensures small { IfOk result (λ map. (k : ℕ)
        → max_plus.reach (value_in max_plus.zero map.items k) ≤ 2147483648) }
{
    let mut slots = Vec::with_capacity(alloc, 2)?;
    slots.push(Slot {
        key: 1,
        elem: Some(i64::from(first)),
    })?;
    slots.push(Slot {
        key: 2,
        elem: Some(i64::from(second)),
    })?;
    Ok(slots)
}

// The value of the convolution at a key.
fn convolved<K: MapKit, L: Ledger>(
    kit: &K,
    alloc: Global,
    a: &K::Map,
    b: &K::Map,
    key: u32,
    blank: Blank,
) -> Result<<K::Kit as Semiring>::Elem, AllocError>
    requires left_fits { K.fits kit.now a.now }
    requires right_fits { K.fits kit.now b.now }
    requires reaches_add_up { ReachesAddUp
        (K.Kit.ring (K.kit kit.now)) (K.value_at kit.now a.now) (K.value_at kit.now b.now) }
    requires key_is_element { key < K.Keys.size (K.keys kit.now) }
    requires blank { IsBlankOf L.name L.parts blank }
{
    let mut steps = Steps::<L>::new(blank);
    let map = kit.convolve(alloc, a, b, &mut steps)?;
    kit.get(alloc, &map, key)
}

// The value, at a key, of the map with one at the unit added to the sum of two maps.
pub(crate) fn added<K: MapKit>(
    kit: &K,
    alloc: Global,
    a: &K::Map,
    b: &K::Map,
    key: u32,
) -> Result<<K::Kit as Semiring>::Elem, AllocError>
    requires left_fits { K.fits kit.now a.now }
    requires right_fits { K.fits kit.now b.now }
    requires key_is_element { key < K.Keys.size (K.keys kit.now) }
{
    let one = kit.kit().one(alloc)?;
    let unit = kit.single(alloc, kit.keys().unit(), one)?;
    let first = kit.add(alloc, &kit.none(alloc)?, &unit)?;
    let second = kit.add(alloc, &first, a)?;
    kit.get(alloc, &kit.add(alloc, &second, b)?, key)
}

#[test]
fn factors_keep_their_places(rt: HostRuntime) -> Result<(), Fail> {
    let alloc = rt.alloc();
    let a = map_of(alloc, 5, 1)?;
    let b = map_of(alloc, 10, 300)?;
    let cases = [
        (false, 0, None),
        (false, 1, Some(305)),
        (false, 2, Some(301)),
        (true, 0, None),
        (true, 1, Some(15)),
        (true, 2, Some(305)),
    ];
    for (right, key, weight) in cases {
        let kit = SparseKit {
            kit: MaxPlus,
            keys: ZeroBand { right },
        };
        let value = convolved::<SparseKit<MaxPlus, ZeroBand>, Brand>(
            &kit,
            alloc,
            &a,
            &b,
            key,
            Blank::new(1),
        )?;
        assert_eq!(rt; value, weight, "right {right} at {key}");
    }
    Ok(())
}

#[test]
fn sums_key_by_key(rt: HostRuntime) -> Result<(), Fail> {
    let alloc = rt.alloc();
    let kit = SparseKit {
        kit: MaxPlus,
        keys: ZeroBand { right: false },
    };
    let a = map_of(alloc, 5, -7)?;
    let b = map_of(alloc, -9, 300)?;
    for (key, weight) in [(0, Some(0)), (1, Some(5)), (2, Some(300))] {
        assert_eq!(rt; added(&kit, alloc, &a, &b, key)?, weight, "at {key}");
    }
    Ok(())
}
