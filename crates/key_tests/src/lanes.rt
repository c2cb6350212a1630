//! Rows of lanes: the kernels at each length, worked convolutions, and the runs by which keys move rows.

ghost use Rattle.std.specs.Prelude.{◌≡◌, ◌≢◌, ◌+◌, ◌<◌, ◌≤◌, All, IsTrue, length, unsigned_abs};
ghost use Rattle.step_count.specs.Blanks.{IsBlankOf};
ghost use Rattle.semiring_kit.specs.Semiring.{IsGood, weight_bound};
ghost use Rattle.lane_rows.specs.MaxLanes.{absent, IsWithin};
ghost use Rattle.lane_rows.specs.TruthLanes.{IsBit};

use crate::maps::added;
use crate::products::bits;
use key_map::MapKit;
use lane_rows::{
    ABSENT, DenseCount, DenseMax, DenseMin, DenseTruth, any, greatest, lift_count, lift_max,
    lift_or, total_count,
};
use monoid_kit::{CappedSum, Modular, Monoid, Span};
use monoid_product::{Component, product_of};
use semiring_kit::Semiring;
use std::alloc::{AllocError, Global};
use std::marker::Brand;
use std::sync::ledger::{Blank, Ledger};
use std::test::Fail;
use step_count::Steps;

const LENGTHS: [usize; 6] = [0, 1, 7, 8, 9, 17];

fn are_within(lanes: &[i64]) -> bool
    ensures { IsTrue result → All IsWithin lanes.now }
{
    lanes.iter().all(|lane| *lane == ABSENT || lane.unsigned_abs() <= 4611686018427387903)
}

// The row after the other one, with the weight, was lifted onto it.
fn raised(
    alloc: Global,
    into: &[i64],
    from: &[i64],
    weight: i64,
) -> Result<Option<Vec<i64>>, AllocError> {
    if into.len() != from.len()
        || !are_within(from)
        || weight.unsigned_abs() > 4611686018427387903
    {
        return Ok(None);
    }
    let mut row = Vec::from_slice(alloc, into)?;
    lift_max(&mut row, from, weight);
    Ok(Some(row))
}

#[test]
fn a_row_of_weights_is_lifted_at_each_length(rt: HostRuntime) -> Result<(), Fail> {
    let no = ABSENT;
    let into = [0, no, no, 5, 9, -4, no, 1, 2, 3, no, no, 7, 8, 9, no, -100];
    let from = [no, 3, no, 1, 6, -7, -9, no, 2, 0, 0, no, -9, 4, 6, 8, 11];
    let lifted = [0, 7, no, 5, 10, -3, -5, 1, 6, 4, 4, no, 7, 8, 10, 12, 15];
    for n in LENGTHS {
        let row = raised(rt.alloc(), &into[..n], &from[..n], 4)?.expect(&rt, "small weights");
        assert_eq!(rt; row.as_slice(), &lifted[..n], "at {n}");
    }
    Ok(())
}

#[test]
fn weights_at_the_edge_do_not_wrap(rt: HostRuntime) -> Result<(), Fail> {
    let most = 4611686018427387903;
    let cases = [
        ([ABSENT], [most], most, [9223372036854775806]),
        ([ABSENT], [-most], -most, [-9223372036854775806]),
        ([ABSENT], [ABSENT], -most, [ABSENT]),
        ([7], [ABSENT], most, [7]),
    ];
    for (into, from, weight, lifted) in cases {
        let row = raised(rt.alloc(), &into, &from, weight)?.expect(&rt, "weights within the bound");
        assert_eq!(rt; row.as_slice(), lifted.as_slice(), "{from:?} by {weight}");
    }
    Ok(())
}

fn are_bits(lanes: &[u8]) -> bool
    ensures { IsTrue result → All IsBit lanes.now }
{
    lanes.iter().all(|lane| *lane <= 1)
}

#[test]
fn a_row_of_truth_is_lifted_at_each_length(rt: HostRuntime) -> Result<(), Fail> {
    let into = [0, 1, 0, 0, 1, 1, 0, 0, 1, 0, 0, 0, 1, 1, 0, 1, 0];
    let from = [1, 1, 0, 0, 1, 0, 0, 1, 0, 0, 1, 0, 1, 0, 0, 0, 1];
    let lifted = [1, 1, 0, 0, 1, 1, 0, 1, 1, 0, 1, 0, 1, 1, 0, 1, 1];
    for n in LENGTHS {
        let mut row = Vec::from_slice(rt.alloc(), &into[..n])?;
        assert!(rt; are_bits(&row) && are_bits(&from[..n]));
        lift_or(&mut row, &from[..n]);
        assert_eq!(rt; row.as_slice(), &lifted[..n], "at {n}");
        assert!(rt; are_bits(&row));
        assert_eq!(rt; any(&row), if n == 0 { 0 } else { 1 });
    }
    Ok(())
}

#[test]
fn a_row_of_counts_is_lifted_at_each_length(rt: HostRuntime) -> Result<(), Fail> {
    let most = 18446744073709551615;
    let into = [
        0,
        1,
        2,
        most,
        4,
        0,
        0,
        7,
        8,
        9,
        0,
        0,
        0,
        0,
        most - 3,
        most - 2,
        1,
    ];
    let from = [
        5,
        0,
        1,
        1,
        most,
        0,
        2,
        1,
        1,
        1,
        9,
        0,
        0,
        1,
        1,
        1,
        6148914691236517205,
    ];
    let lifted = [
        15, 1, 5, most, most, 0, 6, 10, 11, 12, 27, 0, 0, 3, most, most, most,
    ];
    for n in LENGTHS {
        let mut row = Vec::from_slice(rt.alloc(), &into[..n])?;
        lift_count(&mut row, &from[..n], 3);
        assert_eq!(rt; row.as_slice(), &lifted[..n], "at {n}");
    }
    Ok(())
}

#[test]
fn sums_of_lanes(rt: HostRuntime) {
    assert_eq!(rt; greatest(&[]), ABSENT);
    assert_eq!(rt; greatest(&[ABSENT, -9, ABSENT, -3, -5]), -3);
    assert_eq!(rt; total_count(&[]), 0);
    assert_eq!(rt;
        total_count(&[3, 18446744073709551600, 12]),
        18446744073709551615
    );
    assert_eq!(rt;
        total_count(&[3, 18446744073709551600, 13]),
        18446744073709551615
    );
}

// Whether there are four lanes, each absent or small.
fn is_small(lanes: &[i64]) -> bool
    ensures { IsTrue result → (length lanes.now ≡ 4)
        × All (λ lane. lane ≢ absent → unsigned_abs lane ≤ 1000) lanes.now }
{
    lanes.len() == 4
        && lanes
            .iter()
            .all(|lane| *lane == ABSENT || lane.unsigned_abs() <= 1000)
}

// The convolution of two rows over sums to 2.
fn convolved<L: Ledger>(
    alloc: Global,
    a: &[i64],
    b: &[i64],
    blank: Blank,
) -> Result<Option<Vec<i64>>, AllocError>
    requires blank { IsBlankOf L.name L.parts blank }
{
    if !is_small(a) || !is_small(b) {
        return Ok(None);
    }
    let kit = DenseMax::new(CappedSum { bound: 2 });
    let mut steps = Steps::<L>::new(blank);
    let left = Vec::from_slice(alloc, a)?;
    let right = Vec::from_slice(alloc, b)?;
    Ok(Some(kit.convolve(alloc, &left, &right, &mut steps)?))
}

#[test]
fn rows_are_convolved(rt: HostRuntime) -> Result<(), Fail> {
    let no = ABSENT;
    let cases = [
        ([0, 5, no, no], [0, no, 7, no], [0, 5, 7, 12]),
        ([no, 5, no, no], [no, 5, no, no], [no, no, 10, no]),
        ([no, no, no, no], [1, 2, 3, 4], [no, no, no, no]),
        ([no, no, 1, 2], [no, 10, -5, 20], [no, no, no, 22]),
        ([-1, no, no, no], [no, 10, -5, 20], [no, 9, -6, 19]),
    ];
    for (a, b, product) in cases {
        let row = convolved::<Brand>(rt.alloc(), &a, &b, Blank::new(1))?.expect(&rt, "small rows");
        assert_eq!(rt; row.as_slice(), product.as_slice(), "{a:?} and {b:?}");
    }
    Ok(())
}

// The value, at a key, of a map with one value and of its product with itself.
fn doubled<K: MapKit, L: Ledger>(
    kit: &K,
    alloc: Global,
    key: u32,
    elem: <K::Kit as Semiring>::Elem,
    at: u32,
    blank: Blank,
) -> Result<<K::Kit as Semiring>::Elem, AllocError>
    requires key_is_element { key < K.Keys.size (K.keys kit.now) }
    requires at_is_element { at < K.Keys.size (K.keys kit.now) }
    requires elem_is_good { IsGood (K.Kit.ring (K.kit kit.now)) elem }
    requires reaches_add_up { let reach = (K.Kit.ring (K.kit kit.now)).reach in
        reach elem + reach elem ≤ weight_bound }
    requires blank { IsBlankOf L.name L.parts blank }
{
    let mut steps = Steps::<L>::new(blank);
    let single = kit.single(alloc, key, kit.kit().copy(alloc, &elem)?)?;
    let map = kit.copy(alloc, &single)?;
    let product = kit.shifted(alloc, key, &elem, &map, &mut steps)?;
    kit.get(alloc, &kit.sum(alloc, product, single)?, at)
}

#[test]
fn each_kit_of_numbers(rt: HostRuntime) -> Result<(), Fail> {
    let alloc = rt.alloc();
    let keys = CappedSum { bound: 2 };
    let (max, min) = (DenseMax::new(keys), DenseMin::new(keys));
    let (truth, count) = (DenseTruth::new(keys), DenseCount::new(keys));
    let cases = [
        (0, None, None, false, 0),
        (1, Some(-5), Some(5), true, 3),
        (2, Some(-10), Some(10), true, 9),
        (3, None, None, false, 0),
    ];
    for (at, least, greatest, any, many) in cases {
        let blank = || Blank::new(1);
        assert_eq!(rt;
            doubled::<DenseMin, Brand>(&min, alloc, 1, Some(-5), at, blank())?,
            least
        );
        assert_eq!(rt;
            doubled::<DenseMax, Brand>(&max, alloc, 1, Some(5), at, blank())?,
            greatest
        );
        assert_eq!(rt;
            doubled::<DenseTruth, Brand>(&truth, alloc, 1, true, at, blank())?,
            any
        );
        assert_eq!(rt;
            doubled::<DenseCount, Brand>(&count, alloc, 1, 3, at, blank())?,
            many
        );
    }
    let (a, b) = (
        min.single(alloc, 1, Some(-5))?,
        min.single(alloc, 1, Some(2))?,
    );
    assert_eq!(rt; added(&min, alloc, &a, &b, 1)?, Some(-5));
    assert_eq!(rt; added(&min, alloc, &a, &b, 0)?, Some(0));
    Ok(())
}

fn rising(from: u32, to: u32, len: u32) -> Span {
    Span {
        from,
        to,
        len,
        rises: true,
    }
}

fn folded(from: u32, to: u32, len: u32) -> Span {
    Span {
        from,
        to,
        len,
        rises: false,
    }
}

// The spans of an element; none where it is no element.
fn spans_of<M: Monoid>(monoid: &M, alloc: Global, a: u32) -> Result<Option<Vec<Span>>, AllocError> {
    if a < monoid.size() {
        Ok(Some(monoid.spans(alloc, a)?))
    } else {
        Ok(None)
    }
}

#[test]
fn runs_of_sums_and_remainders(rt: HostRuntime) -> Result<(), Fail> {
    let alloc = rt.alloc();
    let sum = CappedSum { bound: 3 };
    let remainder = Modular { modulus: 5 };
    let sums: [(u32, &[Span]); 3] = [
        (0, &[rising(0, 0, 5)]),
        (2, &[rising(0, 2, 3), folded(3, 4, 2)]),
        (4, &[rising(0, 4, 1), folded(1, 4, 4)]),
    ];
    for (a, spans) in sums {
        let found = spans_of(&sum, alloc, a)?.expect(&rt, "an element");
        assert_eq!(rt; found.as_slice(), spans, "of the sum with {a}");
    }
    let remainders: [(u32, &[Span]); 2] = [
        (0, &[rising(0, 0, 5)]),
        (3, &[rising(0, 3, 2), rising(2, 0, 3)]),
    ];
    for (a, spans) in remainders {
        let found = spans_of(&remainder, alloc, a)?.expect(&rt, "an element");
        assert_eq!(rt; found.as_slice(), spans, "of the remainder with {a}");
    }
    Ok(())
}

#[test]
fn runs_of_a_product(rt: HostRuntime) -> Result<(), Fail> {
    let alloc = rt.alloc();
    let mut parts = Vec::new(alloc);
    parts.push(bits(alloc)?.expect(&rt, "a lawful table"))?;
    parts.push(Component::Capped(CappedSum { bound: 1 }))?;
    let product = product_of(parts).ok().expect(&rt, "a small product");
    let cases: [(u32, &[Span]); 3] = [
        (0, &[rising(0, 0, 3), rising(3, 3, 3)]),
        (
            4,
            &[
                rising(0, 4, 2),
                folded(2, 5, 1),
                rising(3, 1, 2),
                folded(5, 2, 1),
            ],
        ),
        (
            2,
            &[
                rising(0, 2, 1),
                folded(1, 2, 2),
                rising(3, 5, 1),
                folded(4, 5, 2),
            ],
        ),
    ];
    for (a, spans) in cases {
        let found = spans_of(&product, alloc, a)?.expect(&rt, "a key");
        assert_eq!(rt; found.as_slice(), spans, "by {a}");
    }
    Ok(())
}
