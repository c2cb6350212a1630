//! Worked answers of every shape, by one leaf and by cuts into three, over sums with a bound and over a monoid in which
//! factors may not change places.

ghost use Rattle.std.specs.Prelude.{◌≡◌, ◌⊎◌, ℕ, ◌+◌, ◌*◌, ◌<◌, ◌≤◌, length, IfOk, ℤ, unsigned_abs};
ghost use Rattle.step_count.specs.Blanks.{IsBlankOf};
ghost use Rattle.monoid_kit.specs.Items.{AllElements};
ghost use Rattle.semiring_kit.specs.Semiring.{IsGood};
ghost use Rattle.shape_gen.specs.declared.shape.Shape.TheVariants.{Assign};
ghost use Rattle.fuse_core.specs.Letters.{rows_reach};

use fuse_core::{Letter, Plan, finish, plan_of};
use interval_kit::Fused;
use key_map::{MapKit, SparseKit};
use monoid_kit::{CappedSum, GREATEST_BOUND, Monoid};
use semiring_kit::{Count, MaxPlus, Semiring};
use shape_gen::{Mark, Shape};
use std::alloc::{AllocError, Global};
use std::marker::Brand;
use std::process::Abort;
use std::sync::ledger::{Blank, Ledger};
use std::test::Fail;
use step_count::Steps;

// Three elements, of which 0 is the unit. Of two others the right one is the product, or the left one.
#[derive(Drop)]
struct ZeroBand {
    right: bool,
}

impl Monoid for ZeroBand {
    ghost use Rattle.key_map.specs.ZeroBand.{zero_band, zero_band-IsMonoid};

    ghost size = { λ band. 3 };

    ghost unit = { λ band. 0 };

    ghost mul = { λ band. zero_band band.right };

    ghost laws = { λ band. zero_band-IsMonoid band.right };

    fn size(&self) -> u32 {
        3
    }

    fn unit(&self) -> u32 {
        0
    }

    fn mul(&self, a: u32, b: u32) -> u32 {
        if self.right {
            if b == 0 { a } else { b }
        } else {
            if a == 0 { b } else { a }
        }
    }
}

// A letter for each value and weight. Its key is the value, or the greatest key where the value is greater.
fn letters_of<S: Semiring<Weight = i64>>(
    alloc: Global,
    kit: &S,
    size: u32,
    marks: &[(u32, i16)],
) -> Result<Vec<Letter<S::Elem>>, AllocError>
    requires some_key { 1 ≤ size }
    requires plain { (weight : ℤ) → S.weight_reach kit.now weight ≤ unsigned_abs weight }
    ensures count { IfOk result (λ letters. length letters.items ≡ length marks.now) }
    ensures keys { IfOk result (λ letters. AllElements (λ key. key < size) (λ letter. letter.key) letters.items) }
    ensures good { let ring = S.ring kit.now in
        IfOk result (λ letters. AllElements (IsGood ring) (λ letter. letter.elem) letters.items) }
    ensures near { let ring = S.ring kit.now in
        IfOk result (λ letters. (labels rows : ℕ) → rows_reach ring labels letters.items 0 rows ≤ rows * 32768) }
{
    let mut letters = Vec::with_capacity(alloc, marks.len())?;
    for (value, weight) in marks {
        let mark = Mark { row: 0, label: 0 };
        let elem = kit.of_mark(alloc, mark, i64::from(*weight))?;
        letters.push(Letter {
            key: (*value).min(size - 1),
            elem,
        })?;
    }
    Ok(letters)
}

// The plan of a shape over maps of slots. Marks stand by row, and then by label.
fn plan_over<S: Semiring<Weight = i64>, M: Monoid>(
    alloc: Global,
    shape: Shape,
    rows: u32,
    labels: u32,
    kit: S,
    keys: M,
    marks: &[(u32, i16)],
) -> Result<Plan<SparseKit<S, M>>, AllocError>
    requires some_label { 1 ≤ labels }
    requires one_label { (shape ≡ Assign) ⊎ (labels ≡ 1) }
    requires count { length marks.now ≡ rows * labels }
    requires plain { (weight : ℤ) → S.weight_reach kit weight ≤ unsigned_abs weight }
    ensures kit { IfOk result (λ plan. plan.kit.keys ≡ keys) }
    ensures rows { IfOk result (λ plan. plan.rows ≡ rows) }
{
    let letters = letters_of(alloc, &kit, keys.size(), marks)?;
    let kit = SparseKit { kit, keys };
    Ok(plan_of(shape, rows, labels, kit, letters))
}

type Sum<K> = <<K as MapKit>::Kit as Semiring>::Elem;

// The sums by one leaf, and by three whose joins begin at the left, or at the right.
fn sums<K: MapKit, L: Ledger>(
    alloc: Global,
    plan: &Plan<K>,
    first: u32,
    second: u32,
    accept: &[bool],
    blank: Blank,
) -> Result<(Sum<K>, Sum<K>, Sum<K>), AllocError>
    requires ordered { first ≤ second }
    requires within { second ≤ plan.now.rows }
    requires one_a_key { length accept.now ≡ K.Keys.size (K.keys plan.now.kit) }
    requires blank { IsBlankOf L.name L.parts blank }
{
    let mut steps = Steps::<L>::new(blank);
    let rows = plan.rows();
    let all = plan.leaf(alloc, 0, rows, &mut steps)?;
    let left = plan.leaf(alloc, 0, first, &mut steps)?;
    let middle = plan.leaf(alloc, first, second, &mut steps)?;
    let right = plan.leaf(alloc, second, rows, &mut steps)?;
    let front = plan.join(alloc, 0, first, second, &left, &middle, &mut steps)?;
    let back = plan.join(alloc, first, second, rows, &middle, &right, &mut steps)?;
    let from_left = plan.join(alloc, 0, second, rows, &front, &right, &mut steps)?;
    let from_right = plan.join(alloc, 0, first, rows, &left, &back, &mut steps)?;
    Ok((
        finish(alloc, plan, &all, accept)?,
        finish(alloc, plan, &from_left, accept)?,
        finish(alloc, plan, &from_right, accept)?,
    ))
}

// Two labels where rows are labelled.
fn labels_of(shape: Shape) -> u32
    ensures some_label { 1 ≤ result }
    ensures one_label { (shape ≡ Assign) ⊎ (result ≡ 1) }
{
    match shape {
        Shape::Assign => 2,
        Shape::Sublists | Shape::Prefixes | Shape::Suffixes | Shape::Segments => 1,
    }
}

// The greatest accepted total comes out by one leaf, and by cuts at each row and at half of the rows before it.
fn assert_greatest<M: Monoid>(
    rt: &impl Abort,
    alloc: Global,
    shape: Shape,
    keys: M,
    marks: &[(u32, i16)],
    accept: &[bool],
    greatest: Option<i64>,
) -> Result<(), Fail> {
    let labels = labels_of(shape);
    let rows = u32::try_from(marks.len())? / labels;
    assert_eq!(rt; marks.len(), rows as usize * labels as usize);
    assert_eq!(rt; accept.len(), keys.size() as usize);
    let plan = plan_over(alloc, shape, rows, labels, MaxPlus, keys, marks)?;
    for second in 0..=rows {
        let first = second / 2;
        let answers = sums::<SparseKit<MaxPlus, M>, Brand>(
            alloc,
            &plan,
            first,
            second,
            accept,
            Blank::new(1),
        )?;
        assert_eq!(rt;
            answers,
            (greatest, greatest, greatest),
            "{shape:?} of {marks:?} cut at {first} and {second}"
        );
    }
    Ok(())
}

// The number of accepted candidates comes out in the same way.
fn assert_count<M: Monoid>(
    rt: &impl Abort,
    alloc: Global,
    shape: Shape,
    keys: M,
    marks: &[(u32, i16)],
    accept: &[bool],
    count: u64,
) -> Result<(), Fail> {
    let labels = labels_of(shape);
    let rows = u32::try_from(marks.len())? / labels;
    assert_eq!(rt; marks.len(), rows as usize * labels as usize);
    assert_eq!(rt; accept.len(), keys.size() as usize);
    let plan = plan_over(alloc, shape, rows, labels, Count, keys, marks)?;
    for second in 0..=rows {
        let first = second / 2;
        let answers = sums::<SparseKit<Count, M>, Brand>(
            alloc,
            &plan,
            first,
            second,
            accept,
            Blank::new(1),
        )?;
        assert_eq!(rt;
            answers,
            (count, count, count),
            "{shape:?} of {marks:?} cut at {first} and {second}"
        );
    }
    Ok(())
}

#[test]
fn choices_and_labels_within_a_bound(rt: HostRuntime) -> Result<(), Fail> {
    let values = [(3, 3), (4, 4), (2, 2)].as_slice();
    let small = [(0, 0), (1, 1)].as_slice();
    let labelled = [(1, 4), (2, 9), (0, -1), (3, 5)].as_slice();
    let no_rows = [].as_slice();
    let up_to_5 = [true, true, true, true, true, true, false].as_slice();
    let up_to_3 = [true, true, true, true, false].as_slice();
    let up_to_1 = [true, true, false].as_slice();
    let up_to_0 = [true, false].as_slice();
    let beyond_0 = [false, true].as_slice();
    let only_4_of_5 = [false, false, false, false, true, false, false].as_slice();
    let cases = [
        (Shape::Sublists, 5, values, up_to_5, Some(5)),
        (Shape::Sublists, 5, values, only_4_of_5, Some(4)),
        (Shape::Sublists, 0, values, beyond_0, Some(9)),
        (Shape::Sublists, 0, small, up_to_0, Some(0)),
        (Shape::Sublists, 0, no_rows, up_to_0, Some(0)),
        (Shape::Sublists, 0, no_rows, beyond_0, None),
        (Shape::Assign, 3, labelled, up_to_3, Some(8)),
        (Shape::Assign, 1, labelled, up_to_1, Some(3)),
        (Shape::Assign, 0, labelled, up_to_0, None),
        (Shape::Assign, 0, no_rows, up_to_0, Some(0)),
    ];
    for (shape, bound, marks, accept, greatest) in cases {
        assert!(rt; bound <= GREATEST_BOUND);
        let keys = CappedSum { bound };
        assert_greatest(&rt, rt.alloc(), shape, keys, marks, accept, greatest)?;
    }
    Ok(())
}

#[test]
fn runs_within_a_bound(rt: HostRuntime) -> Result<(), Fail> {
    let values = [(3, 3), (4, 4), (2, 2)].as_slice();
    let rising = [(1, 1), (1, -2), (1, 4), (1, -5)].as_slice();
    let falling = [(1, -5), (1, 4), (1, -2)].as_slice();
    let losses = [(0, -3), (0, -1)].as_slice();
    let taken_losses = [(1, -3), (1, -1)].as_slice();
    let long = [
        (1, -2),
        (1, 1),
        (1, -3),
        (1, 4),
        (1, -1),
        (1, 2),
        (1, 1),
        (1, -5),
        (1, 4),
    ]
    .as_slice();
    let no_rows = [].as_slice();
    let up_to_5 = [true, true, true, true, true, true, false].as_slice();
    let up_to_0 = [true, false].as_slice();
    let beyond_0 = [false, true].as_slice();
    let all = [true, true].as_slice();
    let only_1 = [false, true, false].as_slice();
    let only_2 = [false, false, true, false].as_slice();
    let cases = [
        (Shape::Prefixes, 5, values, up_to_5, Some(3)),
        (Shape::Suffixes, 5, values, up_to_5, Some(2)),
        (Shape::Segments, 5, values, up_to_5, Some(4)),
        (Shape::Prefixes, 0, rising, all, Some(3)),
        (Shape::Prefixes, 1, rising, only_1, Some(1)),
        (Shape::Prefixes, 0, no_rows, up_to_0, Some(0)),
        (Shape::Suffixes, 0, falling, all, Some(2)),
        (Shape::Suffixes, 1, falling, only_1, Some(-2)),
        (Shape::Suffixes, 0, no_rows, beyond_0, None),
        (Shape::Segments, 0, losses, all, Some(0)),
        (Shape::Segments, 0, losses, beyond_0, None),
        (Shape::Segments, 0, long, all, Some(6)),
        (Shape::Segments, 0, taken_losses, beyond_0, Some(-1)),
        (Shape::Segments, 2, long, only_2, Some(3)),
        (Shape::Segments, 0, no_rows, up_to_0, Some(0)),
    ];
    for (shape, bound, marks, accept, greatest) in cases {
        assert!(rt; bound <= GREATEST_BOUND);
        let keys = CappedSum { bound };
        assert_greatest(&rt, rt.alloc(), shape, keys, marks, accept, greatest)?;
    }
    Ok(())
}

#[test]
fn keys_keep_the_order_of_rows(rt: HostRuntime) -> Result<(), Fail> {
    let two = [(1, 5), (2, 7)].as_slice();
    let three = [(1, 5), (2, -3), (1, 4)].as_slice();
    let labelled = [(1, 1), (2, 2), (1, 10), (2, 20)].as_slice();
    let cases = [
        (Shape::Sublists, two, 1, Some(12), Some(5)),
        (Shape::Sublists, two, 2, Some(7), Some(12)),
        (Shape::Assign, labelled, 1, Some(21), Some(12)),
        (Shape::Prefixes, three, 2, None, Some(2)),
        (Shape::Suffixes, three, 2, Some(1), None),
        (Shape::Segments, three, 1, Some(6), Some(6)),
        (Shape::Segments, three, 2, Some(1), Some(2)),
    ];
    for (shape, marks, key, by_first, by_last) in cases {
        let accept = [false, key == 1, key == 2];
        let first = ZeroBand { right: false };
        assert_greatest(&rt, rt.alloc(), shape, first, marks, &accept, by_first)?;
        let last = ZeroBand { right: true };
        assert_greatest(&rt, rt.alloc(), shape, last, marks, &accept, by_last)?;
    }
    Ok(())
}

#[test]
fn as_many_as_pass(rt: HostRuntime) -> Result<(), Fail> {
    let ones = [(1, 1); 10].as_slice();
    let three = [(1, 1); 3].as_slice();
    let values = [(3, 3), (4, 4), (2, 2)].as_slice();
    let labelled = [(1, 1), (0, 0), (2, 2), (0, 0), (3, 3), (0, 0)].as_slice();
    let no_rows = [].as_slice();
    let only_3_of_3 = [false, false, false, true, false].as_slice();
    let only_2_of_2 = [false, false, true, false].as_slice();
    let from_2_of_2 = [false, false, true, true].as_slice();
    let up_to_2 = [true, true, true, false].as_slice();
    let up_to_5 = [true, true, true, true, true, true, false].as_slice();
    let up_to_0 = [true, false].as_slice();
    let all = [true, true].as_slice();
    let cases = [
        (Shape::Sublists, 3, ones, only_3_of_3, 120),
        (Shape::Sublists, 2, three, from_2_of_2, 4),
        (Shape::Sublists, 2, three, only_2_of_2, 3),
        (Shape::Sublists, 2, three, up_to_2, 7),
        (Shape::Sublists, 0, no_rows, up_to_0, 1),
        (Shape::Assign, 3, labelled, only_3_of_3, 2),
        (Shape::Prefixes, 5, values, up_to_5, 2),
        (Shape::Suffixes, 5, values, up_to_5, 2),
        (Shape::Segments, 5, values, up_to_5, 4),
        (Shape::Segments, 0, three, all, 7),
    ];
    for (shape, bound, marks, accept, count) in cases {
        assert!(rt; bound <= GREATEST_BOUND);
        let keys = CappedSum { bound };
        assert_count(&rt, rt.alloc(), shape, keys, marks, accept, count)?;
    }
    Ok(())
}
