//! Worked sums and products, through the trait. The functions that make them serve lists of any entries.

ghost use Rattle.std.specs.Prelude.{◌≡◌, ◌<◌, ◌≤◌, ℤ, unsigned_abs, IfOk};
ghost use Rattle.step_count.specs.Blanks.{IsBlankOf};
ghost use Rattle.semiring_kit.specs.Semiring.{IsGood};

use best_k::{Best, BestK, Entry};
use semiring_kit::Semiring;
use shape_gen::Mark;
use std::alloc::{AllocError, Global};
use std::marker::Brand;
use std::process::Abort;
use std::sync::ledger::{Blank, Ledger};
use std::test::Fail;
use step_count::Steps;

// The most marks that a worked candidate has.
const MOST: usize = 8;

// The product of marks, which have these rows and weights.
fn candidate<S: Semiring<Weight = i64>, L: Ledger>(
    kit: &S,
    alloc: Global,
    marks: &[(u32, i32)],
    steps: &mut Steps<L>,
) -> Result<S::Elem, AllocError>
    requires plain { (weight : ℤ) → S.weight_reach kit.now weight ≤ unsigned_abs weight }
    ensures { IfOk result (IsGood (S.ring kit.now)) }
{
    let mut product = kit.one(alloc)?;
    if marks.len() > MOST {
        return Ok(product);
    }
    'marks: for (row, weight) in marks {
        let mark = Mark {
            row: *row,
            label: 0,
        };
        let factor = kit.of_mark(alloc, mark, i64::from(*weight))?;
        product = kit.mul(alloc, &product, &factor, steps)?;
    }
    Ok(product)
}

// The sum of the candidates.
pub(crate) fn sum_of_candidates<S: Semiring<Weight = i64>, L: Ledger>(
    kit: &S,
    alloc: Global,
    candidates: &[&[(u32, i32)]],
    blank: Blank,
) -> Result<S::Elem, AllocError>
    requires plain { (weight : ℤ) → S.weight_reach kit.now weight ≤ unsigned_abs weight }
    requires blank { IsBlankOf L.name L.parts blank }
{
    let mut steps = Steps::<L>::new(blank);
    let mut sum = kit.zero(alloc)?;
    'candidates: for marks in candidates {
        let next = candidate(kit, alloc, marks, &mut steps)?;
        sum = kit.sum(alloc, sum, next)?;
    }
    Ok(sum)
}

// A choice of nothing or of the row, at this weight.
fn choice<S: Semiring<Weight = i64>>(
    kit: &S,
    alloc: Global,
    row: u32,
    weight: i32,
) -> Result<S::Elem, AllocError>
    requires plain { (weight : ℤ) → S.weight_reach kit.now weight ≤ unsigned_abs weight }
    ensures sound { IfOk result (S.ring kit.now).is_sound }
    ensures light { IfOk result (λ elem. (S.ring kit.now).reach elem ≤ 2147483648) }
{
    let left = kit.one(alloc)?;
    let taken = kit.of_mark(alloc, Mark { row, label: 0 }, i64::from(weight))?;
    kit.add(alloc, &left, &taken)
}

// The product of the choices of rows, at these weights.
fn product_of_choices<S: Semiring<Weight = i64>, L: Ledger>(
    kit: &S,
    alloc: Global,
    weights: &[i32],
    steps: &mut Steps<L>,
) -> Result<S::Elem, AllocError>
    requires plain { (weight : ℤ) → S.weight_reach kit.now weight ≤ unsigned_abs weight }
{
    let mut product = kit.one(alloc)?;
    if weights.len() > MOST {
        return Ok(product);
    }
    let mut row = 0;
    'rows: for weight in weights {
        let choice = choice(kit, alloc, row, *weight)?;
        product = kit.mul(alloc, &product, &choice, steps)?;
        row = row.saturating_add(1);
    }
    Ok(product)
}

// The product over rows, of which each is left or taken, at these weights.
pub(crate) fn sublists<S: Semiring<Weight = i64>, L: Ledger>(
    kit: &S,
    alloc: Global,
    weights: &[i32],
    blank: Blank,
) -> Result<S::Elem, AllocError>
    requires plain { (weight : ℤ) → S.weight_reach kit.now weight ≤ unsigned_abs weight }
    requires blank { IsBlankOf L.name L.parts blank }
{
    let mut steps = Steps::<L>::new(blank);
    product_of_choices(kit, alloc, weights, &mut steps)
}

// The rows of the marks are these.
fn are_rows(marks: &[Mark], expected: &[u32]) -> bool {
    if marks.len() != expected.len() {
        return false;
    }
    for (mark, row) in marks.iter().zip(expected) {
        if mark.row != *row {
            return false;
        }
    }
    true
}

// The totals and the rows of the entries are these.
fn are_entries(entries: &[Entry<i64>], expected: &[(i64, &[u32])]) -> bool {
    if entries.len() != expected.len() {
        return false;
    }
    for (entry, (total, rows)) in entries.iter().zip(expected) {
        if entry.total != *total || !are_rows(entry.witness.marks(), rows) {
            return false;
        }
    }
    true
}

// The totals and the rows of the entries are these.
pub(crate) fn assert_answer(rt: &impl Abort, best: &Best<i64>, expected: &[(i64, &[u32])]) {
    assert!(rt;
        are_entries(best.entries(), expected),
        "{best:?} is not {expected:?}"
    );
}

// How many are listed, whether the greatest totals are, the candidates, each by its rows and weights, and the first.
pub(crate) const CANDIDATES: [(u32, bool, &[&[(u32, i32)]], &[(i64, &[u32])]); 4] = [
    (
        3,
        true,
        &[&[(1, 0)], &[(0, 0), (1, 0)], &[(2, 0)], &[], &[(0, 0)]],
        &[(0, &[]), (0, &[0]), (0, &[1])],
    ),
    (
        3,
        true,
        &[&[], &[(0, 1)], &[(1, 2)], &[(0, 1), (1, 2)], &[(2, 3)]],
        &[(3, &[2]), (3, &[0, 1]), (2, &[1])],
    ),
    (
        2,
        false,
        &[&[(0, 5)], &[(1, -2)], &[(2, 4)]],
        &[(-2, &[1]), (4, &[2])],
    ),
    (
        3,
        true,
        &[&[(0, 1), (1, 2)], &[(2, 3)], &[(0, 1), (2, 2)], &[(1, 3)]],
        &[(3, &[1]), (3, &[2]), (3, &[0, 1])],
    ),
];

// The same of all sublists of rows at these weights.
pub(crate) const SUBLISTS: [(u32, bool, &[i32], &[(i64, &[u32])]); 5] = [
    (3, true, &[0, 0, 0], &[(0, &[]), (0, &[0]), (0, &[1])]),
    (
        4,
        false,
        &[1, -1, 1, -1],
        &[(-2, &[1, 3]), (-1, &[1]), (-1, &[3]), (-1, &[0, 1, 3])],
    ),
    (
        2,
        true,
        &[60, 100, 120],
        &[(280, &[0, 1, 2]), (220, &[1, 2])],
    ),
    (3, false, &[2, -1, 3], &[(-1, &[1]), (0, &[]), (1, &[0, 1])]),
    (
        64,
        true,
        &[1, 1],
        &[(2, &[0, 1]), (1, &[0]), (1, &[1]), (0, &[])],
    ),
];

#[test]
fn the_first_of_some_candidates(rt: HostRuntime) -> Result<(), Fail> {
    let alloc = rt.alloc();
    for (k, greatest, candidates, expected) in CANDIDATES {
        assert!(rt; 1 <= k && k <= 64);
        let kit = BestK::<i64>::of(k, greatest);
        let best = sum_of_candidates::<BestK<i64>, Brand>(&kit, alloc, candidates, Blank::new(1))?;
        assert_answer(&rt, &best, expected);
    }
    Ok(())
}

#[test]
fn the_first_of_all_sublists(rt: HostRuntime) -> Result<(), Fail> {
    let alloc = rt.alloc();
    for (k, greatest, weights, expected) in SUBLISTS {
        assert!(rt; 1 <= k && k <= 64);
        let kit = BestK::<i64>::of(k, greatest);
        let best = sublists::<BestK<i64>, Brand>(&kit, alloc, weights, Blank::new(1))?;
        assert_answer(&rt, &best, expected);
    }
    Ok(())
}
