//! Marks kept as runs: which runs they are, how they compare, and the best lists over them.
use crate::best_lists::{CANDIDATES, SUBLISTS, assert_answer, sublists, sum_of_candidates};
use best_k::{RunsByTotal, best_sums_are_aggregates, listed, run_sums_are_aggregates};
use first_k::FirstK;
use mark_runs::{Run, Runs};
use shape_gen::Mark;
use std::alloc::{AllocError, Global};
use std::cmp::Ordering;
use std::marker::Brand;
use std::process::Abort;
use std::sync::ledger::Blank;
use std::test::Fail;
use witness_order::shortlex;

// Marks, each a row and a label.
type Marks<'a> = &'a [(u32, u32)];

// These runs and one mark more, joined.
fn joined_to(alloc: Global, runs: &Runs, mark: Mark) -> Result<Runs, AllocError> {
    let next = Runs::of_mark(alloc, mark)?;
    Runs::joined(alloc, runs, &next)
}

// The runs of these marks, joined one by one.
fn of_marks(alloc: Global, marks: Marks) -> Result<Runs, AllocError> {
    let mut runs = Runs::none(alloc);
    for (row, label) in marks {
        let mark = Mark {
            row: *row,
            label: *label,
        };
        runs = joined_to(alloc, &runs, mark)?;
    }
    Ok(runs)
}

// The runs are these, each a row, a count and a label.
fn are_runs(runs: &[Run], expected: &[(u32, u32, u32)]) -> bool {
    if runs.len() != expected.len() {
        return false;
    }
    for (run, (row, count, label)) in runs.iter().zip(expected) {
        if run.row != *row || run.count != *count || run.label != *label {
            return false;
        }
    }
    true
}

// The marks are these.
fn are_marks(marks: &[Mark], expected: Marks) -> bool {
    if marks.len() != expected.len() {
        return false;
    }
    for (mark, (row, label)) in marks.iter().zip(expected) {
        if mark.row != *row || mark.label != *label {
            return false;
        }
    }
    true
}

fn assert_runs(rt: &impl Abort, runs: &[Run], expected: &[(u32, u32, u32)]) {
    assert!(rt; are_runs(runs, expected), "{runs:?} are not {expected:?}");
}

fn assert_marks(rt: &impl Abort, marks: &[Mark], expected: Marks) {
    assert!(rt;
        are_marks(marks, expected),
        "{marks:?} are not {expected:?}"
    );
}

// The marks, joined one by one, are these runs, and one by one themselves.
fn assert_joined(
    rt: &impl Abort,
    alloc: Global,
    marks: Marks,
    expected: &[(u32, u32, u32)],
) -> Result<(), Fail> {
    let runs = of_marks(alloc, marks)?;
    assert_runs(rt, runs.runs(), expected);
    let witness = runs.witness(alloc)?;
    assert_marks(rt, witness.marks(), marks);
    Ok(())
}

#[test]
fn marks_that_go_on_are_one_run(rt: HostRuntime) -> Result<(), Fail> {
    let alloc = rt.alloc();
    let cases: [(Marks, &[(u32, u32, u32)]); 9] = [
        (&[], &[]),
        (&[(4, 0)], &[(4, 1, 0)]),
        (&[(0, 0), (1, 0), (2, 0)], &[(0, 3, 0)]),
        (&[(0, 0), (1, 1), (2, 1)], &[(0, 1, 0), (1, 2, 1)]),
        (&[(0, 0), (2, 0), (3, 0)], &[(0, 1, 0), (2, 2, 0)]),
        (&[(1, 0), (0, 0)], &[(1, 1, 0), (0, 1, 0)]),
        (&[(5, 0), (5, 0)], &[(5, 1, 0), (5, 1, 0)]),
        (
            &[(0, 0), (2, 0), (4, 0)],
            &[(0, 1, 0), (2, 1, 0), (4, 1, 0)],
        ),
        (&[(4294967294, 7), (4294967295, 7)], &[(4294967294, 2, 7)]),
    ];
    for (marks, expected) in cases {
        assert_joined(&rt, alloc, marks, expected)?;
    }
    Ok(())
}

// How the marks compare one by one.
fn compared_singly(alloc: Global, left: &Runs, right: &Runs) -> Result<Ordering, AllocError> {
    let left = left.witness(alloc)?;
    let right = right.witness(alloc)?;
    Ok(shortlex(&left, &right))
}

// How a copy compares with the runs that it is of.
fn compared_with_copy(alloc: Global, runs: &Runs) -> Result<Ordering, AllocError> {
    let copy = Runs::copied(alloc, runs)?;
    Ok(Runs::shortlex(&copy, runs))
}

// How the left marks compare with the right ones, as runs and one by one, and how a copy of the left runs does with
// them.
fn orders_of_marks(
    alloc: Global,
    left: Marks,
    right: Marks,
) -> Result<(Ordering, Ordering, Ordering), AllocError> {
    let left = of_marks(alloc, left)?;
    let right = of_marks(alloc, right)?;
    let singly = compared_singly(alloc, &left, &right)?;
    let with_copy = compared_with_copy(alloc, &left)?;
    Ok((Runs::shortlex(&left, &right), singly, with_copy))
}

fn assert_orders(
    rt: &impl Abort,
    alloc: Global,
    left: Marks,
    right: Marks,
    order: Ordering,
) -> Result<(), Fail> {
    let orders = orders_of_marks(alloc, left, right)?;
    assert_eq!(rt;
        orders,
        (order, order, Ordering::Equal),
        "at {left:?} and {right:?}"
    );
    Ok(())
}

#[test]
fn runs_compare_as_their_marks(rt: HostRuntime) -> Result<(), Fail> {
    let alloc = rt.alloc();
    let cases: [(Marks, Marks, Ordering); 9] = [
        (&[], &[], Ordering::Equal),
        (&[], &[(0, 0)], Ordering::Less),
        (&[(9, 0)], &[(0, 0), (1, 0)], Ordering::Less),
        (&[(0, 0), (3, 0)], &[(2, 0)], Ordering::Greater),
        (&[(0, 0), (1, 0)], &[(0, 0), (2, 0)], Ordering::Less),
        (
            &[(0, 0), (1, 0), (2, 0)],
            &[(0, 0), (1, 0), (2, 0)],
            Ordering::Equal,
        ),
        (
            &[(0, 0), (1, 0), (5, 0)],
            &[(0, 0), (1, 0), (2, 0)],
            Ordering::Greater,
        ),
        (&[(1, 0), (2, 0)], &[(1, 0), (2, 1)], Ordering::Less),
        (&[(1, 1), (2, 0)], &[(1, 0), (2, 1)], Ordering::Greater),
    ];
    for (left, right, order) in cases {
        assert_orders(&rt, alloc, left, right, order)?;
    }
    Ok(())
}

// How a and b joined compare with c and d joined: walked, and made.
fn walked_and_made(
    alloc: Global,
    (a, b): (&Runs, &Runs),
    (c, d): (&Runs, &Runs),
) -> Result<(Ordering, Ordering), AllocError> {
    let left = Runs::joined(alloc, a, b)?;
    let right = Runs::joined(alloc, c, d)?;
    let walked = Runs::shortlex_joined(a, b, c, d);
    Ok((walked, Runs::shortlex(&left, &right)))
}

// The same, where c and d are given by their marks.
fn orders_before(
    alloc: Global,
    left: (&Runs, &Runs),
    right: (Marks, Marks),
) -> Result<(Ordering, Ordering), AllocError> {
    let c = of_marks(alloc, right.0)?;
    let d = of_marks(alloc, right.1)?;
    walked_and_made(alloc, left, (&c, &d))
}

// The same, where all four are given by their marks.
fn orders_of_joins(
    alloc: Global,
    left: (Marks, Marks),
    right: (Marks, Marks),
) -> Result<(Ordering, Ordering), AllocError> {
    let a = of_marks(alloc, left.0)?;
    let b = of_marks(alloc, left.1)?;
    orders_before(alloc, (&a, &b), right)
}

fn assert_joins(
    rt: &impl Abort,
    alloc: Global,
    left: (Marks, Marks),
    right: (Marks, Marks),
    order: Ordering,
) -> Result<(), Fail> {
    let orders = orders_of_joins(alloc, left, right)?;
    assert_eq!(rt; orders, (order, order), "at {left:?} and {right:?}");
    Ok(())
}

const ROWS: Marks = &[(0, 0), (1, 0), (2, 0)];

const FRONT: Marks = &[(0, 0)];

const BACK: Marks = &[(1, 0), (2, 0)];

const FAR: Marks = &[(1, 0), (3, 0)];

const NONE: Marks = &[];

#[test]
fn joins_compare_wherever_they_are_cut(rt: HostRuntime) -> Result<(), Fail> {
    let alloc = rt.alloc();
    let cases = [
        (ROWS, NONE, NONE, ROWS, Ordering::Equal),
        (ROWS, NONE, FRONT, BACK, Ordering::Equal),
        (FRONT, BACK, FRONT, FAR, Ordering::Less),
        (FRONT, FAR, ROWS, NONE, Ordering::Greater),
        (BACK, FRONT, FRONT, BACK, Ordering::Greater),
        (FRONT, NONE, NONE, BACK, Ordering::Less),
        (NONE, NONE, NONE, NONE, Ordering::Equal),
    ];
    for (a, b, c, d, order) in cases {
        assert_joins(&rt, alloc, (a, b), (c, d), order)?;
    }
    Ok(())
}

#[test]
fn the_first_of_some_candidates_over_runs(rt: HostRuntime) -> Result<(), Fail> {
    let alloc = rt.alloc();
    for (k, greatest, candidates, expected) in CANDIDATES {
        assert!(rt; 1 <= k && k <= 64);
        let ranked = RunsByTotal::<i64>::of(greatest);
        let kit = FirstK { ranked, k };
        let firsts = sum_of_candidates::<FirstK<RunsByTotal<i64>>, Brand>(
            &kit,
            alloc,
            candidates,
            Blank::new(1),
        )?;
        let best = listed(alloc, &firsts)?;
        assert_answer(&rt, &best, expected);
    }
    Ok(())
}

#[test]
fn the_first_of_all_sublists_over_runs(rt: HostRuntime) -> Result<(), Fail> {
    let alloc = rt.alloc();
    for (k, greatest, weights, expected) in SUBLISTS {
        assert!(rt; 1 <= k && k <= 64);
        let ranked = RunsByTotal::<i64>::of(greatest);
        let kit = FirstK { ranked, k };
        let firsts = sublists::<FirstK<RunsByTotal<i64>>, Brand>(
            &kit,
            alloc,
            weights,
            Blank::new(1),
        )?;
        let best = listed(alloc, &firsts)?;
        assert_answer(&rt, &best, expected);
    }
    Ok(())
}

#[test]
fn the_laws_of_sums(_rt: HostRuntime) {
    best_sums_are_aggregates::<i64>();
    run_sums_are_aggregates::<i64>();
}
