//! Worked examples by hand: which candidates pass, what they weigh, and the first heavy row.
//! One specification serves all: a column v, labels A and B, and measures v, onA = v if label A,
//! and steps = -3*v + 2 if v >= 1 ; 7.

ghost use Rattle.std.specs.Prelude.{[], ◌≡◌, ◌<◌, ◌≤◌, ◌^◌, All, IsTrue, IfOk, length};
ghost use Rattle.std.specs.List.{list_all};
ghost use Rattle.gta_checked.specs.Cells.{is_cell};
ghost use Rattle.gta_checked.specs.Plain.{plain_case, plain_measure, plain_test};
ghost use Rattle.gta_checked.specs.Within.{IsAtomWithin, IsCaseWithin, IsGoalWithin};
ghost use Rattle.gta_checked.specs.Within.{IsMeasureWithin, IsTermWithin, IsTestWithin};
ghost use Rattle.gta_checked.specs.PlainRows.{plain_rows};
ghost use Rattle.gta_meaning.specs.InRange.{HasColumnsOf, IsInRange, label_count};

use gta_checked::{Atom, Case, Checked, Goal, Measure, Rows, Term, Test};
use gta_meaning::{Candidate, first_heavy, label_count, passes, value_of, weight_of};
use gta_spec::{Check, Cmp, ColumnItem};
use gta_text::Name;
use shape_gen::{Mark, Shape};
use std::alloc::{AllocError, Global};
use std::test::Fail;

const V: u32 = 0;

const ON_A: u32 = 1;

const STEPS: u32 = 2;

fn rows_of(alloc: Global, cells: &[i64]) -> Result<Rows, AllocError>
    requires few { length cells.now < 2 ^ 32 }
    requires within { IsTrue (list_all is_cell cells.now) }
    ensures count { IfOk result (λ rows. rows.count ≡ length cells.now) }
    ensures columns { IfOk result (λ rows. rows.columns ≡ 1) }
{
    let kept = Vec::from_slice(alloc, cells)?;
    Ok(Rows {
        count: cells.len() as u32,
        columns: 1,
        cells: kept,
    })
}

fn case_of(alloc: Global, form: &[Term], cond: &[Atom]) -> Result<Case, AllocError>
    requires few_terms { length form.now ≤ 2 }
    requires terms { All (IsTermWithin 1) form.now }
    requires few_atoms { length cond.now ≤ 1 }
    requires atoms { All (IsAtomWithin 1 2) cond.now }
    ensures { IfOk result (λ case. IsCaseWithin 1 2 (plain_case case)) }
{
    Ok(Case {
        form: Vec::from_slice(alloc, form)?,
        cond: Vec::from_slice(alloc, cond)?,
    })
}

// v
fn plain(alloc: Global) -> Result<Measure, AllocError>
    ensures { IfOk result (λ measure. IsMeasureWithin 1 2 (plain_measure measure)) }
{
    let v = Term {
        factor: 1,
        column: Some(0),
    };
    let mut cases = Vec::new(alloc);
    cases.push(case_of(alloc, &[v], &[])?)?;
    Ok(Measure { cases })
}

// v if label A
fn on_a(alloc: Global) -> Result<Measure, AllocError>
    ensures { IfOk result (λ measure. IsMeasureWithin 1 2 (plain_measure measure)) }
{
    let v = Term {
        factor: 1,
        column: Some(0),
    };
    let mut cases = Vec::new(alloc);
    cases.push(case_of(alloc, &[v], &[Atom::Label(0)])?)?;
    Ok(Measure { cases })
}

// -3*v + 2 if v >= 1 ; 7
fn steps(alloc: Global) -> Result<Measure, AllocError>
    ensures { IfOk result (λ measure. IsMeasureWithin 1 2 (plain_measure measure)) }
{
    let falling = Term {
        factor: -3,
        column: Some(0),
    };
    let two = Term {
        factor: 2,
        column: None,
    };
    let seven = Term {
        factor: 7,
        column: None,
    };
    let from_one = Atom::Column {
        column: 0,
        cmp: Cmp::AtLeast,
        number: 1,
    };
    let mut cases = Vec::new(alloc);
    cases.push(case_of(alloc, &[falling, two], &[from_one])?)?;
    cases.push(case_of(alloc, &[seven], &[])?)?;
    Ok(Measure { cases })
}

fn spec_of(alloc: Global, test: Test, goal: Goal) -> Result<Checked, AllocError>
    requires test { IsTestWithin 1 2 3 [] [] (plain_test test) }
    requires goal { IsGoalWithin 3 goal }
    ensures columns { IfOk result (λ checked. length checked.columns ≡ 1) }
    ensures labels { IfOk result (λ checked. length checked.labels ≡ 2) }
    ensures measures { IfOk result (λ checked. length checked.measures ≡ 3) }
{
    let mut columns = Vec::new(alloc);
    columns.push(ColumnItem {
        name: Name::of(alloc, b"v")?,
        header: None,
    })?;
    let mut labels = Vec::new(alloc);
    labels.push(Name::of(alloc, b"A")?)?;
    labels.push(Name::of(alloc, b"B")?)?;
    let mut measures = Vec::new(alloc);
    measures.push(plain(alloc)?)?;
    measures.push(on_a(alloc)?)?;
    measures.push(steps(alloc)?)?;
    let mut tests = Vec::new(alloc);
    tests.push(test)?;
    let mut named = Vec::new(alloc);
    named.push(false)?;
    Ok(Checked::of(
        1,
        columns,
        labels,
        measures,
        Vec::new(alloc),
        Vec::new(alloc),
        tests,
        named,
        None,
        Shape::Assign,
        goal,
    ))
}

// The candidate of a code's bits, row by row from the lowest: 1 takes the row with the label A.
// Where every row is taken, 0 takes it with B.
fn candidate_of(alloc: Global, rows: u32, code: u32, every: bool) -> Result<Candidate, AllocError>
    requires { rows ≤ 10 }
    ensures { IfOk result (λ candidate. IsInRange rows 2 candidate.marks.items) }
{
    let mut marks = Vec::new(alloc);
    for row in 0..rows {
        let first = (code >> row) % 2 == 1;
        if first || every {
            let label = !first as u32;
            marks.push(Mark { row, label })?;
        }
    }
    Ok(Candidate { marks })
}

// How many sublists or, where every row is taken, assignments pass.
fn passing(alloc: Global, checked: &Checked, rows: &Rows, every: bool) -> Result<u32, AllocError>
    requires columns { HasColumnsOf checked.now (plain_rows rows.now) }
    requires labels { length checked.now.labels ≡ 2 }
    requires few { rows.now.count ≤ 10 }
{
    let mut found = 0;
    for code in 0..1u32 << rows.count {
        if passes(
            checked,
            rows,
            &candidate_of(alloc, rows.count, code, every)?,
        ) {
            found += 1;
        }
    }
    Ok(found)
}

#[test]
fn sums_compare_as_written(rt: HostRuntime) -> Result<(), Fail> {
    let rows = rows_of(rt.alloc(), &[1, 1, 1])?;
    for (cmp, count) in [(Cmp::AtLeast, 4), (Cmp::Equal, 3), (Cmp::AtMost, 7)] {
        let check = Check::Compare { cmp, number: 2 };
        let checked = spec_of(rt.alloc(), Test::Sum { measure: V, check }, Goal::Count)?;
        assert_eq!(rt;
            passing(rt.alloc(), &checked, &rows, false)?,
            count,
            "at {cmp:?}"
        );
    }
    Ok(())
}

#[test]
fn remainders_are_not_negative(rt: HostRuntime) -> Result<(), Fail> {
    let cases: [(&[i64], u64, u64, u32); 2] = [(&[1, 2, 3, 4, 5], 3, 0, 12), (&[-3], 2, 1, 1)];
    for (cells, modulus, residue, count) in cases {
        let check = Check::Mod { modulus, residue };
        let rows = rows_of(rt.alloc(), cells)?;
        let checked = spec_of(rt.alloc(), Test::Sum { measure: V, check }, Goal::Count)?;
        assert_eq!(rt;
            passing(rt.alloc(), &checked, &rows, false)?,
            count,
            "at {cells:?}"
        );
    }
    Ok(())
}

#[test]
fn lengths_count_marks(rt: HostRuntime) -> Result<(), Fail> {
    let rows = rows_of(rt.alloc(), &[1, 1, 1, 1, 1, 1, 1, 1, 1, 1])?;
    let check = Check::Compare {
        cmp: Cmp::Equal,
        number: 3,
    };
    let checked = spec_of(rt.alloc(), Test::Length { check }, Goal::Count)?;
    assert_eq!(rt; passing(rt.alloc(), &checked, &rows, false)?, 120);
    Ok(())
}

#[test]
fn labels_choose_the_case(rt: HostRuntime) -> Result<(), Fail> {
    let rows = rows_of(rt.alloc(), &[1, 2, 3])?;
    let check = Check::Compare {
        cmp: Cmp::Equal,
        number: 3,
    };
    let checked = spec_of(
        rt.alloc(),
        Test::Sum {
            measure: ON_A,
            check,
        },
        Goal::Max(ON_A),
    )?;
    assert_eq!(rt; passing(rt.alloc(), &checked, &rows, true)?, 2);
    assert_eq!(rt;
        weight_of(
            &checked,
            &rows,
            ON_A,
            &candidate_of(rt.alloc(), 3, 0b111, true)?
        ),
        6
    );
    assert_eq!(rt;
        weight_of(
            &checked,
            &rows,
            ON_A,
            &candidate_of(rt.alloc(), 3, 0b001, true)?
        ),
        1
    );
    assert_eq!(rt; value_of(&checked, &rows, ON_A, 2, 0), 3);
    assert_eq!(rt; value_of(&checked, &rows, ON_A, 2, 1), 0);
    Ok(())
}

#[test]
fn the_first_case_that_holds_counts(rt: HostRuntime) -> Result<(), Fail> {
    let rows = rows_of(rt.alloc(), &[2, 1, 0, -5])?;
    let check = Check::Compare {
        cmp: Cmp::Equal,
        number: 3,
    };
    let checked = spec_of(rt.alloc(), Test::Length { check }, Goal::Any)?;
    for (row, value) in [(0, -4), (1, -1), (2, 7), (3, 7)] {
        assert_eq!(rt;
            value_of(&checked, &rows, STEPS, row, 1),
            value,
            "at row {row}"
        );
    }
    Ok(())
}

#[test]
fn a_row_past_the_bound_is_heavy(rt: HostRuntime) -> Result<(), Fail> {
    let alone = rows_of(rt.alloc(), &[4611686018427387903])?;
    let both = rows_of(rt.alloc(), &[4611686018427387903, -1])?;
    let cases = [
        (Goal::Max(V), None, Some(1)),
        (Goal::Min(ON_A), None, Some(1)),
        (Goal::Max(STEPS), Some(0), Some(0)),
        (Goal::Count, None, None),
    ];
    for (goal, of_one, of_both) in cases {
        let check = Check::Compare {
            cmp: Cmp::Equal,
            number: 3,
        };
        let checked = spec_of(rt.alloc(), Test::Length { check }, goal)?;
        assert_eq!(rt; first_heavy(&checked, &alone), of_one, "at {of_both:?}");
        assert_eq!(rt; first_heavy(&checked, &both), of_both, "at {of_one:?}");
    }
    Ok(())
}
