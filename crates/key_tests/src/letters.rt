//! Worked examples by hand: letters, accepted keys, first negative values, and too many keys.
//! One specification serves all: a column v, labels A and B, and measures v and
//! turned = 3*v if label A ; -1*v.

ghost use Rattle.std.specs.Prelude.{[], ◌∷◌, ◌≡◌, ◌<◌, ◌≤◌, ◌≤ℤ◌, pos, All, IsTrue, IfOk, IfSome, length, map};
ghost use Rattle.std.specs.List.{list_all};
ghost use Rattle.gta_checked.specs.Cells.{is_cell};
ghost use Rattle.gta_checked.specs.Plain.{NamedTable, plain_case, plain_measure, plain_named, plain_pick, plain_test};
ghost use Rattle.gta_checked.specs.Within.{IsAtomWithin, IsCaseWithin, IsMeasureWithin, IsTableWithin};
ghost use Rattle.gta_checked.specs.Within.{IsPickWithin, IsTermWithin, IsTestWithin};
ghost use Rattle.gta_meaning.specs.InRange.{HasColumnsOf};
ghost use Rattle.monoid_kit.specs.TableOf.{plain_table};

use crate::products::is_table;
use gta_checked::{Atom, Case, Checked, Goal, Measure, Pick, Rows, Table, Term, Test};
use gta_spec::{Check, Cmp, ColumnItem, ROW_LIMIT};
use gta_text::Name;
use monoid_kit::{Monoid, RawTable, check_table};
use shape_gen::Shape;
use std::alloc::{AllocError, Global};
use std::test::Fail;
use test_homs::{Negative, ValueFault, prepare_tests};

const V: u32 = 0;

const TURNED: u32 = 1;

fn rows_of(alloc: Global, cells: &[i64]) -> Result<Rows, AllocError>
    requires few { length cells.now ≤ ROW_LIMIT }
    requires within { IsTrue (list_all is_cell cells.now) }
    ensures count { IfOk result (λ rows. rows.count ≡ length cells.now) }
    ensures columns { IfOk result (λ rows. rows.columns ≡ 1) }
{
    let kept = Vec::from_slice(alloc, cells)?;
    Ok(Rows {
        count: cells.len() as u32,
        columns: 1,
        cells: kept,
    })
}

fn case_of(alloc: Global, form: &[Term], cond: &[Atom]) -> Result<Case, AllocError>
    requires few_terms { length form.now ≤ 2 }
    requires terms { All (IsTermWithin 1) form.now }
    requires few_atoms { length cond.now ≤ 1 }
    requires atoms { All (IsAtomWithin 1 2) cond.now }
    ensures { IfOk result (λ case. IsCaseWithin 1 2 (plain_case case)) }
{
    Ok(Case {
        form: Vec::from_slice(alloc, form)?,
        cond: Vec::from_slice(alloc, cond)?,
    })
}

// v
fn plain(alloc: Global) -> Result<Measure, AllocError>
    ensures { IfOk result (λ measure. IsMeasureWithin 1 2 (plain_measure measure)) }
{
    let v = Term {
        factor: 1,
        column: Some(0),
    };
    let mut cases = Vec::new(alloc);
    cases.push(case_of(alloc, &[v], &[])?)?;
    Ok(Measure { cases })
}

// 3*v if label A ; -1*v
fn turned(alloc: Global) -> Result<Measure, AllocError>
    ensures { IfOk result (λ measure. IsMeasureWithin 1 2 (plain_measure measure)) }
{
    let rising = Term {
        factor: 3,
        column: Some(0),
    };
    let falling = Term {
        factor: -1,
        column: Some(0),
    };
    let mut cases = Vec::new(alloc);
    cases.push(case_of(alloc, &[rising], &[Atom::Label(0)])?)?;
    cases.push(case_of(alloc, &[falling], &[])?)?;
    Ok(Measure { cases })
}

// A specification with these tests, and no table.
fn spec_of(alloc: Global, tests: Vec<Test>) -> Result<Checked, AllocError>
    requires few { length (map plain_test tests.items) ≤ 8 }
    requires within { All (IsTestWithin 1 2 2 [] []) (map plain_test tests.items) }
    ensures columns { IfOk result (λ checked. length checked.columns ≡ 1) }
{
    spec_with(alloc, Vec::new(alloc), tests)
}

/// No test has a name.
#[tactic(auto, using(crate::proofs::Named::as_many))]
fn unnamed(alloc: Global, tests: &[Test]) -> Result<Vec<bool>, AllocError>
    ensures { IfOk result (λ named. length named.items ≡ length (map plain_test tests.now)) }
{
    let mut named = Vec::new(alloc);
    named.resize(tests.len(), false)?;
    Ok(named)
}

// A specification with these tables and tests.
fn spec_with(alloc: Global, tables: Vec<Table>, tests: Vec<Test>) -> Result<Checked, AllocError>
    requires few_tables { length (map plain_named tables.items) ≤ 8 }
    requires tables { All IsTableWithin (map plain_named tables.items) }
    requires few { length (map plain_test tests.items) ≤ 8 }
    requires within { All (IsTestWithin 1 2 2 (map plain_named tables.items) []) (map plain_test tests.items) }
    ensures columns { IfOk result (λ checked. length checked.columns ≡ 1) }
{
    let mut columns = Vec::new(alloc);
    columns.push(ColumnItem {
        name: Name::of(alloc, b"v")?,
        header: None,
    })?;
    let mut labels = Vec::new(alloc);
    labels.push(Name::of(alloc, b"A")?)?;
    labels.push(Name::of(alloc, b"B")?)?;
    let mut measures = Vec::new(alloc);
    measures.push(plain(alloc)?)?;
    measures.push(turned(alloc)?)?;
    let named = unnamed(alloc, tests.as_slice())?;
    Ok(Checked::of(
        1,
        columns,
        labels,
        measures,
        tables,
        Vec::new(alloc),
        tests,
        named,
        None,
        Shape::Assign,
        Goal::Count,
    ))
}

fn summed(alloc: Global, measure: u32, cmp: Cmp) -> Result<Checked, AllocError>
    requires { measure < 2 }
    ensures columns { IfOk result (λ checked. length checked.columns ≡ 1) }
{
    let check = Check::Compare { cmp, number: 2 };
    let mut tests = Vec::new(alloc);
    tests.push(Test::Sum { measure, check })?;
    spec_of(alloc, tests)
}

// sum v <= number, then length mod 2 = 1
fn summed_and_counted(alloc: Global, number: i64) -> Result<Checked, AllocError>
    requires natural { pos 0 ≤ℤ number }
    requires small { number ≤ℤ pos 8190 }
    ensures columns { IfOk result (λ checked. length checked.columns ≡ 1) }
{
    let cmp = Cmp::AtMost;
    let check = Check::Compare { cmp, number };
    let mut tests = Vec::new(alloc);
    tests.push(Test::Sum { measure: V, check })?;
    let check = Check::Mod {
        modulus: 2,
        residue: 1,
    };
    tests.push(Test::Length { check })?;
    spec_of(alloc, tests)
}

// Sums of bits.
fn parity(alloc: Global) -> Result<Option<Table>, AllocError>
    ensures { IfOk result (λ found. IfSome found (λ table. IsTableWithin (plain_named table)
        × ((plain_named table).products.size ≡ 2))) }
{
    let table = RawTable {
        size: 2,
        unit: 0,
        cells: Vec::from_slice(alloc, &[0, 1, 1, 0])?,
    };
    if !is_table(&table) {
        return Ok(None);
    }
    let Ok(monoid) = check_table(alloc, &table) else {
        return Ok(None);
    };
    let mut elements = Vec::new(alloc);
    elements.push(Name::of(alloc, b"even")?)?;
    elements.push(Name::of(alloc, b"odd")?)?;
    Ok(Some(Table {
        name: Name::of(alloc, b"parity")?,
        elements,
        monoid,
    }))
}

// fold parity by odd if label B accept odd
fn odd_labels(alloc: Global) -> Result<Test, AllocError>
    ensures { IfOk result (λ test. (table : NamedTable) → table.products.size ≡ 2
        → IsTestWithin 1 2 2 (table ∷ []) [] (plain_test test)) }
{
    let mut cond = Vec::new(alloc);
    cond.push(Atom::Label(1))?;
    let mut picks = Vec::new(alloc);
    picks.push(Pick { element: 1, cond })?;
    let mut accept = Vec::new(alloc);
    accept.push(1)?;
    Ok(Test::Fold {
        table: 0,
        picks,
        accept,
    })
}

// A specification with this table, and these tests in this order.
fn spec_of_two(
    alloc: Global,
    table: Table,
    first: Test,
    second: Test,
) -> Result<Checked, AllocError>
    requires table { IsTableWithin (plain_named table) }
    requires first { IsTestWithin 1 2 2 (plain_named table ∷ []) [] (plain_test first) }
    requires second { IsTestWithin 1 2 2 (plain_named table ∷ []) [] (plain_test second) }
    ensures columns { IfOk result (λ checked. length checked.columns ≡ 1) }
{
    let mut tables = Vec::new(alloc);
    tables.push(table)?;
    let mut tests = Vec::new(alloc);
    tests.push(first)?;
    tests.push(second)?;
    spec_with(alloc, tables, tests)
}

// sum v <= bound, and an odd number of labels B; in this order or the other way round
fn summed_and_folded(
    alloc: Global,
    table: Table,
    bound: u8,
    sum_first: bool,
) -> Result<Checked, AllocError>
    requires table { IsTableWithin (plain_named table) }
    requires size { (plain_named table).products.size ≡ 2 }
    ensures columns { IfOk result (λ checked. length checked.columns ≡ 1) }
{
    let check = Check::Compare {
        cmp: Cmp::AtMost,
        number: bound as i64,
    };
    let sum = Test::Sum { measure: V, check };
    let fold = odd_labels(alloc)?;
    if sum_first {
        spec_of_two(alloc, table, sum, fold)
    } else {
        spec_of_two(alloc, table, fold, sum)
    }
}

// turned mod 3 = 2
fn remainders(alloc: Global) -> Result<Checked, AllocError>
    ensures columns { IfOk result (λ checked. length checked.columns ≡ 1) }
{
    let check = Check::Mod {
        modulus: 3,
        residue: 2,
    };
    let mut tests = Vec::new(alloc);
    tests.push(Test::Sum {
        measure: TURNED,
        check,
    })?;
    spec_of(alloc, tests)
}

#[test]
fn values_stop_one_past_the_bound(rt: HostRuntime) -> Result<(), Fail> {
    let rows = rows_of(rt.alloc(), &[1, 5, 0])?;
    let cases: [(Cmp, [bool; 4]); 3] = [
        (Cmp::AtMost, [true, true, true, false]),
        (Cmp::AtLeast, [false, false, true, true]),
        (Cmp::Equal, [false, false, true, false]),
    ];
    for (cmp, accept) in cases {
        let checked = summed(rt.alloc(), V, cmp)?;
        let tests = prepare_tests(rt.alloc(), &checked, &rows).expect(&rt, "natural values");
        assert_eq!(rt; tests.product().size(), 4, "at {cmp:?}");
        assert_eq!(rt;
            tests.letters(),
            [1, 1, 3, 3, 0, 0].as_slice(),
            "at {cmp:?}"
        );
        assert_eq!(rt; tests.accept(), accept.as_slice(), "at {cmp:?}");
    }
    Ok(())
}

#[test]
fn without_a_test_every_key_is_accepted(rt: HostRuntime) -> Result<(), Fail> {
    let rows = rows_of(rt.alloc(), &[1, -5])?;
    let checked = spec_of(rt.alloc(), Vec::new(rt.alloc()))?;
    let tests = prepare_tests(rt.alloc(), &checked, &rows).expect(&rt, "no test");
    assert_eq!(rt; tests.product().size(), 1);
    assert_eq!(rt; tests.letters(), [0, 0, 0, 0].as_slice());
    assert_eq!(rt; tests.accept(), [true].as_slice());
    Ok(())
}

#[test]
fn the_test_with_more_keys_has_the_least_significant_digit(rt: HostRuntime) -> Result<(), Fail> {
    let rows = rows_of(rt.alloc(), &[1, 5, 0])?;
    let checked = summed_and_counted(rt.alloc(), 1)?;
    let tests = prepare_tests(rt.alloc(), &checked, &rows).expect(&rt, "natural values");
    assert_eq!(rt; tests.product().size(), 6);
    assert_eq!(rt; tests.letters(), [4, 4, 5, 5, 3, 3].as_slice());
    assert_eq!(rt;
        tests.accept(),
        [false, false, false, true, true, false].as_slice()
    );
    Ok(())
}

#[test]
fn a_table_has_the_most_significant_digit(rt: HostRuntime) -> Result<(), Fail> {
    let rows = rows_of(rt.alloc(), &[1, 5, 0])?;
    let after_three = [
        false, false, false, false, false, true, true, true, true, false,
    ];
    let cases: [(u8, [u32; 6], &[bool]); 2] = [
        (3, [1, 6, 4, 9, 0, 5], &after_three),
        (0, [1, 3, 1, 3, 0, 2], &[false, false, true, false]),
    ];
    for (bound, letters, accept) in cases {
        for sum_first in [true, false] {
            let table = parity(rt.alloc())?.expect(&rt, "a lawful table");
            let checked = summed_and_folded(rt.alloc(), table, bound, sum_first)?;
            let tests = prepare_tests(rt.alloc(), &checked, &rows).expect(&rt, "natural values");
            assert_eq!(rt;
                tests.letters(),
                letters.as_slice(),
                "at {bound}, {sum_first}"
            );
            assert_eq!(rt; tests.accept(), accept, "at {bound}, {sum_first}");
        }
    }
    Ok(())
}

#[test]
fn remainders_of_negative_values_are_natural(rt: HostRuntime) -> Result<(), Fail> {
    let rows = rows_of(rt.alloc(), &[1, -4])?;
    let checked = remainders(rt.alloc())?;
    let tests = prepare_tests(rt.alloc(), &checked, &rows).expect(&rt, "any values");
    assert_eq!(rt; tests.letters(), [0, 2, 0, 1].as_slice());
    assert_eq!(rt; tests.accept(), [false, false, true].as_slice());
    Ok(())
}

#[test]
fn the_first_negative_value_refuses(rt: HostRuntime) -> Result<(), Fail> {
    let cases: [(u32, &[i64], u32, u32, i128); 4] = [
        (V, &[1, -2, -3], 1, 0, -2),
        (TURNED, &[0, 2], 1, 1, -2),
        (TURNED, &[0, 0, -2], 2, 0, -6),
        (V, &[-1], 0, 0, -1),
    ];
    for (measure, cells, row, label, value) in cases {
        let rows = rows_of(rt.alloc(), cells)?;
        let checked = summed(rt.alloc(), measure, Cmp::AtMost)?;
        let fault = prepare_tests(rt.alloc(), &checked, &rows).err();
        assert_eq!(rt;
            fault,
            Some(ValueFault::Negative {
                test: 0,
                row,
                label,
                value
            }),
            "at {cells:?}"
        );
    }
    Ok(())
}

#[test]
fn too_many_keys_are_told_where_no_value_is_negative(rt: HostRuntime) -> Result<(), Fail> {
    let negative = ValueFault::Negative {
        test: 0,
        row: 0,
        label: 0,
        value: -1,
    };
    let cases: [(i64, i64, Option<ValueFault>); 3] = [
        (4094, 1, None),
        (4095, 1, Some(ValueFault::TooManyKeys { keys: 8194 })),
        (4095, -1, Some(negative)),
    ];
    for (bound, cell, fault) in cases {
        if bound >= 0 && bound <= 8190 {
            let rows = rows_of(rt.alloc(), &[cell])?;
            let checked = summed_and_counted(rt.alloc(), bound)?;
            assert_eq!(rt;
                prepare_tests(rt.alloc(), &checked, &rows).err(),
                fault,
                "at {bound} and {cell}"
            );
        }
    }
    Ok(())
}
