//! The kinds of tests, each by its file. specs/Kinds.antt has the same list.

ghost use Rattle.std.specs.Prelude.{◌≡◌, length, map, IfOk};
ghost use Rattle.gta_checked.specs.Plain.{plain_pick, plain_test};
ghost use Rattle.gta_checked.specs.PlainRows.{plain_rows};
ghost use Rattle.gta_checked.specs.Tables.{automaton_at};
ghost use Rattle.gta_checked.specs.Within.{IsCheckWithin, IsRunWithin, IsTestWithin};
ghost use Rattle.gta_meaning.specs.InRange.{HasColumnsOf, label_count};
ghost use Rattle.test_homs.specs.Added.{IsAddedWithin};
ghost use Rattle.test_homs.specs.Kinds.{hom_of, hom_of_check};
ghost use Rattle.test_homs.specs.Prepared as plain;
ghost use Rattle.test_homs.specs.Run.{run_of};

use crate::added::Added;
use crate::compared::Compared;
use crate::fold::Fold;
use crate::kind::prepare;
use crate::prepared::Prepared;
use crate::remainder::Remainder;
use crate::run::Run;
use gta_checked::{Checked, Pick, Rows, Test};
use gta_meaning::{ElementSet, label_count};
use gta_spec::Check;
use monoid_kit::Monoid;
use std::alloc::{AllocError, Global};

/// All tests of a specification. It takes memory for them.
pub(crate) fn prepared_tests(
    alloc: Global,
    checked: &Checked,
    rows: &Rows,
) -> Result<Vec<Prepared>, AllocError>
    requires columns { HasColumnsOf checked.now (plain_rows rows.now) }
    ensures { IfOk result (λ tests. map plain.plain_prepared tests.items
        ≡ plain.prepared_tests checked.now (plain_rows rows.now)) }
{
    let tests = checked.tests();
    let mut prepared = Vec::with_capacity(alloc, tests.len())?;
    for number in 0..tests.len() {
        prepared.push(prepared_test(alloc, checked, rows, number, &tests[number])?)?;
    }
    Ok(prepared)
}

fn prepared_test(
    alloc: Global,
    checked: &Checked,
    rows: &Rows,
    number: usize,
    test: &Test,
) -> Result<Prepared, AllocError>
    requires columns { HasColumnsOf checked.now (plain_rows rows.now) }
    requires within { IsTestWithin (length checked.now.columns) (length checked.now.labels)
        (length checked.now.measures) checked.now.tables checked.now.automata (plain_test test.now) }
    ensures { IfOk result (λ prepared. plain.plain_prepared prepared
        ≡ plain.prepared_of (plain_rows rows.now) (label_count checked.now) number
        (hom_of checked.now (plain_test test.now))) }
{
    match test {
        Test::Sum { measure, check } => {
            let added = Added::Measure(*measure);
            prepared_sum(alloc, checked, rows, number, added, *check)
        }
        Test::Length { check } => prepared_sum(alloc, checked, rows, number, Added::One, *check),
        Test::Fold {
            table,
            picks,
            accept,
        } => {
            let table = &checked.tables()[*table as usize].monoid;
            let accepted = &ElementSet::of(alloc, table.size(), accept)?;
            let fold = Fold {
                rows,
                table,
                picks,
                accept,
                accepted,
            };
            prepare(alloc, number, &fold, rows.count, label_count(checked))
        }
        Test::Run {
            automaton,
            picks,
            accept,
        } => prepared_run(alloc, checked, rows, number, *automaton, picks, accept),
    }
}

fn prepared_run(
    alloc: Global,
    checked: &Checked,
    rows: &Rows,
    number: usize,
    automaton: u32,
    picks: &[Pick],
    accept: &[u32],
) -> Result<Prepared, AllocError>
    requires columns { HasColumnsOf checked.now (plain_rows rows.now) }
    requires within { IsRunWithin (length checked.now.columns) (length checked.now.labels) checked.now.automata
        automaton (map plain_pick picks.now) accept.now }
    ensures { IfOk result (λ prepared. plain.plain_prepared prepared
        ≡ plain.prepared_of (plain_rows rows.now) (label_count checked.now) number
        (run_of (automaton_at checked.now.automata automaton) (map plain_pick picks.now) accept.now)) }
{
    let automaton = &checked.automata()[automaton as usize];
    let accepted = &ElementSet::of(alloc, automaton.machine().states, accept)?;
    let run = Run {
        rows,
        automaton,
        picks,
        accept,
        accepted,
    };
    prepare(alloc, number, &run, rows.count, label_count(checked))
}

fn prepared_sum(
    alloc: Global,
    checked: &Checked,
    rows: &Rows,
    number: usize,
    added: Added,
    check: Check,
) -> Result<Prepared, AllocError>
    requires columns { HasColumnsOf checked.now (plain_rows rows.now) }
    requires added { IsAddedWithin (length checked.now.measures) added }
    requires check { IsCheckWithin check }
    ensures { IfOk result (λ prepared. plain.plain_prepared prepared
        ≡ plain.prepared_of (plain_rows rows.now) (label_count checked.now) number
        (hom_of_check checked.now added check)) }
{
    match check {
        Check::Compare { cmp, number: bound } => {
            let compared = Compared {
                checked,
                rows,
                added,
                cmp,
                number: bound,
            };
            prepare(alloc, number, &compared, rows.count, label_count(checked))
        }
        Check::Mod { modulus, residue } => {
            let remainder = Remainder {
                checked,
                rows,
                added,
                modulus,
                residue,
            };
            prepare(alloc, number, &remainder, rows.count, label_count(checked))
        }
    }
}
