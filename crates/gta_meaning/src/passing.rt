//! Whether a candidate passes the tests.

ghost use Rattle.std.specs.Prelude.{◌≡◌, ◌<◌, All, length, map};
ghost use Rattle.gta_checked.specs.Plain.{plain_pick, plain_test};
ghost use Rattle.gta_checked.specs.Tables.{automaton_at, table_at};
ghost use Rattle.gta_checked.specs.Within.{IsCheckWithin, IsPickWithin, IsTestWithin, table_size};
ghost use Rattle.gta_checked.specs.PlainRows.{plain_rows};
ghost use Rattle.gta_meaning.specs.InRange.{HasColumnsOf, IsInRangeOf};
ghost use Rattle.gta_meaning.specs.Elements.{AreAccepted, IsAccepted};
ghost use Rattle.gta_meaning.specs.Folds.{folded};
ghost use Rattle.gta_meaning.specs.Runs.{state_reached};
ghost use Rattle.gta_meaning.specs.Tests as tests;

use crate::candidate::Candidate;
use crate::elements::ElementSet;
use crate::folds::folded;
use crate::runs::state_reached;
use crate::totals::weight_of;
use crate::values::compares;
use crate::verdicts::{Outcomes, verdict};
use gta_checked::{Checked, Pick, Rows, Test};
use gta_spec::Check;

/// Whether the candidate passes: whether every test holds of it, or the tests without a name and the expression that
/// says what is kept. Takes no memory.
pub fn passes(checked: &Checked, rows: &Rows, candidate: &Candidate) -> bool
    requires columns { HasColumnsOf checked.now (plain_rows rows.now) }
    requires in_range { IsInRangeOf checked.now (plain_rows rows.now) candidate.now.marks.items }
    ensures { result ≡ tests.passes checked.now (plain_rows rows.now) candidate.now.marks.items }
{
    let asked = Asked {
        checked,
        rows,
        candidate,
    };
    verdict(checked, &asked)
}

/// The tests, asked of a candidate.
#[derive(Drop)]
struct Asked<'a> {
    checked: &'a Checked,
    rows: &'a Rows,
    candidate: &'a Candidate,
}

impl<'a> Outcomes for Asked<'a> {
    ghost use Rattle.gta_checked.specs.PlainRows.{plain_rows};
    ghost use Rattle.gta_meaning.specs.InRange.{HasColumnsOf, IsInRangeOf};
    ghost use Rattle.gta_meaning.specs.Tests.{outcomes};

    ghost outcomes = { λ asked. outcomes asked.checked.now (plain_rows asked.rows.now)
        asked.candidate.now.marks.items };

    ghost is_within = { λ asked. HasColumnsOf asked.checked.now (plain_rows asked.rows.now)
        × IsInRangeOf asked.checked.now (plain_rows asked.rows.now) asked.candidate.now.marks.items };

    fn holds(&self, number: usize) -> bool {
        match self.checked.tests().get(number) {
            Some(test) => passes_test(self.checked, self.rows, self.candidate, test),
            None => false,
        }
    }
}

fn passes_test(checked: &Checked, rows: &Rows, candidate: &Candidate, test: &Test) -> bool
    requires columns { HasColumnsOf checked.now (plain_rows rows.now) }
    requires in_range { IsInRangeOf checked.now (plain_rows rows.now) candidate.now.marks.items }
    requires within { IsTestWithin (length checked.now.columns) (length checked.now.labels)
        (length checked.now.measures) checked.now.tables checked.now.automata (plain_test test.now) }
    ensures { result
        ≡ tests.passes_test checked.now (plain_rows rows.now) candidate.now.marks.items (plain_test test.now) }
{
    match test {
        Test::Sum { measure, check } => {
            meets(*check, weight_of(checked, rows, *measure, candidate))
        }
        Test::Length { check } => meets(*check, candidate.marks.len() as i128),
        Test::Fold {
            table,
            picks,
            accept,
        } => accept.contains(&fold_product(checked, rows, candidate, *table, picks)),
        Test::Run {
            automaton,
            picks,
            accept,
        } => accept.contains(&run_state(checked, rows, candidate, *automaton, picks)),
    }
}

/// The same where what each test accepts is known as a set, so that no list of elements is looked through.
pub(crate) fn passes_by(
    checked: &Checked,
    rows: &Rows,
    accepted: &[ElementSet],
    candidate: &Candidate,
) -> bool
    requires columns { HasColumnsOf checked.now (plain_rows rows.now) }
    requires accepted { AreAccepted checked.now.tests accepted.now }
    requires in_range { IsInRangeOf checked.now (plain_rows rows.now) candidate.now.marks.items }
    ensures { result ≡ tests.passes checked.now (plain_rows rows.now) candidate.now.marks.items }
{
    let asked = AskedBy {
        checked,
        rows,
        accepted,
        candidate,
    };
    verdict(checked, &asked)
}

/// The tests, asked of a candidate by the sets of what they accept.
#[derive(Drop)]
struct AskedBy<'a> {
    checked: &'a Checked,
    rows: &'a Rows,
    accepted: &'a [ElementSet],
    candidate: &'a Candidate,
}

impl<'a> Outcomes for AskedBy<'a> {
    ghost use Rattle.gta_checked.specs.PlainRows.{plain_rows};
    ghost use Rattle.gta_meaning.specs.Elements.{AreAccepted};
    ghost use Rattle.gta_meaning.specs.InRange.{HasColumnsOf, IsInRangeOf};
    ghost use Rattle.gta_meaning.specs.Tests.{outcomes};

    ghost outcomes = { λ asked. outcomes asked.checked.now (plain_rows asked.rows.now)
        asked.candidate.now.marks.items };

    ghost is_within = { λ asked. HasColumnsOf asked.checked.now (plain_rows asked.rows.now)
        × AreAccepted asked.checked.now.tests asked.accepted.now
        × IsInRangeOf asked.checked.now (plain_rows asked.rows.now) asked.candidate.now.marks.items };

    fn holds(&self, number: usize) -> bool {
        match self.checked.tests().get(number) {
            Some(test) => {
                passes_test_by(
                    self.checked,
                    self.rows,
                    &self.accepted[number],
                    self.candidate,
                    test,
                )
            }
            None => false,
        }
    }
}

fn passes_test_by(
    checked: &Checked,
    rows: &Rows,
    accepted: &ElementSet,
    candidate: &Candidate,
    test: &Test,
) -> bool
    requires columns { HasColumnsOf checked.now (plain_rows rows.now) }
    requires accepted { IsAccepted (plain_test test.now) accepted.now }
    requires in_range { IsInRangeOf checked.now (plain_rows rows.now) candidate.now.marks.items }
    requires within { IsTestWithin (length checked.now.columns) (length checked.now.labels)
        (length checked.now.measures) checked.now.tables checked.now.automata (plain_test test.now) }
    ensures { result
        ≡ tests.passes_test checked.now (plain_rows rows.now) candidate.now.marks.items (plain_test test.now) }
{
    match test {
        Test::Fold { table, picks, .. } => {
            accepted.contains(fold_product(checked, rows, candidate, *table, picks))
        }
        Test::Run {
            automaton,
            picks,
            ..
        } => accepted.contains(run_state(checked, rows, candidate, *automaton, picks)),
        _ => passes_test(checked, rows, candidate, test),
    }
}

fn fold_product(
    checked: &Checked,
    rows: &Rows,
    candidate: &Candidate,
    table: u32,
    picks: &[Pick],
) -> u32
    requires columns { HasColumnsOf checked.now (plain_rows rows.now) }
    requires in_range { IsInRangeOf checked.now (plain_rows rows.now) candidate.now.marks.items }
    requires declared { table < length checked.now.tables }
    requires within { All (IsPickWithin (length checked.now.columns) (length checked.now.labels)
        (table_size checked.now.tables table)) (map plain_pick picks.now) }
    ensures { result ≡ folded (plain_rows rows.now) (table_at checked.now.tables table).products
        (map plain_pick picks.now) candidate.now.marks.items }
{
    folded(
        rows,
        &checked.tables()[table as usize].monoid,
        picks,
        &candidate.marks,
    )
}

fn run_state(
    checked: &Checked,
    rows: &Rows,
    candidate: &Candidate,
    automaton: u32,
    picks: &[Pick],
) -> u32
    requires columns { HasColumnsOf checked.now (plain_rows rows.now) }
    requires in_range { IsInRangeOf checked.now (plain_rows rows.now) candidate.now.marks.items }
    requires declared { automaton < length checked.now.automata }
    requires within { All (IsPickWithin (length checked.now.columns) (length checked.now.labels)
        (automaton_at checked.now.automata automaton).letters) (map plain_pick picks.now) }
    ensures { result ≡ state_reached (plain_rows rows.now) (automaton_at checked.now.automata automaton)
        (map plain_pick picks.now) candidate.now.marks.items }
{
    state_reached(
        rows,
        checked.automata()[automaton as usize].machine(),
        picks,
        &candidate.marks,
    )
}

fn meets(check: Check, total: i128) -> bool
    requires within { IsCheckWithin check }
    ensures { result ≡ tests.meets check total }
{
    match check {
        Check::Compare { cmp, number } => compares(cmp, total, number as i128),
        Check::Mod { modulus, residue } => { total.rem_euclid(modulus as i128) == residue as i128 }
    }
}
