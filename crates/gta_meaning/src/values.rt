//! The value of a measure at a mark.

ghost use Rattle.std.specs.Prelude.{◌≡◌, ℕ, ◌+◌, ◌<◌, ◌≤◌, ◌*ℤ◌, All, length, nat_abs};
ghost use Rattle.gta_checked.specs.Plain.{plain_measure};
ghost use Rattle.gta_checked.specs.Within.{IsAtomWithin, IsMeasureWithin, IsTermWithin};
ghost use Rattle.gta_checked.specs.PlainRows.{plain_rows};
ghost use Rattle.gta_meaning.specs.InRange.{HasColumnsOf};
ghost use Rattle.gta_meaning.specs.Values as values;

use gta_checked::{Atom, Checked, Measure, Rows, Term};
use gta_spec::{Cmp, FACTOR_LIMIT, TERM_LIMIT};
use gta_text::NUMBER_BOUND;

/// The greatest absolute value of a term: the greatest factor times the greatest number.
pub const TERM_BOUND: u128 = FACTOR_LIMIT as u128 * NUMBER_BOUND as u128;

/// The greatest absolute value of a measure: that of as many terms as a form may have.
pub const VALUE_BOUND: u128 = TERM_LIMIT as u128 * TERM_BOUND;

/// The value of a measure at a row and a label, all counted from 0. Takes no memory.
pub fn value_of(checked: &Checked, rows: &Rows, measure: u32, row: u32, label: u32) -> i128
    requires columns { HasColumnsOf checked.now (plain_rows rows.now) }
    requires measure_in_range { measure < length checked.now.measures }
    requires row_in_range { row < rows.now.count }
    ensures value { result ≡ values.value checked.now (plain_rows rows.now) measure row label }
    ensures bounded { nat_abs result ≤ VALUE_BOUND }
{
    measure_value(rows, &checked.measures()[measure as usize], row, label)
}

// The form of the first case whose condition holds.
fn measure_value(rows: &Rows, measure: &Measure, row: u32, label: u32) -> i128
    requires within { (labels : ℕ) × IsMeasureWithin rows.now.columns labels (plain_measure measure.now) }
    requires row_in_range { row < rows.now.count }
    ensures value { result ≡ values.measure_value (plain_rows rows.now) row label (plain_measure measure.now) }
    ensures bounded { nat_abs result ≤ VALUE_BOUND }
{
    for case in &measure.cases {
        if holds(rows, &case.cond, row, label) {
            return form_value(rows, &case.form, row);
        }
    }
    0
}

pub(crate) fn holds(rows: &Rows, cond: &[Atom], row: u32, label: u32) -> bool
    requires within { (labels : ℕ) × All (IsAtomWithin rows.now.columns labels) cond.now }
    requires row_in_range { row < rows.now.count }
    ensures { result ≡ values.holds (plain_rows rows.now) row label cond.now }
{
    for atom in cond {
        if !atom_holds(rows, *atom, row, label) {
            return false;
        }
    }
    true
}

fn atom_holds(rows: &Rows, atom: Atom, row: u32, label: u32) -> bool
    requires within { (labels : ℕ) × IsAtomWithin rows.now.columns labels atom }
    requires row_in_range { row < rows.now.count }
    ensures { result ≡ values.atom_holds (plain_rows rows.now) row label atom }
{
    match atom {
        Atom::Label(wanted) => label == wanted,
        Atom::Column {
            column,
            cmp,
            number,
        } => { compares(cmp, cell(rows, row, column), number as i128) }
    }
}

/// Whether the first number is at most, at least or equal to the second. Takes no memory.
pub fn compares(cmp: Cmp, a: i128, b: i128) -> bool
    ensures { result ≡ values.compares cmp a b }
{
    match cmp {
        Cmp::AtMost => a <= b,
        Cmp::AtLeast => a >= b,
        Cmp::Equal => a == b,
    }
}

fn form_value(rows: &Rows, form: &[Term], row: u32) -> i128
    requires few { length form.now ≤ TERM_LIMIT }
    requires within { All (IsTermWithin rows.now.columns) form.now }
    requires row_in_range { row < rows.now.count }
    ensures value { result ≡ values.form_value (plain_rows rows.now) row form.now }
    ensures bounded { nat_abs result ≤ VALUE_BOUND }
{
    let mut sum = 0;
    for term in form {
        sum += term_value(rows, *term, row);
    }
    sum
}

fn term_value(rows: &Rows, term: Term, row: u32) -> i128
    requires within { IsTermWithin rows.now.columns term }
    requires row_in_range { row < rows.now.count }
    ensures value { result ≡ values.term_value (plain_rows rows.now) row term }
    ensures bounded { nat_abs result ≤ TERM_BOUND }
{
    match term.column {
        Some(column) => product(term.factor, cell(rows, row, column)),
        None => term.factor as i128,
    }
}

fn cell(rows: &Rows, row: u32, column: u32) -> i128
    requires row_in_range { row < rows.now.count }
    requires column_in_range { column < rows.now.columns }
    ensures value { result ≡ values.cell (plain_rows rows.now) row column }
    ensures bounded { nat_abs result ≤ NUMBER_BOUND }
{
    rows.cell(row, column) as i128
}

fn product(factor: i64, number: i128) -> i128
    requires small_factor { nat_abs factor ≤ FACTOR_LIMIT }
    requires small_number { nat_abs number ≤ NUMBER_BOUND }
    ensures value { result ≡ factor *ℤ number }
    ensures bounded { nat_abs result ≤ TERM_BOUND }
{
    factor as i128 * number
}
