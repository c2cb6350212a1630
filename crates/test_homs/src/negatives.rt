//! The first negative value of a compared sum, by test, row and label.

ghost use Rattle.std.specs.Prelude.{◌≡◌, ◌<◌, length};
ghost use Rattle.gta_checked.specs.Plain.{plain_test};
ghost use Rattle.gta_checked.specs.PlainRows.{plain_rows};
ghost use Rattle.gta_checked.specs.Within.{IsTestWithin, IsWithinLimits};
ghost use Rattle.gta_meaning.specs.InRange.{HasColumnsOf};
ghost use Rattle.test_homs.specs.Negatives as negatives;

use gta_checked::{Checked, Rows, Test};
use gta_meaning::{label_count, value_of};
use gta_spec::Check;

/// A test, a row and a label, all counted from 0, and the value there.
#[derive(Clone, Copy, PartialEq, Eq, Debug)]
pub struct Negative {
    pub test: u32,
    pub row: u32,
    pub label: u32,
    pub value: i128,
}

/// The first negative value of a compared sum, by test, row and label; None where no such value is negative.
/// It takes no memory.
pub fn first_negative(checked: &Checked, rows: &Rows) -> Option<Negative>
    requires columns { HasColumnsOf checked.now (plain_rows rows.now) }
    ensures first { result ≡ negatives.first_negative checked.now (plain_rows rows.now) }
    ensures within { IsWithinLimits checked.now }
{
    let tests = checked.tests();
    for k in 0..tests.len() {
        if let Some(negative) = negative_of_test(checked, rows, k as u32, &tests[k]) {
            return Some(negative);
        }
    }
    None
}

fn negative_of_test(checked: &Checked, rows: &Rows, number: u32, test: &Test) -> Option<Negative>
    requires columns { HasColumnsOf checked.now (plain_rows rows.now) }
    requires within { IsTestWithin (length checked.now.columns) (length checked.now.labels)
        (length checked.now.measures) checked.now.tables checked.now.automata (plain_test test.now) }
    ensures { result
        ≡ negatives.negative_of_test checked.now (plain_rows rows.now) number (plain_test test.now) }
{
    match test {
        Test::Sum {
            measure,
            check: Check::Compare { .. },
        } => negative_value(checked, rows, number, *measure),
        _ => None,
    }
}

fn negative_value(checked: &Checked, rows: &Rows, test: u32, measure: u32) -> Option<Negative>
    requires columns { HasColumnsOf checked.now (plain_rows rows.now) }
    requires measure_in_range { measure < length checked.now.measures }
    ensures { result ≡ negatives.negative_value checked.now (plain_rows rows.now) test measure }
{
    for row in 0..rows.count {
        if let Some(negative) = negative_at(checked, rows, test, measure, row) {
            return Some(negative);
        }
    }
    None
}

fn negative_at(
    checked: &Checked,
    rows: &Rows,
    test: u32,
    measure: u32,
    row: u32,
) -> Option<Negative>
    requires columns { HasColumnsOf checked.now (plain_rows rows.now) }
    requires row_in_range { row < rows.now.count }
    requires measure_in_range { measure < length checked.now.measures }
    ensures { result ≡ negatives.negative_at checked.now (plain_rows rows.now) test measure row }
{
    for label in 0..label_count(checked) {
        let value = value_of(checked, rows, measure, row, label);
        if value < 0 {
            return Some(Negative {
                test,
                row,
                label,
                value,
            });
        }
    }
    None
}
