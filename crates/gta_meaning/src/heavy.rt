//! The first row past the bound of weights.

ghost use Rattle.std.specs.Prelude.{◌≡◌, ◌<◌, ◌≤◌, length};
ghost use Rattle.std.specs.List.{All};
ghost use Rattle.gta_checked.specs.PlainRows.{plain_rows};
ghost use Rattle.gta_meaning.specs.InRange.{HasColumnsOf};
ghost use Rattle.gta_meaning.specs.Heavy as heavy;

use crate::candidate::label_count;
use crate::values::{VALUE_BOUND, value_of};
use gta_checked::{Checked, Goal, Rank, Rows};
use gta_text::NUMBER_BOUND;

/// The first row, counted from 0, at which the rows so far could weigh more than `NUMBER_BOUND`.
/// Each row counts with the greatest absolute value of any of the aggregate's measures over all labels.
/// None where there is no such row, or the aggregate has no measure. Takes no memory.
pub fn first_heavy(checked: &Checked, rows: &Rows) -> Option<u32>
    requires { HasColumnsOf checked.now (plain_rows rows.now) }
    ensures { result ≡ heavy.first_heavy checked.now (plain_rows rows.now) }
{
    let mut sum = 0;
    for row in 0..rows.count {
        // The sum so far is within the bound, so that no sum overflows.
        sum += row_weight(checked, rows, row);
        if sum > NUMBER_BOUND as u128 {
            return Some(row);
        }
    }
    None
}

// The greatest absolute value of the aggregate's measures at a row.
fn row_weight(checked: &Checked, rows: &Rows, row: u32) -> u128
    requires columns { HasColumnsOf checked.now (plain_rows rows.now) }
    requires row_in_range { row < rows.now.count }
    ensures weight { let measures = heavy.goal_measures checked.now.goal in
        result ≡ heavy.row_weight checked.now (plain_rows rows.now) measures row }
    ensures bounded { result ≤ VALUE_BOUND }
{
    match checked.goal() {
        Goal::Count | Goal::Any => 0,
        Goal::Max(measure) | Goal::Min(measure) => measure_weight(checked, rows, *measure, row),
        Goal::Best { measure, .. } => measure_weight(checked, rows, *measure, row),
        Goal::Ranked { keys, .. } => ranks_weight(checked, rows, keys.as_slice(), row),
    }
}

// The greatest absolute value of several measures at a row.
fn ranks_weight(checked: &Checked, rows: &Rows, ranks: &[Rank], row: u32) -> u128
    requires columns { HasColumnsOf checked.now (plain_rows rows.now) }
    requires measures_in_range { All (λ rank. rank.measure < length checked.now.measures) ranks.now }
    requires row_in_range { row < rows.now.count }
    ensures weight { let measures = heavy.rank_measures ranks.now in
        result ≡ heavy.row_weight checked.now (plain_rows rows.now) measures row }
    ensures bounded { result ≤ VALUE_BOUND }
{
    let mut greatest = 0;
    for rank in ranks {
        greatest = greatest.max(measure_weight(checked, rows, rank.measure, row));
    }
    greatest
}

// The greatest absolute value of a measure at a row.
fn measure_weight(checked: &Checked, rows: &Rows, measure: u32, row: u32) -> u128
    requires columns { HasColumnsOf checked.now (plain_rows rows.now) }
    requires measure_in_range { measure < length checked.now.measures }
    requires row_in_range { row < rows.now.count }
    ensures weight { result ≡ heavy.measure_weight checked.now (plain_rows rows.now) row measure }
    ensures bounded { result ≤ VALUE_BOUND }
{
    let mut greatest = 0;
    for label in 0..label_count(checked) {
        greatest = greatest.max(value_of(checked, rows, measure, row, label).unsigned_abs());
    }
    greatest
}
