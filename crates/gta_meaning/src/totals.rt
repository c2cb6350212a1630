//! The total of a measure over a candidate.

ghost use Rattle.std.specs.Prelude.{◌≡◌, ◌<◌, length};
ghost use Rattle.gta_checked.specs.PlainRows.{plain_rows};
ghost use Rattle.gta_meaning.specs.InRange.{HasColumnsOf, IsInRangeOf};
ghost use Rattle.gta_meaning.specs.Values.{total};

use crate::candidate::Candidate;
use crate::values::value_of;
use gta_checked::{Checked, Rows};
use shape_gen::Mark;

/// The exact sum of a measure's values over a candidate's marks. Takes no memory.
pub fn weight_of(checked: &Checked, rows: &Rows, measure: u32, candidate: &Candidate) -> i128
    requires columns { HasColumnsOf checked.now (plain_rows rows.now) }
    requires measure_in_range { measure < length checked.now.measures }
    requires in_range { IsInRangeOf checked.now (plain_rows rows.now) candidate.now.marks.items }
    ensures { result ≡ total checked.now (plain_rows rows.now) measure candidate.now.marks.items }
{
    let mut sum = 0;
    for &Mark { row, label } in &candidate.marks {
        sum += value_of(checked, rows, measure, row, label);
    }
    sum
}
