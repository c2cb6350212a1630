//! What is added up over a candidate's marks. specs/Added.antt says what that is.

ghost use Rattle.std.specs.Prelude.{◌≡◌, ◌<◌, length};
ghost use Rattle.gta_checked.specs.PlainRows.{plain_rows};
ghost use Rattle.gta_meaning.specs.InRange.{HasColumnsOf};
ghost use Rattle.test_homs.specs.Added.{added_at, IsAddedWithin};

use gta_checked::{Checked, Rows};
use gta_meaning::value_of;

/// The value of a measure, or one for each mark.
#[derive(Clone, Copy)]
pub(crate) enum Added {
    Measure(u32),
    One,
}

/// What a row with a label adds. It takes no memory.
pub(crate) fn added_at(checked: &Checked, rows: &Rows, added: Added, row: u32, label: u32) -> i128
    requires columns { HasColumnsOf checked.now (plain_rows rows.now) }
    requires within { IsAddedWithin (length checked.now.measures) added }
    requires row_in_range { row < rows.now.count }
    ensures { result ≡ added_at checked.now (plain_rows rows.now) added row label }
{
    match added {
        Added::Measure(measure) => value_of(checked, rows, measure, row, label),
        Added::One => 1,
    }
}
