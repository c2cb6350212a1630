//! The product of a fold: what a candidate's marks pick, multiplied in a table.

ghost use Rattle.std.specs.Prelude.{◌≡◌, ℕ, ◌<◌, All, map};
ghost use Rattle.monoid_kit.specs.Table.{table_mul};
ghost use Rattle.monoid_kit.specs.TableOf.{plain_table};
ghost use Rattle.gta_checked.specs.Plain.{plain_pick};
ghost use Rattle.gta_checked.specs.Within.{IsPickWithin};
ghost use Rattle.gta_checked.specs.PlainRows.{plain_rows};
ghost use Rattle.gta_meaning.specs.Folds as folds;

use crate::picks::first_pick;
use gta_checked::{Pick, Rows};
use monoid_kit::{Monoid, TableMonoid};
use shape_gen::Mark;

/// The element of the first pick whose condition holds at a row with a label, or the unit where none does.
/// Takes no memory.
pub fn picked(rows: &Rows, unit: u32, picks: &[Pick], row: u32, label: u32) -> u32
    requires within { (labels size : ℕ) × All (IsPickWithin rows.now.columns labels size) (map plain_pick picks.now) }
    requires row_in_range { row < rows.now.count }
    ensures { result ≡ folds.picked (plain_rows rows.now) unit (map plain_pick picks.now) row label }
{
    first_pick(rows, picks, row, label).unwrap_or(unit)
}

/// The product in a table, from left to right and beginning with its unit, of the elements that the marks pick.
pub(crate) fn folded(rows: &Rows, monoid: &TableMonoid, picks: &[Pick], marks: &[Mark]) -> u32
    requires within { (labels : ℕ)
        × All (IsPickWithin rows.now.columns labels (plain_table monoid.now).size) (map plain_pick picks.now) }
    requires rows_in_range { All (λ mark. mark.row < rows.now.count) marks.now }
    ensures { result
        ≡ folds.folded (plain_rows rows.now) (plain_table monoid.now) (map plain_pick picks.now) marks.now }
{
    let mut product = monoid.unit();
    for mark in marks {
        let element = picked(rows, monoid.unit(), picks, mark.row, mark.label);
        product = with_factor(monoid, product, element);
    }
    product
}

/// A product with one factor more on its right.
fn with_factor(monoid: &TableMonoid, product: u32, factor: u32) -> u32
    requires product_is_element { product < (plain_table monoid.now).size }
    requires factor_is_element { factor < (plain_table monoid.now).size }
    ensures { result ≡ table_mul (plain_table monoid.now) product factor }
{
    monoid.mul(product, factor)
}
