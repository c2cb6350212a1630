//! What a row with a label picks: the element or the letter of the first pick whose condition holds there.

ghost use Rattle.std.specs.Prelude.{◌≡◌, ℕ, ◌<◌, All, map, option_map};
ghost use Rattle.std.specs.List.{find};
ghost use Rattle.gta_checked.specs.Plain.{PlainPick, plain_pick};
ghost use Rattle.gta_checked.specs.Within.{IsPickWithin};
ghost use Rattle.gta_checked.specs.PlainRows.{plain_rows};
ghost use Rattle.gta_meaning.specs.Values as values;

use crate::values::holds;
use gta_checked::{Pick, Rows};

/// The element or letter of the first pick whose condition holds at a row with a label; None where none does.
/// Takes no memory.
pub fn first_pick(rows: &Rows, picks: &[Pick], row: u32, label: u32) -> Option<u32>
    requires within { (labels size : ℕ) × All (IsPickWithin rows.now.columns labels size) (map plain_pick picks.now) }
    requires row_in_range { row < rows.now.count }
    ensures { result ≡ option_map (λ (pick : PlainPick). pick.element)
        (find (λ pick. values.holds (plain_rows rows.now) row label pick.cond) (map plain_pick picks.now)) }
{
    for pick in picks {
        if holds(rows, &pick.cond, row, label) {
            return Some(pick.element);
        }
    }
    None
}
