//! A job as one value: a checked specification with its rows, and the same with its tests prepared.

ghost use Rattle.std.specs.Prelude.{◌≡◌, ◌≤◌, None};
ghost use Rattle.gta_spec.specs.declared.limits.TheConstants.{ROW_LIMIT};
ghost use Rattle.gta_checked.specs.PlainRows.{plain_rows};
ghost use Rattle.gta_meaning.specs.Heavy.{first_heavy};
ghost use Rattle.gta_meaning.specs.InRange.{HasColumnsOf};
ghost use Rattle.test_homs.specs.Homs.{ArePrepared};

use gta_checked::{Checked, Rows};
use test_homs::Tests;

/// A checked specification with the rows of its table, which have a cell for each declared column.
#[derive(Drop)]
pub struct Job {
    pub checked: Checked,
    pub rows: Rows,
    ghost columns: { HasColumnsOf checked (plain_rows rows) },
    ghost few: { rows.count ≤ ROW_LIMIT },
}

/// A job without a heavy row, with its tests as letters and keys.
#[derive(Drop)]
pub struct PreparedJob {
    pub job: Job,
    pub tests: Tests,
    ghost light: { first_heavy job.checked (plain_rows job.rows) ≡ None },
    ghost prepared: { ArePrepared job.checked (plain_rows job.rows) tests },
}
