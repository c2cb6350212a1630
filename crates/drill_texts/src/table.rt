//! The table of the drill. Its rows and bytes are in specs/Drills.antt.
ghost use Rattle.std.specs.Prelude.{◌≡◌, ◌≤◌, ◌++◌, OnOk};
ghost use Rattle.drill_texts.specs.Drills.{row_text, table_text};

use std::alloc::{AllocError, Global};

/// A table has at most this many rows.
pub const ROWS_LIMIT: u32 = 20000;

/// Adds the header and the lines of the rows.
pub(crate) fn push_table(
    alloc: Global,
    text: &mut Vec<u8>,
    seed: u32,
    rows: u32,
) -> Result<(), AllocError>
    requires few_rows { rows ≤ ROWS_LIMIT }
    ensures { OnOk result (text.new.items ≡ text.old.items ++ table_text seed rows) }
{
    text.extend_from_slice(b"weight,value\n")?;
    'rows: for row in 1..=rows {
        push_row(alloc, text, seed, row)?;
    }
    Ok(())
}

/// Adds the line of one row, which counts from 1.
fn push_row(alloc: Global, text: &mut Vec<u8>, seed: u32, row: u32) -> Result<(), AllocError>
    requires { row ≤ ROWS_LIMIT }
    ensures { OnOk result (text.new.items ≡ text.old.items ++ row_text seed row) }
{
    let seed = u64::from(seed);
    let row = u64::from(row);
    let weight = 1 + (seed + 7 * row) % 13;
    let value = 1 + (3 * seed + 11 * row + row * row) % 101;
    let line = format!(in alloc; "{weight},{value}\n")?;
    text.extend_from_slice(line.as_bytes())
}
