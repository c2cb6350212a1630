//! The three jobs of the drill, and the line above their reports. The bytes are in specs/Drills.antt.
ghost use Rattle.std.specs.Prelude.{◌≡◌, ◌≤◌, length, IfOk};
ghost use Rattle.drill_texts.specs.Drills as texts;

use crate::table::{ROWS_LIMIT, push_table};
use std::alloc::{AllocError, Global};

/// The text of a job has at most this many bytes.
pub const BYTES_LIMIT: u32 = 1000000;

/// The jobs over the table.
#[derive(Clone, Copy, Debug, PartialEq, Eq)]
pub enum Drill {
    /// The best 3 sublists by value that weigh at most 100.
    Best,
    /// The greatest value of a sublist that weighs at most 1000.
    Greatest,
    /// How many segments have a row.
    Segments,
}

/// The specification of the job, and the table of this seed and number of rows.
/// Refuses only for want of memory.
pub fn drill_text(alloc: Global, drill: Drill, seed: u32, rows: u32) -> Result<Vec<u8>, AllocError>
    requires few_rows { rows ≤ ROWS_LIMIT }
    ensures text { IfOk result (λ text. text.items ≡ texts.drill_text drill seed rows) }
    ensures short { IfOk result (λ text. length text.items ≤ BYTES_LIMIT) }
{
    let mut text = Vec::from_slice(alloc, spec_bytes(drill))?;
    push_table(alloc, &mut text, seed, rows)?;
    Ok(text)
}

fn spec_bytes(drill: Drill) -> &'static [u8]
    ensures { result.now ≡ texts.spec_text drill }
{
    match drill {
        Drill::Best => {
            b"gta 1\ncolumns weight value\ngenerate sublists\n\
              test sum weight <= 100\naggregate best 3 max value\nrows\n"
        }
        Drill::Greatest => {
            b"gta 1\ncolumns weight value\ngenerate sublists\n\
              test sum weight <= 1000\naggregate max value\nrows\n"
        }
        Drill::Segments => {
            b"gta 1\ncolumns weight value\ngenerate segments\n\
              test length >= 1\naggregate count\nrows\n"
        }
    }
}

/// The line above the three reports. Refuses only for want of memory.
pub fn heading(alloc: Global, seed: u32, rows: u32) -> Result<Vec<u8>, AllocError>
    ensures { IfOk result (λ line. line.items ≡ texts.heading seed rows) }
{
    let line = format!(in alloc; "drill {seed} {rows}\n")?;
    Ok(line.into_bytes())
}
