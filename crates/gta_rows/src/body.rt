//! The cells of the records behind the header, and the first that is none.

ghost use Rattle.std.specs.Prelude.{◌≡◌, ◌+◌, ◌<◌, ◌≤◌, ◌∷◌, [], ◌++◌, None, IfOk, OnOk};
ghost use Rattle.std.specs.Prelude.{IsTrue, List, false, is_some, length, option_to_list};
ghost use Rattle.std.specs.List.{filter_map, list_all, position};
ghost use Rattle.outcome_kit.specs.Outcome.{Passes};
ghost use Rattle.gta_text.specs.declared.lines.TheConstants.{INPUT_BOUND};
ghost use Rattle.gta_spec.specs.declared.limits.TheConstants.{COLUMN_LIMIT};
ghost use Rattle.gta_checked.specs.Cells.{is_cell};
ghost use Rattle.gta_rows.specs.Fields.{Record, trimmed_fields, cell_at, has_no_cell};
ghost use Rattle.gta_rows.specs.Reading.{IsReading, records_left};
ghost use Rattle.gta_rows.specs.Table.{fault_in, wrong_length};
ghost use Rattle.gta_rows.specs.Body.{IsBodyOf};

use crate::fault::RowsFault;
use crate::fields::cell_at;
use crate::reading::next_record;
use csv::{ByteRecord, Reader};
use gta_spec::ROW_LIMIT;
use std::alloc::{AllocError, Global};

/// The records so far: how many, the first place without a cell (its record and its column, from
/// 0), and the cells. Cells are kept up to the row limit, and no more once a place is known.
#[derive(Drop)]
pub(crate) struct Body {
    pub count: u32,
    pub bad: Option<(u32, u32)>,
    pub cells: Vec<i64>,
}

/// Reads the records that are left, up to the first that has another number of fields.
pub(crate) fn read_body(
    alloc: Global,
    columns: &[usize],
    width: usize,
    reader: &mut Reader<&[u8]>,
) -> Result<Body, RowsFault>
    requires few_columns { length columns.now ≤ COLUMN_LIMIT }
    requires narrow { width ≤ INPUT_BOUND + 1 }
    requires reading { IsReading reader.old }
    requires few { length (records_left reader.old) ≤ INPUT_BOUND }
    ensures body { IfOk result (IsBodyOf columns.now (records_left reader.old)) }
    ensures tells { Passes fault_in (wrong_length width (records_left reader.old)) result }
{
    let mut body = Body {
        count: 0,
        bad: None,
        cells: Vec::new(alloc),
    };
    let mut row = ByteRecord::new(alloc);
    while next_record(reader, &mut row)? {
        if row.len() != width {
            return Err(RowsFault::Length {
                row: body.count,
                fields: row.len() as u32,
                header: width as u32,
            });
        }
        add_row(&row, columns, &mut body)?;
    }
    Ok(body)
}

fn add_row(row: &ByteRecord, columns: &[usize], body: &mut Body) -> Result<(), AllocError>
    requires few { body.old.count < INPUT_BOUND }
    requires few_columns { length columns.now ≤ COLUMN_LIMIT }
    ensures added { OnOk result ((records : List Record)
        → IsBodyOf columns.now records body.old
        → IsBodyOf columns.now (records ++ trimmed_fields row.now ∷ []) body.new) }
{
    let number = body.count;
    body.count += 1;
    if let Some(_) = body.bad {
        return Ok(());
    }
    let keep = number < ROW_LIMIT;
    if let Some(column) = add_cells(row, columns, keep, &mut body.cells)? {
        body.bad = Some((number, column as u32));
        return Ok(());
    }
    Ok(())
}

/// Adds the cells of the columns, if they are kept. Gives the number of the first column that has
/// no cell.
fn add_cells(
    row: &ByteRecord,
    columns: &[usize],
    keep: bool,
    cells: &mut Vec<i64>,
) -> Result<Option<usize>, AllocError>
    ensures bad { IfOk result (λ bad. bad
        ≡ position (has_no_cell (trimmed_fields row.now)) columns.now) }
    ensures cells { IfOk result (λ bad. bad ≡ None → IsTrue keep
        → cells.new.items
        ≡ cells.old.items ++ filter_map (cell_at (trimmed_fields row.now)) columns.now) }
    ensures count { IfOk result (λ bad. bad ≡ None → IsTrue keep
        → length cells.new.items ≡ length cells.old.items + length columns.now) }
    ensures within { OnOk result (IsTrue (list_all is_cell cells.old.items)
        → IsTrue (list_all is_cell cells.new.items)) }
{
    for column in 0..columns.len() {
        if !add_cell(row, columns[column], keep, cells)? {
            return Ok(Some(column));
        }
    }
    Ok(None)
}

/// Adds the cell at a place, if it is kept. False where no cell stands there.
fn add_cell(
    row: &ByteRecord,
    place: usize,
    keep: bool,
    cells: &mut Vec<i64>,
) -> Result<bool, AllocError>
    ensures found { IfOk result (λ found. found
        ≡ is_some (cell_at (trimmed_fields row.now) place)) }
    ensures kept { OnOk result (IsTrue keep
        → cells.new.items
        ≡ cells.old.items ++ option_to_list (cell_at (trimmed_fields row.now) place)) }
    ensures passed { OnOk result (keep ≡ false → cells.new.items ≡ cells.old.items) }
{
    let Some(cell) = cell_at(row, place) else {
        return Ok(false);
    };
    if keep {
        cells.push(cell)?;
    }
    Ok(true)
}
