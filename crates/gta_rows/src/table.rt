//! The table of an input, read into rows. See specs/Table.antt.

ghost use Rattle.std.specs.Prelude.{◌≡◌, ◌+◌, ◌*◌, ◌<◌, ◌≤◌, ◌∷◌, None, IfOk, IfSome, OnOk};
ghost use Rattle.std.specs.Prelude.{IsTrue, drop, length};
ghost use Rattle.std.specs.List.{list_all};
ghost use Rattle.std.specs.Option.{option_or};
ghost use Rattle.outcome_kit.specs.Outcome.{Passes, Tells};
ghost use Rattle.gta_text.specs.declared.lines.TheConstants.{INPUT_BOUND};
ghost use Rattle.gta_text.specs.Text.{mark_length};
ghost use Rattle.gta_spec.specs.declared.limits.TheConstants.{COLUMN_LIMIT, ROW_LIMIT};
ghost use Rattle.gta_checked.specs.Cells.{is_cell};
ghost use Rattle.gta_checked.specs.PlainRows.{plain_rows};
ghost use Rattle.gta_rows.specs.Fields.{trimmed_fields};
ghost use Rattle.gta_rows.specs.Reading.{IsReading, records_left};
ghost use Rattle.gta_rows.specs.Table.{fault_in, table_outcome, IsTableOf};
ghost use Rattle.gta_rows.specs.Table.{cells_in, no_cell, records_fault, too_many};

use crate::body::{Body, read_body};
use crate::fault::RowsFault;
use crate::header::places_of;
use crate::reading::{next_record, reader_of};
use csv::{ByteRecord, Reader};
use gta_checked::{Checked, Rows};
use gta_spec::{ColumnItem, row_limit};
use gta_text::Name;
use std::alloc::Global;

/// The rows of a table: the cells of the declared columns, in the records that `csv` reads behind
/// the first, which is the header. Spaces and tabs at both ends of a field count for nothing; a
/// column is found by its header's text, or else its name; other columns are passed over. One mark
/// EF BB BF before the table is dropped here, and one more by `csv`.
/// The bytes are those behind the line `rows`. Of several faults the first in the order of the
/// variants is answered, each looked for over all records.
pub fn read_rows(alloc: Global, checked: &Checked, bytes: &[u8]) -> Result<Rows, RowsFault>
    requires { length bytes.now ≤ INPUT_BOUND }
    ensures tells { Tells fault_in plain_rows (table_outcome checked.now.version checked.now.columns bytes.now) result }
    ensures table { IfOk result (IsTableOf checked.now.columns bytes.now) }
{
    let mut reader = reader_of(alloc, without_mark(bytes));
    let mut header = ByteRecord::new(alloc);
    if !next_record(&mut reader, &mut header)? {
        return Err(RowsFault::NoHeader);
    }
    let items = checked.columns().as_slice();
    let rows = rows_under(alloc, *checked.version(), items, &header, &mut reader)?;
    Ok(rows)
}

fn without_mark(bytes: &[u8]) -> &[u8]
    ensures bytes { result.now ≡ drop (mark_length bytes.now) bytes.now }
    ensures within { length result.now ≤ length bytes.now }
{
    match bytes {
        [0xef, 0xbb, 0xbf, rest @ ..] => rest,
        _ => bytes,
    }
}

/// The rows that are left under a header.
fn rows_under(
    alloc: Global,
    version: u8,
    items: &[ColumnItem],
    header: &ByteRecord,
    reader: &mut Reader<&[u8]>,
) -> Result<Rows, RowsFault>
    requires few_columns { length items.now ≤ COLUMN_LIMIT }
    requires narrow { length (trimmed_fields header.now) ≤ INPUT_BOUND + 1 }
    requires reading { IsReading reader.old }
    requires few { length (records_left reader.old) ≤ INPUT_BOUND }
    ensures count { IfOk result (λ rows. rows.count ≡ length (records_left reader.old)) }
    ensures columns { IfOk result (λ rows. rows.columns ≡ length items.now) }
    ensures cells { IfOk result (λ rows. rows.cells.items
        ≡ cells_in items.now (trimmed_fields header.now ∷ records_left reader.old)) }
    ensures tells { let records = trimmed_fields header.now ∷ records_left reader.old in
        Passes fault_in (records_fault version items.now records) result }
{
    let columns = places_of(alloc, items, header)?;
    let body = read_body(alloc, columns.as_slice(), header.len(), reader)?;
    let rows = rows_of(alloc, version, items, body)?;
    Ok(rows)
}

/// The rows, where each place has a cell and they are not too many.
fn rows_of(alloc: Global, version: u8, items: &[ColumnItem], body: Body) -> Result<Rows, RowsFault>
    requires few_columns { length items.now ≤ COLUMN_LIMIT }
    requires known { IfSome body.bad (λ at. at.1 < length items.now) }
    requires whole { body.bad ≡ None → body.count ≤ ROW_LIMIT
        → length body.cells.items ≡ body.count * length items.now }
    requires within { IsTrue (list_all is_cell body.cells.items) }
    ensures count { IfOk result (λ rows. rows.count ≡ body.count) }
    ensures columns { IfOk result (λ rows. rows.columns ≡ length items.now) }
    ensures cells { IfOk result (λ rows. rows.cells ≡ body.cells) }
    ensures good { OnOk result (body.bad ≡ None) }
    ensures few { OnOk result (body.count ≤ ROW_LIMIT) }
    ensures tells { Passes fault_in (option_or (no_cell items.now body.bad) (too_many version body.count)) result }
{
    if let Some((row, column)) = body.bad {
        let column = Name::of(alloc, items[column as usize].name.bytes())?;
        return Err(RowsFault::Field { row, column });
    }
    let limit = row_limit(version);
    if body.count > limit {
        return Err(RowsFault::TooMany { limit });
    }
    Ok(Rows {
        count: body.count,
        columns: items.len() as u32,
        cells: body.cells,
    })
}
