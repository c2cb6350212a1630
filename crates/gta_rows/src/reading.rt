//! The records of a table, one at a time. What is left of them is in specs/Reading.antt.

ghost use Rattle.std.specs.Prelude.{◌≡◌, ◌∷◌, [], ◌+◌, ◌≤◌, true, false, IfOk, IfErr, length, map};
ghost use Rattle.gta_text.specs.declared.lines.TheConstants.{INPUT_BOUND};
ghost use Rattle.csv.specs.Reading.{default_config, has_failed, records, strip_bom};
ghost use Rattle.csv.specs.Reading.{builder_config, builder_names_headers, builder_is_flexible, builder_trim};
ghost use Rattle.gta_rows.specs.Fields.{trimmed_record, trimmed_fields};
ghost use Rattle.gta_rows.specs.Reading.{IsReading, records_left};
ghost use Rattle.gta_rows.specs.declared.fault.RowsFault.TheVariants.{Memory};

use crate::fault::RowsFault;
use csv::{ByteRecord, Reader, ReaderBuilder};
use std::alloc::Global;

/// A reader of all records of the bytes, with no header of its own.
pub(crate) fn reader_of<'a>(alloc: Global, bytes: &'a [u8]) -> Reader<&'a [u8]>
    requires { length bytes.now ≤ INPUT_BOUND }
    ensures reading { IsReading result }
    ensures few { length (records_left result) ≤ INPUT_BOUND }
    ensures records { records_left result
        ≡ map trimmed_record (records default_config (strip_bom bytes.now)) }
{
    all_records(&mut ReaderBuilder::new()).from_reader(alloc, bytes)
}

/// Every record is one of the table, and has as many fields as stand in it.
fn all_records(builder: &mut ReaderBuilder) -> &mut ReaderBuilder
    ensures config { builder_config result.now ≡ builder_config builder.old }
    ensures no_header { builder_names_headers result.now ≡ false }
    ensures flexible { builder_is_flexible result.now ≡ true }
    ensures trim { builder_trim result.now ≡ builder_trim builder.old }
{
    builder.has_headers(false).flexible(true)
}

/// Reads the next record, if there is one. It fails where csv gives no more records, for the reader
/// of its bytes or for memory; bytes in memory are read with no fault, so that memory is wanting.
/// After an error or the end the reader is used no more.
pub(crate) fn next_record(
    reader: &mut Reader<&[u8]>,
    row: &mut ByteRecord,
) -> Result<bool, RowsFault>
    requires { IsReading reader.old }
    ensures reading { IfOk result (λ found. found ≡ true → IsReading reader.new) }
    ensures next { IfOk result (λ found. found ≡ true
        → records_left reader.old ≡ trimmed_fields row.new ∷ records_left reader.new) }
    ensures narrow { IfOk result (λ found. found ≡ true
        → length (trimmed_fields row.new) ≤ INPUT_BOUND + 1) }
    ensures end { IfOk result (λ found. found ≡ false → records_left reader.old ≡ []) }
    ensures memory { IfErr result (λ fault. (fault ≡ Memory) × (has_failed reader.new ≡ true)) }
{
    match reader.read_byte_record(row) {
        Ok(found) => return Ok(found),
        Err(_) => {}
    }
    Err(RowsFault::Memory)
}
