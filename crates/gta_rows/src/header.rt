//! The places of the declared columns in the header. See specs/Table.antt.

ghost use Rattle.std.specs.Prelude.{◌≡◌, ◌<◌, None, IfOk, OnOk};
ghost use Rattle.std.specs.Option.{option_or};
ghost use Rattle.std.specs.Str.{bytes_eq};
ghost use Rattle.outcome_kit.specs.Outcome.{Passes};
ghost use Rattle.gta_rows.specs.Fields.{trimmed_fields};
ghost use Rattle.gta_rows.specs.Places.{is_at};
ghost use Rattle.gta_rows.specs.Table.{header_text, times_in, place_in, places, missing, twice};
ghost use Rattle.gta_rows.specs.Table.{fault_in};

use crate::fault::RowsFault;
use crate::fields::field_at;
use csv::ByteRecord;
use gta_spec::ColumnItem;
use gta_text::Name;
use std::alloc::Global;

/// Where the cells of the columns stand in each record, or the first column that the header lacks
/// or has more than once.
pub(crate) fn places_of(
    alloc: Global,
    items: &[ColumnItem],
    header: &ByteRecord,
) -> Result<Vec<usize>, RowsFault>
    ensures places { IfOk result (λ columns. columns.items
        ≡ places (trimmed_fields header.now) items.now) }
    ensures none_missing { OnOk result (missing (trimmed_fields header.now) items.now ≡ None) }
    ensures none_twice { OnOk result (twice (trimmed_fields header.now) items.now ≡ None) }
    ensures tells { let header = trimmed_fields header.now in
        Passes fault_in (option_or (missing header items.now) (twice header items.now)) result }
{
    check_present(alloc, items, header)?;
    check_once(alloc, items, header)?;
    let mut columns = Vec::new(alloc);
    for item in items {
        columns.push(place_in(header, header_text(item)))?;
    }
    Ok(columns)
}

fn check_present(alloc: Global, items: &[ColumnItem], header: &ByteRecord) -> Result<(), RowsFault>
    ensures tells { Passes fault_in (missing (trimmed_fields header.now) items.now) result }
{
    for item in items {
        if times_in(header, header_text(item)) == 0 {
            let column = Name::of(alloc, item.name.bytes())?;
            return Err(RowsFault::Missing { column });
        }
    }
    Ok(())
}

fn check_once(alloc: Global, items: &[ColumnItem], header: &ByteRecord) -> Result<(), RowsFault>
    ensures tells { Passes fault_in (twice (trimmed_fields header.now) items.now) result }
{
    for item in items {
        if times_in(header, header_text(item)) > 1 {
            let column = Name::of(alloc, item.name.bytes())?;
            return Err(RowsFault::ColumnTwice { column });
        }
    }
    Ok(())
}

fn header_text(item: &ColumnItem) -> &[u8]
    ensures { result.now ≡ header_text item.now }
{
    match &item.header {
        Some(text) => text.bytes(),
        None => item.name.bytes(),
    }
}

/// How many fields of the header are the text.
fn times_in(header: &ByteRecord, text: &[u8]) -> usize
    ensures { result ≡ times_in (trimmed_fields header.now) text.now }
{
    let mut times = 0;
    for place in 0..header.len() {
        if is_at(header, place, text) {
            times += 1;
        }
    }
    times
}

/// The number of the first field that is the text; that of fields where none is.
fn place_in(header: &ByteRecord, text: &[u8]) -> usize
    ensures { result ≡ place_in (trimmed_fields header.now) text.now }
{
    for place in 0..header.len() {
        if is_at(header, place, text) {
            return place;
        }
    }
    header.len()
}

fn is_at(header: &ByteRecord, place: usize, text: &[u8]) -> bool
    ensures { result
        ≡ is_at (λ field. bytes_eq field text.now) (trimmed_fields header.now) place }
{
    match field_at(header, place) {
        Some(field) => field == text,
        None => false,
    }
}
