//! The products of a table's elements, from its lines `times`.

ghost use Rattle.std.specs.Prelude.{◌≡◌, ◌<◌, ◌^◌, length, map, IfOk, option_map};
ghost use Rattle.gta_spec.specs.Parts.{kind_tree, part_tree, table_tree, times_tree};
ghost use Rattle.spec_tables.specs.Tables.{only_one, option_list};
ghost use Rattle.spec_tables.specs.Lines.{line_of, lines_of, products_for, row_on};
ghost use Rattle.spec_tables.specs.Checked.{IsSquare};

use crate::numbers::numbers_in;
use gta_spec::{Part, PartKind, TablePart, TimesPart};
use gta_text::Name;
use std::alloc::{AllocError, Global};

/// What the lines `times` of a table are.
#[derive(Drop)]
pub(crate) enum Square {
    /// The numbers of the products, element by element.
    Cells(Vec<u32>),
    /// The number of the first element at which the table isn't square.
    NotAt(usize),
}

/// The lines `times` of a table.
fn lines_of<'a>(
    alloc: Global,
    parts: &'a [Part],
    table: &Name,
) -> Result<Vec<&'a TimesPart>, AllocError>
    ensures { IfOk result (λ lines. map (λ line. times_tree line.now) lines.items
        ≡ lines_of (map part_tree parts.now) table.now) }
{
    let mut lines = Vec::new(alloc);
    for part in parts {
        if let Some(line) = line_of(part, table) {
            lines.push(line)?;
        }
    }
    Ok(lines)
}

/// A line, where it is one `times` of this table.
fn line_of<'a>(part: &'a Part, table: &Name) -> Option<&'a TimesPart>
    ensures { option_list (option_map (λ line. times_tree line.now) result)
        ≡ line_of table.now (kind_tree part.now.kind) }
{
    match &part.kind {
        PartKind::Times(times) => {
            if times.table.bytes() == table.bytes() {
                Some(times)
            } else {
                None
            }
        }
        _ => None,
    }
}

/// The products on the only line of an element; None where there is no line, or more than one.
fn only_line<'a>(lines: &[&'a TimesPart], element: &Name) -> Option<&'a [Name]>
    ensures { option_map (λ row. row.now) result
        ≡ only_one (products_for element.now (map (λ line. times_tree line.now) lines.now)) }
{
    let mut found = None;
    for line in lines {
        if line.element.bytes() == element.bytes() {
            if found.is_some() {
                return None;
            }
            found = Some(line.products.as_slice());
        }
    }
    found
}

/// The numbers of an element's products; None where the table isn't square at it.
fn row_of(
    alloc: Global,
    lines: &[&TimesPart],
    table: &TablePart,
    element: &Name,
) -> Result<Option<Vec<u32>>, AllocError>
    requires { length table.now.elements.items < 2 ^ 32 }
    ensures { IfOk result (λ row. option_map (λ numbers. numbers.items) row
        ≡ row_on (map (λ line. times_tree line.now) lines.now) (table_tree table.now) element.now) }
{
    match only_line(lines, element) {
        Some(products) => numbers_in(alloc, table.elements.as_slice(), products),
        None => Ok(None),
    }
}

/// The numbers of all products, or the first element at which the table isn't square.
pub(crate) fn cells_of(
    alloc: Global,
    parts: &[Part],
    table: &TablePart,
) -> Result<Square, AllocError>
    requires { length table.now.elements.items < 2 ^ 32 }
    ensures { IfOk result (IsSquare (map part_tree parts.now) (table_tree table.now)) }
{
    // The lines are found once, since there may be many of them besides those of this table.
    let lines = lines_of(alloc, parts, &table.name)?;
    let mut cells = Vec::new(alloc);
    for (number, element) in table.elements.iter().enumerate() {
        match row_of(alloc, lines.as_slice(), table, element)? {
            Some(row) => cells.extend_from_slice(&row)?,
            None => return Ok(Square::NotAt(number)),
        }
    }
    Ok(Square::Cells(cells))
}
