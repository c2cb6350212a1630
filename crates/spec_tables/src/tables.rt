//! Tables that are monoids, or the fault that is told.

ghost use Rattle.std.specs.Prelude.{◌≡◌, map, IfOk};
ghost use Rattle.outcome_kit.specs.Outcome.{Tells};
ghost use Rattle.monoid_kit.specs.Table.{IsTable};
ghost use Rattle.gta_spec.specs.Parts.{part_tree, table_tree};
ghost use Rattle.gta_spec.specs.WellFormed.{EachFits};
ghost use Rattle.gta_checked.specs.Plain.{plain_named};
ghost use Rattle.spec_tables.specs.Tables.{tables_in};
ghost use Rattle.spec_tables.specs.Faults.{element_name, fault_in, tables_outcome};
ghost use Rattle.spec_tables.specs.Checked.{earlier, rank, square_of, IsChecked, IsLawful};
ghost use Rattle.spec_tables.specs.Ready.{IsReadyTable};

use crate::fault::TablesFault;
use crate::numbers::number_in;
use crate::products::{Square, cells_of};
use gta_checked::Table;
use gta_spec::{Part, PartKind, TablePart};
use gta_text::Name;
use monoid_kit::{RawTable, TableFault, check_table};
use std::alloc::{AllocError, Global};

/// The tables of these lines, whose products are monoids. Of several faults the first unit that fails is told,
/// or else the first triple that isn't associative, or else the first table that isn't square.
pub fn checked_tables(alloc: Global, parts: &[Part]) -> Result<Vec<Table>, TablesFault>
    requires ready { EachFits IsReadyTable (tables_in (map part_tree parts.now)) }
    ensures tells { let outcome = tables_outcome (map part_tree parts.now) in
        Tells fault_in (λ tables. map plain_named tables.items) outcome result }
{
    let mut tables = Vec::new(alloc);
    let mut first = None;
    for part in parts {
        if let PartKind::Table(table) = &part.kind {
            match checked_table(alloc, parts, table)? {
                Ok(made) => tables.push(made)?,
                Err(fault) => first = Some(earlier(first, fault)),
            }
        }
    }
    match first {
        Some(fault) => Err(fault),
        None => Ok(tables),
    }
}

/// The table of a line, or its fault.
fn checked_table(
    alloc: Global,
    parts: &[Part],
    table: &TablePart,
) -> Result<Result<Table, TablesFault>, AllocError>
    requires ready { IsReadyTable (table_tree table.now) }
    ensures { IfOk result (IsChecked (map part_tree parts.now) (table_tree table.now)) }
{
    match cells_of(alloc, parts, table)? {
        Square::Cells(cells) => lawful_table(alloc, table, cells),
        Square::NotAt(number) => Ok(Err(TablesFault::NotSquare {
            table: copy_of(alloc, &table.name)?,
            element: copy_of(alloc, &table.elements[number])?,
        })),
    }
}

/// The table with these products, or the first law that they break.
fn lawful_table(
    alloc: Global,
    table: &TablePart,
    cells: Vec<u32>,
) -> Result<Result<Table, TablesFault>, AllocError>
    requires table { IsTable (square_of (table_tree table.now) cells.items) }
    ensures { IfOk result (IsLawful (table_tree table.now) cells.items) }
{
    let raw = RawTable {
        size: table.elements.len() as u32,
        unit: number_in(table.elements.as_slice(), &table.unit),
        cells,
    };
    match check_table(alloc, &raw) {
        Ok(monoid) => Ok(Ok(Table {
            name: copy_of(alloc, &table.name)?,
            elements: copies_of(alloc, table.elements.as_slice())?,
            monoid,
        })),
        Err(TableFault::UnitFails { element, left }) => Ok(Err(TablesFault::UnitFails {
            table: copy_of(alloc, &table.name)?,
            element: element_name(alloc, table, element)?,
            left,
        })),
        Err(TableFault::NotAssociative { a, b, c }) => Ok(Err(TablesFault::NotAssociative {
            table: copy_of(alloc, &table.name)?,
            a: element_name(alloc, table, a)?,
            b: element_name(alloc, table, b)?,
            c: element_name(alloc, table, c)?,
        })),
        Err(TableFault::Memory) => Err(AllocError),
    }
}

/// The name of an element by its number, and no name past the last.
fn element_name(alloc: Global, table: &TablePart, number: u32) -> Result<Name, AllocError>
    ensures { IfOk result (λ name. name ≡ element_name (table_tree table.now) number) }
{
    match table.elements.get(number as usize) {
        Some(name) => copy_of(alloc, name),
        None => Name::of(alloc, b""),
    }
}

fn copy_of(alloc: Global, name: &Name) -> Result<Name, AllocError>
    ensures { IfOk result (λ copy. copy ≡ name.now) }
{
    Name::of(alloc, name.bytes())
}

fn copies_of(alloc: Global, names: &[Name]) -> Result<Vec<Name>, AllocError>
    ensures { IfOk result (λ copies. copies.items ≡ names.now) }
{
    let mut copies = Vec::with_capacity(alloc, names.len())?;
    for name in names {
        copies.push(copy_of(alloc, name)?)?;
    }
    Ok(copies)
}

/// The one of the lower rank, and of the same rank the earlier one.
fn earlier(first: Option<TablesFault>, fault: TablesFault) -> TablesFault
    ensures { result ≡ earlier first fault }
{
    match first {
        None => fault,
        Some(first) => {
            if rank(&fault) < rank(&first) {
                fault
            } else {
                first
            }
        }
    }
}

/// Faults of the unit come first, then triples.
fn rank(fault: &TablesFault) -> u32
    ensures { result ≡ rank fault.now }
{
    match fault {
        TablesFault::UnitFails { .. } => 0,
        TablesFault::NotAssociative { .. } => 1,
        TablesFault::NotSquare { .. } | TablesFault::Memory => 2,
    }
}
