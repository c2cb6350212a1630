//! The line that tells of a refusal. The bytes are in specs/Texts.antt.
ghost use Rattle.std.specs.Prelude.{◌≡◌, ℕ, ℤ, List, ◌++◌, Option, IfOk};
ghost use Rattle.report_text.specs.Texts.{fault_text, refused, at_line, at_test};
ghost use Rattle.report_text.specs.Texts.{value_text, labelled};
ghost use Rattle.report_text.specs.Texts.{of_table, of_automaton, of_column, automaton_text, side_text, triple_text};

use crate::frame::{around, at_line, at_row, joined, refused, row_text};
use crate::refusal::Refusal;
use gta_text::Name;
use std::alloc::{AllocError, Global};
use std::fmt::Write;

/// The line that tells of a refusal, with its LF; rows and tests are printed from 1.
/// Refuses only for want of memory.
pub fn fault_line(alloc: Global, refusal: &Refusal) -> Result<Vec<u8>, AllocError>
    ensures { IfOk result (λ line. line.items ≡ fault_text refusal.now) }
{
    match refusal {
        Refusal::Byte { line, place } => byte_line(alloc, *line, *place),
        Refusal::Version { line } => at_line(alloc, 11, *line, b"not a known gta version"),
        Refusal::Grammar { line } => at_line(alloc, 12, *line, b"not in the grammar"),
        Refusal::Number { line } => at_line(alloc, 13, *line, b"number past 4611686018427387903"),
        Refusal::NoRows => refused(alloc, 14, b"no line rows"),
        Refusal::Unknown { line, name } => named(alloc, 20, *line, b"unknown name ", name),
        Refusal::Twice { line, name } => twice_line(alloc, *line, name),
        Refusal::Missing { part } => missing_line(alloc, part),
        Refusal::SecondPart { line, part } => named(alloc, 23, *line, b"second part ", part),
        Refusal::LabelsAssign { line, assign } => labels_line(alloc, *line, *assign),
        Refusal::Limit { line, limit } => named(alloc, 25, *line, b"limit ", limit),
        Refusal::UnitFails {
            table,
            element,
            left,
        } => unit_line(alloc, table, element, *left),
        Refusal::NotAssociative { table, a, b, c } => triple_line(alloc, table, a, b, c),
        Refusal::NotSquare { table, element } => square_line(alloc, table, element),
        Refusal::Automaton { name, letter } => automaton_line(alloc, name, letter),
        Refusal::NoHeader => refused(alloc, 31, b"no header"),
        Refusal::ColumnMissing { column } => column_line(alloc, 32, column, b" missing"),
        Refusal::ColumnTwice { column } => column_line(alloc, 33, column, b" twice"),
        Refusal::Length {
            row,
            fields,
            header,
        } => length_line(alloc, *row, *fields, *header),
        Refusal::Field { row, column } => field_line(alloc, *row, column),
        Refusal::TooMany { limit } => rows_line(alloc, *limit),
        Refusal::Negative {
            test,
            row,
            label,
            value,
        } => negative_line(alloc, *test, *row, label, *value),
        Refusal::Heavy { row } => heavy_line(alloc, *row),
        Refusal::Keys { keys } => keys_line(alloc, *keys),
        Refusal::Size { size } => size_line(alloc, *size),
        Refusal::ListSize => refused(alloc, 44, b"too many candidates to list"),
        Refusal::Input { limit } => input_line(alloc, *limit),
    }
}

fn byte_line(alloc: Global, line: u32, place: u32) -> Result<Vec<u8>, AllocError>
    ensures { IfOk result (λ said. said.items ≡ fault_text (Refusal.Byte line place)) }
{
    let text = format!(in alloc; "line {line}, byte {place}: not printable ASCII")?;
    refused(alloc, 10, text.as_bytes())
}

// The line of the refusal of this number whose text is these words and the name.
fn named(
    alloc: Global,
    number: u32,
    line: u32,
    words: &[u8],
    name: &Name,
) -> Result<Vec<u8>, AllocError>
    ensures { IfOk result (λ said.
        said.items ≡ refused number (at_line line (words.now ++ name.now))) }
{
    let text = joined(alloc, words, name.bytes())?;
    at_line(alloc, number, line, text.as_slice())
}

fn twice_line(alloc: Global, line: u32, name: &Name) -> Result<Vec<u8>, AllocError>
    ensures { IfOk result (λ said. said.items ≡ fault_text (Refusal.Twice line name.now)) }
{
    let text = around(alloc, b"name ", name.bytes(), b" declared twice")?;
    at_line(alloc, 21, line, text.as_slice())
}

fn missing_line(alloc: Global, part: &Name) -> Result<Vec<u8>, AllocError>
    ensures { IfOk result (λ line. line.items ≡ fault_text (Refusal.Missing part.now)) }
{
    let text = joined(alloc, b"no part ", part.bytes())?;
    refused(alloc, 22, text.as_slice())
}

fn labels_line(alloc: Global, line: u32, assign: bool) -> Result<Vec<u8>, AllocError>
    ensures { IfOk result (λ said. said.items ≡ fault_text (Refusal.LabelsAssign line assign)) }
{
    if assign {
        at_line(alloc, 24, line, b"assign without labels")
    } else {
        at_line(alloc, 24, line, b"labels without assign")
    }
}

fn unit_line(alloc: Global, table: &Name, element: &Name, left: bool) -> Result<Vec<u8>, AllocError>
    ensures { IfOk result (λ line.
        line.items ≡ fault_text (Refusal.UnitFails table.now element.now left)) }
{
    let text = around(alloc, b": unit fails at ", element.bytes(), side_text(left))?;
    table_line(alloc, 26, table, text.as_slice())
}

fn side_text(left: bool) -> &'static [u8]
    ensures { result.now ≡ side_text left }
{
    if left { b", left" } else { b", right" }
}

fn triple_line(
    alloc: Global,
    table: &Name,
    a: &Name,
    b: &Name,
    c: &Name,
) -> Result<Vec<u8>, AllocError>
    ensures { IfOk result (λ line.
        line.items ≡ fault_text (Refusal.NotAssociative table.now a.now b.now c.now)) }
{
    let triple = triple_text(alloc, a, b, c)?;
    let text = joined(alloc, b": not associative at ", triple.as_slice())?;
    table_line(alloc, 27, table, text.as_slice())
}

#[tactic(auto, unfolding(crate::specs::Texts::triple_text))]
fn triple_text(alloc: Global, a: &Name, b: &Name, c: &Name) -> Result<Vec<u8>, AllocError>
    ensures { IfOk result (λ text. text.items ≡ triple_text a.now b.now c.now) }
{
    let last = around(alloc, b.bytes(), b" ", c.bytes())?;
    around(alloc, a.bytes(), b" ", last.as_slice())
}

fn square_line(alloc: Global, table: &Name, element: &Name) -> Result<Vec<u8>, AllocError>
    ensures { IfOk result (λ line.
        line.items ≡ fault_text (Refusal.NotSquare table.now element.now)) }
{
    let text = joined(alloc, b": not square at ", element.bytes())?;
    table_line(alloc, 28, table, text.as_slice())
}

#[tactic(auto, unfolding(crate::specs::Texts::of_automaton))]
fn automaton_line(alloc: Global, name: &Name, letter: &Option<Name>) -> Result<Vec<u8>, AllocError>
    ensures { IfOk result (λ line. line.items ≡ fault_text (Refusal.Automaton name.now letter.now)) }
{
    let fault = automaton_text(alloc, letter)?;
    let text = around(alloc, b"automaton ", name.bytes(), fault.as_slice())?;
    refused(alloc, 29, text.as_slice())
}

#[tactic(auto, unfolding(crate::specs::Texts::automaton_text))]
fn automaton_text(alloc: Global, letter: &Option<Name>) -> Result<Vec<u8>, AllocError>
    ensures { IfOk result (λ text. text.items ≡ automaton_text letter.now) }
{
    match letter {
        Some(letter) => joined(alloc, b": not total at ", letter.bytes()),
        None => Vec::from_slice(alloc, b": more than 64 elements"),
    }
}

// The line of the refusal of this number about a table.
#[tactic(auto, unfolding(crate::specs::Texts::of_table))]
fn table_line(alloc: Global, number: u32, table: &Name, text: &[u8]) -> Result<Vec<u8>, AllocError>
    ensures { IfOk result (λ line. line.items ≡ refused number (of_table table.now text.now)) }
{
    let text = around(alloc, b"table ", table.bytes(), text)?;
    refused(alloc, number, text.as_slice())
}

// The line of the refusal of this number about a column.
#[tactic(auto, unfolding(crate::specs::Texts::of_column))]
fn column_line(
    alloc: Global,
    number: u32,
    column: &Name,
    text: &[u8],
) -> Result<Vec<u8>, AllocError>
    ensures { IfOk result (λ line. line.items ≡ refused number (of_column column.now text.now)) }
{
    let text = around(alloc, b"column ", column.bytes(), text)?;
    refused(alloc, number, text.as_slice())
}

fn length_line(alloc: Global, row: u32, fields: u32, header: u32) -> Result<Vec<u8>, AllocError>
    ensures { IfOk result (λ line. line.items ≡ fault_text (Refusal.Length row fields header)) }
{
    let text = format!(in alloc; ": {fields} fields, header has {header}")?;
    at_row(alloc, 34, row, text.as_bytes())
}

fn field_line(alloc: Global, row: u32, column: &Name) -> Result<Vec<u8>, AllocError>
    ensures { IfOk result (λ line. line.items ≡ fault_text (Refusal.Field row column.now)) }
{
    let fault = b": not a whole number within 4611686018427387903";
    let text = around(alloc, b", column ", column.bytes(), fault)?;
    at_row(alloc, 35, row, text.as_slice())
}

#[tactic(auto, unfolding(crate::specs::Texts::at_test))]
fn negative_line(
    alloc: Global,
    test: u32,
    row: u32,
    label: &Option<Name>,
    value: i128,
) -> Result<Vec<u8>, AllocError>
    ensures { IfOk result (λ line.
        line.items ≡ fault_text (Refusal.Negative test row label.now value)) }
{
    let value = value_text(alloc, value)?;
    let fault = labelled(alloc, label, value.as_slice())?;
    let placed = row_text(alloc, row, fault.as_slice())?;
    let number = u64::from(test) + 1;
    let front = format!(in alloc; "test {number}")?;
    let text = around(alloc, front.as_bytes(), b", ", placed.as_slice())?;
    refused(alloc, 40, text.as_slice())
}

#[tactic(auto, unfolding(crate::specs::Texts::value_text))]
fn value_text(alloc: Global, value: i128) -> Result<Vec<u8>, AllocError>
    ensures { IfOk result (λ text. text.items ≡ value_text value) }
{
    let text = format!(in alloc; ": value {value} is negative")?;
    Ok(text.into_bytes())
}

#[tactic(auto, unfolding(crate::specs::Texts::labelled))]
fn labelled(alloc: Global, label: &Option<Name>, text: &[u8]) -> Result<Vec<u8>, AllocError>
    ensures { IfOk result (λ said. said.items ≡ labelled label.now text.now) }
{
    match label {
        None => Vec::from_slice(alloc, text),
        Some(label) => around(alloc, b", label ", label.bytes(), text),
    }
}

fn heavy_line(alloc: Global, row: u32) -> Result<Vec<u8>, AllocError>
    ensures { IfOk result (λ line. line.items ≡ fault_text (Refusal.Heavy row)) }
{
    at_row(alloc, 41, row, b": weight total past 4611686018427387903")
}

fn keys_line(alloc: Global, keys: u128) -> Result<Vec<u8>, AllocError>
    ensures { IfOk result (λ line. line.items ≡ fault_text (Refusal.Keys keys)) }
{
    let text = format!(in alloc; "{keys} keys past 8192")?;
    refused(alloc, 42, text.as_bytes())
}

fn size_line(alloc: Global, size: u64) -> Result<Vec<u8>, AllocError>
    ensures { IfOk result (λ line. line.items ≡ fault_text (Refusal.Size size)) }
{
    let text = format!(in alloc; "size {size} past 67108864")?;
    refused(alloc, 43, text.as_bytes())
}

fn rows_line(alloc: Global, limit: u32) -> Result<Vec<u8>, AllocError>
    ensures { IfOk result (λ line. line.items ≡ fault_text (Refusal.TooMany limit)) }
{
    let text = format!(in alloc; "more than {limit} rows")?;
    refused(alloc, 36, text.as_bytes())
}

fn input_line(alloc: Global, limit: u32) -> Result<Vec<u8>, AllocError>
    ensures { IfOk result (λ line. line.items ≡ fault_text (Refusal.Input limit)) }
{
    let text = format!(in alloc; "input past {limit} bytes")?;
    refused(alloc, 45, text.as_bytes())
}
