//! What the lines of refusals share: their number, where the fault is, and the LF.
//! Each function refuses only for want of memory.
ghost use Rattle.std.specs.Prelude.{◌≡◌, ◌++◌, IfOk};
ghost use Rattle.report_text.specs.Texts.{refused, at_line, at_row};

use std::alloc::{AllocError, Global};

/// The line of the refusal of this number.
#[tactic(auto, unfolding(crate::specs::Texts::refused))]
pub(crate) fn refused(alloc: Global, number: u32, text: &[u8]) -> Result<Vec<u8>, AllocError>
    ensures { IfOk result (λ line. line.items ≡ refused number text.now) }
{
    let front = format!(in alloc; "refused {number}: ")?;
    let mut line = front.into_bytes();
    line.extend_from_slice(text)?;
    line.extend_from_slice(b"\n")?;
    Ok(line)
}

/// The line of the refusal of this number about a line of the specification, which counts from 1.
#[tactic(auto, unfolding(crate::specs::Texts::at_line))]
pub(crate) fn at_line(
    alloc: Global,
    number: u32,
    line: u32,
    text: &[u8],
) -> Result<Vec<u8>, AllocError>
    ensures { IfOk result (λ said. said.items ≡ refused number (at_line line text.now)) }
{
    let place = format!(in alloc; "line {line}")?;
    let placed = around(alloc, place.as_bytes(), b": ", text)?;
    refused(alloc, number, placed.as_slice())
}

/// The line of the refusal of this number about a row, which counts from 0.
pub(crate) fn at_row(
    alloc: Global,
    number: u32,
    row: u32,
    text: &[u8],
) -> Result<Vec<u8>, AllocError>
    ensures { IfOk result (λ line. line.items ≡ refused number (at_row row text.now)) }
{
    let placed = row_text(alloc, row, text)?;
    refused(alloc, number, placed.as_slice())
}

/// A text about a row, which counts from 0.
#[tactic(auto, unfolding(crate::specs::Texts::at_row))]
pub(crate) fn row_text(alloc: Global, row: u32, text: &[u8]) -> Result<Vec<u8>, AllocError>
    ensures { IfOk result (λ placed. placed.items ≡ at_row row text.now) }
{
    let place = u64::from(row) + 1;
    let front = format!(in alloc; "row {place}")?;
    joined(alloc, front.as_bytes(), text)
}

/// The first bytes and then the last.
pub(crate) fn joined(alloc: Global, first: &[u8], last: &[u8]) -> Result<Vec<u8>, AllocError>
    ensures { IfOk result (λ whole. whole.items ≡ first.now ++ last.now) }
{
    let mut whole = Vec::from_slice(alloc, first)?;
    whole.extend_from_slice(last)?;
    Ok(whole)
}

/// The middle between what stands before and after it.
pub(crate) fn around(
    alloc: Global,
    before: &[u8],
    middle: &[u8],
    after: &[u8],
) -> Result<Vec<u8>, AllocError>
    ensures { IfOk result (λ whole. whole.items ≡ before.now ++ (middle.now ++ after.now)) }
{
    let mut whole = joined(alloc, before, middle)?;
    whole.extend_from_slice(after)?;
    Ok(whole)
}
