//! The line of an entry, and the text of its candidate. Each function adds to the end of a text, and refuses
//! only for want of memory.
ghost use Rattle.std.specs.Prelude.{◌≡◌, ◌<◌, ◌++◌, length, OnOk};
ghost use Rattle.std.specs.Fmt.{signed_decimal};
ghost use Rattle.report_text.specs.Texts.{mark_text, more_marks_text, candidate_text, entry_text, totals_text, third_text};
ghost use Rattle.report_text.specs.Texts.{label_text, candidate_line, AreLabelled};

use best_k::Entry;
use gta_text::Name;
use semiring_kit::Lex;
use shape_gen::Mark;
use std::alloc::{AllocError, Global};

/// The line of the entry at this place, with its total.
pub(crate) fn push_entry(
    alloc: Global,
    text: &mut Vec<u8>,
    place: usize,
    entry: &Entry<i64>,
    labels: &[Name],
) -> Result<(), AllocError>
    requires { AreLabelled labels.now entry.now.witness }
    ensures { OnOk result (text.new.items ≡ text.old.items
        ++ entry_text labels.now place (signed_decimal entry.now.total) entry.now.witness) }
{
    let total = entry.total;
    let front = format!(in alloc; "{place} {total} ")?;
    text.extend_from_slice(front.as_bytes())?;
    push_candidate_line(alloc, text, entry.witness.marks(), labels)
}

/// The line of the entry at this place, with its totals.
pub(crate) fn push_ranked_entry(
    alloc: Global,
    text: &mut Vec<u8>,
    place: usize,
    parts: u32,
    entry: &Entry<Lex>,
    labels: &[Name],
) -> Result<(), AllocError>
    requires { AreLabelled labels.now entry.now.witness }
    ensures { OnOk result (text.new.items ≡ text.old.items
        ++ entry_text labels.now place (totals_text parts entry.now.total) entry.now.witness) }
{
    let front = format!(in alloc; "{place} ")?;
    text.extend_from_slice(front.as_bytes())?;
    push_totals(alloc, text, parts, &entry.total)?;
    text.extend_from_slice(b" ")?;
    push_candidate_line(alloc, text, entry.witness.marks(), labels)
}

/// Two totals, and the third where there are more parts.
pub(crate) fn push_totals(
    alloc: Global,
    text: &mut Vec<u8>,
    parts: u32,
    totals: &Lex,
) -> Result<(), AllocError>
    ensures { OnOk result (text.new.items ≡ text.old.items ++ totals_text parts totals.now) }
{
    let first = totals.first;
    let second = totals.second;
    let third = totals.third;
    let two = format!(in alloc; "{first} {second}")?;
    text.extend_from_slice(two.as_bytes())?;
    push_third(alloc, text, parts, third)?;
    Ok(())
}

// The third total behind a space, where there are more than two parts.
fn push_third(alloc: Global, text: &mut Vec<u8>, parts: u32, total: i64) -> Result<(), AllocError>
    ensures { OnOk result (text.new.items ≡ text.old.items ++ third_text parts total) }
{
    if parts <= 2 {
        return Ok(());
    }
    let third = format!(in alloc; " {total}")?;
    text.extend_from_slice(third.as_bytes())
}

/// Adds the line of a candidate, by its marks, to the end of a text. The labels are those that marks
/// name by their number; where there are none, marks are printed without one.
/// Refuses only for want of memory.
pub fn push_candidate_line(
    alloc: Global,
    text: &mut Vec<u8>,
    marks: &[Mark],
    labels: &[Name],
) -> Result<(), AllocError>
    requires labelled { AreLabelled labels.now marks.now }
    ensures line { OnOk result (text.new.items ≡ text.old.items ++ candidate_line labels.now marks.now) }
{
    push_candidate(alloc, text, marks, labels)?;
    text.extend_from_slice(b"\n")
}

/// The marks, with a space between them.
fn push_candidate(
    alloc: Global,
    text: &mut Vec<u8>,
    marks: &[Mark],
    labels: &[Name],
) -> Result<(), AllocError>
    requires { AreLabelled labels.now marks.now }
    ensures { OnOk result (text.new.items ≡ text.old.items ++ candidate_text labels.now marks.now) }
{
    let Some((first, more)) = marks.split_first() else {
        return text.extend_from_slice(b"-");
    };
    push_mark(alloc, text, *first, labels)?;
    push_more_marks(alloc, text, more, labels)
}

// The marks, each behind a space.
fn push_more_marks(
    alloc: Global,
    text: &mut Vec<u8>,
    marks: &[Mark],
    labels: &[Name],
) -> Result<(), AllocError>
    requires { AreLabelled labels.now marks.now }
    ensures { OnOk result (text.new.items ≡ text.old.items ++ more_marks_text labels.now marks.now) }
{
    'marks: for mark in marks {
        text.extend_from_slice(b" ")?;
        push_mark(alloc, text, *mark, labels)?;
    }
    Ok(())
}

// The row, from 1, and the label's name where there are labels.
fn push_mark(
    alloc: Global,
    text: &mut Vec<u8>,
    mark: Mark,
    labels: &[Name],
) -> Result<(), AllocError>
    requires { 0 < length labels.now → mark.label < length labels.now }
    ensures { OnOk result (text.new.items ≡ text.old.items ++ mark_text labels.now mark) }
{
    let row = u64::from(mark.row) + 1;
    let number = format!(in alloc; "{row}")?;
    text.extend_from_slice(number.as_bytes())?;
    push_label(text, mark.label, labels)
}

// The name of the label, where there are labels.
fn push_label(text: &mut Vec<u8>, label: u32, labels: &[Name]) -> Result<(), AllocError>
    requires { 0 < length labels.now → label < length labels.now }
    ensures { OnOk result (text.new.items ≡ text.old.items ++ label_text labels.now label) }
{
    if labels.is_empty() {
        return Ok(());
    }
    text.extend_from_slice(b":")?;
    text.extend_from_slice(labels[label as usize].bytes())?;
    Ok(())
}
