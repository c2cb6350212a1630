//! The steps from bytes to rows that commands share, in the order in which they stop at a refusal.

ghost use Rattle.std.specs.Prelude.{◌≡◌, ◌≤◌, drop, length, slice_get, IfOk, OnOk};
ghost use Rattle.gta_spec.specs.Parts.{spec_tree};
ghost use Rattle.gta_spec.specs.WellFormed.{IsWellFormed};
ghost use Rattle.gta_spec.specs.declared.limits.TheConstants.{ROW_LIMIT};
ghost use Rattle.gta_syntax.specs.Refusals.{read_tree};
ghost use Rattle.gta_types.specs.ResolvedOf.{resolved_of};
ghost use Rattle.gta_checked.specs.PlainRows.{plain_rows};
ghost use Rattle.gta_meaning.specs.InRange.{HasColumnsOf};
ghost use Rattle.report_text.specs.declared.refusal.Refusal.TheVariants as Refusal;
ghost use Rattle.gta_job.specs.Ends.{Passes, Tells};
ghost use Rattle.gta_job.specs.Outcome as outcomes;
ghost use Rattle.gta_job.specs.Outcome.{heavy_refusal, input_refusal, negative_of, negative_refusal, specification};
ghost use Rattle.gta_job.specs.declared.job.TheConstants.{INPUT_LIMIT};

use crate::job::{FIRST_INPUT_LIMIT, INPUT_LIMIT, JobEnd};
use gta_checked::{Checked, Rows};
use gta_meaning::first_heavy;
use gta_rows::read_rows;
use gta_syntax::{Read, first_version, read_spec};
use gta_text::Name;
use gta_types::check;
use report_text::Refusal;
use std::alloc::{AllocError, Global};
use test_homs::{Negative, first_negative};

/// Refuses an input of too many bytes.
fn refuse_input(alloc: Global, bytes: &[u8]) -> Result<(), JobEnd>
    ensures passes { Passes (input_refusal bytes.now) result }
    ensures within { OnOk result (length bytes.now ≤ INPUT_LIMIT) }
{
    if bytes.len() > INPUT_LIMIT {
        return Err(JobEnd::Refused(input_past(INPUT_LIMIT)));
    }
    if bytes.len() > FIRST_INPUT_LIMIT && !is_large(first_version(alloc, bytes)?) {
        return Err(JobEnd::Refused(input_past(FIRST_INPUT_LIMIT)));
    }
    Ok(())
}

/// Whether this version takes inputs past the limit of the first.
fn is_large(version: Option<u8>) -> bool
    ensures { result ≡ outcomes.is_large version }
{
    match version {
        Some(version) => version > 1,
        None => false,
    }
}

/// The refusal of an input past this limit.
fn input_past(limit: usize) -> Refusal
    requires { limit ≤ INPUT_LIMIT }
    ensures { result ≡ Refusal.Input limit }
{
    Refusal::Input {
        limit: limit as u32,
    }
}

/// The specification that the bytes hold, as it is read and as it is resolved, or the refusal of too many bytes or of
/// their text.
pub(crate) fn checked_spec(alloc: Global, bytes: &[u8]) -> Result<(Read, Checked), JobEnd>
    ensures tells { Tells (λ taken. read_tree taken.0) (specification bytes.now) result }
    ensures within { OnOk result (length bytes.now ≤ INPUT_LIMIT) }
    ensures well_formed { IfOk result (λ taken. IsWellFormed (spec_tree taken.0.spec)) }
    ensures resolved { IfOk result (λ taken. taken.1 ≡ resolved_of (spec_tree taken.0.spec)) }
{
    refuse_input(alloc, bytes)?;
    let read = read_spec(alloc, bytes)?;
    let checked = check(alloc, &read.spec)?;
    Ok((read, checked))
}

/// The bytes from this place on, none where the place is past their end.
pub(crate) fn bytes_from(bytes: &[u8], place: u32) -> &[u8]
    ensures { result.now ≡ drop place bytes.now }
{
    bytes.get(place as usize..).unwrap_or(&[])
}

/// The rows of the table, or the refusal of its first fault.
pub(crate) fn table_rows(alloc: Global, checked: &Checked, table: &[u8]) -> Result<Rows, JobEnd>
    requires within { length table.now ≤ INPUT_LIMIT }
    ensures tells { Tells plain_rows (outcomes.table_rows checked.now table.now) result }
    ensures columns { IfOk result (λ rows. HasColumnsOf checked.now (plain_rows rows)) }
    ensures few { IfOk result (λ rows. rows.count ≤ ROW_LIMIT) }
{
    Ok(read_rows(alloc, checked, table)?)
}

/// Refuses the first negative value of a test that compares sums, with its label's name where labels are declared.
pub(crate) fn refuse_negative(alloc: Global, checked: &Checked, rows: &Rows) -> Result<(), JobEnd>
    requires columns { HasColumnsOf checked.now (plain_rows rows.now) }
    ensures passes { Passes (negative_refusal checked.now (plain_rows rows.now)) result }
{
    match first_negative(checked, rows) {
        Some(negative) => Err(JobEnd::Refused(negative_of(alloc, checked, negative)?)),
        None => Ok(()),
    }
}

/// The refusal of a negative value.
fn negative_of(alloc: Global, checked: &Checked, negative: Negative) -> Result<Refusal, AllocError>
    ensures { IfOk result (λ refusal. refusal ≡ outcomes.negative_of checked.now negative) }
{
    Ok(Refusal::Negative {
        test: negative.test,
        row: negative.row,
        label: label_name(alloc, checked, negative.label)?,
        value: negative.value,
    })
}

/// The name of a label; None where no labels are declared.
fn label_name(alloc: Global, checked: &Checked, label: u32) -> Result<Option<Name>, AllocError>
    ensures { IfOk result (λ name. name ≡ slice_get checked.now.labels label) }
{
    match checked.labels().get(label as usize) {
        Some(name) => Ok(Some(Name::of(alloc, name.bytes())?)),
        None => Ok(None),
    }
}

/// Refuses rows whose weights add up past the bound.
pub(crate) fn refuse_heavy(checked: &Checked, rows: &Rows) -> Result<(), JobEnd>
    requires columns { HasColumnsOf checked.now (plain_rows rows.now) }
    ensures passes { Passes (heavy_refusal checked.now (plain_rows rows.now)) result }
{
    match first_heavy(checked, rows) {
        Some(row) => Err(JobEnd::Refused(Refusal::Heavy { row })),
        None => Ok(()),
    }
}
