//! Lists the candidates that a job keeps. Which text that is, and which refusal comes in its place, is in
//! specs/Outcome.antt.

ghost use Rattle.std.specs.Prelude.{◌≡◌, All, IfOk};
ghost use Rattle.report_text.specs.Texts.{AreLabelled, list_text};
ghost use Rattle.gta_words.specs.declared.words.Command.TheVariants.{List as ListKept};
ghost use Rattle.gta_checked.specs.PlainRows.{plain_rows};
ghost use Rattle.gta_meaning.specs.Kept.{kept};
ghost use Rattle.gta_meaning.specs.Listed.{marks_of};
ghost use Rattle.gta_job.specs.Ends.{Passes, Tells};
ghost use Rattle.gta_job.specs.Outcome as outcomes;
ghost use Rattle.gta_job.specs.Outcome.{list_refusal, outcome};

use crate::job::JobEnd;
use crate::steps::{bytes_from, checked_spec, refuse_heavy, refuse_negative, table_rows};
use fuse_answer::Job;
use gta_meaning::{Candidate, ListFault, list_kept};
use gta_text::Name;
use report_text::{Refusal, push_candidate_line};
use std::alloc::{AllocError, Global};

/// The most candidates that may be generated where those kept are listed.
pub const CANDIDATE_LIMIT: u64 = 65536;

/// The most marks that the generated candidates may have together there.
pub const MARK_LIMIT: u64 = 4194304;

/// The list of the candidates that pass, in their order, or the refusal of the job that the bytes hold.
pub fn list_job(alloc: Global, bytes: &[u8]) -> Result<Vec<u8>, JobEnd>
    ensures tells { Tells (λ text. text.items) (outcome ListKept bytes.now) result }
{
    let (read, checked) = checked_spec(alloc, bytes)?;
    let rows = table_rows(alloc, &checked, bytes_from(bytes, read.rows_at))?;
    rows_list(alloc, &Job { checked, rows })
}

/// The list of a job, or the first refusal of its rows.
fn rows_list(alloc: Global, job: &Job) -> Result<Vec<u8>, JobEnd>
    ensures tells { let list = outcomes.rows_list job.now.checked (plain_rows job.now.rows) in
        Tells (λ text. text.items) list result }
{
    refuse_negative(alloc, &job.checked, &job.rows)?;
    refuse_heavy(&job.checked, &job.rows)?;
    let list = listed(alloc, job)?;
    Ok(list_report(alloc, list.as_slice(), job.checked.labels())?)
}

/// The candidates that pass, or the refusal of too many that are generated.
fn listed(alloc: Global, job: &Job) -> Result<Vec<Candidate>, JobEnd>
    ensures passes { Passes (list_refusal job.now.checked (plain_rows job.now.rows)) result }
    ensures kept { IfOk result (λ list. marks_of list.items ≡ kept job.now.checked (plain_rows job.now.rows)) }
{
    match list_kept(alloc, &job.checked, &job.rows, CANDIDATE_LIMIT, MARK_LIMIT) {
        Ok(list) => Ok(list),
        Err(ListFault::TooMany) => Err(JobEnd::Refused(Refusal::ListSize)),
        Err(ListFault::Memory) => Err(JobEnd::Memory),
    }
}

/// The text of a list.
fn list_report(alloc: Global, list: &[Candidate], labels: &[Name]) -> Result<Vec<u8>, AllocError>
    requires { All (AreLabelled labels.now) (marks_of list.now) }
    ensures { IfOk result (λ text. text.items ≡ list_text labels.now (marks_of list.now)) }
{
    let count = list.len();
    let front = format!(in alloc; "kept {count}\n")?;
    let mut text = front.into_bytes();
    'candidates: for candidate in list {
        push_candidate_line(alloc, &mut text, candidate.marks.as_slice(), labels)?;
    }
    Ok(text)
}
