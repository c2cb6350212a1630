//! The size of a job, which may not pass a limit. See specs/Sizes.antt.

ghost use Rattle.std.specs.Prelude.{◌≡◌, ◌≤◌};
ghost use Rattle.gta_checked.specs.PlainRows.{plain_rows};
ghost use Rattle.gta_job.specs.Ends.{Passes};
ghost use Rattle.gta_job.specs.Sizes as sizes;

use crate::job::JobEnd;
use fuse_answer::{PreparedJob, Question};
use monoid_kit::Monoid;
use report_text::Refusal;

/// The most entries that the pieces of a job may have together.
pub const SIZE_LIMIT: u64 = 67108864;

/// Refuses a job whose aggregate asks this question, where its size is past the limit.
pub(crate) fn refuse_size<Q: Question>(
    leaf: u32,
    prepared: &PreparedJob,
    question: &Q,
) -> Result<(), JobEnd>
    requires asked { prepared.now.job.checked.goal ≡ Q.goal question.now }
    requires some_rows { 1 ≤ leaf }
    ensures passes { let job = prepared.now.job in
        Passes (sizes.size_refusal leaf job.checked (plain_rows job.rows)) result }
{
    let size = job_size(leaf, prepared, question);
    if size > SIZE_LIMIT {
        return Err(JobEnd::Refused(Refusal::Size { size }));
    }
    Ok(())
}

fn job_size<Q: Question>(leaf: u32, prepared: &PreparedJob, question: &Q) -> u64
    requires asked { prepared.now.job.checked.goal ≡ Q.goal question.now }
    requires some_rows { 1 ≤ leaf }
    ensures { let job = prepared.now.job in result ≡ sizes.job_size leaf job.checked (plain_rows job.rows) }
{
    let job = &prepared.job;
    let width = u64::from(job.checked.shape().width());
    let keys = u64::from(prepared.tests.product().size());
    let kept = u64::from(question.kept_a_key());
    let pieces = u64::from(question.pieces_by(leaf, job.rows.count));
    width * keys * kept * pieces
}
