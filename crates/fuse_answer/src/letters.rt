//! The letters of a job: a key and the element of a weight for each row and label.

ghost use Rattle.std.specs.Prelude.{◌≡◌, ◌*◌, ◌<◌, ◌≤◌, IfOk, length, unsigned_abs};
ghost use Rattle.monoid_kit.specs.Items.{IsIn};
ghost use Rattle.semiring_kit.specs.Semiring.{weight_bound};
ghost use Rattle.shape_gen.specs.Candidates.{mark};
ghost use Rattle.gta_checked.specs.PlainRows.{plain_rows};
ghost use Rattle.gta_checked.specs.Within.{IsWithinLimits};
ghost use Rattle.gta_meaning.specs.Heavy.{goal_measures};
ghost use Rattle.gta_meaning.specs.InRange as in_range;
ghost use Rattle.fuse_answer.specs.Letters as letters;
ghost use Rattle.fuse_answer.specs.Weighed as weighed;
ghost use Rattle.fuse_answer.specs.Weighed.{AreWeighed};

use crate::job::PreparedJob;
use crate::question::Question;
use fuse_core::Letter;
use gta_meaning::{label_count, value_of};
use semiring_kit::Semiring;
use shape_gen::Mark;
use std::alloc::{AllocError, Global};

/// The letters by row, and then by label. Each weight is looked at once.
pub(crate) fn letters_of<Q: Question>(
    alloc: Global,
    prepared: &PreparedJob,
    question: &Q,
    keys: &[u32],
) -> Result<Vec<Letter<<Q::Kit as Semiring>::Elem>>, AllocError>
    requires weighed { AreWeighed (Q.measures question.now) prepared.now.job.checked.goal }
    requires count { let job = prepared.now.job in
        length keys.now ≡ job.rows.count * in_range.label_count job.checked }
    ensures letters { let job = prepared.now.job in
        let of_mark = Q.Kit.of_mark (Q.kit question.now) in
        let weight = Q.weight question.now job.checked (plain_rows job.rows) in
        let labels = in_range.label_count job.checked in
        let all = letters.letters_of of_mark weight keys.now job.rows.count labels in
        IfOk result (λ made. made.items ≡ all) }
    ensures lawful { let job = prepared.now.job in
        let labels = in_range.label_count job.checked in
        let ring = Q.Kit.ring (Q.kit question.now) in
        IfOk result (λ made. letters.AreLawful ring job.rows.count labels made.items) }
{
    let kit = question.kit();
    let labels = label_count(&prepared.job.checked) as usize;
    let places = prepared.job.rows.count as usize * labels;
    let mut letters = Vec::with_capacity(alloc, places)?;
    for place in 0..places {
        let row = (place / labels) as u32;
        let label = (place % labels) as u32;
        let weight = question.weight(prepared, row, label);
        let elem = kit.of_mark(alloc, Mark { row, label }, weight)?;
        letters.push(Letter {
            key: keys[place],
            elem,
        })?;
    }
    Ok(letters)
}

/// The value of a measure of the aggregate. No row is heavy, so that it fits.
pub(crate) fn value_at(prepared: &PreparedJob, measure: u32, row: u32, label: u32) -> i64
    requires within { IsWithinLimits prepared.now.job.checked }
    requires weighed { IsIn measure (goal_measures prepared.now.job.checked.goal) }
    requires row_in_range { row < prepared.now.job.rows.count }
    requires label_in_range { label < in_range.label_count prepared.now.job.checked }
    ensures value { let job = prepared.now.job in
        result ≡ weighed.value_at job.checked (plain_rows job.rows) measure (mark row label) }
    ensures bounded { unsigned_abs result ≤ weight_bound }
{
    let job = &prepared.job;
    value_of(&job.checked, &job.rows, measure, row, label) as i64
}
