//! A job: what refuses its rows, and the report of the answer. Its aggregates are listed here, each with its question.

ghost use Rattle.std.specs.Prelude.{◌≡◌, ◌≤◌, None, IfOk, length};
ghost use Rattle.gta_checked.specs.PlainRows.{plain_rows};
ghost use Rattle.gta_checked.specs.Within.{IsKeptWithin};
ghost use Rattle.gta_checked.specs.declared.resolved.Goal.TheVariants as Goal;
ghost use Rattle.test_homs.specs.Homs.{ArePrepared};
ghost use Rattle.test_homs.specs.Negatives.{first_negative};
ghost use Rattle.report_text.specs.Texts.{report_text};
ghost use Rattle.gta_job.specs.Answers as answers;
ghost use Rattle.gta_job.specs.Ends.{Passes, Tells};
ghost use Rattle.gta_job.specs.Outcome as outcomes;
ghost use Rattle.gta_job.specs.Sizes.{keys_refusal, size_refusal};

use crate::job::JobEnd;
use crate::size::refuse_size;
use crate::steps::{refuse_heavy, refuse_negative};
use fuse_answer::{
    BestOf, BestRanked, BestTotals, Crew, GreatestOf, HowMany, Job, LeastOf, PreparedJob, Question,
    Ranks, Whether, answer_to, lane_answer_to,
};
use gta_checked::{Goal, Rank};
use lane_rows::Lanes;
use report_text::{Answer, Refusal, report};
use std::alloc::Global;
use std::thread::Threads;
use test_homs::{Tests, ValueFault, prepare_tests};
use worker_pool::Gate;

/// The report of a job, or the first refusal of its rows.
pub(crate) fn rows_report<R: Threads + Sync, G: Gate + Sync>(
    crew: &Crew<R, G>,
    job: Job,
) -> Result<Vec<u8>, JobEnd>
    ensures tells { let report = outcomes.rows_report crew.now.leaf job.checked (plain_rows job.rows) in
        Tells (λ text. text.items) report result }
{
    refuse_negative(crew.alloc, &job.checked, &job.rows)?;
    refuse_heavy(&job.checked, &job.rows)?;
    let tests = tests_of(crew.alloc, &job)?;
    answer_report(crew, &PreparedJob { job, tests })
}

/// The tests as letters and keys, over rows without a negative value; or the refusal of too many keys.
fn tests_of(alloc: Global, job: &Job) -> Result<Tests, JobEnd>
    requires natural { first_negative job.now.checked (plain_rows job.now.rows) ≡ None }
    ensures passes { Passes (keys_refusal job.now.checked) result }
    ensures prepared { IfOk result (ArePrepared job.now.checked (plain_rows job.now.rows)) }
{
    match prepare_tests(alloc, &job.checked, &job.rows) {
        Ok(tests) => Ok(tests),
        Err(ValueFault::TooManyKeys { keys }) => Err(JobEnd::Refused(Refusal::Keys { keys })),
        Err(ValueFault::Memory) => Err(JobEnd::Memory),
        Err(ValueFault::Negative { .. }) => unreachable!(),
    }
}

/// The report of the answer, or the refusal of a job that is too large.
fn answer_report<R: Threads + Sync, G: Gate + Sync>(
    crew: &Crew<R, G>,
    prepared: &PreparedJob,
) -> Result<Vec<u8>, JobEnd>
    ensures passes { let job = prepared.now.job in
        Passes (size_refusal crew.now.leaf job.checked (plain_rows job.rows)) result }
    ensures text { let job = prepared.now.job in
        let answer = answers.answer job.checked (plain_rows job.rows) in
        IfOk result (λ text. text.items ≡ report_text answer job.checked.labels) }
{
    let answer = answer_of(crew, prepared)?;
    Ok(report(crew.alloc, &answer, prepared.job.checked.labels())?)
}

/// The answer to the question that the aggregate asks, or the refusal of a job that is too large.
fn answer_of<R: Threads + Sync, G: Gate + Sync>(
    crew: &Crew<R, G>,
    prepared: &PreparedJob,
) -> Result<Answer, JobEnd>
    ensures passes { let job = prepared.now.job in
        Passes (size_refusal crew.now.leaf job.checked (plain_rows job.rows)) result }
    ensures answer { let job = prepared.now.job in
        IfOk result (λ answer. answer ≡ answers.answer job.checked (plain_rows job.rows)) }
{
    match prepared.job.checked.goal() {
        Goal::Count => Ok(Answer::Count(lane_asked(crew, prepared, &HowMany)?)),
        Goal::Any => Ok(Answer::Any(lane_asked(crew, prepared, &Whether)?)),
        Goal::Max(measure) => {
            let total = lane_asked(crew, prepared, &GreatestOf { measure: *measure })?;
            Ok(Answer::Total(total))
        }
        Goal::Min(measure) => {
            let total = lane_asked(crew, prepared, &LeastOf { measure: *measure })?;
            Ok(Answer::Total(total))
        }
        Goal::Best {
            k,
            greatest,
            measure,
        } => {
            let question = BestOf {
                k: *k,
                greatest: *greatest,
                measure: *measure,
            };
            Ok(Answer::Best(asked(crew, prepared, &question)?))
        }
        Goal::Ranked { k, keys } => ranked_answer(crew, prepared, *k, keys.as_slice()),
    }
}

/// The answer by several totals, or the refusal of a job that is too large.
fn ranked_answer<R: Threads + Sync, G: Gate + Sync>(
    crew: &Crew<R, G>,
    prepared: &PreparedJob,
    k: Option<u32>,
    keys: &[Rank],
) -> Result<Answer, JobEnd>
    requires asked { prepared.now.job.checked.goal ≡ Goal.Ranked k keys.now }
    requires several { 2 ≤ length keys.now }
    requires few { length keys.now ≤ 3 }
    requires kept { IsKeptWithin k }
    ensures passes { let job = prepared.now.job in
        Passes (size_refusal crew.now.leaf job.checked (plain_rows job.rows)) result }
    ensures answer { let job = prepared.now.job in
        IfOk result (λ answer. answer ≡ answers.answer job.checked (plain_rows job.rows)) }
{
    let parts = keys.len() as u32;
    let ranks = Ranks::of(keys);
    match k {
        None => {
            let totals = asked(crew, prepared, &BestTotals { ranks })?;
            Ok(Answer::Totals { parts, totals })
        }
        Some(k) => {
            let best = asked(crew, prepared, &BestRanked { k, ranks })?;
            Ok(Answer::RankedBest { parts, best })
        }
    }
}

/// The answer to the question that the aggregate asks, by lists of keys; or the refusal of a job that is too large.
fn asked<R: Threads + Sync, G: Gate + Sync, Q: Question>(
    crew: &Crew<R, G>,
    prepared: &PreparedJob,
    question: &Q,
) -> Result<Q::Answer, JobEnd>
    requires asked { prepared.now.job.checked.goal ≡ Q.goal question.now }
    ensures passes { let job = prepared.now.job in
        Passes (size_refusal crew.now.leaf job.checked (plain_rows job.rows)) result }
    ensures answer { let job = prepared.now.job in
        IfOk result (λ answer. answer ≡ Q.plain_answer question.now job.checked (plain_rows job.rows)) }
{
    refuse_size(crew.leaf, prepared, question)?;
    Ok(answer_to(crew, prepared, question)?)
}

/// The same, over rows of lanes where there are many keys.
fn lane_asked<R: Threads + Sync, G: Gate + Sync, Q: Question>(
    crew: &Crew<R, G>,
    prepared: &PreparedJob,
    question: &Q,
) -> Result<Q::Answer, JobEnd>
where
    Q::Kit: Lanes,
    requires asked { prepared.now.job.checked.goal ≡ Q.goal question.now }
    ensures passes { let job = prepared.now.job in
        Passes (size_refusal crew.now.leaf job.checked (plain_rows job.rows)) result }
    ensures answer { let job = prepared.now.job in
        IfOk result (λ answer. answer ≡ Q.plain_answer question.now job.checked (plain_rows job.rows)) }
{
    refuse_size(crew.leaf, prepared, question)?;
    Ok(lane_answer_to(crew, prepared, question)?)
}
