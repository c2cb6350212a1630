//! What an aggregate is: a semiring in which the sum over the candidates that pass tells the answer, and how many
//! entries its pieces count. The questions are in count.rt, any.rt, greatest.rt, least.rt and best.rt; those of several
//! totals are in best_totals.rt and best_ranked.rt.

ghost use Rattle.std.specs.Prelude.{◌≡◌, ℕ, ◌<◌, ◌≤◌, IfOk, List};
ghost use Rattle.monoid_kit.specs.Items.{IsIn};
ghost use Rattle.semiring_kit.specs.Aggregates.{sum_over};
ghost use Rattle.semiring_kit.specs.Semiring.{IsGood};
ghost use Rattle.shape_gen.specs.Candidates.{mark};
ghost use Rattle.shape_gen.specs.declared.mark.Mark.{Mark};
ghost use Rattle.gta_checked.specs.Plain.{PlainChecked};
ghost use Rattle.gta_checked.specs.PlainRows.{PlainRows, plain_rows};
ghost use Rattle.gta_checked.specs.Within.{IsWithinLimits};
ghost use Rattle.gta_checked.specs.declared.resolved.Goal.{Goal};
ghost use Rattle.gta_meaning.specs.Heavy.{row_weight};
ghost use Rattle.gta_meaning.specs.InRange.{label_count};
ghost use Rattle.gta_meaning.specs.Kept.{kept};
ghost use Rattle.fuse_answer.specs.Sizes as sizes;
ghost use Rattle.fuse_answer.specs.Weighed.{AreWeighed};

use crate::crew::Crew;
use crate::dense::lane_sum_of_kept;
use crate::job::PreparedJob;
use crate::leaves::list_crew;
use crate::sum::sum_of_kept;
use lane_rows::Lanes;
use monoid_kit::Monoid;
use semiring_kit::Semiring;
use std::alloc::{AllocError, Global};
use std::thread::Threads;
use worker_pool::Gate;

/// An aggregate, as a question on the candidates that pass. The sum over them, in its semiring, tells the answer.
pub trait Question: Drop {
    type Kit: Semiring + Sync;

    type Answer: Drop;

    // the aggregate that asks it
    ghost goal: { Self → Goal };

    // the measures that it looks at
    ghost measures: { Self → List ℕ };

    ghost kit: { Self → Self.Kit };

    // what a mark weighs
    ghost weight: { Self → PlainChecked → PlainRows → Mark → Self.Kit.Weight };

    // the answer that a sum tells
    ghost answer_of: { Self → Self.Kit.Elem → Self.Answer };

    // the answer by the list of the candidates that pass
    ghost plain_answer: { Self → PlainChecked → PlainRows → Self.Answer };

    /// The semiring.
    fn kit(&self) -> Self::Kit
        ensures { result ≡ kit self.now };

    /// What a mark weighs. No row is heavy, so that it fits.
    fn weight(
        &self,
        prepared: &PreparedJob,
        row: u32,
        label: u32,
    ) -> <Self::Kit as Semiring>::Weight
        requires within { IsWithinLimits prepared.now.job.checked }
        requires weighed { AreWeighed (measures self.now) prepared.now.job.checked.goal }
        requires row_in_range { row < prepared.now.job.rows.count }
        requires label_in_range { label < label_count prepared.now.job.checked }
        ensures { let job = prepared.now.job in
            result ≡ weight self.now job.checked (plain_rows job.rows) (mark row label) };

    /// How many candidates a key may keep.
    fn kept_a_key(&self) -> u32
        ensures { result ≡ sizes.kept_a_key (goal self.now) };

    /// How many pieces count, of so many rows by leaves of so many rows.
    fn pieces_by(&self, leaf: u32, rows: u32) -> u32
        requires some_rows { 1 ≤ leaf }
        ensures { result ≡ sizes.pieces_by (goal self.now) leaf rows };

    /// The answer that the sum tells. Refuses only for want of memory.
    fn answer_of(
        &self,
        alloc: Global,
        sum: <Self::Kit as Semiring>::Elem,
    ) -> Result<Self::Answer, AllocError>
        requires { IsGood (Self.Kit.ring (kit self.now)) sum }
        ensures { IfOk result (λ answer. answer ≡ answer_of self.now sum) };

    ghost sum_answers: { (question : Self) (checked : PlainChecked) (rows : PlainRows)
        → answer_of question (sum_over
        (Self.Kit.ring (kit question))
        (Self.Kit.of_mark (kit question))
        (weight question checked rows)
        (kept checked rows))
        ≡ plain_answer question checked rows };

    // a weight by measures for which a row is weighed reaches no further than the row weighs
    ghost weight_within: { (question : Self) (checked : PlainChecked) (rows : PlainRows) (weighed : List ℕ)
        → ((measure : ℕ) → IsIn measure (measures question) → IsIn measure weighed)
        → (m : Mark) → m.label < label_count checked
        → Self.Kit.weight_reach (kit question) (weight question checked rows m)
        ≤ row_weight checked rows weighed m.row };

    ghost own_are_weighed: { (question : Self) → AreWeighed (measures question) (goal question) };
}

/// The answer to the question over the candidates that pass, by lists of keys. Refuses only for want of memory.
pub fn answer_to<R: Threads + Sync, G: Gate + Sync, Q: Question>(
    crew: &Crew<R, G>,
    prepared: &PreparedJob,
    question: &Q,
) -> Result<Q::Answer, AllocError>
    requires weighed { AreWeighed (Q.measures question.now) prepared.now.job.checked.goal }
    ensures { let job = prepared.now.job in
        IfOk result (λ answer. answer ≡ Q.plain_answer question.now job.checked (plain_rows job.rows)) }
{
    let keys = prepared.tests.product().size();
    let crew = list_crew(crew, prepared.job.rows.count, keys);
    let sum = sum_of_kept(&crew, prepared, question)?;
    question.answer_of(crew.alloc, sum)
}

/// The same, over rows of lanes where there are at least `DENSE_KEYS` keys.
pub fn lane_answer_to<R: Threads + Sync, G: Gate + Sync, Q: Question>(
    crew: &Crew<R, G>,
    prepared: &PreparedJob,
    question: &Q,
) -> Result<Q::Answer, AllocError>
where
    Q::Kit: Lanes,
    requires weighed { AreWeighed (Q.measures question.now) prepared.now.job.checked.goal }
    ensures { let job = prepared.now.job in
        IfOk result (λ answer. answer ≡ Q.plain_answer question.now job.checked (plain_rows job.rows)) }
{
    let sum = lane_sum_of_kept(crew, prepared, question)?;
    question.answer_of(crew.alloc, sum)
}
