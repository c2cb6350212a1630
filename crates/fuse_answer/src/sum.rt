//! The sum over the candidates that pass, in any semiring.

ghost use Rattle.std.specs.Prelude.{◌≡◌, ◌<◌, ◌≤◌, IfOk, length};
ghost use Rattle.monoid_kit.specs.Items.{AllElements};
ghost use Rattle.step_count.specs.Blanks.{IsBlankOf};
ghost use Rattle.semiring_kit.specs.Aggregates.{sum_over};
ghost use Rattle.shape_gen.specs.Candidates.{candidates};
ghost use Rattle.semiring_kit.specs.Semiring.{IsGood};
ghost use Rattle.fuse_core.specs.Letters.{key_of, weight_of};
ghost use Rattle.fuse_core.specs.Plans.{accepted_sum};
ghost use Rattle.gta_checked.specs.PlainRows.{plain_rows};
ghost use Rattle.gta_meaning.specs.InRange as in_range;
ghost use Rattle.gta_meaning.specs.Kept.{kept};
ghost use Rattle.fuse_answer.specs.Keys.{DecidePassing};
ghost use Rattle.fuse_answer.specs.Letters.{AreLawful};
ghost use Rattle.fuse_answer.specs.Weighed.{AreWeighed};

use crate::crew::Crew;
use crate::job::{Job, PreparedJob};
use crate::letters::letters_of;
use crate::question::Question;
use fuse_core::{Letter, Plan, finish, plan_of};
use gta_meaning::label_count;
use gta_spec::ROW_LIMIT;
use interval_kit::{Fused, cut_of};
use key_map::{MapKit, SparseKit};
use monoid_kit::Monoid;
use semiring_kit::Semiring;
use std::alloc::{AllocError, Global};
use std::marker::Brand;
use std::sync::ledger::{Blank, Ledger};
use std::thread::Threads;
use step_count::Steps;
use worker_pool::{Gate, solve};

/// The sum, over the candidates that pass, of the products of their marks' elements, each of the question's weight.
/// No candidate is listed: workers compute leaves of rows, neighbours are joined, and the value of all
/// rows is finished. Refuses only for want of memory.
pub fn sum_of_kept<R: Threads + Sync, G: Gate + Sync, Q: Question>(
    crew: &Crew<R, G>,
    prepared: &PreparedJob,
    question: &Q,
) -> Result<<Q::Kit as Semiring>::Elem, AllocError>
    requires weighed { AreWeighed (Q.measures question.now) prepared.now.job.checked.goal }
    ensures sum { let job = prepared.now.job in
        let kit = Q.kit question.now in
        let weight = Q.weight question.now job.checked (plain_rows job.rows) in
        let candidates = kept job.checked (plain_rows job.rows) in
        IfOk result (λ sum. sum ≡ sum_over (Q.Kit.ring kit) (Q.Kit.of_mark kit) weight candidates) }
    ensures is_good { IfOk result (IsGood (Q.Kit.ring (Q.kit question.now))) }
{
    let tests = &prepared.tests;
    let monoid = tests.product().twin(crew.alloc)?;
    sum_by_keys(
        crew,
        prepared,
        question,
        monoid,
        tests.letters(),
        tests.accept(),
    )
}

/// The same, with keys of any monoid that decide which candidates pass.
fn sum_by_keys<R: Threads + Sync, G: Gate + Sync, Q: Question, M: Monoid + Sync>(
    crew: &Crew<R, G>,
    prepared: &PreparedJob,
    question: &Q,
    monoid: M,
    keys: &[u32],
    accept: &[bool],
) -> Result<<Q::Kit as Semiring>::Elem, AllocError>
    requires weighed { AreWeighed (Q.measures question.now) prepared.now.job.checked.goal }
    requires decide { let job = prepared.now.job in DecidePassing job.checked (plain_rows job.rows)
        (M.size monoid) (M.unit monoid) (M.mul monoid) keys.now accept.now }
    ensures sum { let job = prepared.now.job in
        let kit = Q.kit question.now in
        let weight = Q.weight question.now job.checked (plain_rows job.rows) in
        let candidates = kept job.checked (plain_rows job.rows) in
        IfOk result (λ sum. sum ≡ sum_over (Q.Kit.ring kit) (Q.Kit.of_mark kit) weight candidates) }
    ensures is_good { IfOk result (IsGood (Q.Kit.ring (Q.kit question.now))) }
{
    let letters = letters_of(crew.alloc, prepared, question, keys)?;
    let kit = SparseKit {
        kit: question.kit(),
        keys: monoid,
    };
    let plan = plan_by_letters(&prepared.job, kit, letters);
    accepted_sum::<R, G, Q::Kit, M, Brand>(crew, &plan, accept, Blank::new(1))
}

/// The plan of the rows, with a letter for each row and label.
pub(crate) fn plan_by_letters<K: MapKit>(
    job: &Job,
    kit: K,
    letters: Vec<Letter<<K::Kit as Semiring>::Elem>>,
) -> Plan<K>
    requires keys_are_elements { let size = K.Keys.size (K.keys kit) in
        AllElements (λ key. key < size) (λ letter. letter.key) letters.items }
    requires lawful { let labels = in_range.label_count job.now.checked in
        AreLawful (K.Kit.ring (K.kit kit)) job.now.rows.count labels letters.items }
    ensures { result ≡ record {
      shape = job.now.checked.shape;
      rows = job.now.rows.count;
      labels = in_range.label_count job.now.checked;
      kit = kit;
      letters = letters.items;
    } }
{
    let labels = label_count(&job.checked);
    let shape = *job.checked.shape();
    plan_of(shape, job.rows.count, labels, kit, letters)
}

/// The sum of the weights of the plan's candidates whose keys are accepted, by so many workers.
/// A ledger counts the products of the gathering.
fn accepted_sum<R: Threads + Sync, G: Gate + Sync, S: Semiring + Sync, M: Monoid + Sync, L: Ledger>(
    crew: &Crew<R, G>,
    plan: &Plan<SparseKit<S, M>>,
    accept: &[bool],
    blank: Blank,
) -> Result<S::Elem, AllocError>
    requires few { plan.now.rows ≤ ROW_LIMIT }
    requires one_a_key { length accept.now ≡ M.size plan.now.kit.keys }
    requires blank { IsBlankOf L.name L.parts blank }
    ensures sum { let ring = S.ring plan.now.kit.kit in
        let monoid = plan.now.kit.keys in
        let key = key_of (M.unit monoid) (M.mul monoid) plan.now.labels plan.now.letters in
        let weight = weight_of ring plan.now.labels plan.now.letters in
        let all = candidates plan.now.shape plan.now.rows plan.now.labels in
        IfOk result (λ sum. sum ≡ accepted_sum ring key weight accept.now all) }
    ensures is_good { IfOk result (IsGood (S.ring plan.now.kit.kit)) }
{
    let cut = cut_of(crew.alloc, plan.rows(), crew.leaf)?;
    let mut steps = Steps::<L>::new(blank);
    let value = solve(
        crew.rt,
        crew.alloc,
        plan,
        &cut,
        crew.workers,
        crew.gate,
        &mut steps,
    )?;
    finish(crew.alloc, plan, &value, accept)
}
