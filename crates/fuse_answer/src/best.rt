//! The best list.

ghost use Rattle.std.specs.Prelude.{◌≤◌};
ghost use Rattle.gta_spec.specs.declared.limits.TheConstants.{KEEP_LIMIT};

use crate::job::PreparedJob;
use crate::letters::value_at;
use crate::question::Question;
use best_k::{Best, RunEntry, RunsByTotal, listed};
use first_k::{FirstK, Firsts};
use std::alloc::{AllocError, Global};

/// The best k of the candidates that pass, or all where they are fewer, each with its total of a measure: the greatest
/// totals, or the least, and among equal totals by shortlex.
#[derive(Clone, Copy, Drop)]
pub struct BestOf {
    pub k: u32,
    pub greatest: bool,
    pub measure: u32,
    ghost some_kept: { 1 ≤ k },
    ghost few_kept: { k ≤ KEEP_LIMIT },
}

impl Question for BestOf {
    ghost use Rattle.std.specs.Prelude.{[], ◌∷◌, map, refl};
    ghost use Rattle.std.proofs.Common.{inl};
    ghost use Rattle.gta_checked.specs.declared.resolved.Goal.TheVariants as goals;
    ghost use Rattle.best_k.specs.Best.{entry_of};
    ghost use Rattle.best_k.specs.RunEntries as entries;
    ghost use Rattle.gta_meaning.specs.Answers.{best};
    ghost use Rattle.fuse_answer.specs.BestLaw.{sum-is_best};
    ghost use Rattle.fuse_answer.specs.WeightLaws.{value-within};
    ghost use Rattle.fuse_answer.specs.Weighed.{value_at};

    type Kit = FirstK<RunsByTotal<i64>>;

    type Answer = Best<i64>;

    ghost goal = { λ question. goals.Best question.k question.greatest question.measure };

    ghost measures = { λ question. question.measure ∷ [] };

    ghost kit = { λ question. record {
      ranked = record { greatest = question.greatest; totals = record {} };
      k = question.k;
      at_least_one = question.some_kept;
      at_most_64 = question.few_kept;
    } };

    ghost weight = { λ question checked rows. value_at checked rows question.measure };

    ghost answer_of = { λ question sum. map entries.listed sum };

    ghost plain_answer = { λ question checked rows.
        map entry_of (best checked rows question.k question.greatest question.measure) };

    ghost sum_answers = { λ question. sum-is_best question.k question.greatest question.measure };

    ghost weight_within = { λ question checked rows measures weighed m.
        value-within checked rows measures question.measure m (weighed question.measure (inl refl)) };

    ghost own_are_weighed = { λ question measure measure_in. measure_in };

    fn kit(&self) -> FirstK<RunsByTotal<i64>> {
        let greatest = self.greatest;
        FirstK {
            ranked: RunsByTotal::of(greatest),
            k: self.k,
        }
    }

    fn weight(&self, prepared: &PreparedJob, row: u32, label: u32) -> i64 {
        value_at(prepared, self.measure, row, label)
    }

    fn kept_a_key(&self) -> u32 {
        self.k
    }

    fn pieces_by(&self, _leaf: u32, rows: u32) -> u32 {
        rows
    }

    fn answer_of(
        &self,
        alloc: Global,
        sum: Firsts<RunEntry<i64>>,
    ) -> Result<Best<i64>, AllocError> {
        listed(alloc, &sum)
    }
}
