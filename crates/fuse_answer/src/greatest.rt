//! The greatest total.

use crate::job::PreparedJob;
use crate::letters::value_at;
use crate::question::Question;
use semiring_kit::MaxPlus;
use std::alloc::{AllocError, Global};

/// The greatest total of a measure over the candidates that pass, or None where none passes.
#[derive(Clone, Copy, Drop)]
pub struct GreatestOf {
    pub measure: u32,
}

impl Question for GreatestOf {
    ghost use Rattle.std.specs.Prelude.{[], ◌∷◌, refl};
    ghost use Rattle.std.proofs.Common.{inl};
    ghost use Rattle.gta_checked.specs.declared.resolved.Goal.TheVariants.{Max};
    ghost use Rattle.gta_meaning.specs.Answers.{greatest};
    ghost use Rattle.fuse_answer.specs.GreatestLaw.{sum-is_greatest};
    ghost use Rattle.fuse_answer.specs.WeightLaws.{value-within};
    ghost use Rattle.fuse_answer.specs.Weighed.{value_at};

    type Kit = MaxPlus;

    type Answer = Option<i64>;

    ghost goal = { λ question. Max question.measure };

    ghost measures = { λ question. question.measure ∷ [] };

    ghost kit = { λ question. record {} };

    ghost weight = { λ question checked rows. value_at checked rows question.measure };

    ghost answer_of = { λ question sum. sum };

    ghost plain_answer = { λ question checked rows. greatest checked rows question.measure };

    ghost sum_answers = { λ question. sum-is_greatest question.measure };

    ghost weight_within = { λ question checked rows measures weighed m.
        value-within checked rows measures question.measure m (weighed question.measure (inl refl)) };

    ghost own_are_weighed = { λ question measure measure_in. measure_in };

    fn kit(&self) -> MaxPlus {
        MaxPlus
    }

    fn weight(&self, prepared: &PreparedJob, row: u32, label: u32) -> i64 {
        value_at(prepared, self.measure, row, label)
    }

    fn kept_a_key(&self) -> u32 {
        1
    }

    fn pieces_by(&self, leaf: u32, rows: u32) -> u32 {
        rows.div_ceil(leaf)
    }

    fn answer_of(&self, _alloc: Global, sum: Option<i64>) -> Result<Option<i64>, AllocError> {
        Ok(sum)
    }
}
