//! Whether a candidate passes.

use crate::job::PreparedJob;
use crate::question::Question;
use semiring_kit::Truth;
use std::alloc::{AllocError, Global};

/// Whether a candidate passes.
#[derive(Clone, Copy, Drop)]
pub struct Whether;

impl Question for Whether {
    ghost use Rattle.std.specs.Prelude.{[], pos, refl};
    ghost use Rattle.std.proofs.Common.{arith};
    ghost use Rattle.gta_checked.specs.declared.resolved.Goal.TheVariants as goals;
    ghost use Rattle.gta_meaning.specs.Answers.{any};
    ghost use Rattle.fuse_answer.specs.AnyLaw.{sum-is_any};

    type Kit = Truth;

    type Answer = bool;

    ghost goal = { λ question. goals.Any };

    ghost measures = { λ question. [] };

    ghost kit = { λ question. record {} };

    ghost weight = { λ question checked rows m. pos 0 };

    ghost answer_of = { λ question sum. sum };

    ghost plain_answer = { λ question. any };

    ghost sum_answers = { λ question. sum-is_any (λ m. pos 0) };

    ghost weight_within = { λ question checked rows measures weighed m below. Prim.omega arith };

    ghost own_are_weighed = { λ question measure measure_in. measure_in };

    fn kit(&self) -> Truth {
        Truth
    }

    fn weight(&self, _prepared: &PreparedJob, _row: u32, _label: u32) -> i64 {
        0
    }

    fn kept_a_key(&self) -> u32 {
        1
    }

    fn pieces_by(&self, leaf: u32, rows: u32) -> u32 {
        rows.div_ceil(leaf)
    }

    fn answer_of(&self, _alloc: Global, sum: bool) -> Result<bool, AllocError> {
        Ok(sum)
    }
}
