//! How many candidates pass.

use crate::job::PreparedJob;
use crate::question::Question;
use semiring_kit::Count;
use std::alloc::{AllocError, Global};

/// How many candidates pass; the greatest u64 stands for more too.
#[derive(Clone, Copy, Drop)]
pub struct HowMany;

impl Question for HowMany {
    ghost use Rattle.std.specs.Prelude.{[], pos, refl};
    ghost use Rattle.std.proofs.Common.{arith};
    ghost use Rattle.gta_checked.specs.declared.resolved.Goal.TheVariants as goals;
    ghost use Rattle.gta_meaning.specs.Answers.{count};
    ghost use Rattle.fuse_answer.specs.CountLaw.{sum-is_count};

    type Kit = Count;

    type Answer = u64;

    ghost goal = { λ question. goals.Count };

    ghost measures = { λ question. [] };

    ghost kit = { λ question. record {} };

    ghost weight = { λ question checked rows m. pos 0 };

    ghost answer_of = { λ question sum. sum };

    ghost plain_answer = { λ question. count };

    ghost sum_answers = { λ question. sum-is_count (λ m. pos 0) };

    ghost weight_within = { λ question checked rows measures weighed m below. Prim.omega arith };

    ghost own_are_weighed = { λ question measure measure_in. measure_in };

    fn kit(&self) -> Count {
        Count
    }

    fn weight(&self, _prepared: &PreparedJob, _row: u32, _label: u32) -> i64 {
        0
    }

    fn kept_a_key(&self) -> u32 {
        1
    }

    fn pieces_by(&self, leaf: u32, rows: u32) -> u32 {
        rows.div_ceil(leaf)
    }

    fn answer_of(&self, _alloc: Global, sum: u64) -> Result<u64, AllocError> {
        Ok(sum)
    }
}
