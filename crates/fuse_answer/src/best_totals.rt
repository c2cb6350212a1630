//! The best totals, where several are compared one after the other.

ghost use Rattle.semiring_kit.specs.Semiring.{IsGood};

use crate::job::PreparedJob;
use crate::question::Question;
use crate::ranks::Ranks;
use semiring_kit::{Lex, RankPlus};
use std::alloc::{AllocError, Global};

/// The totals of the ranks' measures than which no candidate that passes has better ones, or None where none passes.
#[derive(Clone, Copy, Drop)]
pub struct BestTotals {
    pub ranks: Ranks,
}

impl Question for BestTotals {
    ghost use Rattle.std.specs.Prelude.{None, option_map, refl};
    ghost use Rattle.gta_checked.specs.declared.resolved.Goal.TheVariants.{Ranked};
    ghost use Rattle.gta_meaning.specs.Heavy.{rank_measures};
    ghost use Rattle.fuse_answer.specs.Ranks.{list_of, ranks_weight, signed_lex, totals_answer};
    ghost use Rattle.fuse_answer.specs.RankLaws.{sum-is_best_totals};
    ghost use Rattle.fuse_answer.specs.RankOrder.{ranks-within};

    type Kit = RankPlus;

    type Answer = Option<Lex>;

    ghost goal = { λ question. Ranked None (list_of question.ranks) };

    ghost measures = { λ question. rank_measures (list_of question.ranks) };

    ghost kit = { λ question. record {} };

    ghost weight = { λ question. ranks_weight question.ranks };

    ghost answer_of = { λ question sum. option_map (signed_lex question.ranks) sum };

    ghost plain_answer = { λ question. totals_answer question.ranks };

    ghost sum_answers = { λ question. sum-is_best_totals question.ranks };

    ghost weight_within = { λ question checked rows measures weighed m.
        ranks-within question.ranks checked rows measures m weighed };

    ghost own_are_weighed = { λ question measure measure_in. measure_in };

    fn kit(&self) -> RankPlus {
        RankPlus
    }

    fn weight(&self, prepared: &PreparedJob, row: u32, label: u32) -> Lex {
        self.ranks.weight(prepared, row, label)
    }

    fn kept_a_key(&self) -> u32 {
        1
    }

    fn pieces_by(&self, leaf: u32, rows: u32) -> u32 {
        rows.div_ceil(leaf)
    }

    fn answer_of(&self, _alloc: Global, sum: Option<Lex>) -> Result<Option<Lex>, AllocError> {
        Ok(match sum {
            Some(totals) => Some(self.ranks.signed(totals)),
            None => None,
        })
    }
}
