//! The best list, where several totals are compared one after the other.

ghost use Rattle.std.specs.Prelude.{◌≡◌, ◌≤◌, IfOk, map};
ghost use Rattle.std.specs.List.{All};
ghost use Rattle.semiring_kit.specs.Lex.{lex_reach};
ghost use Rattle.semiring_kit.specs.Semiring.{weight_bound};
ghost use Rattle.gta_spec.specs.declared.limits.TheConstants.{KEEP_LIMIT};
ghost use Rattle.fuse_answer.specs.Ranks.{printed};

use crate::job::PreparedJob;
use crate::question::Question;
use crate::ranks::Ranks;
use best_k::{Best, Entry, RunEntry, RunsByTotal, listed};
use first_k::{FirstK, Firsts};
use semiring_kit::Lex;
use std::alloc::{AllocError, Global};

/// The best k of the candidates that pass, or all where they are fewer, each with its totals of the ranks' measures:
/// those of the better totals, and among equal totals by shortlex.
#[derive(Clone, Copy, Drop)]
pub struct BestRanked {
    pub k: u32,
    pub ranks: Ranks,
    ghost some_kept: { 1 ≤ k },
    ghost few_kept: { k ≤ KEEP_LIMIT },
}

impl Question for BestRanked {
    ghost use Rattle.std.specs.Prelude.{true, Some, map, refl};
    ghost use Rattle.gta_checked.specs.declared.resolved.Goal.TheVariants.{Ranked};
    ghost use Rattle.best_k.specs.RunEntries as entries;
    ghost use Rattle.gta_meaning.specs.Heavy.{rank_measures};
    ghost use Rattle.gta_meaning.specs.Ranks.{best_ranked};
    ghost use Rattle.fuse_answer.specs.Ranks.{list_of, printed, ranked_answer, ranks_weight};
    ghost use Rattle.fuse_answer.specs.RankLaws.{sum-is_best_ranked};
    ghost use Rattle.fuse_answer.specs.RankOrder.{ranks-within};

    type Kit = FirstK<RunsByTotal<Lex>>;

    type Answer = Best<Lex>;

    ghost goal = { λ question. Ranked (Some question.k) (list_of question.ranks) };

    ghost measures = { λ question. rank_measures (list_of question.ranks) };

    ghost kit = { λ question. record {
      ranked = record { greatest = true; totals = record {} };
      k = question.k;
      at_least_one = question.some_kept;
      at_most_64 = question.few_kept;
    } };

    ghost weight = { λ question. ranks_weight question.ranks };

    ghost answer_of = { λ question sum. map (printed question.ranks) (map entries.listed sum) };

    ghost plain_answer = { λ question checked rows.
        map ranked_answer (best_ranked checked rows question.k (list_of question.ranks)) };

    ghost sum_answers = { λ question checked rows. sum-is_best_ranked question.ranks checked rows question.k };

    ghost weight_within = { λ question checked rows measures weighed m.
        ranks-within question.ranks checked rows measures m weighed };

    ghost own_are_weighed = { λ question measure measure_in. measure_in };

    fn kit(&self) -> FirstK<RunsByTotal<Lex>> {
        FirstK {
            ranked: RunsByTotal::of(true),
            k: self.k,
        }
    }

    fn weight(&self, prepared: &PreparedJob, row: u32, label: u32) -> Lex {
        self.ranks.weight(prepared, row, label)
    }

    fn kept_a_key(&self) -> u32 {
        self.k
    }

    fn pieces_by(&self, _leaf: u32, rows: u32) -> u32 {
        rows
    }

    fn answer_of(
        &self,
        alloc: Global,
        sum: Firsts<RunEntry<Lex>>,
    ) -> Result<Best<Lex>, AllocError> {
        let best = listed(alloc, &sum)?;
        as_printed(alloc, &self.ranks, best)
    }
}

/// The entries with their totals as they are printed. Refuses only for want of memory.
fn as_printed(alloc: Global, ranks: &Ranks, best: Best<Lex>) -> Result<Best<Lex>, AllocError>
    requires { All (λ entry. lex_reach entry.total ≤ weight_bound) best }
    ensures { IfOk result (λ entries. entries ≡ map (printed ranks.now) best) }
{
    let entries = best.into_entries();
    let mut all = Vec::with_capacity(alloc, entries.len())?;
    for entry in entries {
        all.push(Entry {
            total: ranks.signed(entry.total),
            witness: entry.witness,
        })?;
    }
    Ok(Best::of(all))
}
