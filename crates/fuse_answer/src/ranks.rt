//! Two or three totals that are compared one after the other. specs/Ranks.antt has their weights.

ghost use Rattle.std.specs.Prelude.{◌≡◌, ◌<◌, ◌≤◌, length, unsigned_abs};
ghost use Rattle.semiring_kit.specs.Lex.{lex_reach};
ghost use Rattle.semiring_kit.specs.Semiring.{weight_bound};
ghost use Rattle.shape_gen.specs.Candidates.{mark};
ghost use Rattle.gta_checked.specs.PlainRows.{plain_rows};
ghost use Rattle.gta_checked.specs.Within.{IsWithinLimits};
ghost use Rattle.gta_meaning.specs.Heavy.{rank_measures};
ghost use Rattle.gta_meaning.specs.InRange.{label_count};
ghost use Rattle.fuse_answer.specs.Ranks as weights;
ghost use Rattle.fuse_answer.specs.Weighed.{AreWeighed};

use crate::job::PreparedJob;
use crate::letters::value_at;
use gta_checked::Rank;
use semiring_kit::Lex;

/// Two ranks, or three: a measure each, and whether its greater or its lesser totals are better. The first counts most.
#[derive(Clone, Copy, Debug)]
pub struct Ranks {
    pub first: Rank,
    pub second: Rank,
    pub third: Option<Rank>,
}

impl Ranks {
    /// These ranks, in their order. Takes no memory.
    pub fn of(ranks: &[Rank]) -> Ranks
        requires some { 2 ≤ length ranks.now }
        requires few { length ranks.now ≤ 3 }
        ensures { weights.list_of result ≡ ranks.now }
    {
        let third = if ranks.len() > 2 {
            Some(ranks[2])
        } else {
            None
        };
        Ranks {
            first: ranks[0],
            second: ranks[1],
            third,
        }
    }

    /// What a mark weighs: its values of the ranks' measures, as they are compared.
    pub(crate) fn weight(&self, prepared: &PreparedJob, row: u32, label: u32) -> Lex
        requires within { IsWithinLimits prepared.now.job.checked }
        requires weighed { let measures = rank_measures (weights.list_of self.now) in
            AreWeighed measures prepared.now.job.checked.goal }
        requires row_in_range { row < prepared.now.job.rows.count }
        requires label_in_range { label < label_count prepared.now.job.checked }
        ensures { let job = prepared.now.job in
            result ≡ weights.ranks_weight self.now job.checked (plain_rows job.rows) (mark row label) }
    {
        let first = value_at(prepared, self.first.measure, row, label);
        let second = value_at(prepared, self.second.measure, row, label);
        let third = match self.third {
            Some(rank) => value_at(prepared, rank.measure, row, label),
            None => 0,
        };
        self.signed(Lex {
            first,
            second,
            third,
        })
    }

    /// The totals as they are compared, or compared totals as they are printed: those are negated of which the
    /// lesser are better.
    pub(crate) fn signed(&self, totals: Lex) -> Lex
        requires { lex_reach totals ≤ weight_bound }
        ensures { result ≡ weights.signed_lex self.now totals }
    {
        Lex {
            first: signed(self.first.greatest, totals.first),
            second: signed(self.second.greatest, totals.second),
            third: match self.third {
                Some(rank) => signed(rank.greatest, totals.third),
                None => totals.third,
            },
        }
    }
}

fn signed(greatest: bool, number: i64) -> i64
    requires { unsigned_abs number ≤ weight_bound }
    ensures { result ≡ weights.signed greatest number }
{
    if greatest { number } else { -number }
}
