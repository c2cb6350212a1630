//! What the sums of the kits are. The aggregates are in specs/Aggregates.antt.

ghost use Rattle.semiring_kit.specs.Aggregates.{SumCounts, SumTells, SumIsGreatest, SumIsLeast, SumIsGreatestLex};
ghost use Rattle.semiring_kit.specs.Aggregates.{GreatestIsUpper, LeastIsLower, GreatestLexIsUpper};

/// The sum over a list of candidates, each of which weighs the product of its marks' elements,
/// is the aggregate: the number of candidates, cut at the greatest u64, whether there is one,
/// and the greatest and the least total weight, or None where there is no candidate; and so it is for the greatest
/// total weight of three numbers.
/// It does nothing: the law is its contract.
pub fn sums_are_aggregates()
    ensures count { SumCounts }
    ensures truth { SumTells }
    ensures max_plus { SumIsGreatest }
    ensures min_plus { SumIsLeast }
    ensures rank_plus { SumIsGreatestLex }
    ensures greatest { GreatestIsUpper }
    ensures least { LeastIsLower }
    ensures greatest_lex { GreatestLexIsUpper }
{}
