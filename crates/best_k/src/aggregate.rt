//! What a sum of best entries is. The aggregate is in specs/Aggregate.antt.
ghost use Rattle.best_k.specs.Aggregate.{SumIsBest};
ghost use Rattle.best_k.specs.RunEntries.{RunSumIsBest};

use semiring_kit::Weight;

/// The sum over a list of candidates, each of which weighs the product of its marks' elements, is the first k
/// of the candidates by their total weight and by shortlex, or all where they are fewer.
/// It does nothing: the law is its contract.
pub fn best_sums_are_aggregates<W: Weight>()
    ensures { SumIsBest W.weights }
{}

/// So is what is listed of the sum of run entries. It does nothing: the law is its contract.
pub fn run_sums_are_aggregates<W: Weight>()
    ensures { RunSumIsBest W.weights }
{}
