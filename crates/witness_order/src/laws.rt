//! What the orders are, and what is first by them. The definitions are in specs/Rankings.antt,
//! specs/Before.antt and specs/Ranked.antt.
ghost use Rattle.std.specs.Prelude.{◌≡◌, ℕ, ℤ, pos, ◌+ℤ◌, Bool, List, [], ◌++◌};
ghost use Rattle.shape_gen.specs.declared.mark.Mark.{Mark};
ghost use Rattle.witness_order.specs.Rankings.{IsRanking, KeepsRanking};
ghost use Rattle.witness_order.specs.Shortlex.{shortlex};
ghost use Rattle.witness_order.specs.Before.{before, no_marks, together};
ghost use Rattle.witness_order.specs.Ranked.{first_of, IsFirstOf};

/// Shortlex is a ranking, which marks put in front of both candidates, or behind both, leave as it is.
/// So is the order of entries. It does nothing: the laws are its contract.
pub fn orders_are_rankings()
    ensures shortlex_ranks { IsRanking shortlex }
    ensures shortlex_kept { KeepsRanking shortlex [] (λ xs ys. xs ++ ys) }
    ensures before_ranks { (greatest : Bool) → IsRanking (before greatest) }
    ensures before_kept { (greatest : Bool) → KeepsRanking (before greatest) (no_marks (pos 0)) (together ◌+ℤ◌) }
{}

/// The first k of a list of entries are k of its entries, or all where they are fewer, in order, and none of
/// them comes after one that is left out. It does nothing: the law is its contract.
pub fn first_of_a_list()
    ensures { (greatest : Bool) (k : ℕ) (xs : List (ℤ × List Mark))
        → IsFirstOf (before greatest) k xs (first_of (before greatest) k xs) }
{}
