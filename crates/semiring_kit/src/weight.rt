//! Weights: what marks have, candidates add up, and answers compare. The laws are in specs/Weight.antt.

ghost use Rattle.std.specs.Prelude.{◌≡◌, ◌+◌, ◌≤◌};
ghost use Rattle.semiring_kit.specs.Semiring.{weight_bound};
ghost use Rattle.semiring_kit.specs.Weight.{WeightsOn, IsWeight};

use std::cmp::Ordering;

/// A weight: it can be added up and compared, and sums keep the order. No method takes memory.
pub trait Weight: Copy {
    ghost weights: { WeightsOn Self };

    /// The weight of nothing.
    fn zero() -> Self
        ensures { result ≡ weights.nothing };

    /// The sum.
    fn plus(self, other: Self) -> Self
        requires { weights.reach self + weights.reach other ≤ weight_bound }
        ensures { result ≡ weights.plus self other };

    /// How the one compares with the other.
    fn compare(self, other: Self) -> Ordering
        ensures { result ≡ weights.order self other };

    ghost laws: { IsWeight weights };
}

impl Weight for i64 {
    ghost use Rattle.semiring_kit.specs.LexLaws.{numbers-IsWeight};
    ghost use Rattle.semiring_kit.specs.Weight.{numbers};

    ghost weights = { numbers };

    ghost laws = { numbers-IsWeight };

    fn zero() -> i64 {
        0
    }

    fn plus(self, other: i64) -> i64 {
        self + other
    }

    fn compare(self, other: i64) -> Ordering {
        self.cmp(&other)
    }
}

/// Three numbers, of which the first counts most, then the second, then the third.
#[derive(Clone, Copy, Debug)]
pub struct Lex {
    pub first: i64,
    pub second: i64,
    pub third: i64,
}

impl Weight for Lex {
    ghost use Rattle.semiring_kit.specs.Lex.{lexes};
    ghost use Rattle.semiring_kit.specs.LexLaws.{lexes-IsWeight};

    ghost weights = { lexes };

    ghost laws = { lexes-IsWeight };

    fn zero() -> Lex {
        Lex {
            first: 0,
            second: 0,
            third: 0,
        }
    }

    fn plus(self, other: Lex) -> Lex {
        Lex {
            first: self.first.plus(other.first),
            second: self.second.plus(other.second),
            third: self.third.plus(other.third),
        }
    }

    fn compare(self, other: Lex) -> Ordering {
        let first = self.first.cmp(&other.first);
        let second = self.second.cmp(&other.second);
        first.then(second.then(self.third.cmp(&other.third)))
    }
}
