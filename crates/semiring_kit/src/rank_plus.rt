//! The greatest sum of weights of three numbers. The operations are in specs/RankPlus.antt.

ghost use Rattle.std.specs.Prelude.{◌≡◌, ◌+◌, ◌≤◌};
ghost use Rattle.semiring_kit.specs.Chosen.{greater_by};
ghost use Rattle.semiring_kit.specs.Lex.{lex_order, lex_reach};
ghost use Rattle.semiring_kit.specs.RankPlus.{rank_plus};
ghost use Rattle.semiring_kit.specs.Semiring.{weight_bound};

use crate::semiring::Semiring;
use crate::weight::{Lex, Weight};
use shape_gen::Mark;
use std::alloc::{AllocError, Global};
use std::cmp::Ordering;
use std::sync::ledger::Ledger;
use step_count::Steps;

/// The greatest total weight of three numbers. None is the total of nothing, below each weight.
/// No method takes memory, and each answers Ok.
#[derive(Clone, Copy, Drop)]
pub struct RankPlus;

impl Semiring for RankPlus {
    ghost use Rattle.std.specs.Prelude.{Some};
    ghost use Rattle.std.proofs.Common.{arith};
    ghost use Rattle.semiring_kit.specs.Lex.{lex_reach};
    ghost use Rattle.semiring_kit.specs.RankPlus.{rank_plus, rank_plus-IsSemiring};

    type Elem = Option<Lex>;

    type Weight = Lex;

    ghost ring = { λ kit. rank_plus };

    ghost of_mark = { λ kit mark weight. Some weight };

    ghost weight_reach = { λ kit. lex_reach };

    ghost laws = { λ kit. rank_plus-IsSemiring };

    ghost mark_is_sound = { λ kit mark weight. tt };

    ghost mark_reach = { λ kit mark weight. Prim.omega arith };

    fn zero(&self, _alloc: Global) -> Result<Option<Lex>, AllocError>
        ensures { result ≡ Ok rank_plus.zero }
    {
        Ok(None)
    }

    fn one(&self, _alloc: Global) -> Result<Option<Lex>, AllocError>
        ensures { result ≡ Ok rank_plus.one }
    {
        Ok(Some(Lex::zero()))
    }

    fn of_mark(&self, _alloc: Global, _mark: Mark, weight: Lex) -> Result<Option<Lex>, AllocError>
        ensures { result ≡ Ok (Some weight) }
    {
        Ok(Some(weight))
    }

    fn copy(&self, _alloc: Global, a: &Option<Lex>) -> Result<Option<Lex>, AllocError>
        ensures { result ≡ Ok a.now }
    {
        Ok(*a)
    }

    fn add(
        &self,
        _alloc: Global,
        a: &Option<Lex>,
        b: &Option<Lex>,
    ) -> Result<Option<Lex>, AllocError>
        ensures { result ≡ Ok (rank_plus.add a.now b.now) }
    {
        Ok(match (*a, *b) {
            (None, other) | (other, None) => other,
            (Some(x), Some(y)) => Some(greater(x, y)),
        })
    }

    fn mul<L: Ledger>(
        &self,
        _alloc: Global,
        a: &Option<Lex>,
        b: &Option<Lex>,
        steps: &mut Steps<L>,
    ) -> Result<Option<Lex>, AllocError>
        requires reaches_add_up { rank_plus.reach a.now + rank_plus.reach b.now ≤ weight_bound }
        ensures value { result ≡ Ok (rank_plus.mul a.now b.now) }
        ensures one_step { steps.new ≡ steps.old + 1 }
    {
        steps.tick();
        Ok(match (*a, *b) {
            (Some(x), Some(y)) => Some(x.plus(y)),
            _ => None,
        })
    }
}

// The greater of two weights.
fn greater(a: Lex, b: Lex) -> Lex
    ensures { result ≡ greater_by lex_order a b }
{
    match a.compare(b) {
        Ordering::Greater => a,
        Ordering::Less | Ordering::Equal => b,
    }
}
