//! The greatest sum of weights. The operations are in specs/MaxPlus.antt.

ghost use Rattle.std.specs.Prelude.{◌≡◌, ◌+◌, ◌≤◌};
ghost use Rattle.semiring_kit.specs.MaxPlus.{max_plus};
ghost use Rattle.semiring_kit.specs.Semiring.{weight_bound};

use crate::semiring::Semiring;
use shape_gen::Mark;
use std::alloc::{AllocError, Global};
use std::sync::ledger::Ledger;
use step_count::Steps;

/// The greatest total weight. None is the total of nothing, below each weight.
/// No method takes memory, and each answers Ok.
#[derive(Clone, Copy, Drop)]
pub struct MaxPlus;

impl Semiring for MaxPlus {
    ghost use Rattle.std.specs.Prelude.{Some, unsigned_abs};
    ghost use Rattle.std.proofs.Common.{arith};
    ghost use Rattle.semiring_kit.specs.MaxPlus.{max_plus};
    ghost use Rattle.semiring_kit.specs.WeightLaws.{max_plus-IsSemiring};

    type Elem = Option<i64>;

    type Weight = i64;

    ghost ring = { λ kit. max_plus };

    ghost of_mark = { λ kit mark weight. Some weight };

    ghost weight_reach = { λ kit. unsigned_abs };

    ghost laws = { λ kit. max_plus-IsSemiring };

    ghost mark_is_sound = { λ kit mark weight. tt };

    ghost mark_reach = { λ kit mark weight. Prim.omega arith };

    fn zero(&self, _alloc: Global) -> Result<Option<i64>, AllocError>
        ensures { result ≡ Ok max_plus.zero }
    {
        Ok(None)
    }

    fn one(&self, _alloc: Global) -> Result<Option<i64>, AllocError>
        ensures { result ≡ Ok max_plus.one }
    {
        Ok(Some(0))
    }

    fn of_mark(&self, _alloc: Global, _mark: Mark, weight: i64) -> Result<Option<i64>, AllocError>
        ensures { result ≡ Ok (Some weight) }
    {
        Ok(Some(weight))
    }

    fn copy(&self, _alloc: Global, a: &Option<i64>) -> Result<Option<i64>, AllocError>
        ensures { result ≡ Ok a.now }
    {
        Ok(*a)
    }

    fn add(
        &self,
        _alloc: Global,
        a: &Option<i64>,
        b: &Option<i64>,
    ) -> Result<Option<i64>, AllocError>
        ensures { result ≡ Ok (max_plus.add a.now b.now) }
    {
        Ok(match (*a, *b) {
            (None, other) | (other, None) => other,
            (Some(x), Some(y)) => Some(x.max(y)),
        })
    }

    fn mul<L: Ledger>(
        &self,
        _alloc: Global,
        a: &Option<i64>,
        b: &Option<i64>,
        steps: &mut Steps<L>,
    ) -> Result<Option<i64>, AllocError>
        requires reaches_add_up { max_plus.reach a.now + max_plus.reach b.now ≤ weight_bound }
        ensures value { result ≡ Ok (max_plus.mul a.now b.now) }
        ensures one_step { steps.new ≡ steps.old + 1 }
    {
        steps.tick();
        Ok(match (*a, *b) {
            (Some(x), Some(y)) => Some(x + y),
            _ => None,
        })
    }
}
