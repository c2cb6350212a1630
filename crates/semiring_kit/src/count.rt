//! Counts that stop at the greatest u64. The operations are in specs/Count.antt.

ghost use Rattle.std.specs.Prelude.{◌≡◌, ◌+◌};
ghost use Rattle.semiring_kit.specs.Count.{count, count_of_mark};

use crate::semiring::Semiring;
use shape_gen::Mark;
use std::alloc::{AllocError, Global};
use std::sync::ledger::Ledger;
use step_count::Steps;

/// How many there are, as far as a u64 counts: a number past 18446744073709551615 is cut to it.
/// No method takes memory, and each answers Ok.
#[derive(Clone, Copy, Drop)]
pub struct Count;

impl Semiring for Count {
    ghost use Rattle.std.specs.Prelude.{unsigned_abs};
    ghost use Rattle.std.proofs.Common.{arith};
    ghost use Rattle.semiring_kit.specs.Count.{count, count_of_mark};
    ghost use Rattle.semiring_kit.specs.CountLaws.{count-IsSemiring};

    type Elem = u64;

    type Weight = i64;

    ghost ring = { λ kit. count };

    ghost of_mark = { λ kit. count_of_mark };

    ghost weight_reach = { λ kit. unsigned_abs };

    ghost laws = { λ kit. count-IsSemiring };

    ghost mark_is_sound = { λ kit mark weight. Prim.omega arith };

    ghost mark_reach = { λ kit mark weight. Prim.omega arith };

    fn zero(&self, _alloc: Global) -> Result<u64, AllocError>
        ensures { result ≡ Ok count.zero }
    {
        Ok(0)
    }

    fn one(&self, _alloc: Global) -> Result<u64, AllocError>
        ensures { result ≡ Ok count.one }
    {
        Ok(1)
    }

    fn of_mark(&self, _alloc: Global, mark: Mark, weight: i64) -> Result<u64, AllocError>
        ensures { result ≡ Ok (count_of_mark mark weight) }
    {
        Ok(1)
    }

    fn copy(&self, _alloc: Global, a: &u64) -> Result<u64, AllocError>
        ensures { result ≡ Ok a.now }
    {
        Ok(*a)
    }

    fn add(&self, _alloc: Global, a: &u64, b: &u64) -> Result<u64, AllocError>
        ensures { result ≡ Ok (count.add a.now b.now) }
    {
        Ok(a.saturating_add(*b))
    }

    fn mul<L: Ledger>(
        &self,
        _alloc: Global,
        a: &u64,
        b: &u64,
        steps: &mut Steps<L>,
    ) -> Result<u64, AllocError>
        ensures value { result ≡ Ok (count.mul a.now b.now) }
        ensures one_step { steps.new ≡ steps.old + 1 }
    {
        steps.tick();
        Ok(a.saturating_mul(*b))
    }
}
