//! Whether there is any. The operations are in specs/Truth.antt.

ghost use Rattle.std.specs.Prelude.{◌≡◌, ◌+◌};
ghost use Rattle.semiring_kit.specs.Truth.{truth, truth_of_mark};

use crate::semiring::Semiring;
use shape_gen::Mark;
use std::alloc::{AllocError, Global};
use std::sync::ledger::Ledger;
use step_count::Steps;

/// Whether there is any.
/// No method takes memory, and each answers Ok.
#[derive(Clone, Copy, Drop)]
pub struct Truth;

impl Semiring for Truth {
    ghost use Rattle.std.specs.Prelude.{unsigned_abs};
    ghost use Rattle.std.proofs.Common.{arith};
    ghost use Rattle.semiring_kit.specs.Truth.{truth, truth_of_mark};
    ghost use Rattle.semiring_kit.specs.TruthLaws.{truth-IsSemiring};

    type Elem = bool;

    type Weight = i64;

    ghost ring = { λ kit. truth };

    ghost of_mark = { λ kit. truth_of_mark };

    ghost weight_reach = { λ kit. unsigned_abs };

    ghost laws = { λ kit. truth-IsSemiring };

    ghost mark_is_sound = { λ kit mark weight. tt };

    ghost mark_reach = { λ kit mark weight. Prim.omega arith };

    fn zero(&self, _alloc: Global) -> Result<bool, AllocError>
        ensures { result ≡ Ok truth.zero }
    {
        Ok(false)
    }

    fn one(&self, _alloc: Global) -> Result<bool, AllocError>
        ensures { result ≡ Ok truth.one }
    {
        Ok(true)
    }

    fn of_mark(&self, _alloc: Global, mark: Mark, weight: i64) -> Result<bool, AllocError>
        ensures { result ≡ Ok (truth_of_mark mark weight) }
    {
        Ok(true)
    }

    fn copy(&self, _alloc: Global, a: &bool) -> Result<bool, AllocError>
        ensures { result ≡ Ok a.now }
    {
        Ok(*a)
    }

    fn add(&self, _alloc: Global, a: &bool, b: &bool) -> Result<bool, AllocError>
        ensures { result ≡ Ok (truth.add a.now b.now) }
    {
        Ok(*a || *b)
    }

    fn mul<L: Ledger>(
        &self,
        _alloc: Global,
        a: &bool,
        b: &bool,
        steps: &mut Steps<L>,
    ) -> Result<bool, AllocError>
        ensures value { result ≡ Ok (truth.mul a.now b.now) }
        ensures one_step { steps.new ≡ steps.old + 1 }
    {
        steps.tick();
        Ok(*a && *b)
    }
}
