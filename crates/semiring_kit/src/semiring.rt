//! Semirings over values that may take memory.
//! The operations and their laws are in specs/Semiring.antt.

ghost use Rattle.std.specs.Prelude.{◌≡◌, ℕ, ◌+◌, ◌≤◌, IfOk};
ghost use Rattle.semiring_kit.specs.Semiring.{SemiringOn, IsSemiring, IsGood, weight_bound};
ghost use Rattle.shape_gen.specs.declared.mark.Mark.{Mark};

use shape_gen::Mark;
use std::alloc::{AllocError, Global};
use std::sync::ledger::Ledger;
use step_count::Steps;

/// A semiring, whose elements may take memory. An Ok gives just the element that the meaning names;
/// a refusal for want of memory says nothing.
pub trait Semiring: Drop {
    type Elem: Send + Sync + Drop;

    /// What a mark weighs.
    type Weight: Copy + Send + Sync;

    ghost ring: { Self → SemiringOn Self.Elem };

    ghost of_mark: { Self → Mark → Self.Weight → Self.Elem };

    // how far a weight reaches: it is good up to the bound
    ghost weight_reach: { Self → Self.Weight → ℕ };

    /// The element that adds nothing.
    fn zero(&self, alloc: Global) -> Result<Self::Elem, AllocError>
        ensures { IfOk result (λ elem. elem ≡ (ring self.now).zero) };

    /// The element that changes no factor.
    fn one(&self, alloc: Global) -> Result<Self::Elem, AllocError>
        ensures { IfOk result (λ elem. elem ≡ (ring self.now).one) };

    /// The element of a mark of this weight.
    fn of_mark(
        &self,
        alloc: Global,
        mark: Mark,
        weight: Self::Weight,
    ) -> Result<Self::Elem, AllocError>
        requires { weight_reach self.now weight ≤ weight_bound }
        ensures { IfOk result (λ elem. elem ≡ of_mark self.now mark weight) };

    /// The same element once more.
    fn copy(&self, alloc: Global, a: &Self::Elem) -> Result<Self::Elem, AllocError>
        requires { IsGood (ring self.now) a.now }
        ensures { IfOk result (λ elem. elem ≡ a.now) };

    /// The sum.
    fn add(&self, alloc: Global, a: &Self::Elem, b: &Self::Elem) -> Result<Self::Elem, AllocError>
        requires left_is_good { IsGood (ring self.now) a.now }
        requires right_is_good { IsGood (ring self.now) b.now }
        ensures { IfOk result (λ elem. elem ≡ (ring self.now).add a.now b.now) };

    /// The sum of two values that are needed no more.
    fn sum(&self, alloc: Global, a: Self::Elem, b: Self::Elem) -> Result<Self::Elem, AllocError>
        requires left_is_good { IsGood (ring self.now) a }
        requires right_is_good { IsGood (ring self.now) b }
        ensures { IfOk result (λ elem. elem ≡ (ring self.now).add a b) }
    {
        self.add(alloc, &a, &b)
    }

    /// The product, in this order. It is one step, also where memory is refused.
    fn mul<L: Ledger>(
        &self,
        alloc: Global,
        a: &Self::Elem,
        b: &Self::Elem,
        steps: &mut Steps<L>,
    ) -> Result<Self::Elem, AllocError>
        requires left_is_good { IsGood (ring self.now) a.now }
        requires right_is_good { IsGood (ring self.now) b.now }
        requires reaches_add_up { let reach = (ring self.now).reach in
            reach a.now + reach b.now ≤ weight_bound }
        ensures value { IfOk result (λ elem. elem ≡ (ring self.now).mul a.now b.now) }
        ensures one_step { steps.new ≡ steps.old + 1 };

    ghost laws: { (s : Self) → IsSemiring (ring s) };

    ghost mark_is_sound: { (s : Self) (mark : Mark) (weight : Self.Weight)
        → (ring s).is_sound (of_mark s mark weight) };

    ghost mark_reach: { (s : Self) (mark : Mark) (weight : Self.Weight)
        → (ring s).reach (of_mark s mark weight) ≤ weight_reach s weight };
}
