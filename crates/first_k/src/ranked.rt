//! Candidates in an order. Rankings, and products that keep them, are witness_order's specs/Rankings.antt.
ghost use Rattle.std.specs.Prelude.{◌≡◌, ℕ, ◌+◌, ◌≤◌, IfOk};
ghost use Rattle.std.specs.declared.cmp.Ordering.{Ordering};
ghost use Rattle.shape_gen.specs.declared.mark.Mark.{Mark};
ghost use Rattle.semiring_kit.specs.Semiring.{weight_bound};
ghost use Rattle.witness_order.specs.Rankings.{IsRanking, KeepsRanking};
ghost use Rattle.first_k.specs.FirstK.{AddsReach};

use shape_gen::Mark;
use std::alloc::{AllocError, Global};
use std::cmp::Ordering;

/// Candidates in an order, that can be joined: what the first k of a list are taken of.
/// A refusal is for want of memory alone.
pub trait Ranked: Drop {
    type Item: Drop;

    /// What a mark weighs.
    type Weight: Copy;

    ghost order: { Self → Self.Item → Self.Item → Ordering };

    ghost unit: { Self → Self.Item };

    ghost joint: { Self → Self.Item → Self.Item → Self.Item };

    ghost reach: { Self → Self.Item → ℕ };

    ghost of_mark: { Self → Mark → Self.Weight → Self.Item };

    ghost weight_reach: { Self → Self.Weight → ℕ };

    /// The candidate that changes none that it is joined with.
    fn unit(&self, alloc: Global) -> Result<Self::Item, AllocError>
        ensures { IfOk result (λ item. item ≡ unit self.now) };

    /// The candidate of one mark of this weight.
    fn of_mark(
        &self,
        alloc: Global,
        mark: Mark,
        weight: Self::Weight,
    ) -> Result<Self::Item, AllocError>
        requires { weight_reach self.now weight ≤ weight_bound }
        ensures { IfOk result (λ item. item ≡ of_mark self.now mark weight) };

    /// The same candidate once more.
    fn copy(&self, alloc: Global, a: &Self::Item) -> Result<Self::Item, AllocError>
        ensures { IfOk result (λ item. item ≡ a.now) };

    /// How a compares with b.
    fn compare(&self, a: &Self::Item, b: &Self::Item) -> Ordering
        ensures { result ≡ order self.now a.now b.now };

    /// How a joined with b compares with c joined with d. Neither is made.
    fn compare_joint(
        &self,
        a: &Self::Item,
        b: &Self::Item,
        c: &Self::Item,
        d: &Self::Item,
    ) -> Ordering
        requires left_adds_up { reach self.now a.now + reach self.now b.now ≤ weight_bound }
        requires right_adds_up { reach self.now c.now + reach self.now d.now ≤ weight_bound }
        ensures { result ≡ order self.now (joint self.now a.now b.now) (joint self.now c.now d.now) };

    /// Both joined, in this order.
    fn joint(&self, alloc: Global, a: &Self::Item, b: &Self::Item) -> Result<Self::Item, AllocError>
        requires { reach self.now a.now + reach self.now b.now ≤ weight_bound }
        ensures { IfOk result (λ item. item ≡ joint self.now a.now b.now) };

    ghost ranking: { (s : Self) → IsRanking (order s) };

    ghost keeps: { (s : Self) → KeepsRanking (order s) (unit s) (joint s) };

    ghost adds_reach: { (s : Self) → AddsReach (reach s) (unit s) (joint s) };

    ghost mark_reach: { (s : Self) (mark : Mark) (weight : Self.Weight)
        → reach s (of_mark s mark weight) ≤ weight_reach s weight };
}
