//! The semiring of the first k. The operations are in specs/FirstK.antt.
ghost use Rattle.std.specs.Prelude.{◌≡◌, ◌≤◌, [], ◌∷◌, ◌++◌, IfOk};
ghost use Rattle.witness_order.specs.Ranked.{first_of, Ascends};

use crate::firsts::Firsts;
use crate::product::product_of;
use crate::queue::Lent;
use crate::ranked::Ranked;
use crate::sum::sum_of;
use semiring_kit::Semiring;
use shape_gen::Mark;
use std::alloc::{AllocError, Global};
use std::sync::ledger::Ledger;
use step_count::Steps;

/// The first k of all candidates, or all where they are fewer.
/// Each method makes its whole result before it answers, and refuses only for want of memory.
#[derive(Drop)]
pub struct FirstK<R: Ranked> {
    pub ranked: R,
    pub k: u32,
    ghost at_least_one: { 1 ≤ k },
    ghost at_most_64: { k ≤ 64 },
}

// The bound Send + Sync stands here and not on Ranked: a method of an impl can't call a function
// whose bound has an associated type that is `Send`.
impl<R: Ranked> Semiring for FirstK<R>
where
    R::Item: Send + Sync,
    R::Weight: Send + Sync,
{
    ghost use Rattle.std.specs.Prelude.{[], ◌∷◌};
    ghost use Rattle.witness_order.specs.Ranked.{first_of};
    ghost use Rattle.first_k.specs.FirstK.{first_k};
    ghost use Rattle.first_k.specs.FirstKLaws.{first_k-IsSemiring, one_of-is_sound, one_of-reach};

    type Elem = Firsts<R::Item>;

    type Weight = R::Weight;

    ghost ring = { λ kit. let by = kit.ranked in
        first_k (R.order by) kit.k (R.unit by) (R.joint by) (R.reach by) };

    ghost of_mark = { λ kit mark weight. let by = kit.ranked in
        first_of (R.order by) kit.k (R.of_mark by mark weight ∷ []) };

    ghost weight_reach = { λ kit. R.weight_reach kit.ranked };

    ghost laws = { λ kit. let by = kit.ranked in
        first_k-IsSemiring (R.order by) (R.ranking by) (R.unit by) (R.joint by) (R.keeps by)
        (R.reach by) (R.adds_reach by) kit.k };

    ghost mark_is_sound = { λ kit mark weight. let by = kit.ranked in
        one_of-is_sound (R.order by) (R.ranking by) kit.k (R.of_mark by mark weight) };

    ghost mark_reach = { λ kit mark weight. let by = kit.ranked in
        one_of-reach (R.order by) (R.reach by) kit.k (R.of_mark by mark weight) (R.weight_reach by weight)
        (R.mark_reach by mark weight) };

    fn zero(&self, alloc: Global) -> Result<Firsts<R::Item>, AllocError> {
        Ok(Firsts::of(Vec::new(alloc)))
    }

    fn one(&self, alloc: Global) -> Result<Firsts<R::Item>, AllocError> {
        single(alloc, self.ranked.unit(alloc)?)
    }

    fn of_mark(
        &self,
        alloc: Global,
        mark: Mark,
        weight: R::Weight,
    ) -> Result<Firsts<R::Item>, AllocError> {
        single(alloc, self.ranked.of_mark(alloc, mark, weight)?)
    }

    fn copy(&self, alloc: Global, a: &Firsts<R::Item>) -> Result<Firsts<R::Item>, AllocError> {
        copied_all(alloc, &self.ranked, a.items())
    }

    /// Compares at most k times, and copies at most k candidates.
    fn add(
        &self,
        alloc: Global,
        a: &Firsts<R::Item>,
        b: &Firsts<R::Item>,
    ) -> Result<Firsts<R::Item>, AllocError> {
        sum_of_lent(alloc, &self.ranked, self.k as usize, a.items(), b.items())
    }

    /// Compares at most k times, and moves at most k candidates. None is copied, and none looked at where one
    /// of the lists is empty.
    fn sum(
        &self,
        alloc: Global,
        a: Firsts<R::Item>,
        b: Firsts<R::Item>,
    ) -> Result<Firsts<R::Item>, AllocError> {
        if a.items().is_empty() {
            return Ok(b);
        }
        if b.items().is_empty() {
            return Ok(a);
        }
        let k = self.k as usize;
        sum_of(alloc, &self.ranked, k, a.into_queue(), b.into_queue())
    }

    /// Compares joined candidates where they stand, and joins only the ones that it keeps, at most k.
    /// Where one list has one candidate, none is compared. Else it looks for the places of at most k * k of them,
    /// and of at most k (2 + ln k) where no two are equal, each with 1 + log2 k comparisons at most.
    fn mul<L: Ledger>(
        &self,
        alloc: Global,
        a: &Firsts<R::Item>,
        b: &Firsts<R::Item>,
        steps: &mut Steps<L>,
    ) -> Result<Firsts<R::Item>, AllocError> {
        steps.tick();
        product_of(alloc, &self.ranked, self.k as usize, a.items(), b.items())
    }
}

// The list of one candidate.
fn single<T: Drop>(alloc: Global, item: T) -> Result<Firsts<T>, AllocError>
    ensures { IfOk result (λ firsts. firsts ≡ item ∷ []) }
{
    let mut items = Vec::with_capacity(alloc, 1)?;
    items.push(item)?;
    Ok(Firsts::of(items))
}

// The list of the same candidates once more.
fn copied_all<R: Ranked>(
    alloc: Global,
    ranked: &R,
    items: &[R::Item],
) -> Result<Firsts<R::Item>, AllocError>
    ensures { IfOk result (λ firsts. firsts ≡ items.now) }
{
    let mut copies = Vec::with_capacity(alloc, items.len())?;
    'copying: for item in items {
        copies.push(ranked.copy(alloc, item)?)?;
    }
    Ok(Firsts::of(copies))
}

// The sum of two lists that stay where they are.
fn sum_of_lent<R: Ranked>(
    alloc: Global,
    ranked: &R,
    k: usize,
    a: &[R::Item],
    b: &[R::Item],
) -> Result<Firsts<R::Item>, AllocError>
    requires left_in_order { Ascends (R.order ranked.now) a.now }
    requires right_in_order { Ascends (R.order ranked.now) b.now }
    ensures { IfOk result (λ sum. sum ≡ first_of (R.order ranked.now) k (a.now ++ b.now)) }
{
    let left = Lent { ranked, items: a };
    sum_of(alloc, ranked, k, left, Lent { ranked, items: b })
}
