//! The semiring of the best k entries. The operations are in specs/Best.antt.
ghost use Rattle.std.specs.Prelude.{◌≡◌, ◌≤◌};

use crate::best::Best;
use crate::entry::ByTotal;
use first_k::FirstK;
use semiring_kit::{Semiring, Weight};
use shape_gen::Mark;
use std::alloc::{AllocError, Global};
use std::marker::PhantomData;
use std::sync::ledger::Ledger;
use step_count::Steps;

/// The k best candidates, or all where they are fewer: those of the greatest totals, or of the least.
/// Each method is the one of the first k in the order of entries.
#[derive(Debug, Drop)]
pub struct BestK<W> {
    k: u32,
    greatest: bool,
    totals: PhantomData<W>,
    ghost at_least_one: { 1 ≤ k },
    ghost at_most_64: { k ≤ 64 },
}

impl<W: Weight> BestK<W> {
    /// The k of the greatest totals, or of the least; k is 1 to 64. Takes no memory.
    pub fn of(k: u32, greatest: bool) -> BestK<W>
        requires at_least_one { 1 ≤ k }
        requires at_most_64 { k ≤ 64 }
        ensures k { result.k ≡ k }
        ensures greatest { result.greatest ≡ greatest }
    {
        BestK {
            k,
            greatest,
            totals: PhantomData,
        }
    }

    // The first k in the order of entries.
    fn first_k(&self) -> FirstK<ByTotal<W>>
        ensures k { result.k ≡ self.now.k }
        ensures greatest { result.ranked.greatest ≡ self.now.greatest }
    {
        FirstK {
            ranked: ByTotal::of(self.greatest),
            k: self.k,
        }
    }
}

impl<W: Weight + Send + Sync> Semiring for BestK<W> {
    ghost use Rattle.best_k.specs.Best.{best_of, marked};
    ghost use Rattle.best_k.specs.BestLaws.{best_of-IsSemiring, marked-is_sound, marked-reach};

    type Elem = Best<W>;

    type Weight = W;

    ghost ring = { λ kit. best_of W.weights kit.greatest kit.k };

    ghost of_mark = { λ kit. marked W.weights kit.greatest kit.k };

    ghost weight_reach = { λ kit. W.weights.reach };

    ghost laws = { λ kit. best_of-IsSemiring W.weights W.laws kit.greatest kit.k };

    ghost mark_is_sound = { λ kit. marked-is_sound W.weights W.laws kit.greatest kit.k };

    ghost mark_reach = { λ kit. marked-reach W.weights W.laws kit.greatest kit.k };

    fn zero(&self, alloc: Global) -> Result<Best<W>, AllocError> {
        let firsts = self.first_k().zero(alloc)?;
        Ok(Best { firsts })
    }

    fn one(&self, alloc: Global) -> Result<Best<W>, AllocError> {
        let firsts = self.first_k().one(alloc)?;
        Ok(Best { firsts })
    }

    fn of_mark(&self, alloc: Global, mark: Mark, weight: W) -> Result<Best<W>, AllocError> {
        let firsts = self.first_k().of_mark(alloc, mark, weight)?;
        Ok(Best { firsts })
    }

    fn copy(&self, alloc: Global, a: &Best<W>) -> Result<Best<W>, AllocError> {
        let firsts = self.first_k().copy(alloc, &a.firsts)?;
        Ok(Best { firsts })
    }

    fn add(&self, alloc: Global, a: &Best<W>, b: &Best<W>) -> Result<Best<W>, AllocError> {
        let firsts = self.first_k().add(alloc, &a.firsts, &b.firsts)?;
        Ok(Best { firsts })
    }

    fn sum(&self, alloc: Global, a: Best<W>, b: Best<W>) -> Result<Best<W>, AllocError> {
        let firsts = self.first_k().sum(alloc, a.firsts, b.firsts)?;
        Ok(Best { firsts })
    }

    fn mul<L: Ledger>(
        &self,
        alloc: Global,
        a: &Best<W>,
        b: &Best<W>,
        steps: &mut Steps<L>,
    ) -> Result<Best<W>, AllocError> {
        let firsts = self.first_k().mul(alloc, &a.firsts, &b.firsts, steps)?;
        Ok(Best { firsts })
    }
}
