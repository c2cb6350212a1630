//! One entry of an answer, and the order of entries. The order is in specs/Best.antt.
ghost use Rattle.std.specs.Prelude.{◌≡◌, Bool, IfOk};
ghost use Rattle.witness_order.specs.Before.{better_by};

use first_k::Ranked;
use semiring_kit::Weight;
use shape_gen::Mark;
use std::alloc::{AllocError, Global};
use std::cmp::Ordering;
use std::marker::PhantomData;
use witness_order::{Witness, joined, shortlex, shortlex_joined};

/// A candidate with its total.
#[derive(Debug, Drop)]
pub struct Entry<W> {
    pub total: W,
    pub witness: Witness,
}

/// Entries in the order of an answer: the better total first, which is the greater one or the lesser, and among
/// equal totals by shortlex.
#[derive(Clone, Copy, Debug)]
pub struct ByTotal<W> {
    greatest: bool,
    totals: PhantomData<W>,
}

impl<W> ByTotal<W> {
    /// The greater totals first, or the lesser ones. Takes no memory.
    pub fn of(greatest: bool) -> ByTotal<W>
        ensures { result.greatest ≡ greatest }
    {
        ByTotal {
            greatest,
            totals: PhantomData,
        }
    }
}

impl<W: Weight> Ranked for ByTotal<W> {
    ghost use Rattle.std.specs.Prelude.{[], ◌∷◌};
    ghost use Rattle.witness_order.specs.Before.{no_marks};
    ghost use Rattle.best_k.specs.Best.{entry_of, entry_order, joint, entry_reach};
    ghost use Rattle.best_k.specs.BestLaws.{entry_order-IsRanking, entry_order-KeepsRanking};
    ghost use Rattle.best_k.specs.BestLaws.{entry_reach-AddsReach, entry_reach-of_mark};

    type Item = Entry<W>;

    type Weight = W;

    ghost order = { λ by. entry_order W.weights by.greatest };

    ghost unit = { λ by. entry_of (no_marks W.weights.nothing) };

    ghost joint = { λ by. joint W.weights };

    ghost reach = { λ by. entry_reach W.weights };

    ghost of_mark = { λ by mark weight. entry_of (weight, mark ∷ []) };

    ghost weight_reach = { λ by. W.weights.reach };

    ghost ranking = { λ by. entry_order-IsRanking W.weights W.laws by.greatest };

    ghost keeps = { λ by. entry_order-KeepsRanking W.weights W.laws by.greatest };

    ghost adds_reach = { λ by. entry_reach-AddsReach W.weights W.laws };

    ghost mark_reach = { λ by mark weight. entry_reach-of_mark W.weights W.laws mark weight };

    fn unit(&self, alloc: Global) -> Result<Entry<W>, AllocError> {
        let witness = Witness::of(alloc, &[])?;
        let total = W::zero();
        Ok(Entry { total, witness })
    }

    fn of_mark(&self, alloc: Global, mark: Mark, weight: W) -> Result<Entry<W>, AllocError> {
        let witness = Witness::of(alloc, &[mark])?;
        let total = weight;
        Ok(Entry { total, witness })
    }

    fn copy(&self, alloc: Global, a: &Entry<W>) -> Result<Entry<W>, AllocError> {
        let witness = Witness::of(alloc, a.witness.marks())?;
        let total = a.total;
        Ok(Entry { total, witness })
    }

    fn compare(&self, a: &Entry<W>, b: &Entry<W>) -> Ordering {
        match compare_totals(self.greatest, a.total, b.total) {
            Ordering::Equal => shortlex(&a.witness, &b.witness),
            unequal => unequal,
        }
    }

    fn compare_joint(&self, a: &Entry<W>, b: &Entry<W>, c: &Entry<W>, d: &Entry<W>) -> Ordering {
        let (left, right) = (a.total.plus(b.total), c.total.plus(d.total));
        match compare_totals(self.greatest, left, right) {
            Ordering::Equal => shortlex_joined(&a.witness, &b.witness, &c.witness, &d.witness),
            unequal => unequal,
        }
    }

    fn joint(&self, alloc: Global, a: &Entry<W>, b: &Entry<W>) -> Result<Entry<W>, AllocError> {
        let total = a.total.plus(b.total);
        let witness = joined(alloc, &a.witness, &b.witness)?;
        Ok(Entry { total, witness })
    }
}

/// The better total first.
pub(crate) fn compare_totals<W: Weight>(greatest: bool, a: W, b: W) -> Ordering
    ensures { result ≡ better_by W.weights.order greatest a b }
{
    if greatest { b.compare(a) } else { a.compare(b) }
}
