//! Entries whose marks are kept as runs, and their order. The order is in specs/RunEntries.antt.
ghost use Rattle.std.specs.Prelude.{◌≡◌, map, IfOk};
ghost use Rattle.best_k.specs.RunEntries.{listed};

use crate::best::Best;
use crate::entry::{Entry, compare_totals};
use first_k::{Firsts, Ranked};
use mark_runs::Runs;
use semiring_kit::Weight;
use shape_gen::Mark;
use std::alloc::{AllocError, Global};
use std::cmp::Ordering;
use std::marker::PhantomData;

/// A candidate with its total, and its marks as runs.
#[derive(Debug, Drop)]
pub struct RunEntry<W> {
    pub total: W,
    pub runs: Runs,
}

/// Run entries in the order of an answer: the better total first, which is the greater one or the lesser, and among
/// equal totals by shortlex. It goes by runs.
#[derive(Clone, Copy, Debug)]
pub struct RunsByTotal<W> {
    greatest: bool,
    totals: PhantomData<W>,
}

impl<W> RunsByTotal<W> {
    /// The greater totals first, or the lesser ones. Takes no memory.
    pub fn of(greatest: bool) -> RunsByTotal<W>
        ensures { result.greatest ≡ greatest }
    {
        RunsByTotal {
            greatest,
            totals: PhantomData,
        }
    }
}

impl<W: Weight> Ranked for RunsByTotal<W> {
    ghost use Rattle.std.specs.Prelude.{[], ◌∷◌};
    ghost use Rattle.witness_order.specs.Before.{no_marks};
    ghost use Rattle.best_k.specs.RunEntries.{run_entry_of, run_order, run_joint, run_reach};
    ghost use Rattle.best_k.specs.RunEntryLaws.{run_order-IsRanking, run_order-KeepsRanking};
    ghost use Rattle.best_k.specs.RunEntryLaws.{run_reach-AddsReach, run_reach-of_mark};

    type Item = RunEntry<W>;

    type Weight = W;

    ghost order = { λ by. run_order W.weights by.greatest };

    ghost unit = { λ by. run_entry_of (no_marks W.weights.nothing) };

    ghost joint = { λ by. run_joint W.weights };

    ghost reach = { λ by. run_reach W.weights };

    ghost of_mark = { λ by mark weight. run_entry_of (weight, mark ∷ []) };

    ghost weight_reach = { λ by. W.weights.reach };

    ghost ranking = { λ by. run_order-IsRanking W.weights W.laws by.greatest };

    ghost keeps = { λ by. run_order-KeepsRanking W.weights W.laws by.greatest };

    ghost adds_reach = { λ by. run_reach-AddsReach W.weights W.laws };

    ghost mark_reach = { λ by mark weight. run_reach-of_mark W.weights W.laws mark weight };

    fn unit(&self, alloc: Global) -> Result<RunEntry<W>, AllocError> {
        let runs = Runs::none(alloc);
        let total = W::zero();
        Ok(RunEntry { total, runs })
    }

    fn of_mark(&self, alloc: Global, mark: Mark, weight: W) -> Result<RunEntry<W>, AllocError> {
        let runs = Runs::of_mark(alloc, mark)?;
        let total = weight;
        Ok(RunEntry { total, runs })
    }

    fn copy(&self, alloc: Global, a: &RunEntry<W>) -> Result<RunEntry<W>, AllocError> {
        let runs = Runs::copied(alloc, &a.runs)?;
        let total = a.total;
        Ok(RunEntry { total, runs })
    }

    fn compare(&self, a: &RunEntry<W>, b: &RunEntry<W>) -> Ordering {
        match compare_totals(self.greatest, a.total, b.total) {
            Ordering::Equal => Runs::shortlex(&a.runs, &b.runs),
            unequal => unequal,
        }
    }

    fn compare_joint(
        &self,
        a: &RunEntry<W>,
        b: &RunEntry<W>,
        c: &RunEntry<W>,
        d: &RunEntry<W>,
    ) -> Ordering {
        let (left, right) = (a.total.plus(b.total), c.total.plus(d.total));
        match compare_totals(self.greatest, left, right) {
            Ordering::Equal => Runs::shortlex_joined(&a.runs, &b.runs, &c.runs, &d.runs),
            unequal => unequal,
        }
    }

    fn joint(
        &self,
        alloc: Global,
        a: &RunEntry<W>,
        b: &RunEntry<W>,
    ) -> Result<RunEntry<W>, AllocError> {
        let total = a.total.plus(b.total);
        let runs = Runs::joined(alloc, &a.runs, &b.runs)?;
        Ok(RunEntry { total, runs })
    }
}

/// The list of the same entries, each with its marks one by one. Refuses only for want of memory.
pub fn listed<W: Weight>(alloc: Global, firsts: &Firsts<RunEntry<W>>) -> Result<Best<W>, AllocError>
    ensures { IfOk result (λ best. best ≡ map listed firsts.now) }
{
    let mut entries = Vec::with_capacity(alloc, firsts.items().len())?;
    'listing: for entry in firsts.items() {
        let witness = entry.runs.witness(alloc)?;
        entries.push(Entry {
            total: entry.total,
            witness,
        })?;
    }
    Ok(Best::of(entries))
}
