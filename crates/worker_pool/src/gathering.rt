//! The value of all rows, from the pieces that are there and the leaves that are not.

ghost use Rattle.std.specs.Prelude.{◌≡◌, ◌+◌, ◌-◌, ◌≤◌, All, IfOk, MatchOption};
ghost use Rattle.interval_kit.specs.Cut.{IsCut};
ghost use Rattle.worker_pool.specs.Slots.{IsGoodSlot, part_of};
ghost use Rattle.worker_pool.specs.Walk.{IsGood, part_cost, walk, walk_cost};

use crate::slots::longest_pieces;
use interval_kit::{Cut, Fused, Piece};
use std::alloc::{AllocError, Global};
use std::sync::ledger::Ledger;
use step_count::Steps;

/// A value that stands for all rows of the plan. It is made of the longest pieces that the walk
/// over the cut meets, and of the leaves at which no piece begins. The other pieces are dropped.
pub fn gather<F: Fused, L: Ledger>(
    alloc: Global,
    plan: &F,
    cut: &Cut,
    pieces: Vec<Piece<F::Value>>,
    steps: &mut Steps<L>,
) -> Result<F::Value, AllocError>
    requires cut { IsCut (F.rows plan.now) cut.now }
    requires pieces { All (IsGood (F.rows plan.now) (F.stands plan.now)) pieces.items }
    ensures stands { IfOk result (F.stands plan.now 0 (F.rows plan.now)) }
    ensures cost { steps.new ≤ steps.old + walk_cost (F.leaf_bound plan.now) (F.join_bound plan.now)
        (walk cut.now pieces.items) }
{
    let bounds = cut.bounds();
    let mut slots = longest_pieces(alloc, bounds, pieces)?;
    let places = slots.as_mut_slice();
    let mut at = 0u32;
    let mut value = None;
    for place in 0..bounds.len() - 1 {
        let (lo, next) = (bounds[place], bounds[place + 1]);
        // A bound before `at` lies within the part before.
        if at <= lo {
            let part = part_from(alloc, plan, lo, next, places[place].take(), steps)?;
            at = part.hi;
            value = Some(joined(alloc, plan, value, part, steps)?);
        }
    }
    match value {
        Some(value) => Ok(value),
        None => plan.leaf(alloc, 0, 0, steps),
    }
}

/// The piece that begins at `lo`, or else the leaf up to the next bound.
fn part_from<F: Fused, L: Ledger>(
    alloc: Global,
    plan: &F,
    lo: u32,
    next: u32,
    slot: Option<Piece<F::Value>>,
    steps: &mut Steps<L>,
) -> Result<Piece<F::Value>, AllocError>
    requires ordered { lo ≤ next }
    requires within { next ≤ F.rows plan.now }
    requires slot { IsGoodSlot (F.rows plan.now) (F.stands plan.now) lo slot }
    ensures interval { IfOk result
        (λ part. (part.lo ≡ lo) × (part.hi ≡ (part_of lo next slot).hi)) }
    ensures stands { IfOk result (λ part. F.stands plan.now lo part.hi part.value) }
    ensures cost { steps.new ≤ steps.old
        + part_cost (F.leaf_bound plan.now) (part_of lo next slot) }
{
    match slot {
        Some(piece) => Ok(piece),
        None => Ok(Piece {
            lo,
            hi: next,
            value: plan.leaf(alloc, lo, next, steps)?,
        }),
    }
}

/// The value of the rows before the part, joined with the part's.
fn joined<F: Fused, L: Ledger>(
    alloc: Global,
    plan: &F,
    before: Option<F::Value>,
    part: Piece<F::Value>,
    steps: &mut Steps<L>,
) -> Result<F::Value, AllocError>
    requires ordered { part.lo ≤ part.hi }
    requires within { part.hi ≤ F.rows plan.now }
    requires stands { F.stands plan.now part.lo part.hi part.value }
    requires before { MatchOption before (part.lo ≡ 0) (F.stands plan.now 0 part.lo) }
    ensures stands { IfOk result (F.stands plan.now 0 part.hi) }
    ensures cost { MatchOption before (steps.new ≡ steps.old)
        (λ _. steps.new ≤ steps.old + F.join_bound plan.now) }
{
    let Some(before) = before else {
        return Ok(part.value);
    };
    plan.join(alloc, 0, part.lo, part.hi, &before, &part.value, steps)
}
