//! Lists of bounds that cut the rows `0..rows` into leaves: between two bounds lies one leaf.
//! What a cut is, and the cut by a leaf size, are defined in specs/Cut.antt.

ghost use Rattle.std.specs.Prelude.{◌≡◌, ◌≤◌, ◌↔◌, IfOk, IsTrue};
ghost use Rattle.std.specs.List.Sorted.{IsStrictlyIncreasing};
ghost use Rattle.interval_kit.specs.Cut.{IsCut, even_cut, last_bound};

use std::alloc::{AllocError, Global};
use std::marker::Model;

/// The bounds of leaves: strictly ascending, from 0 to the number of rows.
/// A contract sees a cut as the list of its bounds.
#[derive(Drop)]
pub struct Cut {
    bounds: Vec<u32>,
}

impl Model for Cut {
    ghost use Rattle.std.specs.Prelude.{ℕ, List};
    ghost use Rattle.interval_kit.specs.Cut.{IsCut, last_bound};

    ghost Value = { List ℕ };

    ghost view = { λ cut. cut.bounds.items };

    ghost invariant = { λ cut. IsCut (last_bound cut.bounds.items) cut.bounds.items };
}

/// Why a list of bounds gave no cut.
#[derive(Clone, Copy, PartialEq, Eq, Debug)]
pub enum CutFault {
    /// The list doesn't ascend strictly from 0 to the number of rows.
    NotACut,
    /// There was no memory for the list.
    Memory,
}

impl Cut {
    /// Lends the bounds, and takes no memory.
    pub fn bounds(&self) -> &[u32]
        ensures bounds { result.now ≡ self.now }
        ensures ascends { IsCut (last_bound self.now) self.now }
    {
        &self.bounds
    }
}

/// The cut of `0..rows` with a bound at every `leaf`-th row, and one at `rows`.
/// The last leaf may be shorter. With no rows there is the bound 0 alone.
/// It takes memory for the bounds.
pub fn cut_of(alloc: Global, rows: u32, leaf: u32) -> Result<Cut, AllocError>
    requires nonempty { 1 ≤ leaf }
    ensures bounds { IfOk result (λ cut. cut ≡ even_cut rows leaf) }
    ensures is_cut { IfOk result (λ cut. IsCut rows cut) }
{
    let leaves = rows.div_ceil(leaf);
    let mut bounds = Vec::with_capacity(alloc, leaves as usize + 1)?;
    for k in 0..leaves {
        bounds.push(k * leaf)?;
    }
    bounds.push(rows)?;
    Ok(Cut { bounds })
}

/// The cut of `0..rows` at the bounds that are given. It takes memory for a copy of them.
pub fn cut_at(alloc: Global, rows: u32, bounds: &[u32]) -> Result<Cut, CutFault>
    ensures bounds { IfOk result (λ cut. cut ≡ bounds.now) }
    ensures is_cut { IfOk result (λ cut. IsCut rows cut) }
    ensures not_a_cut { (result ≡ Err CutFault.NotACut) ↔ (¬ IsCut rows bounds.now) }
    ensures memory { result ≡ Err CutFault.Memory → IsCut rows bounds.now }
{
    if !is_cut(rows, bounds) {
        return Err(CutFault::NotACut);
    }
    match Vec::from_slice(alloc, bounds) {
        Ok(bounds) => Ok(Cut { bounds }),
        Err(AllocError) => Err(CutFault::Memory),
    }
}

fn is_cut(rows: u32, bounds: &[u32]) -> bool
    ensures { IsTrue result ↔ IsCut rows bounds.now }
{
    bounds.first().copied() == Some(0) && bounds.last().copied() == Some(rows) && rises(bounds)
}

fn rises(bounds: &[u32]) -> bool
    ensures { IsTrue result ↔ IsStrictlyIncreasing bounds.now }
{
    for k in 1..bounds.len() {
        if bounds[k] <= bounds[k - 1] {
            return false;
        }
    }
    true
}
