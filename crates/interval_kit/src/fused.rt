//! A value for each interval of rows, by leaves and joins.
//! What it means that a value stands for an interval, and how many steps a leaf and a join take, each plan says by its
//! ghost members.

ghost use Rattle.std.specs.Prelude.{◌≡◌, ℕ, ◌+◌, ◌-◌, ◌≤◌, IfOk};

use std::alloc::{AllocError, Global};
use std::sync::ledger::Ledger;
use step_count::Steps;

/// A plan by which intervals of rows get values: of a leaf from its rows, and of adjoining intervals from theirs.
/// `AllocError` alone is refused.
pub trait Fused: Drop {
    type Value: Send + Drop;

    ghost rows: { Self → ℕ };

    ghost stands: { Self → ℕ → ℕ → Self.Value → Type 0 };

    ghost leaf_bound: { Self → ℕ → ℕ };

    ghost join_bound: { Self → ℕ };

    /// The number of rows.
    fn rows(&self) -> u32
        ensures { result ≡ rows self.now };

    /// A value that stands for the rows `lo..hi`, which may be none.
    fn leaf<L: Ledger>(
        &self,
        alloc: Global,
        lo: u32,
        hi: u32,
        steps: &mut Steps<L>,
    ) -> Result<Self::Value, AllocError>
        requires ordered { lo ≤ hi }
        requires within { hi ≤ rows self.now }
        ensures stands { IfOk result (stands self.now lo hi) }
        ensures cost { steps.new ≤ steps.old + leaf_bound self.now (hi - lo) };

    /// A value that stands for the rows `lo..hi`, from those of `lo..mid` and `mid..hi`.
    fn join<L: Ledger>(
        &self,
        alloc: Global,
        lo: u32,
        mid: u32,
        hi: u32,
        left: &Self::Value,
        right: &Self::Value,
        steps: &mut Steps<L>,
    ) -> Result<Self::Value, AllocError>
        requires left_ordered { lo ≤ mid }
        requires right_ordered { mid ≤ hi }
        requires within { hi ≤ rows self.now }
        requires left_stands { stands self.now lo mid left.now }
        requires right_stands { stands self.now mid hi right.now }
        ensures stands { IfOk result (stands self.now lo hi) }
        ensures cost { steps.new ≤ steps.old + join_bound self.now };
}
