//! The kits of numbers with rows over capped sums.

ghost use Rattle.std.specs.Prelude.{◌≡◌};

use crate::dense_kit::DenseKit;
use monoid_kit::CappedSum;
use semiring_kit::{Count, MaxPlus, MinPlus, Truth};

/// The greatest weight by sums that stop one past a bound.
pub type DenseMax = DenseKit<MaxPlus, CappedSum>;

/// The least weight by sums that stop one past a bound.
pub type DenseMin = DenseKit<MinPlus, CappedSum>;

/// Whether there is any by sums that stop one past a bound.
pub type DenseTruth = DenseKit<Truth, CappedSum>;

/// How many there are by sums that stop one past a bound.
pub type DenseCount = DenseKit<Count, CappedSum>;

impl DenseMax {
    /// Takes no memory.
    pub fn new(keys: CappedSum) -> DenseMax
        ensures { result.keys ≡ keys }
    {
        DenseKit { kit: MaxPlus, keys }
    }
}

impl DenseMin {
    /// Takes no memory.
    pub fn new(keys: CappedSum) -> DenseMin
        ensures { result.keys ≡ keys }
    {
        DenseKit { kit: MinPlus, keys }
    }
}

impl DenseTruth {
    /// Takes no memory.
    pub fn new(keys: CappedSum) -> DenseTruth
        ensures { result.keys ≡ keys }
    {
        DenseKit { kit: Truth, keys }
    }
}

impl DenseCount {
    /// Takes no memory.
    pub fn new(keys: CappedSum) -> DenseCount
        ensures { result.keys ≡ keys }
    {
        DenseKit { kit: Count, keys }
    }
}
