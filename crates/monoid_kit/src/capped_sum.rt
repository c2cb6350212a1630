//! Sums that stop one past a bound. The operation is in specs/CappedSum.antt.

ghost use Rattle.std.specs.Prelude.{◌+◌, ◌≤◌};
ghost use Rattle.monoid_kit.specs.CappedSum.{capped_sum};
ghost use Rattle.monoid_kit.specs.declared.capped_sum.TheConstants.{GREATEST_BOUND};

use crate::monoid::Monoid;
use crate::span::Span;
use std::alloc::{AllocError, Global};

/// The greatest bound of a capped sum.
pub const GREATEST_BOUND: u32 = 8190;

/// The numbers up to one past the bound, with the sum that stops there.
/// The bound is at most 8,190.
#[derive(Clone, Copy, Drop)]
pub struct CappedSum {
    pub bound: u32,
    ghost small: { bound ≤ GREATEST_BOUND },
}

impl Monoid for CappedSum {
    ghost use Rattle.monoid_kit.specs.CappedSumLaws.{capped_sum-IsMonoid};

    ghost size = { λ sum. sum.bound + 2 };

    ghost unit = { λ sum. 0 };

    ghost mul = { λ sum. capped_sum sum.bound };

    ghost laws = { λ sum. capped_sum-IsMonoid sum.bound };

    fn size(&self) -> u32 {
        self.bound + 2
    }

    fn unit(&self) -> u32 {
        0
    }

    fn mul(&self, a: u32, b: u32) -> u32 {
        (a + b).min(self.bound + 1)
    }

    /// The elements whose sums are within the bound, or one past it, rise together; the rest is cut.
    fn spans(&self, alloc: Global, a: u32) -> Result<Vec<Span>, AllocError> {
        let len = self.bound + 2 - a;
        let mut spans = Vec::with_capacity(alloc, 2)?;
        spans.push(Span {
            from: 0,
            to: a,
            len,
            rises: true,
        })?;
        if a > 0 {
            spans.push(Span {
                from: len,
                to: self.bound + 1,
                len: a,
                rises: false,
            })?;
        }
        Ok(spans)
    }
}
