//! Remainders with their sum. The operation is in specs/Modular.antt.

ghost use Rattle.std.specs.Prelude.{◌≤◌};
ghost use Rattle.monoid_kit.specs.declared.modular.TheConstants.{GREATEST_MODULUS};

use crate::monoid::Monoid;
use crate::span::Span;
use std::alloc::{AllocError, Global};

/// The greatest modulus.
pub const GREATEST_MODULUS: u32 = 8192;

/// The remainders by the modulus, with the remainder of the sum.
/// The modulus is 1 to 8,192.
#[derive(Clone, Copy, Drop)]
pub struct Modular {
    pub modulus: u32,
    ghost some: { 1 ≤ modulus },
    ghost small: { modulus ≤ GREATEST_MODULUS },
}

impl Monoid for Modular {
    ghost use Rattle.monoid_kit.specs.Modular.{modular_sum};
    ghost use Rattle.monoid_kit.specs.ModularLaws.{modular_sum-IsMonoid};

    ghost size = { λ sum. sum.modulus };

    ghost unit = { λ sum. 0 };

    ghost mul = { λ sum. modular_sum sum.modulus };

    ghost laws = { λ sum. modular_sum-IsMonoid sum.modulus sum.some };

    fn size(&self) -> u32 {
        self.modulus
    }

    fn unit(&self) -> u32 {
        0
    }

    fn mul(&self, a: u32, b: u32) -> u32 {
        (a + b) % self.modulus
    }

    /// The elements whose sums are below the modulus rise together, and so do the others.
    fn spans(&self, alloc: Global, a: u32) -> Result<Vec<Span>, AllocError> {
        let len = self.modulus - a;
        let mut spans = Vec::with_capacity(alloc, 2)?;
        spans.push(Span {
            from: 0,
            to: a,
            len,
            rises: true,
        })?;
        if a > 0 {
            spans.push(Span {
                from: len,
                to: 0,
                len: a,
                rises: true,
            })?;
        }
        Ok(spans)
    }
}
