//! Monoids on the numbers below a size. The laws are in specs/Monoid.antt.

ghost use Rattle.std.specs.Prelude.{◌≡◌, ℕ, ◌<◌, IfOk};
ghost use Rattle.monoid_kit.specs.Monoid.{IsMonoid};
ghost use Rattle.monoid_kit.specs.Spans.{AreSpans};

use crate::span::Span;
use std::alloc::{AllocError, Global};

/// A monoid on the numbers below its size. No method but `spans` takes memory.
pub trait Monoid: Drop {
    ghost size: { Self → ℕ };

    ghost unit: { Self → ℕ };

    ghost mul: { Self → ℕ → ℕ → ℕ };

    /// How many elements there are. It is at least 1.
    fn size(&self) -> u32
        ensures { result ≡ size self.now };

    /// The element that changes no factor.
    fn unit(&self) -> u32
        ensures { result ≡ unit self.now };

    /// The product of two elements, in this order.
    fn mul(&self, a: u32, b: u32) -> u32
        requires left_is_element { a < size self.now }
        requires right_is_element { b < size self.now }
        ensures { result ≡ mul self.now a b };

    /// How the left factor moves all elements, in runs of neighbours. It takes memory for the list.
    fn spans(&self, alloc: Global, a: u32) -> Result<Vec<Span>, AllocError>
        requires { a < size self.now }
        ensures { IfOk result (λ spans. AreSpans (size self.now) (mul self.now a) 0 spans.items) }
    {
        let size = self.size();
        let mut spans = Vec::with_capacity(alloc, size as usize)?;
        for from in 0..size {
            let to = self.mul(a, from);
            spans.push(Span {
                from,
                to,
                len: 1,
                rises: true,
            })?;
        }
        Ok(spans)
    }

    ghost laws: { (m : Self) → IsMonoid (size m) (unit m) (mul m) };
}
