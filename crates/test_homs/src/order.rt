//! The order in which tests become parts of a product: tables first, and the largest sum or remainder last, since the
//! runs in which a product moves its keys are as long as those of its last part. specs/Order.antt has the rank.

ghost use Rattle.std.specs.Prelude.{◌≡◌, OnOk};
ghost use Rattle.std.specs.List.Sorted.{IsNonDecreasingBy, IsPermutation};
ghost use Rattle.monoid_product.specs.ComponentOf.{plain_component};
ghost use Rattle.test_homs.specs.Order as order;
ghost use Rattle.test_homs.specs.declared.prepared.Prepared.{Prepared};

use crate::prepared::Prepared;
use monoid_kit::Monoid;
use monoid_product::Component;
use std::alloc::AllocError;

/// Puts the tests in the order of their ranks. Tests of one rank stay as they stood.
pub(crate) fn put_in_order(tests: &mut Vec<Prepared>) -> Result<(), AllocError>
    ensures permuted { IsPermutation tests.old.items tests.new.items }
    ensures ranked { OnOk result (IsNonDecreasingBy
        (λ (test : Prepared). order.rank (plain_component test.component)) tests.new.items) }
{
    tests.sort_by_key(|test| rank(&test.component))?;
    Ok(())
}

/// A table is before all others, and of two others the one with fewer elements is before.
fn rank(part: &Component) -> u32
    ensures { result ≡ order.rank (plain_component part.now) }
{
    match part {
        Component::Capped(sum) => sum.size(),
        Component::Modular(sum) => sum.size(),
        Component::Table(_) => 0,
    }
}
