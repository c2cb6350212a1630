//! Tests of all kinds put together: keys with a digit for each of them, and which keys are accepted.
//! specs/Joined.antt has both.

ghost use Rattle.std.specs.Prelude.{◌≡◌, ◌≤◌, ◌<◌, All, length, map, IfOk, OnOk};
ghost use Rattle.std.specs.List.{range_with_len};
ghost use Rattle.monoid_product.specs.ComponentOf.{plain_components};
ghost use Rattle.monoid_product.specs.Product.{key_count};
ghost use Rattle.monoid_product.specs.ProductOf.{plain_parts};
ghost use Rattle.monoid_product.specs.declared.product.TheConstants.{PART_LIMIT};
ghost use Rattle.test_homs.specs.Joined as joined;
ghost use Rattle.test_homs.specs.Joined.{AreNumbered};
ghost use Rattle.test_homs.specs.Prepared.{plain_prepared};

use crate::prepared::Prepared;
use gta_checked::Checked;
use gta_meaning::{Outcomes, verdict};
use monoid_kit::Monoid;
use monoid_product::{Component, Product};
use std::alloc::{AllocError, Global};

/// The monoids of the tests. It takes memory for the list and for tables.
pub(crate) fn components(alloc: Global, tests: &[Prepared]) -> Result<Vec<Component>, AllocError>
    ensures { IfOk result (λ parts.
        plain_components parts.items ≡ joined.components (map plain_prepared tests.now)) }
{
    let mut parts = Vec::with_capacity(alloc, tests.len())?;
    for test in tests {
        parts.push(test.component.twin(alloc)?)?;
    }
    Ok(parts)
}

/// The key at each of so many places. It takes memory for them.
pub(crate) fn keys(
    alloc: Global,
    product: &Product,
    tests: &[Prepared],
    count: usize,
) -> Result<Vec<u32>, AllocError>
    requires joinable { joined.AreJoinable count (map plain_prepared tests.now) }
    requires product { plain_parts product.now ≡ joined.components (map plain_prepared tests.now) }
    ensures { IfOk result (λ keys.
        keys.items ≡ map (joined.key_at (map plain_prepared tests.now)) (range_with_len 0 count)) }
{
    let mut keys = Vec::with_capacity(alloc, count)?;
    let mut digits = Vec::with_capacity(alloc, tests.len())?;
    for place in 0..count {
        fill_digits(&mut digits, tests, place)?;
        keys.push(product.key_of(&digits))?;
    }
    Ok(keys)
}

/// Puts the letters at a place, one of each test, in place of the digits.
fn fill_digits(digits: &mut Vec<u32>, tests: &[Prepared], place: usize) -> Result<(), AllocError>
    requires in_range { All (λ test. place < length test.letters) (map plain_prepared tests.now) }
    ensures { OnOk result (digits.new.items ≡ joined.digits_at (map plain_prepared tests.now) place) }
{
    digits.clear();
    for test in tests {
        digits.push(test.letter(place))?;
    }
    Ok(())
}

/// Which keys are accepted, by what each test comes to by its digit. It takes memory for them.
pub(crate) fn accepted_keys(
    alloc: Global,
    checked: &Checked,
    product: &Product,
    tests: &[Prepared],
) -> Result<Vec<bool>, AllocError>
    requires few { length tests.now ≤ PART_LIMIT }
    requires numbered { AreNumbered (map plain_prepared tests.now) }
    requires whole { length tests.now ≡ length checked.now.tests }
    requires product { plain_parts product.now ≡ joined.components (map plain_prepared tests.now) }
    ensures { IfOk result (λ accept. accept.items ≡ joined.accepted_keys checked.now (map plain_prepared tests.now)) }
{
    let mut accept = Vec::with_capacity(alloc, product.size() as usize)?;
    for key in 0..product.size() {
        accept.push(key_accepted(checked, product, tests, key))?;
    }
    Ok(accept)
}

fn key_accepted(checked: &Checked, product: &Product, tests: &[Prepared], key: u32) -> bool
    requires few { length tests.now ≤ PART_LIMIT }
    requires numbered { AreNumbered (map plain_prepared tests.now) }
    requires whole { length tests.now ≡ length checked.now.tests }
    requires product { plain_parts product.now ≡ joined.components (map plain_prepared tests.now) }
    requires is_key { key < key_count (plain_parts product.now) }
    ensures { result ≡ joined.key_accepted checked.now (map plain_prepared tests.now) key }
{
    let asked = Asked {
        product,
        tests,
        key,
    };
    verdict(checked, &asked)
}

/// The tests, asked of a key by its digits.
#[derive(Drop)]
struct Asked<'a> {
    product: &'a Product,
    tests: &'a [Prepared],
    key: u32,
}

impl<'a> Outcomes for Asked<'a> {
    ghost use Rattle.std.specs.Prelude.{◌≡◌, ◌≤◌, ◌<◌, length, map};
    ghost use Rattle.monoid_product.specs.Product.{digits, key_count};
    ghost use Rattle.monoid_product.specs.ProductOf.{plain_parts};
    ghost use Rattle.monoid_product.specs.declared.product.TheConstants.{PART_LIMIT};
    ghost use Rattle.test_homs.specs.Joined.{AreNumbered, components, outcomes_of};
    ghost use Rattle.test_homs.specs.Prepared.{plain_prepared};

    ghost outcomes = { λ asked. outcomes_of (map plain_prepared asked.tests.now)
        (digits (components (map plain_prepared asked.tests.now)) asked.key) };

    ghost is_within = { λ asked. (length asked.tests.now ≤ PART_LIMIT)
        × AreNumbered (map plain_prepared asked.tests.now)
        × (plain_parts asked.product.now ≡ components (map plain_prepared asked.tests.now))
        × (asked.key < key_count (plain_parts asked.product.now)) };

    fn holds(&self, number: usize) -> bool {
        for place in 0..self.tests.len() {
            let test = &self.tests[place];
            if test.number == number {
                return test.accepts(self.product.digit(self.key, place as u32));
            }
        }
        false
    }
}
