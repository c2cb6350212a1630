//! Keys of products: made of digits, taken apart into digits, and multiplied digit by digit.

ghost use Rattle.std.specs.Prelude.{◌≡◌, ◌↔◌, ◌<◌, ◌≤◌, length, slice_index_or};
ghost use Rattle.std.specs.Prelude.{IfOk, IfErr, IsErr};
ghost use Rattle.monoid_product.specs.ComponentOf.{plain_components};
ghost use Rattle.monoid_product.specs.Product as keys;
ghost use Rattle.monoid_product.specs.Product.{AreDigits};
ghost use Rattle.monoid_product.specs.ProductOf.{plain_parts};

use crate::component::Component;
use crate::product::{KEY_LIMIT, PART_LIMIT, Parts, Product};
use crate::spans::product_spans;
use monoid_kit::{Monoid, Span};
use std::alloc::{AllocError, Global};

/// The components have more keys than 8,192: so many.
#[derive(Clone, Copy, PartialEq, Eq, Debug)]
pub struct TooLarge {
    pub keys: u128,
}

/// The product of the components, the first the most significant. It takes no memory.
pub fn product_of(parts: Vec<Component>) -> Result<Product, TooLarge>
    requires few { length parts.items ≤ PART_LIMIT }
    ensures parts { IfOk result (λ product. plain_parts product ≡ plain_components parts.items) }
    ensures too_large { IsErr result ↔ (KEY_LIMIT < keys.key_count (plain_components parts.items)) }
    ensures keys { IfErr result (λ fault.
        fault.keys ≡ keys.key_count (plain_components parts.items)) }
{
    let keys = key_count(&parts);
    if keys > KEY_LIMIT as u128 {
        return Err(TooLarge { keys });
    }
    Ok(Product {
        parts: Parts::of(parts),
        size: keys as u32,
    })
}

impl Product {
    /// The digit of a key for a component. It takes no memory.
    pub fn digit(&self, key: u32, part: u32) -> u32
        requires is_key { key < keys.key_count (plain_parts self.now) }
        requires is_part { part < length (plain_parts self.now) }
        ensures digit { result ≡ slice_index_or (keys.digits (plain_parts self.now) key) part 0 }
        ensures undone { keys.key_of (plain_parts self.now)
            (keys.digits (plain_parts self.now) key) ≡ key }
    {
        digit_of(self.parts.as_slice(), self.size, key, part as usize)
    }

    /// The key of one element of each component. It takes no memory.
    pub fn key_of(&self, digits: &[u32]) -> u32
        requires are_digits { AreDigits (plain_parts self.now) digits.now }
        ensures key { result ≡ keys.key_of (plain_parts self.now) digits.now }
        ensures is_key { result < keys.key_count (plain_parts self.now) }
        ensures undone { keys.digits (plain_parts self.now) result ≡ digits.now }
    {
        key_of(self.parts.as_slice(), digits)
    }

    /// The same product once more. It takes memory for its components.
    pub fn twin(&self, alloc: Global) -> Result<Product, AllocError>
        ensures { IfOk result (λ twin. twin ≡ self.now) }
    {
        Ok(Product {
            parts: self.parts.twin(alloc)?,
            size: self.size,
        })
    }
}

impl Monoid for Product {
    ghost use Rattle.monoid_product.specs.Product.{key_count, product_unit, product_mul};
    ghost use Rattle.monoid_product.specs.ProductOf.{plain_parts};
    ghost use Rattle.monoid_product.specs.ProductLaws.{Product-IsMonoid};

    ghost size = { λ product. key_count (plain_parts product) };

    ghost unit = { λ product. product_unit (plain_parts product) };

    ghost mul = { λ product. product_mul (plain_parts product) };

    ghost laws = { Product-IsMonoid };

    fn size(&self) -> u32 {
        self.size
    }

    fn unit(&self) -> u32 {
        unit_key(self.parts.as_slice())
    }

    fn mul(&self, a: u32, b: u32) -> u32 {
        match self.parts.as_slice() {
            [only] => only.mul(a, b),
            parts => product_key(parts, a, b),
        }
    }

    fn spans(&self, alloc: Global, a: u32) -> Result<Vec<Span>, AllocError> {
        product_spans(alloc, self.parts.as_slice(), self.size, a)
    }
}

fn key_count(parts: &[Component]) -> u128
    requires few { length parts.now ≤ PART_LIMIT }
    ensures { result ≡ keys.key_count (plain_components parts.now) }
{
    let mut keys = 1;
    for part in parts {
        keys *= part.size() as u128;
    }
    keys
}

fn unit_key(parts: &[Component]) -> u32
    requires within { keys.key_count (plain_components parts.now) ≤ KEY_LIMIT }
    ensures { result ≡ keys.product_unit (plain_components parts.now) }
{
    let mut key = 0;
    for part in parts {
        key = key * part.size() + part.unit();
    }
    key
}

fn key_of(parts: &[Component], digits: &[u32]) -> u32
    requires within { keys.key_count (plain_components parts.now) ≤ KEY_LIMIT }
    requires are_digits { AreDigits (plain_components parts.now) digits.now }
    ensures { result ≡ keys.key_of (plain_components parts.now) digits.now }
{
    let mut key = 0;
    for k in 0..parts.len() {
        key = key * parts[k].size() + digits[k];
    }
    key
}

// The digit at a place. `later` is the number of keys of the components from k on.
fn digit_of(parts: &[Component], size: u32, key: u32, place: usize) -> u32
    requires size { size ≡ keys.key_count (plain_components parts.now) }
    requires is_key { key < size }
    requires in_range { place < length parts.now }
    ensures { result ≡ slice_index_or (keys.digits (plain_components parts.now) key) place 0 }
{
    let mut rest = key;
    let mut later = size;
    for k in 0..place {
        later /= parts[k].size();
        rest %= later;
    }
    rest / (later / parts[place].size())
}

// The product of two keys. The digits are taken off from the last on, since then one division gives
// both the digit and what is left.
fn product_key(parts: &[Component], a: u32, b: u32) -> u32
    requires within { keys.key_count (plain_components parts.now) ≤ KEY_LIMIT }
    requires left_is_key { a < keys.key_count (plain_components parts.now) }
    requires right_is_key { b < keys.key_count (plain_components parts.now) }
    ensures { result ≡ keys.product_mul (plain_components parts.now) a b }
{
    let mut a_rest = a;
    let mut b_rest = b;
    let mut later = 1;
    let mut key = 0;
    let mut k = parts.len();
    while k > 0 {
        k -= 1;
        let part = &parts[k];
        let size = part.size();
        key += part.mul(a_rest % size, b_rest % size) * later;
        a_rest /= size;
        b_rest /= size;
        later *= size;
    }
    key
}
