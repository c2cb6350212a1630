//! Worked keys by hand: of sums to 2 (size 4), remainders by 3, and a table of two elements.

ghost use Rattle.std.specs.Prelude.{◌≡◌, ◌*◌, ◌<◌, ◌≤◌, All, IfOk, IsTrue, length};
ghost use Rattle.monoid_kit.specs.Table.{IsTable};
ghost use Rattle.monoid_kit.specs.TableOf.{plain_raw};
ghost use Rattle.monoid_product.specs.ComponentOf.{plain_components};

use monoid_kit::{CappedSum, Modular, Monoid, RawTable, check_table};
use monoid_product::{Component, PART_LIMIT, Product, TooLarge, product_of};
use std::alloc::{AllocError, Global};
use std::test::Fail;

pub(crate) fn is_table(table: &RawTable) -> bool
    ensures { IsTrue result → IsTable (plain_raw table.now) }
{
    table.size >= 1
        && table.size <= 64
        && table.cells.len() == (table.size * table.size) as usize
        && table.unit < table.size
        && table.cells.iter().all(|cell| *cell < table.size)
}

// Sums of bits, by their table.
pub(crate) fn bits(alloc: Global) -> Result<Option<Component>, AllocError> {
    let table = RawTable {
        size: 2,
        unit: 0,
        cells: Vec::from_slice(alloc, &[0, 1, 1, 0])?,
    };
    if !is_table(&table) {
        return Ok(None);
    }
    match check_table(alloc, &table) {
        Ok(monoid) => Ok(Some(Component::Table(monoid))),
        Err(_) => Ok(None),
    }
}

// A product of these three, or of the first of them.
fn three(alloc: Global, count: usize) -> Result<Option<Product>, AllocError> {
    let mut parts = Vec::new(alloc);
    if count > 0 {
        parts.push(Component::Capped(CappedSum { bound: 2 }))?;
    }
    if count > 1 {
        parts.push(Component::Modular(Modular { modulus: 3 }))?;
    }
    if count > 2 {
        match bits(alloc)? {
            Some(table) => parts.push(table)?,
            None => return Ok(None),
        }
    }
    if parts.len() > PART_LIMIT {
        return Ok(None);
    }
    Ok(product_of(parts).ok())
}

fn product_in(product: &Product, a: u32, b: u32) -> Option<u32> {
    if a < product.size() && b < product.size() {
        Some(product.mul(a, b))
    } else {
        None
    }
}

#[test]
fn keys_are_multiplied_digit_by_digit(rt: HostRuntime) -> Result<(), Fail> {
    // count, size, unit, factors and product; three digits d e f have the key 6 d + 2 e + f
    let cases: [(usize, u32, u32, u32, Option<u32>); 9] = [
        (0, 1, 0, 0, Some(0)),
        (1, 4, 1, 2, Some(3)),
        (1, 4, 3, 3, Some(3)),
        (2, 12, 5, 4, Some(6)),
        (2, 12, 11, 1, Some(9)),
        (3, 24, 9, 15, Some(22)),
        (3, 24, 23, 23, Some(20)),
        (3, 24, 0, 17, Some(17)),
        (3, 24, 24, 0, None),
    ];
    for (count, size, a, b, key) in cases {
        let product = three(rt.alloc(), count)?.expect(&rt, "a small product");
        let twin = product.twin(rt.alloc())?;
        assert_eq!(rt; (product.size(), product.unit()), (size, 0));
        assert_eq!(rt; product_in(&product, a, b), key, "{count} at {a} and {b}");
        assert_eq!(rt;
            product_in(&twin, a, b),
            key,
            "of the twin, {count} at {a} and {b}"
        );
    }
    Ok(())
}

// Digits of a key of sums to 2 and remainders by 3, and the key that they have.
fn taken_apart(alloc: Global, key: u32) -> Result<Option<([u32; 2], u32)>, AllocError> {
    let mut parts = Vec::new(alloc);
    parts.push(Component::Capped(CappedSum { bound: 2 }))?;
    parts.push(Component::Modular(Modular { modulus: 3 }))?;
    let Ok(product) = product_of(parts) else {
        return Ok(None);
    };
    if key >= product.size() {
        return Ok(None);
    }
    let digits = [product.digit(key, 0), product.digit(key, 1)];
    if digits[0] >= 4 || digits[1] >= 3 {
        return Ok(None);
    }
    Ok(Some((digits, product.key_of(&digits))))
}

#[test]
fn keys_are_taken_apart(rt: HostRuntime) -> Result<(), Fail> {
    let cases = [
        (0, Some(([0, 0], 0))),
        (2, Some(([0, 2], 2))),
        (3, Some(([1, 0], 3))),
        (10, Some(([3, 1], 10))),
        (12, None),
    ];
    for (key, digits) in cases {
        assert_eq!(rt; taken_apart(rt.alloc(), key)?, digits, "at {key}");
    }
    Ok(())
}

// As many components as are wanted, of one size.
fn alike(alloc: Global, count: usize, bound: u32) -> Result<Result<u32, TooLarge>, AllocError> {
    let mut parts = Vec::new(alloc);
    for _ in 0..count {
        if bound <= 8190 {
            parts.push(Component::Capped(CappedSum { bound }))?;
        }
    }
    if parts.len() > PART_LIMIT {
        return Ok(Ok(0));
    }
    Ok(product_of(parts).map(|product| product.size()))
}

#[test]
fn too_many_keys_are_counted(rt: HostRuntime) -> Result<(), Fail> {
    let cases: [(usize, u32, Result<u32, u128>); 5] = [
        (2, 100, Err(10404)),
        (1, 8190, Ok(8192)),
        (2, 8190, Err(67108864)),
        (8, 8190, Err(20282409603651670423947251286016)),
        (6, 2, Ok(4096)),
    ];
    for (count, bound, size) in cases {
        let found = alike(rt.alloc(), count, bound)?.map_err(|fault| fault.keys);
        assert_eq!(rt; found, size, "{count} with the bound {bound}");
    }
    Ok(())
}
