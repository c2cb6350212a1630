//! Worked products, through the trait, and worked tables.

ghost use Rattle.std.specs.Prelude.{◌≡◌, ◌*◌, ◌<◌, ◌≤◌, All, IsTrue, length};
ghost use Rattle.monoid_kit.specs.Table.{IsTable};
ghost use Rattle.monoid_kit.specs.TableOf.{plain_raw};

use monoid_kit::{
    CappedSum, GREATEST_BOUND, GREATEST_MODULUS, GREATEST_TABLE, Modular, Monoid, RawTable,
    TableFault, check_table,
};
use std::alloc::{AllocError, Global};
use std::test::Fail;

// The product, where both factors are elements.
fn product_in<M: Monoid>(monoid: &M, a: u32, b: u32) -> Option<u32> {
    if a < monoid.size() && b < monoid.size() {
        Some(monoid.mul(a, b))
    } else {
        None
    }
}

#[test]
fn sums_stop_one_past_the_bound(rt: HostRuntime) {
    let sum = CappedSum { bound: 3 };
    assert_eq!(rt; sum.size(), 5);
    assert_eq!(rt; sum.unit(), 0);
    let cases = [
        (0, 0, Some(0)),
        (1, 2, Some(3)),
        (2, 2, Some(4)),
        (4, 4, Some(4)),
        (5, 0, None),
    ];
    for (a, b, product) in cases {
        assert_eq!(rt; product_in(&sum, a, b), product, "at {a} and {b}");
    }
}

#[test]
fn the_greatest_bound_has_its_sums(rt: HostRuntime) {
    let sum = CappedSum {
        bound: GREATEST_BOUND,
    };
    assert_eq!(rt; product_in(&sum, 8191, 8191), Some(8191));
}

#[test]
fn remainders_begin_again_at_the_modulus(rt: HostRuntime) {
    let cases = [
        (1, 0, 0, Some(0)),
        (3, 1, 1, Some(2)),
        (3, 2, 1, Some(0)),
        (3, 2, 2, Some(1)),
        (3, 3, 0, None),
        (GREATEST_MODULUS, 8191, 8191, Some(8190)),
    ];
    for (modulus, a, b, product) in cases {
        if modulus >= 1 && modulus <= GREATEST_MODULUS {
            let sum = Modular { modulus };
            assert_eq!(rt; sum.size(), modulus);
            assert_eq!(rt; sum.unit(), 0);
            assert_eq!(rt;
                product_in(&sum, a, b),
                product,
                "at {a} and {b} by {modulus}"
            );
        }
    }
}

// Whether there is a cell for each pair, and the unit and all cells are elements.
fn is_table(table: &RawTable) -> bool
    ensures { IsTrue result → IsTable (plain_raw table.now) }
{
    table.size >= 1
        && table.size <= GREATEST_TABLE
        && table.cells.len() == (table.size * table.size) as usize
        && table.unit < table.size
        && table.cells.iter().all(|cell| *cell < table.size)
}

// What is found of a table; none where it is no table.
fn found(
    alloc: Global,
    size: u32,
    cells: &[u32],
) -> Result<Option<Option<TableFault>>, AllocError> {
    let cells = Vec::from_slice(alloc, cells)?;
    let table = RawTable {
        size,
        unit: 0,
        cells,
    };
    if is_table(&table) {
        Ok(Some(check_table(alloc, &table).err()))
    } else {
        Ok(None)
    }
}

#[test]
fn small_tables(rt: HostRuntime) -> Result<(), Fail> {
    let not_associative = |a, b, c| Some(TableFault::NotAssociative { a, b, c });
    let unit_fails = |element, left| Some(TableFault::UnitFails { element, left });
    let cases: [(&str, u32, &[u32], Option<TableFault>); 9] = [
        ("sums of bits", 2, &[0, 1, 1, 0], None),
        ("one element", 1, &[0], None),
        (
            "factors stay in place",
            3,
            &[0, 1, 2, 1, 1, 1, 2, 2, 2],
            None,
        ),
        (
            "a unit from the right alone",
            2,
            &[0, 0, 1, 1],
            unit_fails(1, true),
        ),
        (
            "a unit from the left alone",
            2,
            &[0, 1, 0, 1],
            unit_fails(1, false),
        ),
        (
            "right before a later left",
            3,
            &[0, 1, 1, 2, 1, 1, 2, 1, 1],
            unit_fails(1, false),
        ),
        (
            "a a a",
            3,
            &[0, 1, 2, 1, 2, 1, 2, 2, 2],
            not_associative(1, 1, 1),
        ),
        (
            "a b a",
            3,
            &[0, 1, 2, 1, 0, 2, 2, 0, 0],
            not_associative(1, 2, 1),
        ),
        (
            "b a b",
            3,
            &[0, 1, 2, 1, 1, 1, 2, 2, 0],
            not_associative(2, 1, 2),
        ),
    ];
    for (name, size, cells, fault) in cases {
        assert_eq!(rt; found(rt.alloc(), size, cells)?, Some(fault), "{name}");
    }
    Ok(())
}

#[test]
fn products_of_a_table_and_of_its_twin(rt: HostRuntime) -> Result<(), Fail> {
    let cells = Vec::from_slice(rt.alloc(), &[0, 1, 2, 1, 1, 1, 2, 2, 2])?;
    let table = RawTable {
        size: 3,
        unit: 0,
        cells,
    };
    if is_table(&table) {
        let monoid = check_table(rt.alloc(), &table).expect(&rt, "a lawful table");
        let twin = monoid.twin(rt.alloc())?;
        assert_eq!(rt; (twin.size(), twin.unit()), (3, 0));
        for (a, b, product) in [(1, 2, 1), (2, 1, 2), (0, 2, 2), (1, 0, 1)] {
            assert_eq!(rt; product_in(&monoid, a, b), Some(product), "at {a} and {b}");
            assert_eq!(rt;
                product_in(&twin, a, b),
                Some(product),
                "of the twin at {a} and {b}"
            );
        }
    }
    Ok(())
}

// A product of 64 elements that is associative at all triples but the last.
fn last_fails(a: u32, b: u32) -> u32 {
    match (a, b) {
        (0, b) => b,
        (a, 0) => a,
        (63, 63) => 62,
        (63, 62) => 2,
        _ => 1,
    }
}

#[test]
fn tables_of_64_elements(rt: HostRuntime) -> Result<(), Fail> {
    let mut sums = Vec::new(rt.alloc());
    let mut last = Vec::new(rt.alloc());
    for a in 0..64 {
        for b in 0..64 {
            sums.push((a + b) % 64)?;
            last.push(last_fails(a, b))?;
        }
    }
    let fault = TableFault::NotAssociative {
        a: 63,
        b: 63,
        c: 63,
    };
    assert_eq!(rt; found(rt.alloc(), 64, &sums)?, Some(None));
    assert_eq!(rt; found(rt.alloc(), 64, &last)?, Some(Some(fault)));
    Ok(())
}
