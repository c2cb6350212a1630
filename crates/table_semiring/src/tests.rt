//! Worked tables, and sums and products through the trait.

ghost use Rattle.std.specs.Prelude.{◌≡◌, ◌+◌, ◌*◌, ◌<◌, ◌≤◌, All, IsTrue, length, ℤ, unsigned_abs};
ghost use Rattle.semiring_kit.specs.Semiring.{IsGood, weight_bound};
ghost use Rattle.table_semiring.specs.Table.{IsRaw};
ghost use Rattle.table_semiring.specs.TableOf.{plain_raw};

use crate::{GREATEST_SIZE, RawSemiring, SemiringFault, check_semiring};
use semiring_kit::Semiring;
use shape_gen::Mark;
use std::alloc::{AllocError, Global};
use std::marker::Brand;
use std::sync::ledger::{Blank, Ledger};
use std::test::Fail;
use step_count::Steps;

// Whether both tables are whole, and zero, one and all cells are elements.
fn is_raw(raw: &RawSemiring) -> bool
    ensures { IsTrue result → IsRaw (plain_raw raw.now) }
{
    raw.size >= 1
        && raw.size <= GREATEST_SIZE
        && raw.zero < raw.size
        && raw.one < raw.size
        && raw.plus.len() == (raw.size * raw.size) as usize
        && raw.mult.len() == (raw.size * raw.size) as usize
        && raw.plus.iter().all(|sum| *sum < raw.size)
        && raw.mult.iter().all(|product| *product < raw.size)
}

// What is found of tables whose zero is 0; none where they are no tables.
fn found(
    alloc: Global,
    size: u32,
    one: u32,
    plus: &[u32],
    mult: &[u32],
) -> Result<Option<Option<SemiringFault>>, AllocError> {
    let raw = RawSemiring {
        size,
        zero: 0,
        one,
        plus: Vec::from_slice(alloc, plus)?,
        mult: Vec::from_slice(alloc, mult)?,
    };
    if is_raw(&raw) {
        Ok(Some(check_semiring(alloc, &raw).err()))
    } else {
        Ok(None)
    }
}

#[test]
fn lawful_tables(rt: HostRuntime) -> Result<(), Fail> {
    let cases: [(&str, u32, u32, &[u32], &[u32]); 5] = [
        ("one element", 1, 0, &[0], &[0]),
        ("yes and no", 2, 1, &[0, 1, 1, 1], &[0, 0, 0, 1]),
        (
            "the greater and the lesser of three",
            3,
            2,
            &[0, 1, 2, 1, 1, 2, 2, 2, 2],
            &[0, 0, 0, 0, 1, 1, 0, 1, 2],
        ),
        (
            "counts up to two",
            3,
            1,
            &[0, 1, 2, 1, 2, 2, 2, 2, 2],
            &[0, 0, 0, 0, 1, 2, 0, 2, 2],
        ),
        (
            "half truths",
            3,
            2,
            &[0, 1, 2, 1, 1, 2, 2, 2, 2],
            &[0, 0, 0, 0, 0, 1, 0, 1, 2],
        ),
    ];
    for (name, size, one, plus, mult) in cases {
        assert_eq!(rt;
            found(rt.alloc(), size, one, plus, mult)?,
            Some(None),
            "{name}"
        );
    }
    Ok(())
}

// Each of these tables breaks one law alone.
#[test]
fn each_law_is_looked_at(rt: HostRuntime) -> Result<(), Fail> {
    let greater: &[u32] = &[0, 1, 2, 1, 1, 2, 2, 2, 2];
    let bits: &[u32] = &[0, 1, 2, 3, 1, 0, 3, 2, 2, 3, 0, 1, 3, 2, 1, 0];
    let both: &[u32] = &[0, 0, 0, 1];
    let cases: [(u32, u32, &[u32], &[u32], (u32, u32, u32, u32)); 10] = [
        (2, 1, &[0, 0, 0, 0], both, (0, 1, 0, 0)),
        (2, 1, &[0, 0, 1, 1], both, (1, 0, 1, 0)),
        (
            3,
            1,
            &[0, 1, 2, 1, 0, 0, 2, 0, 0],
            &[0, 0, 0, 0, 1, 2, 0, 2, 1],
            (2, 1, 1, 2),
        ),
        (3, 1, greater, &[0, 0, 0, 0, 1, 1, 0, 2, 2], (3, 2, 0, 0)),
        (3, 1, greater, &[0, 0, 0, 0, 1, 2, 0, 1, 2], (4, 2, 0, 0)),
        (
            4,
            1,
            &[0, 1, 2, 3, 1, 1, 1, 1, 2, 1, 2, 2, 3, 1, 2, 3],
            &[0, 0, 0, 0, 0, 1, 2, 3, 0, 2, 3, 0, 0, 3, 3, 0],
            (5, 2, 2, 2),
        ),
        (
            4,
            1,
            bits,
            &[0, 0, 0, 0, 0, 1, 2, 3, 0, 2, 0, 0, 0, 3, 2, 3],
            (6, 2, 1, 2),
        ),
        (
            4,
            1,
            bits,
            &[0, 0, 0, 0, 0, 1, 2, 3, 0, 2, 0, 2, 0, 3, 0, 3],
            (7, 1, 2, 2),
        ),
        (3, 1, greater, &[0, 0, 2, 0, 1, 2, 0, 2, 2], (8, 2, 0, 0)),
        (3, 1, greater, &[0, 0, 0, 0, 1, 2, 2, 2, 2], (9, 2, 0, 0)),
    ];
    for (size, one, plus, mult, (law, a, b, c)) in cases {
        assert_eq!(rt;
            found(rt.alloc(), size, one, plus, mult)?,
            Some(Some(SemiringFault::Broken { law, a, b, c })),
            "the law {law}"
        );
    }
    Ok(())
}

#[test]
fn tables_of_16_elements(rt: HostRuntime) -> Result<(), Fail> {
    let mut plus = Vec::new(rt.alloc());
    let mut mult = Vec::new(rt.alloc());
    let mut last = Vec::new(rt.alloc());
    for a in 0..16_u32 {
        for b in 0..16 {
            let product = if a == 0 || b == 0 { 0 } else { a.max(b) };
            plus.push(a.max(b))?;
            mult.push(product)?;
            last.push(if a == 15 { 15 } else { product })?;
        }
    }
    let fault = SemiringFault::Broken {
        law: 9,
        a: 15,
        b: 0,
        c: 0,
    };
    assert_eq!(rt; found(rt.alloc(), 16, 1, &plus, &mult)?, Some(None));
    assert_eq!(rt; found(rt.alloc(), 16, 1, &plus, &last)?, Some(Some(fault)));
    Ok(())
}

// A copy of the left element, the sum, the sum of copies and the product.
fn combined<S: Semiring, L: Ledger>(
    kit: &S,
    alloc: Global,
    left: &S::Elem,
    right: &S::Elem,
    blank: Blank,
) -> Result<(S::Elem, S::Elem, S::Elem, S::Elem), AllocError>
    requires left_is_good { IsGood (S.ring kit.now) left.now }
    requires right_is_good { IsGood (S.ring kit.now) right.now }
    requires reaches_add_up { let reach = (S.ring kit.now).reach in
        reach left.now + reach right.now ≤ weight_bound }
    requires same_name { blank.name ≡ L.name }
    requires same_parts { blank.parts ≡ L.parts }
    requires some_part { 0 < blank.parts }
{
    let mut steps = Steps::<L>::new(blank);
    Ok((
        kit.copy(alloc, left)?,
        kit.add(alloc, left, right)?,
        kit.sum(alloc, kit.copy(alloc, left)?, kit.copy(alloc, right)?)?,
        kit.mul(alloc, left, right, &mut steps)?,
    ))
}

// The zero, the one and the element of the first row at a weight.
fn constants<S: Semiring<Weight = i64>>(
    kit: &S,
    alloc: Global,
    weight: i32,
) -> Result<(S::Elem, S::Elem, S::Elem), AllocError>
    requires plain { (weight : ℤ) → S.weight_reach kit.now weight ≤ unsigned_abs weight }
{
    let mark = Mark { row: 0, label: 0 };
    Ok((
        kit.zero(alloc)?,
        kit.one(alloc)?,
        kit.of_mark(alloc, mark, i64::from(weight))?,
    ))
}

#[test]
fn sums_and_products_of_half_truths(rt: HostRuntime) -> Result<(), Fail> {
    let alloc = rt.alloc();
    let raw = RawSemiring {
        size: 3,
        zero: 0,
        one: 2,
        plus: Vec::from_slice(alloc, &[0, 1, 2, 1, 1, 2, 2, 2, 2])?,
        mult: Vec::from_slice(alloc, &[0, 0, 0, 0, 0, 1, 0, 1, 2])?,
    };
    if is_raw(&raw) {
        let kit = check_semiring(alloc, &raw).expect(&rt, "a lawful table");
        let twin = kit.twin(alloc)?;
        for (weight, element) in [(-1, 0), (0, 0), (1, 1), (2, 2), (3, 0)] {
            assert_eq!(rt;
                constants(&kit, alloc, weight)?,
                (0, 2, element),
                "at {weight}"
            );
        }
        for (left, right, sum, product) in [(1, 1, 1, 0), (2, 1, 2, 1), (0, 2, 2, 0)] {
            if left < raw.size && right < raw.size {
                let answers = (left, sum, sum, product);
                assert_eq!(rt;
                    combined::<_, Brand>(&kit, alloc, &left, &right, Blank::new(1))?,
                    answers
                );
                assert_eq!(rt;
                    combined::<_, Brand>(&twin, alloc, &left, &right, Blank::new(1))?,
                    answers
                );
            }
        }
    }
    Ok(())
}
