//! Worked sums and products, through the trait.

ghost use Rattle.std.specs.Prelude.{◌≡◌, ◌+◌, ◌<◌, ◌≤◌, ℤ, unsigned_abs};
ghost use Rattle.step_count.specs.Blanks.{IsBlankOf};
ghost use Rattle.semiring_kit.specs.MaxPlus.{max_plus};
ghost use Rattle.semiring_kit.specs.Semiring.{IsGood, weight_bound};

use semiring_kit::{Count, MaxPlus, MinPlus, Semiring, Truth, sums_are_aggregates};
use shape_gen::Mark;
use std::alloc::{AllocError, Global};
use std::marker::Brand;
use std::sync::ledger::{Blank, Ledger};
use std::test::Fail;
use step_count::Steps;

// An element of the greatest weight, far within the bound.
fn weight(value: Option<i32>) -> Option<i64>
    ensures { max_plus.reach result ≤ 2147483648 }
{
    match value {
        Some(value) => Some(i64::from(value)),
        None => None,
    }
}

// A copy of the left element, the sum, the sum of copies and the product.
fn combined<S: Semiring, L: Ledger>(
    kit: &S,
    alloc: Global,
    left: &S::Elem,
    right: &S::Elem,
    blank: Blank,
) -> Result<(S::Elem, S::Elem, S::Elem, S::Elem), AllocError>
    requires left_is_good { IsGood (S.ring kit.now) left.now }
    requires right_is_good { IsGood (S.ring kit.now) right.now }
    requires reaches_add_up { let reach = (S.ring kit.now).reach in
        reach left.now + reach right.now ≤ weight_bound }
    requires blank { IsBlankOf L.name L.parts blank }
{
    let mut steps = Steps::<L>::new(blank);
    Ok((
        kit.copy(alloc, left)?,
        kit.add(alloc, left, right)?,
        kit.sum(alloc, kit.copy(alloc, left)?, kit.copy(alloc, right)?)?,
        kit.mul(alloc, left, right, &mut steps)?,
    ))
}

// The zero, the one and the element of the first row at a weight.
fn constants<S: Semiring<Weight = i64>>(
    kit: &S,
    alloc: Global,
    weight: i32,
) -> Result<(S::Elem, S::Elem, S::Elem), AllocError>
    requires plain { (weight : ℤ) → S.weight_reach kit.now weight ≤ unsigned_abs weight }
{
    let mark = Mark { row: 0, label: 0 };
    Ok((
        kit.zero(alloc)?,
        kit.one(alloc)?,
        kit.of_mark(alloc, mark, i64::from(weight))?,
    ))
}

#[test]
fn the_greatest_weight(rt: HostRuntime) -> Result<(), Fail> {
    let alloc = rt.alloc();
    let cases = [
        (None, None, None, None),
        (None, Some(3), Some(3), None),
        (Some(-2), None, Some(-2), None),
        (Some(-2), Some(3), Some(3), Some(1)),
        (Some(5), Some(-7), Some(5), Some(-2)),
    ];
    for (left, right, sum, product) in cases {
        let (left, right) = (weight(left), weight(right));
        let answers = combined::<MaxPlus, Brand>(&MaxPlus, alloc, &left, &right, Blank::new(1))?;
        assert_eq!(rt;
            answers,
            (left, weight(sum), weight(sum), weight(product)),
            "at {left:?} and {right:?}"
        );
    }
    Ok(())
}

#[test]
fn the_least_weight(rt: HostRuntime) -> Result<(), Fail> {
    let alloc = rt.alloc();
    let cases = [
        (None, None, None, None),
        (None, Some(3), Some(3), None),
        (Some(-2), None, Some(-2), None),
        (Some(-2), Some(3), Some(-2), Some(1)),
        (Some(5), Some(-7), Some(-7), Some(-2)),
    ];
    for (left, right, sum, product) in cases {
        let (left, right) = (weight(left), weight(right));
        let answers = combined::<MinPlus, Brand>(&MinPlus, alloc, &left, &right, Blank::new(1))?;
        assert_eq!(rt;
            answers,
            (left, weight(sum), weight(sum), weight(product)),
            "at {left:?} and {right:?}"
        );
    }
    Ok(())
}

#[test]
fn how_many_there_are(rt: HostRuntime) -> Result<(), Fail> {
    let alloc = rt.alloc();
    let all = 18446744073709551615;
    let half = 9223372036854775808;
    let cases: [(u64, u64, u64, u64); 8] = [
        (0, 0, 0, 0),
        (0, 7, 7, 0),
        (3, 4, 7, 12),
        (half, half - 1, all, all),
        (half, half, all, all),
        (half, 2, half + 2, all),
        (all, 1, all, all),
        (all, 0, all, 0),
    ];
    for (left, right, sum, product) in cases {
        let answers = combined::<Count, Brand>(&Count, alloc, &left, &right, Blank::new(1))?;
        assert_eq!(rt; answers, (left, sum, sum, product), "at {left} and {right}");
    }
    Ok(())
}

#[test]
fn whether_there_is_any(rt: HostRuntime) -> Result<(), Fail> {
    let alloc = rt.alloc();
    let cases = [
        (false, false, false, false),
        (false, true, true, false),
        (true, false, true, false),
        (true, true, true, true),
    ];
    for (left, right, sum, product) in cases {
        let answers = combined::<Truth, Brand>(&Truth, alloc, &left, &right, Blank::new(1))?;
        assert_eq!(rt; answers, (left, sum, sum, product), "at {left} and {right}");
    }
    Ok(())
}

#[test]
fn zero_one_and_a_mark(rt: HostRuntime) -> Result<(), Fail> {
    let greatest = constants(&MaxPlus, rt.alloc(), -4)?;
    assert_eq!(rt; greatest, (None, Some(0), Some(-4)));
    let least = constants(&MinPlus, rt.alloc(), -4)?;
    assert_eq!(rt; least, (None, Some(0), Some(-4)));
    let count = constants(&Count, rt.alloc(), -4)?;
    assert_eq!(rt; count, (0, 1, 1));
    let any = constants(&Truth, rt.alloc(), -4)?;
    assert_eq!(rt; any, (false, true, true));
    Ok(())
}

#[test]
fn the_law_of_sums(_rt: HostRuntime) {
    sums_are_aggregates();
}
