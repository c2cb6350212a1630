//! The laws of a semiring by their numbers, as tables are looked at for them. What each of them says is in
//! specs/FirstBreak.antt.

ghost use Rattle.std.specs.Prelude.{◌≡◌, ◌<◌, ◌≤◌};
ghost use Rattle.table_semiring.specs.FirstBreak.{choices, sides, law_holds};
ghost use Rattle.table_semiring.specs.Table.{IsRaw, product_in, sum_in};
ghost use Rattle.table_semiring.specs.TableOf.{plain_raw};

use crate::table::{RawSemiring, cell};

/// How many laws there are. Their numbers count from 0.
pub const LAWS: u32 = 10;

/// Whether the law holds at three elements, of which it may have fewer.
pub(crate) fn holds(raw: &RawSemiring, law: u32, a: u32, b: u32, c: u32) -> bool
    requires table { IsRaw (plain_raw raw.now) }
    requires law { law < LAWS }
    requires first_is_element { a < raw.now.size }
    requires second_is_element { b < raw.now.size }
    requires third_is_element { c < raw.now.size }
    ensures { result ≡ law_holds (plain_raw raw.now) law a b c }
{
    let (left, right) = sides(raw, law, a, b, c);
    left == right
}

/// How many there are for the second place of a law, or the third: each element, or only 0 where
/// the law has no such place.
pub(crate) fn choices(raw: &RawSemiring, law: u32, place: u32) -> u32
    requires table { IsRaw (plain_raw raw.now) }
    ensures number { result ≡ choices (plain_raw raw.now) law place }
    ensures are_elements { result ≤ raw.now.size }
{
    let arity = match law {
        1 => 2,
        2 | 5 | 6 | 7 => 3,
        _ => 1,
    };
    if place < arity { raw.size } else { 1 }
}

/// Both sides of the law.
fn sides(raw: &RawSemiring, law: u32, a: u32, b: u32, c: u32) -> (u32, u32)
    requires table { IsRaw (plain_raw raw.now) }
    requires law { law < LAWS }
    requires first_is_element { a < raw.now.size }
    requires second_is_element { b < raw.now.size }
    requires third_is_element { c < raw.now.size }
    ensures { result ≡ sides (plain_raw raw.now) law a b c }
{
    match law {
        0 => (add(raw, a, raw.zero), a),
        1 => (add(raw, a, b), add(raw, b, a)),
        2 => (add(raw, add(raw, a, b), c), add(raw, a, add(raw, b, c))),
        3 => (mul(raw, raw.one, a), a),
        4 => (mul(raw, a, raw.one), a),
        5 => (mul(raw, mul(raw, a, b), c), mul(raw, a, mul(raw, b, c))),
        6 => (
            mul(raw, a, add(raw, b, c)),
            add(raw, mul(raw, a, b), mul(raw, a, c)),
        ),
        7 => (
            mul(raw, add(raw, a, b), c),
            add(raw, mul(raw, a, c), mul(raw, b, c)),
        ),
        8 => (mul(raw, raw.zero, a), raw.zero),
        _ => (mul(raw, a, raw.zero), raw.zero),
    }
}

fn add(raw: &RawSemiring, a: u32, b: u32) -> u32
    requires table { IsRaw (plain_raw raw.now) }
    requires left_is_element { a < raw.now.size }
    requires right_is_element { b < raw.now.size }
    ensures sum { result ≡ sum_in (plain_raw raw.now) a b }
    ensures is_element { result < raw.now.size }
{
    cell(&raw.plus, raw.size, a, b)
}

fn mul(raw: &RawSemiring, a: u32, b: u32) -> u32
    requires table { IsRaw (plain_raw raw.now) }
    requires left_is_element { a < raw.now.size }
    requires right_is_element { b < raw.now.size }
    ensures product { result ≡ product_in (plain_raw raw.now) a b }
    ensures is_element { result < raw.now.size }
{
    cell(&raw.mult, raw.size, a, b)
}
