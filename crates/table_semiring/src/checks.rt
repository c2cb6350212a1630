//! Tables are looked at for the laws of a semiring. The first law that they break is in specs/FirstBreak.antt.

ghost use Rattle.std.specs.Prelude.{◌≡◌, ◌<◌, ◌↔◌, not, None, IfOk, IfErr, OnOk};
ghost use Rattle.std.specs.List.{find, range_with_len};
ghost use Rattle.monoid_kit.specs.Items.{pairs};
ghost use Rattle.semiring_kit.specs.Semiring.{IsSemiring};
ghost use Rattle.table_semiring.specs.FirstBreak.{choices, first_break, is_broken, IsEndOf, law_holds, places};
ghost use Rattle.table_semiring.specs.Table.{IsRaw, semiring_of};
ghost use Rattle.table_semiring.specs.TableOf.{plain_raw, plain_table};

use crate::laws::{LAWS, choices, holds};
use crate::table::{RawSemiring, TableSemiring};
use std::alloc::{AllocError, Global};

/// Why tables gave no semiring.
#[derive(Clone, Copy, PartialEq, Eq, Debug)]
pub enum SemiringFault {
    /// The law with this number breaks at these elements. An element that it doesn't have is 0.
    Broken { law: u32, a: u32, b: u32, c: u32 },
    /// There was no memory for the tables.
    Memory,
}

/// Where a law breaks: its number and its elements.
#[derive(Clone, Copy, PartialEq, Eq, Debug)]
pub struct Break {
    pub law: u32,
    pub a: u32,
    pub b: u32,
    pub c: u32,
}

/// The semiring that the tables give, or the first law that they break, with the first elements at which it does.
/// The laws, by their numbers from 0: a + 0 = a, a + b = b + a, (a + b) + c = a + (b + c), 1 a = a, a 1 = a,
/// (a b) c = a (b c), a (b + c) = a b + a c, (a + b) c = a c + b c, 0 a = 0, a 0 = 0.
/// It takes memory for a copy of the cells.
pub fn check_semiring(alloc: Global, raw: &RawSemiring) -> Result<TableSemiring, SemiringFault>
    requires table { IsRaw (plain_raw raw.now) }
    ensures accepted { OnOk result (first_break (plain_raw raw.now) ≡ None) }
    ensures same { IfOk result (λ kit. plain_table kit ≡ plain_raw raw.now) }
    ensures refused { IfErr result (IsEndOf (first_break (plain_raw raw.now))) }
    ensures exact { (first_break (plain_raw raw.now) ≡ None)
        ↔ IsSemiring (semiring_of (plain_raw raw.now)) }
{
    if let Some(Break { law, a, b, c }) = first_break(raw) {
        return Err(SemiringFault::Broken { law, a, b, c });
    }
    match TableSemiring::of(alloc, raw) {
        Ok(kit) => Ok(kit),
        Err(AllocError) => Err(SemiringFault::Memory),
    }
}

/// The first place, by the law and then by its elements, where a law breaks.
fn first_break(raw: &RawSemiring) -> Option<Break>
    requires table { IsRaw (plain_raw raw.now) }
    ensures { result ≡ first_break (plain_raw raw.now) }
{
    for law in 0..LAWS {
        if let Some(at) = first_of_law(raw, law) {
            return Some(at);
        }
    }
    None
}

/// The first place where the law breaks.
fn first_of_law(raw: &RawSemiring, law: u32) -> Option<Break>
    requires table { IsRaw (plain_raw raw.now) }
    requires law { law < LAWS }
    ensures { result ≡ find (is_broken (plain_raw raw.now)) (places (plain_raw raw.now) law) }
{
    for a in 0..choices(raw, law, 0) {
        if let Some((b, c)) = further_elements(raw, law, a) {
            return Some(Break { law, a, b, c });
        }
    }
    None
}

/// The first second and third element with which the law breaks at a.
fn further_elements(raw: &RawSemiring, law: u32, a: u32) -> Option<(u32, u32)>
    requires table { IsRaw (plain_raw raw.now) }
    requires law { law < LAWS }
    requires is_element { a < raw.now.size }
    ensures { result ≡ find (λ p. not (law_holds (plain_raw raw.now) law a p.0 p.1))
        (pairs (range_with_len 0 (choices (plain_raw raw.now) law 1))
        (range_with_len 0 (choices (plain_raw raw.now) law 2))) }
{
    for b in 0..choices(raw, law, 1) {
        if let Some(c) = last_element(raw, law, a, b) {
            return Some((b, c));
        }
    }
    None
}

/// The first third element with which the law breaks at a and b.
fn last_element(raw: &RawSemiring, law: u32, a: u32, b: u32) -> Option<u32>
    requires table { IsRaw (plain_raw raw.now) }
    requires law { law < LAWS }
    requires first_is_element { a < raw.now.size }
    requires second_is_element { b < raw.now.size }
    ensures { result ≡ find (λ c. not (law_holds (plain_raw raw.now) law a b c))
        (range_with_len 0 (choices (plain_raw raw.now) law 2)) }
{
    for c in 0..choices(raw, law, 2) {
        if !holds(raw, law, a, b, c) {
            return Some(c);
        }
    }
    None
}
