//! A table is looked at for the laws of a monoid. The first law that one breaks is in
//! specs/FirstBad.antt.

ghost use Rattle.std.specs.Prelude.{◌≡◌, ◌==◌, ℕ, ◌<◌, ◌↔◌, not, None, length, slice_index_or, option_map};
ghost use Rattle.std.specs.Prelude.{IfOk};
ghost use Rattle.std.specs.List.{find};
ghost use Rattle.outcome_kit.specs.Outcome.{Tells};
ghost use Rattle.monoid_kit.specs.FirstBad.{elements, unit_fails, is_not_associative, first_bad};
ghost use Rattle.monoid_kit.specs.FirstBad.{first_unit_failure, first_triple, fault_in, lawful_outcome};
ghost use Rattle.monoid_kit.specs.Items.{pairs};
ghost use Rattle.monoid_kit.specs.Monoid.{IsMonoid};
ghost use Rattle.monoid_kit.specs.Table.{IsTable, table_mul};
ghost use Rattle.monoid_kit.specs.TableOf.{plain_raw, plain_table};

use crate::table::{RawTable, TableMonoid};
use std::alloc::{AllocError, Global};

/// Why a table gave no monoid.
#[derive(Clone, Copy, PartialEq, Eq, Debug)]
pub enum TableFault {
    /// The unit changes the element, as the left factor or else as the right.
    UnitFails { element: u32, left: bool },
    /// (a b) c isn't a (b c).
    NotAssociative { a: u32, b: u32, c: u32 },
    /// There was no memory for the table.
    Memory,
}

/// The monoid that the table gives, or the first law that it breaks.
/// It takes memory for a copy of the cells.
pub fn check_table(alloc: Global, table: &RawTable) -> Result<TableMonoid, TableFault>
    requires table { IsTable (plain_raw table.now) }
    ensures tells { Tells fault_in plain_table (lawful_outcome (plain_raw table.now)) result }
    ensures same { IfOk result (λ monoid. plain_table monoid ≡ plain_raw table.now) }
    ensures exact { (first_bad (plain_raw table.now) ≡ None)
        ↔ IsMonoid table.now.size table.now.unit (table_mul (plain_raw table.now)) }
{
    if let Some((element, left)) = unit_failure(table) {
        return Err(TableFault::UnitFails { element, left });
    }
    if let Some((a, (b, c))) = triple(table) {
        return Err(TableFault::NotAssociative { a, b, c });
    }
    match TableMonoid::of(alloc, table) {
        Ok(monoid) => Ok(monoid),
        Err(AllocError) => Err(TableFault::Memory),
    }
}

/// The first element that the unit changes, and whether it does so as the left factor.
fn unit_failure(table: &RawTable) -> Option<(u32, bool)>
    requires table { IsTable (plain_raw table.now) }
    ensures { result ≡ first_unit_failure (plain_raw table.now) }
{
    for x in 0..table.size {
        if product(table, table.unit, x) != x {
            return Some((x, true));
        }
        if product(table, x, table.unit) != x {
            return Some((x, false));
        }
    }
    None
}

/// The first triple that isn't associative.
fn triple(table: &RawTable) -> Option<(u32, (u32, u32))>
    requires table { IsTable (plain_raw table.now) }
    ensures { result ≡ first_triple (plain_raw table.now) }
{
    for a in 0..table.size {
        if let Some(factors) = further_factors(table, a) {
            return Some((a, factors));
        }
    }
    None
}

/// The first two further factors with which a product that begins with a isn't associative.
fn further_factors(table: &RawTable, a: u32) -> Option<(u32, u32)>
    requires table { IsTable (plain_raw table.now) }
    requires is_element { a < table.now.size }
    ensures { result ≡ find (λ p. is_not_associative (plain_raw table.now) a p.0 p.1)
        (pairs (elements (plain_raw table.now)) (elements (plain_raw table.now))) }
{
    for b in 0..table.size {
        if let Some(c) = last_factor(table, a, b) {
            return Some((b, c));
        }
    }
    None
}

/// The first last factor with which the product of a and b isn't associative.
fn last_factor(table: &RawTable, a: u32, b: u32) -> Option<u32>
    requires table { IsTable (plain_raw table.now) }
    requires left_is_element { a < table.now.size }
    requires right_is_element { b < table.now.size }
    ensures { result ≡ find (is_not_associative (plain_raw table.now) a b)
        (elements (plain_raw table.now)) }
{
    let by_a = row(table, a);
    let by_b = row(table, b);
    let by_ab = row(table, by_a[b as usize]);
    for c in 0..table.size {
        if are_unlike(by_ab, by_a, by_b, c) {
            return Some(c);
        }
    }
    None
}

/// Whether (a b) c isn't a (b c), where the rows are those of a b, a and b.
fn are_unlike(by_ab: &[u32], by_a: &[u32], by_b: &[u32], c: u32) -> bool
    requires in_left { c < length by_ab.now }
    requires in_right { c < length by_b.now }
    requires is_factor { slice_index_or by_b.now c 0 < length by_a.now }
    ensures { result ≡ not
        (slice_index_or by_ab.now c 0 == slice_index_or by_a.now (slice_index_or by_b.now c 0) 0) }
{
    by_ab[c as usize] != by_a[by_b[c as usize] as usize]
}

/// The products with a left factor, by the right one.
fn row(table: &RawTable, a: u32) -> &[u32]
    requires table { IsTable (plain_raw table.now) }
    requires is_element { a < table.now.size }
    ensures length { length result.now ≡ table.now.size }
    ensures products { (b : ℕ) → b < table.now.size
        → slice_index_or result.now b 0 ≡ table_mul (plain_raw table.now) a b }
    ensures are_elements { (b : ℕ) → b < table.now.size
        → slice_index_or result.now b 0 < table.now.size }
{
    let size = table.size as usize;
    let start = a as usize * size;
    &table.cells[start..start + size]
}

fn product(table: &RawTable, a: u32, b: u32) -> u32
    requires table { IsTable (plain_raw table.now) }
    requires left_is_element { a < table.now.size }
    requires right_is_element { b < table.now.size }
    ensures { result ≡ table_mul (plain_raw table.now) a b }
{
    table.cells[(a * table.size + b) as usize]
}
