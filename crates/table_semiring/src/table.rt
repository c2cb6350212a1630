//! Semirings that are given by the tables of their sums and products. What tables are, and which semiring they give,
//! is in specs/Table.antt.

ghost use Rattle.std.specs.Prelude.{◌≡◌, ℕ, ◌+◌, ◌*◌, ◌<◌, ◌≤◌, List, All, length, IfOk};
ghost use Rattle.table_semiring.specs.Table.{cell, IsLawfulTable};

use semiring_kit::Semiring;
use shape_gen::Mark;
use std::alloc::{AllocError, Global};
use std::marker::Model;
use std::sync::ledger::Ledger;
use step_count::Steps;

/// The most elements of a semiring.
pub const GREATEST_SIZE: u32 = 16;

/// Tables that nothing is known of: the sums and the products, row by row.
#[derive(Drop)]
pub struct RawSemiring {
    pub size: u32,
    pub zero: u32,
    pub one: u32,
    pub plus: Vec<u32>,
    pub mult: Vec<u32>,
}

// The cells of a table, row by row.
#[derive(Drop)]
struct Cells {
    items: Vec<u32>,
}

impl Model for Cells {
    ghost Value = { List ℕ };

    ghost view = { λ cells. cells.items.items };
}

impl Cells {
    fn at(&self, size: u32, a: u32, b: u32) -> u32
        requires few { size ≤ GREATEST_SIZE }
        requires whole { length self.now ≡ size * size }
        requires left_is_element { a < size }
        requires right_is_element { b < size }
        ensures { result ≡ cell size self.now a b }
    {
        cell(&self.items, size, a, b)
    }

    fn twin(&self, alloc: Global) -> Result<Cells, AllocError>
        ensures { IfOk result (λ twin. twin ≡ self.now) }
    {
        Ok(Cells {
            items: Vec::from_slice(alloc, &self.items)?,
        })
    }
}

/// The cell of a row and a column.
pub(crate) fn cell(cells: &[u32], size: u32, a: u32, b: u32) -> u32
    requires few { size ≤ GREATEST_SIZE }
    requires whole { length cells.now ≡ size * size }
    requires left_is_element { a < size }
    requires right_is_element { b < size }
    ensures { result ≡ cell size cells.now a b }
{
    cells[(a * size + b) as usize]
}

/// A semiring of 1 to 16 elements that is given by the tables of their sums and products.
#[derive(Drop)]
pub struct TableSemiring {
    size: u32,
    zero: u32,
    one: u32,
    plus: Cells,
    mult: Cells,
    ghost lawful: { IsLawfulTable
        (record { size = size; zero = zero; one = one; plus = plus; mult = mult }) },
}

impl TableSemiring {
    ghost use Rattle.table_semiring.specs.TableOf.{plain_raw, plain_table};

    /// The semiring that the tables give. It takes memory for a copy of their cells.
    pub(crate) fn of(alloc: Global, raw: &RawSemiring) -> Result<TableSemiring, AllocError>
        requires lawful { IsLawfulTable (plain_raw raw.now) }
        ensures { IfOk result (λ kit. plain_table kit ≡ plain_raw raw.now) }
    {
        Ok(TableSemiring {
            size: raw.size,
            zero: raw.zero,
            one: raw.one,
            plus: Cells {
                items: Vec::from_slice(alloc, &raw.plus)?,
            },
            mult: Cells {
                items: Vec::from_slice(alloc, &raw.mult)?,
            },
        })
    }

    /// The same semiring once more. It takes memory for its cells.
    pub fn twin(&self, alloc: Global) -> Result<TableSemiring, AllocError>
        ensures { IfOk result (λ twin. twin ≡ self.now) }
    {
        Ok(TableSemiring {
            size: self.size,
            zero: self.zero,
            one: self.one,
            plus: self.plus.twin(alloc)?,
            mult: self.mult.twin(alloc)?,
        })
    }
}

/// No method takes memory, and each answers Ok.
impl Semiring for TableSemiring {
    ghost use Rattle.std.specs.Prelude.{unsigned_abs};
    ghost use Rattle.std.proofs.Common.{arith};
    ghost use Rattle.table_semiring.specs.Table.{element_of, product_in, semiring_of, sum_in};
    ghost use Rattle.table_semiring.specs.TableOf.{plain_raw, plain_table};
    ghost use Rattle.table_semiring.specs.TableLaws.{element_of-is_element};

    type Elem = u32;

    type Weight = i64;

    ghost ring = { λ kit. semiring_of (plain_table kit) };

    ghost of_mark = { λ kit mark weight. element_of (plain_table kit) weight };

    ghost weight_reach = { λ kit. unsigned_abs };

    ghost laws = { λ kit. kit.lawful.semiring };

    ghost mark_is_sound = { λ kit mark weight. element_of-is_element (plain_table kit) kit.lawful.table weight };

    ghost mark_reach = { λ kit mark weight. Prim.omega arith };

    fn zero(&self, _alloc: Global) -> Result<u32, AllocError>
        ensures { result ≡ Ok (plain_table self.now).zero }
    {
        Ok(self.zero)
    }

    fn one(&self, _alloc: Global) -> Result<u32, AllocError>
        ensures { result ≡ Ok (plain_table self.now).one }
    {
        Ok(self.one)
    }

    /// The element that the weight is, or zero where it is none.
    fn of_mark(&self, _alloc: Global, _mark: Mark, weight: i64) -> Result<u32, AllocError>
        ensures { result ≡ Ok (element_of (plain_table self.now) weight) }
    {
        if weight >= 0 && weight < i64::from(self.size) {
            return Ok(weight as u32);
        }
        Ok(self.zero)
    }

    fn copy(&self, _alloc: Global, a: &u32) -> Result<u32, AllocError>
        ensures { result ≡ Ok a.now }
    {
        Ok(*a)
    }

    fn add(&self, _alloc: Global, a: &u32, b: &u32) -> Result<u32, AllocError>
        requires left_is_element { a.now < (plain_table self.now).size }
        requires right_is_element { b.now < (plain_table self.now).size }
        ensures { result ≡ Ok (sum_in (plain_table self.now) a.now b.now) }
    {
        Ok(self.plus.at(self.size, *a, *b))
    }

    fn mul<L: Ledger>(
        &self,
        _alloc: Global,
        a: &u32,
        b: &u32,
        steps: &mut Steps<L>,
    ) -> Result<u32, AllocError>
        requires left_is_element { a.now < (plain_table self.now).size }
        requires right_is_element { b.now < (plain_table self.now).size }
        ensures value { result ≡ Ok (product_in (plain_table self.now) a.now b.now) }
        ensures one_step { steps.new ≡ steps.old + 1 }
    {
        steps.tick();
        Ok(self.mult.at(self.size, *a, *b))
    }
}
