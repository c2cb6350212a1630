//! Monoids that are given by the table of their products. What a table is, and when it is lawful,
//! is in specs/Table.antt.

ghost use Rattle.std.specs.Prelude.{◌≡◌, ℕ, ◌<◌, List, length, IfOk, slice_index_or};
ghost use Rattle.monoid_kit.specs.Table.{IsLawfulTable};

use crate::monoid::Monoid;
use std::alloc::{AllocError, Global};
use std::marker::Model;

/// The most elements of a table.
pub const GREATEST_TABLE: u32 = 64;

/// A table that nothing is known of: the products, row by row.
#[derive(Drop)]
pub struct RawTable {
    pub size: u32,
    pub unit: u32,
    pub cells: Vec<u32>,
}

// The products of a table, row by row.
#[derive(Drop)]
struct Cells {
    items: Vec<u32>,
}

impl Model for Cells {
    ghost Value = { List ℕ };

    ghost view = { λ cells. cells.items.items };
}

impl Cells {
    fn at(&self, place: usize) -> u32
        requires in_range { place < length self.now }
        ensures { result ≡ slice_index_or self.now place 0 }
    {
        self.items[place]
    }

    fn twin(&self, alloc: Global) -> Result<Cells, AllocError>
        ensures { IfOk result (λ twin. twin ≡ self.now) }
    {
        Ok(Cells {
            items: Vec::from_slice(alloc, &self.items)?,
        })
    }
}

/// A monoid of 1 to 64 elements that is given by the table of their products.
#[derive(Drop)]
pub struct TableMonoid {
    size: u32,
    unit: u32,
    cells: Cells,
    ghost lawful: { IsLawfulTable (record { size = size; unit = unit; cells = cells }) },
}

impl TableMonoid {
    /// The monoid that the table gives. It takes memory for a copy of the cells.
    pub(crate) fn of(alloc: Global, table: &RawTable) -> Result<TableMonoid, AllocError>
        requires lawful { IsLawfulTable
            (record { size = table.now.size; unit = table.now.unit; cells = table.now.cells.items }) }
        ensures size { IfOk result (λ monoid. monoid.size ≡ table.now.size) }
        ensures unit { IfOk result (λ monoid. monoid.unit ≡ table.now.unit) }
        ensures cells { IfOk result (λ monoid. monoid.cells ≡ table.now.cells.items) }
    {
        Ok(TableMonoid {
            size: table.size,
            unit: table.unit,
            cells: Cells {
                items: Vec::from_slice(alloc, &table.cells)?,
            },
        })
    }

    /// The same table once more. It takes memory for its cells.
    pub fn twin(&self, alloc: Global) -> Result<TableMonoid, AllocError>
        ensures { IfOk result (λ twin. twin ≡ self.now) }
    {
        Ok(TableMonoid {
            size: self.size,
            unit: self.unit,
            cells: self.cells.twin(alloc)?,
        })
    }
}

impl Monoid for TableMonoid {
    ghost use Rattle.monoid_kit.specs.TableOf.{plain_table};
    ghost use Rattle.monoid_kit.specs.Table.{table_mul};

    ghost size = { λ table. table.size };

    ghost unit = { λ table. table.unit };

    ghost mul = { λ table. table_mul (plain_table table) };

    ghost laws = { λ table. table.lawful.monoid };

    fn size(&self) -> u32 {
        self.size
    }

    fn unit(&self) -> u32 {
        self.unit
    }

    fn mul(&self, a: u32, b: u32) -> u32 {
        self.cells.at((a * self.size + b) as usize)
    }
}
