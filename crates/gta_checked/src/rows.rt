//! The rows of a table: the cells of the declared columns, row by row.

ghost use Rattle.std.specs.Prelude.{◌≡◌, ◌+◌, ◌*◌, ◌<◌, IsTrue, length, pos, slice_index_or};
ghost use Rattle.std.specs.List.{list_all};
ghost use Rattle.gta_checked.specs.Cells.{is_cell};

/// `count` rows of `columns` cells each, row by row. Each cell is at most 4611686018427387903 in absolute value.
#[derive(Debug, Drop)]
pub struct Rows {
    pub count: u32,
    pub columns: u32,
    pub cells: Vec<i64>,
    ghost whole: { length cells.items ≡ count * columns },
    ghost within: { IsTrue (list_all is_cell cells.items) },
}

impl Rows {
    /// The cell of a column in a row, both counted from 0. Takes no memory.
    pub fn cell(&self, row: u32, column: u32) -> i64
        requires row_in_range { row < self.now.count }
        requires column_in_range { column < self.now.columns }
        ensures { result ≡ slice_index_or self.now.cells.items (row * self.now.columns + column) (pos 0) }
    {
        self.cells[row as usize * self.columns as usize + column as usize]
    }
}
