//! Why a table is not taken.

ghost use Rattle.std.specs.Prelude.{◌≡◌};
ghost use Rattle.gta_rows.specs.declared.fault.RowsFault.TheVariants.{Memory};

use gta_text::Name;
use std::alloc::{AllocError, AllocFailed};

/// The first fault of a table. Rows are the records behind the header, counted from 0; a column is
/// named as it is declared.
#[derive(Debug, Drop)]
pub enum RowsFault {
    /// The table has no record.
    NoHeader,
    /// No field of the header is the text of this column.
    Missing { column: Name },
    /// More than one field of the header is the text of this column.
    ColumnTwice { column: Name },
    /// This row has another number of fields than the header.
    Length { row: u32, fields: u32, header: u32 },
    /// The field of this column in this row is no cell.
    Field { row: u32, column: Name },
    /// There are more rows than a table of this version may have, which is the limit.
    TooMany { limit: u32 },
    /// Memory was wanting. A fault of the reader under `csv` is answered so too; bytes in memory
    /// have none.
    Memory,
}

impl From<AllocError> for RowsFault {
    ghost from_gives = { λ _ e. e ≡ Memory };

    fn from(_e: AllocError) -> RowsFault {
        RowsFault::Memory
    }
}

impl<T: Drop> From<AllocFailed<T>> for RowsFault {
    ghost from_gives = { λ _ e. e ≡ Memory };

    fn from(_e: AllocFailed<T>) -> RowsFault {
        RowsFault::Memory
    }
}
