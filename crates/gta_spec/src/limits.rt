//! How large a specification, its table and its numbers may be.

ghost use Rattle.std.specs.Prelude.{◌≡◌, ◌≤◌};
ghost use Rattle.gta_spec.specs.Versions.{row_limit};

/// The most bytes of a declared name.
pub const NAME_LIMIT: usize = 64;

/// The most bytes of a header's text.
pub const HEADER_LIMIT: usize = 256;

pub const COLUMN_LIMIT: usize = 32;

pub const LABEL_LIMIT: usize = 16;

/// The most lines `measure`.
pub const MEASURE_LIMIT: usize = 32;

/// The most lines `table`.
pub const TABLE_LIMIT: usize = 8;

/// The most lines `test`, with a name or without.
pub const TEST_LIMIT: usize = 8;

/// The most elements of a table.
pub const ELEMENT_LIMIT: usize = 64;

/// The most cases of a measure, and the most picks of a fold or run.
pub const CASE_LIMIT: usize = 16;

/// The most terms of a form.
pub const TERM_LIMIT: usize = 32;

/// The most atoms of a condition.
pub const ATOM_LIMIT: usize = 8;

/// The greatest factor before a column.
pub const FACTOR_LIMIT: u64 = 1000000;

/// The greatest number that a test compares with; the least is 0.
pub const BOUND_LIMIT: u64 = 8190;

/// The greatest modulus; the least is 1, and a residue is below its modulus.
pub const MODULUS_LIMIT: u64 = 8192;

/// The most candidates that an aggregate keeps; the fewest are 1.
pub const KEEP_LIMIT: u64 = 64;

/// The most names in a line `keep`.
pub const KEPT_NAME_LIMIT: usize = 64;

/// The most `not` and pairs of parentheses that together enclose a place in a line `keep`.
pub const NESTING_LIMIT: usize = 32;

/// The most totals of an aggregate.
pub const RANK_LIMIT: usize = 3;

/// The most lines `automaton`.
pub const AUTOMATON_LIMIT: usize = 8;

/// The most states of an automaton.
pub const STATE_LIMIT: usize = 16;

/// The most letters of an automaton.
pub const LETTER_LIMIT: usize = 16;

/// The most rows of a table in version 1.
pub const FIRST_ROW_LIMIT: u32 = 100000;

/// The most rows of a table in any version.
pub const ROW_LIMIT: u32 = 400000;

/// The most rows of a table in this version.
pub fn row_limit(version: u8) -> u32
    ensures limit { result ≡ row_limit version }
    ensures within { result ≤ ROW_LIMIT }
{
    if version == 1 {
        FIRST_ROW_LIMIT
    } else {
        ROW_LIMIT
    }
}
