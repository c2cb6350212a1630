//! Why an input is not answered. specs/Texts.antt has the printed line of each.
use gta_text::Name;

/// Why an input is not answered, and what its line tells. Lines of the specification, and places in
/// them, count from 1. Tests, and the table's rows without its header, count from 0.
#[derive(Debug, Drop)]
pub enum Refusal {
    /// The first byte of the specification that is not printable ASCII.
    Byte {
        line: u32,
        place: u32,
    },
    /// The first line with tokens is not that of a known version.
    Version {
        line: u32,
    },
    /// The line is none that the grammar gives.
    Grammar {
        line: u32,
    },
    /// A number of the line is past 4611686018427387903.
    Number {
        line: u32,
    },
    /// No line is `rows`.
    NoRows,
    /// The name is not declared for its use.
    Unknown {
        line: u32,
        name: Name,
    },
    /// The name is declared a second time.
    Twice {
        line: u32,
        name: Name,
    },
    /// `columns`, `generate` or `aggregate` is missing.
    Missing {
        part: Name,
    },
    /// A part that stands at most once stands a second time, on this line.
    SecondPart {
        line: u32,
        part: Name,
    },
    /// The line `generate assign` without labels if `assign`, else the line `labels` without it.
    LabelsAssign {
        line: u32,
        assign: bool,
    },
    /// The limit of this name is passed.
    Limit {
        line: u32,
        limit: Name,
    },
    /// The table's unit changes the element, from the left or from the right.
    UnitFails {
        table: Name,
        element: Name,
        left: bool,
    },
    /// The two products of these three elements differ.
    NotAssociative {
        table: Name,
        a: Name,
        b: Name,
        c: Name,
    },
    /// The element has no line of products, more than one, or one of another length.
    NotSquare {
        table: Name,
        element: Name,
    },
    /// The letter of the automaton has no line of steps, more than one, or one with another number of states than the
    /// automaton; or, where no letter is told, more than 64 functions are those of words.
    Automaton {
        name: Name,
        letter: Option<Name>,
    },
    /// The table has no record.
    NoHeader,
    /// No field of the header is that of the column.
    ColumnMissing {
        column: Name,
    },
    /// More than one field of the header is that of the column.
    ColumnTwice {
        column: Name,
    },
    /// The row has another number of fields than the header.
    Length {
        row: u32,
        fields: u32,
        header: u32,
    },
    /// The column's cell in the row is not a number within the bound.
    Field {
        row: u32,
        column: Name,
    },
    /// There are more rows than this limit, that of the version.
    TooMany {
        limit: u32,
    },
    /// The test compares a sum, and the value that it adds for this row is negative. The label is
    /// there where the rows get labels.
    Negative {
        test: u32,
        row: u32,
        label: Option<Name>,
        value: i128,
    },
    /// With this row the weights add up past 4611686018427387903.
    Heavy {
        row: u32,
    },
    /// The tests have more than 8192 keys together.
    Keys {
        keys: u128,
    },
    /// The job's size is past 67108864.
    Size {
        size: u64,
    },
    /// There are too many candidates to list.
    ListSize,
    /// The input has more bytes than this limit, that of the version.
    Input {
        limit: u32,
    },
}
