//! A mark, the item of a candidate.

/// A row that a candidate takes, and the label that it gives to the row. Marks compare by row, then by label.
/// Rows and labels count from 0; where no labels are declared every label is 0.
#[derive(Clone, Copy, PartialEq, Eq, PartialOrd, Ord, Default, Debug)]
pub struct Mark {
    pub row: u32,
    pub label: u32,
}
