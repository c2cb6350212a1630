//! How many candidates there are, and how many marks, without listing them.

ghost use Rattle.std.specs.Prelude.{◌≡◌, ◌≤◌, length, min};
ghost use Rattle.shape_gen.specs.Candidates.{assignments, candidates, sublists};
ghost use Rattle.shape_gen.specs.Extents.{mark_count, pyramid, triangle};

use crate::shape::Shape;

/// A number that is this one stands for it or more.
pub const EXTENT_CAP: u64 = 18446744073709551615;

/// How many candidates a shape generates, and how many marks they have together.
/// Each is cut at `EXTENT_CAP`.
#[derive(Clone, Copy, PartialEq, Eq, Debug)]
pub struct Extent {
    pub candidates: u64,
    pub marks: u64,
}

/// The extent of a shape over so many rows and labels. Takes no memory, and no more time than one pass over the rows.
pub fn sizes(shape: Shape, rows: u32, labels: u32) -> Extent
    requires some_label { 1 ≤ labels }
    ensures candidates { result.candidates ≡ min (length (candidates shape rows labels)) EXTENT_CAP }
    ensures marks { result.marks ≡ min (mark_count (candidates shape rows labels)) EXTENT_CAP }
{
    match shape {
        Shape::Sublists => sublist_extent(rows),
        Shape::Assign => assignment_extent(rows, labels),
        Shape::Prefixes | Shape::Suffixes => Extent {
            candidates: u64::from(rows) + 1,
            marks: triangle(rows),
        },
        Shape::Segments => Extent {
            candidates: 1 + triangle(rows),
            marks: pyramid(rows),
        },
    }
}

/// Each row doubles the sublists: those without it, and those with it.
fn sublist_extent(rows: u32) -> Extent
    ensures candidates { result.candidates ≡ min (length (sublists 0 rows)) EXTENT_CAP }
    ensures marks { result.marks ≡ min (mark_count (sublists 0 rows)) EXTENT_CAP }
{
    let mut candidates = 1u64;
    let mut marks = 0u64;
    for row in 0..rows {
        marks = marks.saturating_add(marks).saturating_add(candidates);
        candidates = candidates.saturating_add(candidates);
    }
    Extent { candidates, marks }
}

/// Each row multiplies the assignments by the labels.
fn assignment_extent(rows: u32, labels: u32) -> Extent
    requires some_label { 1 ≤ labels }
    ensures candidates { result.candidates ≡ min (length (assignments labels 0 rows)) EXTENT_CAP }
    ensures marks { result.marks ≡ min (mark_count (assignments labels 0 rows)) EXTENT_CAP }
{
    let labels = u64::from(labels);
    let mut candidates = 1u64;
    let mut marks = 0u64;
    for row in 0..rows {
        marks = marks.saturating_add(candidates).saturating_mul(labels);
        candidates = candidates.saturating_mul(labels);
    }
    Extent { candidates, marks }
}

/// 1 + 2 + .. + n.
fn triangle(n: u32) -> u64
    ensures value { result ≡ triangle n }
    ensures small { result ≤ 9223372036854775808 }
{
    let n = u64::from(n);
    n * (n + 1) / 2
}

/// The first n triangles together, or `EXTENT_CAP` where they are more.
fn pyramid(n: u32) -> u64
    ensures { result ≡ min (pyramid n) EXTENT_CAP }
{
    let n = u128::from(n);
    (n * (n + 1) * (n + 2) / 6).min(u128::from(EXTENT_CAP)) as u64
}
