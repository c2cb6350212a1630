//! How many walks there are, and how many marks they take, without listing them.

ghost use Rattle.std.specs.Prelude.{◌≡◌, ℕ, ◌≤◌, All, List, length, min};
ghost use Rattle.shape_gen.specs.declared.counting.TheConstants.{EXTENT_CAP};
ghost use Rattle.shape_gen.specs.declared.mark.Mark.{Mark};
ghost use Rattle.shape_gen.specs.Extents.{mark_count};
ghost use Rattle.walk_gen.specs.declared.walker.TheConstants.{STATE_LIMIT};
ghost use Rattle.walk_gen.specs.Walks.{IsWalker, IsBetween, at_end, candidates, moved, is_end};
ghost use Rattle.walk_gen.specs.Extents.{HaveExtents, end_extent, joined, with_row};

use crate::walker::{Move, STATE_LIMIT, Walker};
use shape_gen::Extent;

/// The extent of a walker's candidates over so many rows, each number cut at the greatest. Takes no memory, and no more
/// time than one pass over the moves for each row.
pub fn walk_sizes(walker: &Walker, rows: u32) -> Extent
    requires { IsWalker walker.now }
    ensures candidates { result.candidates ≡ min (length (candidates walker.now rows)) EXTENT_CAP }
    ensures marks { result.marks ≡ min (mark_count (candidates walker.now rows)) EXTENT_CAP }
{
    let mut extents = ends_of(walker.ends.as_slice());
    for row in 0..rows {
        extents = one_row_more(walker.moves.as_slice(), &extents);
    }
    extents[walker.start as usize]
}

const NONE: Extent = Extent {
    candidates: 0,
    marks: 0,
};

/// The extents of the walks over no row, by state.
fn ends_of(ends: &[bool]) -> [Extent; STATE_LIMIT]
    requires few { length ends.now ≤ STATE_LIMIT }
    ensures { HaveExtents (at_end (is_end ends.now)) result }
{
    let mut extents = [NONE; STATE_LIMIT];
    for (state, is_end) in ends.iter().enumerate() {
        extents[state] = end_extent(*is_end);
    }
    extents
}

fn end_extent(is_end: bool) -> Extent
    ensures { result ≡ end_extent is_end }
{
    Extent {
        candidates: is_end as u64,
        marks: 0,
    }
}

/// The extents of the walks over a row more in front, from those over the other rows, by state.
fn one_row_more(moves: &[Move], extents: &[Extent; STATE_LIMIT]) -> [Extent; STATE_LIMIT]
    requires between { All (IsBetween STATE_LIMIT) moves.now }
    ensures { (row : ℕ) (lists : ℕ → List (List Mark)) → HaveExtents lists extents.now
        → HaveExtents (moved moves.now row lists) result }
{
    let mut more = [NONE; STATE_LIMIT];
    for step in moves {
        let from = step.from as usize;
        let rest = with_row(extents[step.to as usize], step.take);
        more[from] = joined(more[from], rest);
    }
    more
}

/// The extent of two lists of candidates together.
fn joined(a: Extent, b: Extent) -> Extent
    ensures { result ≡ joined a b }
{
    Extent {
        candidates: a.candidates.saturating_add(b.candidates),
        marks: a.marks.saturating_add(b.marks),
    }
}

/// The extent of candidates with a row more, where it is taken.
fn with_row(rest: Extent, take: Option<u32>) -> Extent
    ensures { result ≡ with_row take rest }
{
    match take {
        None => rest,
        Some(_) => Extent {
            candidates: rest.candidates,
            marks: rest.marks.saturating_add(rest.candidates),
        },
    }
}
