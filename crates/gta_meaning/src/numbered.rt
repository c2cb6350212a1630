//! Candidates by their numbers in the order of their list, so that one is made at a time.

ghost use Rattle.std.specs.Prelude.{◌≡◌, ◌+◌, ◌-◌, ◌*◌, ◌<◌, ◌≤◌, ◌++◌, ◌∷◌, [], IfOk, OnOk, length, slice_index_or};
ghost use Rattle.shape_gen.specs.Candidates.{assignments, candidates, mark, run, segments, sublists};

use crate::candidate::Candidate;
use shape_gen::{Mark, Shape};
use std::alloc::{AllocError, Global};

/// The candidate of a number among so many candidates of a shape, from 0. Refuses only for want of memory.
pub(crate) fn candidate_at(
    alloc: Global,
    shape: Shape,
    rows: u32,
    labels: u32,
    count: u64,
    number: u64,
) -> Result<Candidate, AllocError>
    requires count { count ≡ length (candidates shape rows labels) }
    requires in_range { number < count }
    ensures { IfOk result (λ candidate.
        candidate.marks.items ≡ slice_index_or (candidates shape rows labels) number []) }
{
    let mut marks = Vec::new(alloc);
    push_candidate(&mut marks, shape, rows, labels, count, number)?;
    Ok(Candidate { marks })
}

/// Adds the marks of the candidate of a number.
fn push_candidate(
    marks: &mut Vec<Mark>,
    shape: Shape,
    rows: u32,
    labels: u32,
    count: u64,
    number: u64,
) -> Result<(), AllocError>
    requires count { count ≡ length (candidates shape rows labels) }
    requires in_range { number < count }
    ensures { OnOk result (marks.new.items
        ≡ marks.old.items ++ slice_index_or (candidates shape rows labels) number []) }
{
    match shape {
        Shape::Sublists => push_sublist(marks, rows, count, number),
        Shape::Assign => push_assignment(marks, rows, labels, count, number),
        Shape::Prefixes => push_run(marks, 0, number as u32),
        Shape::Suffixes => push_run(marks, rows - number as u32, number as u32),
        Shape::Segments => {
            if number == 0 {
                return Ok(());
            }
            push_segment(marks, rows, number - 1)
        }
    }
}

/// Adds the rows of a run, in order.
fn push_run(marks: &mut Vec<Mark>, first: u32, count: u32) -> Result<(), AllocError>
    requires { first + count < 4294967296 }
    ensures { OnOk result (marks.new.items ≡ marks.old.items ++ run first count) }
{
    for place in 0..count {
        marks.push(Mark {
            row: first + place,
            label: 0,
        })?;
    }
    Ok(())
}

/// Adds the sublist of a number: the first half of the list leaves out the first row, and the second takes it.
fn push_sublist(marks: &mut Vec<Mark>, rows: u32, count: u64, number: u64) -> Result<(), AllocError>
    requires count { count ≡ length (sublists 0 rows) }
    requires in_range { number < count }
    ensures { OnOk result (marks.new.items ≡ marks.old.items ++ slice_index_or (sublists 0 rows) number []) }
{
    let mut behind = count;
    let mut number = number;
    for row in 0..rows {
        behind /= 2;
        if number >= behind {
            number -= behind;
            marks.push(Mark { row, label: 0 })?;
        }
    }
    Ok(())
}

/// Adds the assignment of a number: the list has a piece for each label of the first row.
fn push_assignment(
    marks: &mut Vec<Mark>,
    rows: u32,
    labels: u32,
    count: u64,
    number: u64,
) -> Result<(), AllocError>
    requires count { count ≡ length (assignments labels 0 rows) }
    requires in_range { number < count }
    ensures { OnOk result (marks.new.items ≡ marks.old.items ++ slice_index_or (assignments labels 0 rows) number []) }
{
    let mut behind = count;
    let mut number = number;
    for row in 0..rows {
        behind /= u64::from(labels);
        let label = (number / behind) as u32;
        number %= behind;
        marks.push(Mark { row, label })?;
    }
    Ok(())
}

/// Adds the segment of a number: those of the first row come first, the shortest first.
fn push_segment(marks: &mut Vec<Mark>, rows: u32, number: u64) -> Result<(), AllocError>
    requires in_range { number < length (segments 0 rows) }
    ensures { OnOk result (marks.new.items ≡ marks.old.items ++ slice_index_or (segments 0 rows) number []) }
{
    let mut number = number;
    for first in 0..rows {
        let lengths = u64::from(rows - first);
        if number < lengths {
            return push_run(marks, first, number as u32 + 1);
        }
        number -= lengths;
    }
    Ok(())
}
