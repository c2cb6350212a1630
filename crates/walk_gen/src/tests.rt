//! Worked walkers: how many candidates they have over so many rows, and how many marks.

ghost use Rattle.std.specs.Prelude.{◌≡◌, ◌≤◌, None, Some, IfOk};
ghost use Rattle.walk_gen.specs.Walks.{IsWalker};

use crate::counting::walk_sizes;
use crate::walker::{Move, Walker};
use shape_gen::{Shape, sizes};
use std::alloc::{AllocError, Global};
use std::process::Abort;
use std::test::Fail;

fn skip(from: u32, to: u32) -> Move
    ensures { result ≡ record { from = from; to = to; take = None } }
{
    Move {
        from,
        to,
        take: None,
    }
}

fn take(from: u32, to: u32, label: u32) -> Move
    ensures { result ≡ record { from = from; to = to; take = Some label } }
{
    Move {
        from,
        to,
        take: Some(label),
    }
}

/// No two neighbours are taken: state 1 has just taken a row.
fn without_neighbours(alloc: Global) -> Result<Walker, AllocError>
    ensures { IfOk result IsWalker }
{
    Ok(Walker {
        states: 2,
        start: 0,
        ends: Vec::from_array(alloc, [true, true])?,
        moves: Vec::from_array(alloc, [skip(0, 0), take(0, 1, 0), skip(1, 0)])?,
    })
}

/// Each row is taken or left.
fn each_taken_or_left(alloc: Global) -> Result<Walker, AllocError>
    ensures { IfOk result IsWalker }
{
    Ok(Walker {
        states: 1,
        start: 0,
        ends: Vec::from_array(alloc, [true])?,
        moves: Vec::from_array(alloc, [skip(0, 0), take(0, 0, 0)])?,
    })
}

/// Each row gets one of three labels.
fn one_of_three_labels(alloc: Global) -> Result<Walker, AllocError>
    ensures { IfOk result IsWalker }
{
    Ok(Walker {
        states: 1,
        start: 0,
        ends: Vec::from_array(alloc, [true])?,
        moves: Vec::from_array(alloc, [take(0, 0, 0), take(0, 0, 1), take(0, 0, 2)])?,
    })
}

/// The first rows are taken, and in state 1 no more.
fn a_front(alloc: Global) -> Result<Walker, AllocError>
    ensures { IfOk result IsWalker }
{
    Ok(Walker {
        states: 2,
        start: 0,
        ends: Vec::from_array(alloc, [true, true])?,
        moves: Vec::from_array(alloc, [take(0, 0, 0), skip(0, 1), skip(1, 1)])?,
    })
}

/// In state 1 all rows are taken.
fn a_back(alloc: Global) -> Result<Walker, AllocError>
    ensures { IfOk result IsWalker }
{
    Ok(Walker {
        states: 2,
        start: 0,
        ends: Vec::from_array(alloc, [true, true])?,
        moves: Vec::from_array(alloc, [skip(0, 0), take(0, 1, 0), take(1, 1, 0)])?,
    })
}

/// Before a block, in it, and after it.
fn a_block(alloc: Global) -> Result<Walker, AllocError>
    ensures { IfOk result IsWalker }
{
    Ok(Walker {
        states: 3,
        start: 0,
        ends: Vec::from_array(alloc, [true, true, true])?,
        moves: Vec::from_array(
            alloc,
            [
                skip(0, 0),
                take(0, 1, 0),
                take(1, 1, 0),
                skip(1, 2),
                skip(2, 2),
            ],
        )?,
    })
}

/// The end is in no reach.
fn no_end_is_reached(alloc: Global) -> Result<Walker, AllocError>
    ensures { IfOk result IsWalker }
{
    Ok(Walker {
        states: 2,
        start: 0,
        ends: Vec::from_array(alloc, [false, true])?,
        moves: Vec::from_array(alloc, [skip(0, 0), take(0, 0, 0), skip(1, 0)])?,
    })
}

/// Eight states in a ring, which take a row each time round, and end at the start.
fn each_eighth_row(alloc: Global) -> Result<Walker, AllocError>
    ensures { IfOk result IsWalker }
{
    Ok(Walker {
        states: 8,
        start: 7,
        ends: Vec::from_array(
            alloc,
            [false, false, false, false, false, false, false, true],
        )?,
        moves: Vec::from_array(
            alloc,
            [
                skip(0, 1),
                skip(1, 2),
                skip(2, 3),
                skip(3, 4),
                skip(4, 5),
                skip(5, 6),
                skip(6, 7),
                take(7, 0, 0),
            ],
        )?,
    })
}

#[test]
fn no_two_neighbours(rt: HostRuntime) -> Result<(), Fail> {
    let walker = without_neighbours(rt.alloc())?;
    let cases = [
        (0, 1, 0),
        (1, 2, 1),
        (2, 3, 2),
        (3, 5, 5),
        (4, 8, 10),
        (5, 13, 20),
    ];
    for (rows, candidates, marks) in cases {
        let extent = walk_sizes(&walker, rows);
        assert_eq!(rt; extent.candidates, candidates);
        assert_eq!(rt; extent.marks, marks);
    }
    Ok(())
}

/// The walker has the extent of the shape.
fn assert_like(rt: &impl Abort, walker: &Walker, shape: Shape, labels: u32) -> Result<(), Fail>
    requires walker { IsWalker walker.now }
    requires some_label { 1 ≤ labels }
{
    for rows in [0, 1, 2, 3, 7, 40, 63, 64, 70, 400] {
        assert!(rt;
            walk_sizes(walker, rows) == sizes(shape, rows, labels),
            "at {rows}"
        );
    }
    Ok(())
}

#[test]
fn shapes_as_walkers(rt: HostRuntime) -> Result<(), Fail> {
    let alloc = rt.alloc();
    assert_like(&rt, &each_taken_or_left(alloc)?, Shape::Sublists, 1)?;
    assert_like(&rt, &one_of_three_labels(alloc)?, Shape::Assign, 3)?;
    assert_like(&rt, &a_front(alloc)?, Shape::Prefixes, 1)?;
    assert_like(&rt, &a_back(alloc)?, Shape::Suffixes, 1)?;
    assert_like(&rt, &a_block(alloc)?, Shape::Segments, 1)
}

#[test]
fn no_walk_and_one(rt: HostRuntime) -> Result<(), Fail> {
    let none = no_end_is_reached(rt.alloc())?;
    let ring = each_eighth_row(rt.alloc())?;
    for rows in 0..20 {
        assert_eq!(rt; walk_sizes(&none, rows).candidates, 0);
        let extent = walk_sizes(&ring, rows);
        let comes_round = rows % 8 == 0;
        assert_eq!(rt; extent.candidates, comes_round as u64);
        assert_eq!(rt;
            extent.marks,
            if comes_round { u64::from(rows) / 8 } else { 0 }
        );
    }
    Ok(())
}
