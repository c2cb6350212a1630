//! Rows that are set, pushed and popped: the value of all rows after each edit, and after one that finds no memory.

ghost use Rattle.std.specs.Prelude.{◌≡◌};
ghost use Rattle.step_count.specs.Blanks.{IsBlankOf};

use crate::counting::Counting;
use interval_kit::Fused;
use interval_tree::Tree;
use std::alloc::{AllocError, Global};
use std::marker::Brand;
use std::process::Abort;
use std::sync::ledger::{Blank, Ledger};
use std::test::Fail;
use step_count::Steps;

/// What is done to the rows.
#[derive(Clone, Copy, Debug)]
enum Edit {
    Set(u32),
    Push,
    Pop,
}

/// The tree with the edit, unless there is no such row.
fn edited<L: Ledger>(
    tree: &mut Tree<Counting>,
    alloc: Global,
    edit: Edit,
    steps: &mut Steps<L>,
) -> Result<(), AllocError> {
    let rows = tree.plan().rows();
    match edit {
        Edit::Set(row) => {
            if row < rows {
                tree.set(alloc, row, (), steps)?;
            }
        }
        Edit::Push => {
            if rows < 1000 {
                tree.push(alloc, (), steps)?;
            }
        }
        Edit::Pop => {
            tree.pop(alloc, steps)?;
        }
    }
    Ok(())
}

/// The tree has so many rows, and a value of all of them.
fn assert_rows(rt: &impl Abort, tree: &Tree<Counting>, rows: u32) -> Result<(), Fail> {
    assert_eq!(rt; tree.plan().rows(), rows);
    assert_eq!(rt; tree.top().copied().unwrap_or(0), rows);
    assert!(rt; tree.top().is_none() == (rows == 0));
    Ok(())
}

/// So many rows after an edit of this many.
fn rows_after(rows: u32, edit: Edit) -> u32 {
    match edit {
        Edit::Set(_) => rows,
        Edit::Push => rows.saturating_add(1),
        Edit::Pop => rows.saturating_sub(1),
    }
}

/// The edits of a tree of so many rows, of whose leaves and joins this one finds no memory. What isn't made leaves all
/// as before, and is made when it is tried again.
fn assert_edits<L: Ledger>(
    rt: &impl Abort,
    alloc: Global,
    rows: u32,
    refused: u64,
    edits: &[Edit],
    blank: Blank,
) -> Result<(), Fail>
    requires blank { IsBlankOf L.name L.parts blank }
{
    let mut steps = Steps::<L>::new(blank);
    let Ok(mut tree) = Tree::build(alloc, Counting::new(rows, refused), &mut steps) else {
        return Ok(());
    };
    let mut rows = rows;
    assert_rows(rt, &tree, rows)?;
    for edit in edits {
        if edited(&mut tree, alloc, *edit, &mut steps).is_err() {
            assert_rows(rt, &tree, rows)?;
            edited(&mut tree, alloc, *edit, &mut steps)?;
        }
        rows = rows_after(rows, *edit);
        assert_rows(rt, &tree, rows)?;
    }
    Ok(())
}

const UP_AND_DOWN: &[Edit] = &[
    Edit::Pop,
    Edit::Push,
    Edit::Push,
    Edit::Set(1),
    Edit::Push,
    Edit::Push,
    Edit::Push,
    Edit::Set(0),
    Edit::Set(4),
    Edit::Pop,
    Edit::Pop,
    Edit::Push,
    Edit::Pop,
    Edit::Pop,
    Edit::Pop,
    Edit::Pop,
    Edit::Pop,
    Edit::Push,
];

#[test]
fn rows_come_and_go(rt: HostRuntime) -> Result<(), Fail> {
    for rows in 0..9 {
        assert_edits::<Brand>(&rt, rt.alloc(), rows, 0, UP_AND_DOWN, Blank::new(1))?;
    }
    Ok(())
}

// The call that finds no memory is each of those of the edits in turn.
#[test]
fn an_edit_without_memory_leaves_all_as_before(rt: HostRuntime) -> Result<(), Fail> {
    for refused in 1..60 {
        assert_edits::<Brand>(&rt, rt.alloc(), 0, refused, UP_AND_DOWN, Blank::new(1))?;
        assert_edits::<Brand>(&rt, rt.alloc(), 3, refused, UP_AND_DOWN, Blank::new(1))?;
    }
    Ok(())
}
