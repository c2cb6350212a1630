//! Orders and joins of worked candidates.
use shape_gen::Mark;
use std::alloc::{AllocError, Global};
use std::cmp::Ordering;
use std::test::Fail;
use witness_order::{Witness, joined, shortlex, shortlex_joined};

// The witness of these rows, each with this label.
fn of_rows(alloc: Global, rows: &[u32], label: u32) -> Result<Witness, AllocError> {
    let mut marks = Vec::new(alloc);
    for row in rows {
        marks.push(Mark { row: *row, label })?;
    }
    Witness::of(alloc, marks.as_slice())
}

#[test]
fn the_shorter_first_and_then_by_marks(rt: HostRuntime) -> Result<(), Fail> {
    let alloc = rt.alloc();
    let cases: [(&[u32], u32, &[u32], u32, Ordering); 7] = [
        (&[], 0, &[0], 0, Ordering::Less),
        (&[9], 0, &[0, 1], 0, Ordering::Less),
        (&[0, 3], 0, &[2], 0, Ordering::Greater),
        (&[0, 2], 0, &[0, 3], 0, Ordering::Less),
        (&[1, 0], 0, &[0, 3], 0, Ordering::Greater),
        (&[1, 2], 0, &[1, 2], 1, Ordering::Less),
        (&[4, 5], 1, &[4, 5], 1, Ordering::Equal),
    ];
    for (left, left_label, right, right_label, order) in cases {
        let a = of_rows(alloc, left, left_label)?;
        let b = of_rows(alloc, right, right_label)?;
        assert_eq!(rt; shortlex(&a, &b), order, "at {left:?} and {right:?}");
    }
    Ok(())
}

#[test]
fn joins(rt: HostRuntime) -> Result<(), Fail> {
    let alloc = rt.alloc();
    let first = of_rows(alloc, &[0, 2, 3], 0)?;
    let last = of_rows(alloc, &[5, 6], 1)?;
    let whole = joined(alloc, &first, &last)?;
    let marks = [(0, 0), (2, 0), (3, 0), (5, 1), (6, 1)].map(|(row, label)| Mark { row, label });
    assert_eq!(rt; whole.marks(), marks.as_slice());
    assert_eq!(rt;
        shortlex_joined(&first, &last, &last, &first),
        Ordering::Less
    );
    assert_eq!(rt;
        shortlex_joined(&first, &last, &first, &first),
        Ordering::Less
    );
    assert_eq!(rt;
        shortlex_joined(&last, &first, &first, &last),
        Ordering::Greater
    );
    Ok(())
}
