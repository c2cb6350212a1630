//! Numbers of candidates and of their marks, by hand.

use shape_gen::{EXTENT_CAP, Extent, Shape, sizes};

#[test]
fn numbers_of_candidates_and_marks(rt: HostRuntime) {
    let cases = [
        (Shape::Sublists, 0, 1, 1, 0),
        (Shape::Sublists, 3, 1, 8, 12),
        (Shape::Sublists, 63, 1, 9223372036854775808, EXTENT_CAP),
        (Shape::Sublists, 64, 1, EXTENT_CAP, EXTENT_CAP),
        (Shape::Assign, 0, 2, 1, 0),
        (Shape::Assign, 2, 3, 9, 18),
        (Shape::Assign, 5, 1, 1, 5),
        (Shape::Prefixes, 3, 1, 4, 6),
        (Shape::Suffixes, 0, 1, 1, 0),
        (Shape::Segments, 0, 1, 1, 0),
        (Shape::Segments, 3, 1, 7, 10),
        (Shape::Segments, 100000, 1, 5000050001, 166671666700000),
    ];
    for (shape, rows, labels, candidates, marks) in cases {
        let extent = sizes(shape, rows, u32::max(labels, 1));
        assert_eq!(rt;
            extent,
            Extent { candidates, marks },
            "at {shape:?} of {rows} rows"
        );
    }
}
