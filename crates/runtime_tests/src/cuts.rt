//! Worked rows of cuts.

use interval_kit::{CutFault, cut_at, cut_of};

#[test]
fn cuts_by_leaf_size(rt: HostRuntime) {
    let cases = [
        (5, 2, [0, 2, 4, 5].as_slice()),
        (4, 2, [0, 2, 4].as_slice()),
        (0, 3, [0].as_slice()),
        (u32::MAX, u32::MAX, [0, u32::MAX].as_slice()),
    ];
    for (rows, leaf, bounds) in cases {
        let cut = cut_of(rt.alloc(), rows, leaf).expect(&rt, "memory for a cut");
        assert_eq!(rt; cut.bounds(), bounds, "{rows} rows by leaves of {leaf}");
    }
}

#[test]
fn cuts_at_bounds(rt: HostRuntime) {
    let cases = [
        (5, [0, 3, 5].as_slice(), true),
        (0, [0].as_slice(), true),
        (5, [0, 2, 2, 5].as_slice(), false),
        (5, [1, 5].as_slice(), false),
        (5, [0, 3].as_slice(), false),
        (0, [].as_slice(), false),
    ];
    for (rows, bounds, is_cut) in cases {
        match cut_at(rt.alloc(), rows, bounds) {
            Ok(cut) => {
                assert!(rt; is_cut, "{bounds:?} is no cut of {rows} rows");
                assert_eq!(rt; cut.bounds(), bounds);
            }
            Err(fault) => {
                assert!(rt; !is_cut, "{bounds:?} is a cut of {rows} rows");
                assert_eq!(rt; fault, CutFault::NotACut);
            }
        }
    }
}
