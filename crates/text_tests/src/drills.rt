//! Whole texts, worked out by hand.

use drill_texts::{Drill, drill_text, heading};
use std::test::Fail;

#[test]
fn whole_texts(rt: HostRuntime) -> Result<(), Fail> {
    let cases: [(Drill, u32, u32, &[u8]); 5] = [
        (
            Drill::Best,
            7,
            3,
            b"gta 1\ncolumns weight value\ngenerate sublists\ntest sum weight <= 100\n\
              aggregate best 3 max value\nrows\nweight,value\n2,34\n9,48\n3,64\n",
        ),
        (
            Drill::Greatest,
            7,
            1,
            b"gta 1\ncolumns weight value\ngenerate sublists\ntest sum weight <= 1000\n\
              aggregate max value\nrows\nweight,value\n2,34\n",
        ),
        (
            Drill::Segments,
            7,
            2,
            b"gta 1\ncolumns weight value\ngenerate segments\ntest length >= 1\n\
              aggregate count\nrows\nweight,value\n2,34\n9,48\n",
        ),
        (
            Drill::Segments,
            7,
            0,
            b"gta 1\ncolumns weight value\ngenerate segments\ntest length >= 1\n\
              aggregate count\nrows\nweight,value\n",
        ),
        (
            Drill::Segments,
            4294967295,
            2,
            b"gta 1\ncolumns weight value\ngenerate segments\ntest length >= 1\n\
              aggregate count\nrows\nweight,value\n3,12\n10,26\n",
        ),
    ];
    for (drill, seed, rows, text) in cases {
        let made = drill_text(rt.alloc(), drill, seed, rows)?;
        assert_eq!(rt; made.as_slice(), text, "at {drill:?} {seed} {rows}");
    }
    Ok(())
}

#[test]
fn headings(rt: HostRuntime) -> Result<(), Fail> {
    let cases: [(u32, u32, &[u8]); 2] = [
        (7, 3, b"drill 7 3\n"),
        (4294967295, 20000, b"drill 4294967295 20000\n"),
    ];
    for (seed, rows, line) in cases {
        let made = heading(rt.alloc(), seed, rows)?;
        assert_eq!(rt; made.as_slice(), line, "at {seed} {rows}");
    }
    Ok(())
}
