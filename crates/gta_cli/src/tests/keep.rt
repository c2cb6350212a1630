//! Named tests, `keep` and ranks over the top call: version 2 of the language.

use super::{SMOOTH, assert_runs, called};
use std::alloc::Global;
use std::fmt::Write;
use std::test::Fail;

const TWO_TESTS: &[u8] = b"gta 2\ncolumns v\ngenerate sublists\n\
      test few = length <= 1\ntest big = sum v >= 5\n";

/// A job over a column v with two named tests, from the lines that it has besides.
fn two_tests(alloc: Global, lines: &[u8], cells: &[u8]) -> Result<Vec<u8>, Fail> {
    let mut input = Vec::from_slice(alloc, TWO_TESTS)?;
    input.extend_from_slice(lines)?;
    input.extend_from_slice(b"rows\nv\n")?;
    input.extend_from_slice(cells)?;
    Ok(input)
}

// What is kept of the candidates over 1, 2 and 3, and what is printed where.
#[test]
fn what_is_kept(rt: HostRuntime) -> Result<(), Fail> {
    let cases: [(&[u8], &[u8], &[u8]); 12] = [
        (b"keep few or big\naggregate count\n", b"answer 6\n", b""),
        (
            b"keep few and not big\naggregate count\n",
            b"answer 4\n",
            b"",
        ),
        (
            b"keep not (few or big)\naggregate count\n",
            b"answer 2\n",
            b"",
        ),
        (b"aggregate count\n", b"answer 0\n", b""),
        (b"keep not not few\naggregate max v\n", b"answer 3\n", b""),
        (
            b"keep few and big or big and not few\naggregate min v\n",
            b"answer 5\n",
            b"",
        ),
        (
            b"keep few\naggregate best 1 max v\n",
            b"answer 1\n1 3 3\n",
            b"",
        ),
        (
            b"test length mod 2 = 0\nkeep big\naggregate count\n",
            b"answer 1\n",
            b"",
        ),
        (
            b"keep few and not few\naggregate any\n",
            b"answer no\n",
            b"",
        ),
        (
            b"keep few or huge\naggregate count\n",
            b"",
            b"refused 20: line 6: unknown name huge\n",
        ),
        (
            b"keep few or v\naggregate count\n",
            b"",
            b"refused 20: line 6: unknown name v\n",
        ),
        (
            b"keep few\naggregate max v then min v\n",
            b"answer 3 3\n",
            b"",
        ),
    ];
    for (lines, out, err) in cases {
        let input = two_tests(rt.alloc(), lines, b"1\n2\n3\n")?;
        assert_runs(&rt, rt.alloc(), &[(input.as_slice(), out, err)])?;
    }
    Ok(())
}

// What is listed, and where a test without bearing still counts for its keys and its negative values.
#[test]
fn what_has_no_bearing(rt: HostRuntime) -> Result<(), Fail> {
    let list = two_tests(
        rt.alloc(),
        b"keep big and not few\naggregate count\n",
        b"1\n2\n3\n",
    )?;
    let ended = called(&rt, rt.alloc(), &["list"], list.as_slice(), SMOOTH)?;
    assert_eq!(rt; ended.out.as_slice(), b"kept 2\n2 3\n1 2 3\n".as_slice());
    let negative = two_tests(rt.alloc(), b"keep few\naggregate count\n", b"-1\n")?;
    let many = two_tests(
        rt.alloc(),
        b"test m = length mod 1024 = 0\nkeep few\naggregate count\n",
        b"1\n",
    )?;
    assert_runs(
        &rt,
        rt.alloc(),
        &[
            (
                negative.as_slice(),
                b"",
                b"refused 40: test 2, row 1: value -1 is negative\n",
            ),
            (many.as_slice(), b"", b"refused 42: 21504 keys past 8192\n"),
        ],
    )
}

// A specification, and its first refusal.
#[test]
fn refusals_of_version_2(rt: HostRuntime) -> Result<(), Fail> {
    let cases: [(&[u8], &[u8]); 16] = [
        (
            b"gta 1\ncolumns v\ngenerate sublists\ntest few = length <= 1\nrows\n",
            b"refused 12: line 4: not in the grammar\n",
        ),
        (
            b"gta 1\ncolumns v\nkeep v\nrows\n",
            b"refused 12: line 3: not in the grammar\n",
        ),
        (
            b"gta 1\ncolumns v\ngenerate sublists\naggregate max v then min v\nrows\n",
            b"refused 12: line 4: not in the grammar\n",
        ),
        (
            b"gta 2\ncolumns keep\nrows\n",
            b"refused 12: line 2: not in the grammar\n",
        ),
        (
            b"gta 2\ncolumns v\nkeep v or\nrows\n",
            b"refused 12: line 3: not in the grammar\n",
        ),
        (
            b"gta 2\ncolumns v\nkeep (v\nrows\n",
            b"refused 12: line 3: not in the grammar\n",
        ),
        (
            b"gta 2\ncolumns v\nkeep v)\nrows\n",
            b"refused 12: line 3: not in the grammar\n",
        ),
        (
            b"gta 2\ncolumns v\nkeep\nrows\n",
            b"refused 12: line 3: not in the grammar\n",
        ),
        (
            b"gta 2\naggregate max v then max v then min v then max v\nrows\n",
            b"refused 12: line 2: not in the grammar\n",
        ),
        (
            b"gta 4\nrows\n",
            b"refused 11: line 1: not a known gta version\n",
        ),
        (
            b"gta 02\nrows\n",
            b"refused 11: line 1: not a known gta version\n",
        ),
        (
            b"gta 2\ncolumns v\ngenerate sublists\ntest v = length <= 1\naggregate count\nrows\n",
            b"refused 21: line 4: name v declared twice\n",
        ),
        (
            b"gta 2\ncolumns v\ngenerate sublists\ntest a = length <= 1\nkeep a\nkeep a\naggregate count\nrows\n",
            b"refused 23: line 6: second part keep\n",
        ),
        (
            b"gta 2\ncolumns v\ngenerate sublists\naggregate max v then min w\nrows\n",
            b"refused 20: line 4: unknown name w\n",
        ),
        (
            b"gta 2\ncolumns v\ngenerate sublists\naggregate best 0 max v then min v\nrows\n",
            b"refused 25: line 4: limit k\n",
        ),
        (
            b"gta 2\ncolumns v\ngenerate sublists\ntest a = sum v <= 9999\naggregate count\nrows\n",
            b"refused 25: line 4: limit bound\n",
        ),
    ];
    for (input, err) in cases {
        let ended = called(&rt, rt.alloc(), &["show"], input, SMOOTH)?;
        assert_eq!(rt; ended.err.as_slice(), err, "at {input:?}");
    }
    Ok(())
}

// An expression, and how it is shown; that text shows as itself.
#[test]
fn expressions_are_shown_with_the_fewest_parentheses(rt: HostRuntime) -> Result<(), Fail> {
    let cases: [(&str, &str); 12] = [
        ("not ( few or(big) )", "not (few or big)"),
        ("((few))", "few"),
        ("(few and big) and few", "few and big and few"),
        ("few and (big and few)", "few and (big and few)"),
        ("(few or big) or few", "few or big or few"),
        ("few or (big or few)", "few or (big or few)"),
        ("few or (big and few)", "few or big and few"),
        ("(few or big) and few", "(few or big) and few"),
        ("few and (big or few)", "few and (big or few)"),
        ("not (not (few))", "not not few"),
        ("not (few and big)", "not (few and big)"),
        (
            "(not few) and not big or (few)",
            "not few and not big or few",
        ),
    ];
    for (written, shown) in cases {
        let mut out = String::new(rt.alloc());
        write!(
            out,
            "gta 2\ncolumns v\ngenerate sublists\ntest few = length <= 1\n"
        )?;
        write!(
            out,
            "test big = sum v >= 5\nkeep {shown}\naggregate best 3 max v then min v\nrows\n"
        )?;
        for text in [written, shown] {
            let mut lines = String::new(rt.alloc());
            write!(lines, "keep {text}\naggregate best 3 max v then min v\n")?;
            let input = two_tests(rt.alloc(), lines.as_bytes(), b"")?;
            let ended = called(&rt, rt.alloc(), &["show"], input.as_slice(), SMOOTH)?;
            assert_eq!(rt; ended.out.as_slice(), out.as_bytes(), "at {text}");
        }
    }
    Ok(())
}

// How many names, and how many parentheses or `not` around one, a line may have at most.
#[test]
fn the_largest_expressions(rt: HostRuntime) -> Result<(), Fail> {
    for (count, kept) in [(64, true), (65, false)] {
        let mut line = String::new(rt.alloc());
        line.push_str("few")?;
        for _ in 1..count {
            line.push_str(" or few")?;
        }
        assert_shown(&rt, rt.alloc(), line.as_str(), kept)?;
    }
    for (depth, kept) in [(32, true), (33, false)] {
        for (open, close) in [("(", ")"), ("not ", "")] {
            let mut line = String::new(rt.alloc());
            for _ in 0..depth {
                line.push_str(open)?;
            }
            line.push_str("few")?;
            for _ in 0..depth {
                line.push_str(close)?;
            }
            assert_shown(&rt, rt.alloc(), line.as_str(), kept)?;
        }
    }
    Ok(())
}

/// Whether a specification with this expression is shown, or its line is not in the grammar.
fn assert_shown<R: std::thread::Threads + std::process::Abort + Sync>(
    rt: &R,
    alloc: Global,
    expression: &str,
    shown: bool,
) -> Result<(), Fail> {
    let mut lines = String::new(alloc);
    write!(lines, "keep {expression}\naggregate count\n")?;
    let input = two_tests(alloc, lines.as_bytes(), b"")?;
    let ended = called(rt, alloc, &["show"], input.as_slice(), SMOOTH)?;
    let err: &[u8] = if shown {
        b""
    } else {
        b"refused 12: line 6: not in the grammar\n"
    };
    assert_eq!(rt; ended.err.as_slice(), err, "at {expression}");
    Ok(())
}
