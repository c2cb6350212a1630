//! Tests by remainder, tests of length, folds over a table, and several tests together, over the top call.

use super::assert_jobs;
use std::alloc::Global;
use std::fmt::Write;
use std::process::Abort;
use std::test::Fail;
use std::thread::Threads;

/// Whether the number of marks is even or odd.
const PARITY: &[u8] = b"table t unit e elements e a\ntimes t e = e a\ntimes t a = a e\n";

/// The first element that is no unit decides. Here a b isn't b a.
const FIRST: &[u8] =
    b"table t unit e elements e a b\ntimes t e = e a b\ntimes t a = a a a\ntimes t b = b b b\n";

/// The lines of a job besides those of its table, its cells, and what is printed to the output.
fn assert_folds<R: Threads + Abort + Sync>(
    rt: &R,
    alloc: Global,
    table: &[u8],
    cases: &[(&[u8], &[u8], &[u8])],
) -> Result<(), Fail> {
    for (rest, cells, out) in cases {
        let mut lines = Vec::from_slice(alloc, table)?;
        lines.extend_from_slice(rest)?;
        assert_jobs(rt, alloc, &[(lines.as_slice(), *cells, *out, b"")])?;
    }
    Ok(())
}

// The lines of a job, the cells, and what is printed where. A remainder is never negative.
#[test]
fn sums_by_remainder(rt: HostRuntime) -> Result<(), Fail> {
    assert_jobs(
        &rt,
        rt.alloc(),
        &[
            (
                b"generate sublists\ntest sum v mod 3 = 0\naggregate count\n",
                b"1\n2\n3\n4\n5\n",
                b"answer 12\n",
                b"",
            ),
            (
                b"generate sublists\ntest sum v mod 3 = 0\naggregate max v\n",
                b"1\n2\n3\n4\n5\n",
                b"answer 15\n",
                b"",
            ),
            (
                b"generate sublists\ntest sum v mod 2 = 1\naggregate count\n",
                b"-3\n",
                b"answer 1\n",
                b"",
            ),
            (
                b"generate sublists\ntest sum v mod 2 = 1\naggregate count\n",
                b"1\n",
                b"answer 1\n",
                b"",
            ),
            (
                b"generate sublists\ntest sum v mod 8192 = 1\naggregate count\n",
                b"1\n",
                b"answer 1\n",
                b"",
            ),
            (
                b"generate prefixes\ntest sum v mod 5 = 2\naggregate min v\n",
                b"-3\n5\n-10\n",
                b"answer -8\n",
                b"",
            ),
            (
                b"generate segments\ntest sum v mod 2 = 0\naggregate count\n",
                b"1\n1\n1\n",
                b"answer 3\n",
                b"",
            ),
            (
                b"generate sublists\ntest sum v mod 2 = 1\naggregate count\n",
                b"x\n",
                b"",
                b"refused 35: row 1, column v: not a whole number within 4611686018427387903\n",
            ),
        ],
    )
}

#[test]
fn lengths(rt: HostRuntime) -> Result<(), Fail> {
    assert_jobs(
        &rt,
        rt.alloc(),
        &[
            (
                b"generate sublists\ntest length = 3\naggregate count\n",
                b"1\n1\n1\n1\n1\n1\n1\n1\n1\n1\n",
                b"answer 120\n",
                b"",
            ),
            (
                b"generate sublists\ntest length = 3\naggregate max v\n",
                b"1\n1\n1\n1\n1\n1\n1\n1\n1\n1\n",
                b"answer 3\n",
                b"",
            ),
            (
                b"generate sublists\ntest length >= 1\naggregate max v\n",
                b"",
                b"answer none\n",
                b"",
            ),
            (
                b"generate sublists\ntest length >= 1\naggregate max v\n",
                b"-1\n",
                b"answer -1\n",
                b"",
            ),
            (
                b"generate prefixes\ntest length >= 1\naggregate any\n",
                b"",
                b"answer no\n",
                b"",
            ),
            (
                b"generate suffixes\ntest length mod 2 = 1\naggregate count\n",
                b"1\n1\n1\n",
                b"answer 2\n",
                b"",
            ),
            (
                b"generate segments\ntest length <= 1\naggregate max v\n",
                b"3\n-1\n4\n",
                b"answer 4\n",
                b"",
            ),
            (
                b"labels A B\ngenerate assign\ntest length = 2\naggregate count\n",
                b"1\n2\n",
                b"answer 4\n",
                b"",
            ),
        ],
    )
}

// Each test has its own number in a refusal, and the sizes of all of them make the number of keys.
#[test]
fn several_tests(rt: HostRuntime) -> Result<(), Fail> {
    assert_jobs(
        &rt,
        rt.alloc(),
        &[
            (
                b"generate sublists\ntest sum v <= 1\ntest sum v >= 1\naggregate count\n",
                b"1\n1\n",
                b"answer 2\n",
                b"",
            ),
            (
                b"generate sublists\ntest length mod 2 = 0\ntest sum v >= 5\ntest sum v <= 5\n\
                  aggregate count\n",
                b"1\n2\n3\n4\n",
                b"answer 2\n",
                b"",
            ),
            (
                b"generate sublists\ntest sum v mod 2 = 0\ntest length = 2\naggregate max v\n",
                b"1\n2\n3\n4\n",
                b"answer 6\n",
                b"",
            ),
            (
                b"generate sublists\ntest sum v <= 1\ntest sum v >= 1\naggregate any\n",
                b"-1\n",
                b"",
                b"refused 40: test 1, row 1: value -1 is negative\n",
            ),
            (
                b"generate sublists\ntest sum v mod 2 = 1\ntest sum v <= 5\naggregate any\n",
                b"2\n-1\n",
                b"",
                b"refused 40: test 2, row 2: value -1 is negative\n",
            ),
            (
                b"generate sublists\ntest length mod 8192 = 0\naggregate count\n",
                b"1\n",
                b"answer 1\n",
                b"",
            ),
            (
                b"generate sublists\ntest length mod 8192 = 0\ntest length mod 2 = 0\naggregate count\n",
                b"1\n",
                b"",
                b"refused 42: 16384 keys past 8192\n",
            ),
            (
                b"generate sublists\ntest sum v <= 100\ntest sum v >= 100\naggregate count\n",
                b"1\n",
                b"",
                b"refused 42: 10404 keys past 8192\n",
            ),
            (
                b"generate sublists\ntest sum v <= 4095\ntest length mod 2 = 0\naggregate count\n",
                b"1\n",
                b"",
                b"refused 42: 8194 keys past 8192\n",
            ),
            (
                b"generate sublists\ntest sum v <= 100\ntest sum v >= 100\naggregate max v\n",
                b"1\n",
                b"",
                b"refused 42: 10404 keys past 8192\n",
            ),
            (
                b"generate sublists\ntest sum v <= 90\ntest length <= 90\naggregate count\n",
                b"",
                b"",
                b"refused 42: 8464 keys past 8192\n",
            ),
            (
                b"generate sublists\ntest sum v <= 100\ntest sum v >= 100\naggregate max v\n",
                b"4611686018427387903\n1\n",
                b"",
                b"refused 41: row 2: weight total past 4611686018427387903\n",
            ),
        ],
    )
}

// What the marks are folded to. A mark that no pick takes is the unit.
#[test]
fn folds_over_a_table(rt: HostRuntime) -> Result<(), Fail> {
    assert_folds(
        &rt,
        rt.alloc(),
        PARITY,
        &[
            (
                b"generate sublists\ntest fold t by a accept a\naggregate count\n",
                b"5\n6\n7\n",
                b"answer 4\n",
            ),
            (
                b"generate sublists\ntest fold t by a accept e\naggregate count\n",
                b"5\n6\n7\n",
                b"answer 4\n",
            ),
            (
                b"generate sublists\ntest fold t by a accept e\naggregate max v\n",
                b"5\n6\n7\n",
                b"answer 13\n",
            ),
            (
                b"generate sublists\ntest fold t by a accept e a\naggregate max v\n",
                b"5\n-6\n7\n",
                b"answer 12\n",
            ),
            (
                b"generate segments\ntest fold t by a accept e\ntest length >= 1\naggregate min v\n",
                b"5\n6\n7\n",
                b"answer 11\n",
            ),
            (
                b"generate sublists\ntest sum v mod 2 = 1\ntest sum v mod 3 = 0\ntest sum v <= 12\n\
                  test length mod 1 = 0\ntest length mod 2 = 1\ntest length <= 3\ntest length >= 2\n\
                  test fold t by a accept a\naggregate best 4 max v\n",
                b"1\n2\n3\n4\n5\n6\n",
                b"answer 3\n1 9 1 2 6\n2 9 1 3 5\n3 9 2 3 4\n",
            ),
            (
                b"labels A B\ngenerate assign\ntest fold t by a if label B and v >= 2 accept a\n\
                  measure onB = v if label B\naggregate best 2 max onB\n",
                b"1\n2\n3\n",
                b"answer 2\n1 4 1:B 2:A 3:B\n2 3 1:A 2:A 3:B\n",
            ),
        ],
    )?;
    assert_folds(
        &rt,
        rt.alloc(),
        FIRST,
        &[
            (
                b"generate sublists\ntest fold t by a if v <= 3 ; b accept a\naggregate count\n",
                b"5\n1\n",
                b"answer 1\n",
            ),
            (
                b"generate sublists\ntest fold t by a if v <= 3 ; b accept b e\naggregate count\n",
                b"5\n1\n",
                b"answer 3\n",
            ),
            (
                b"generate sublists\ntest fold t by a if v <= 1 ; b if v >= 5 accept b\naggregate count\n",
                b"3\n5\n1\n",
                b"answer 4\n",
            ),
        ],
    )
}

/// A table of 64 elements. A product without the unit m0 is m1, but for m63 m63, which is the square, and m62 m63,
/// which is the other.
fn table_of_64(alloc: Global, square: u32, other: u32) -> Result<String, Fail> {
    let mut text = String::from_str(alloc, "table t unit m0 elements")?;
    for b in 0..64u32 {
        write!(text, " m{b}")?;
    }
    for a in 0..64u32 {
        write!(text, "\ntimes t m{a} =")?;
        for b in 0..64u32 {
            let product = match (a, b) {
                (0, _) => b,
                (_, 0) => a,
                (63, 63) => square,
                (62, 63) => other,
                _ => 1,
            };
            write!(text, " m{product}")?;
        }
    }
    text.push_str("\ngenerate sublists\ntest fold t by m63 accept m1\naggregate count\n")?;
    Ok(text)
}

// The products of m63 m63 and of m62 m63, and what is printed where. At last the law fails at the last triple alone.
#[test]
fn tables_of_64_elements(rt: HostRuntime) -> Result<(), Fail> {
    let cases: [(u32, u32, &[u8], &[u8]); 3] = [
        (1, 1, b"answer 4\n", b""),
        (62, 1, b"answer 1\n", b""),
        (
            62,
            2,
            b"",
            b"refused 27: table t: not associative at m63 m63 m63\n",
        ),
    ];
    for (square, other, out, err) in cases {
        let lines = table_of_64(rt.alloc(), square, other)?;
        assert_jobs(
            &rt,
            rt.alloc(),
            &[(lines.as_bytes(), b"1\n1\n1\n", out, err)],
        )?;
    }
    Ok(())
}
