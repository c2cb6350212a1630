//! Measures, labels, tests and aggregates over the top call.

use super::{SMOOTH, assert_jobs, assert_runs, called, job_of};
use std::test::Fail;

// The lines of a job, the cells, and what is printed where.
#[test]
fn each_aggregate(rt: HostRuntime) -> Result<(), Fail> {
    assert_jobs(
        &rt,
        rt.alloc(),
        &[
            (
                b"generate sublists\naggregate max v\n",
                b"",
                b"answer 0\n",
                b"",
            ),
            (
                b"generate sublists\naggregate min v\n",
                b"3\n-1\n4\n-5\n",
                b"answer -6\n",
                b"",
            ),
            (
                b"generate sublists\nmeasure one = 1\ntest sum one >= 1\naggregate max v\n",
                b"",
                b"answer none\n",
                b"",
            ),
            (
                b"generate sublists\nmeasure one = 1\ntest sum one >= 1\naggregate min v\n",
                b"",
                b"answer none\n",
                b"",
            ),
            (
                b"generate sublists\nmeasure one = 1\ntest sum one >= 1\naggregate min v\n",
                b"5\n3\n",
                b"answer 3\n",
                b"",
            ),
            (
                b"generate sublists\nmeasure one = 1\ntest sum one = 3\naggregate count\n",
                b"1\n1\n1\n1\n1\n1\n1\n1\n1\n1\n",
                b"answer 120\n",
                b"",
            ),
            (
                b"generate prefixes\naggregate any\n",
                b"",
                b"answer yes\n",
                b"",
            ),
            (
                b"generate prefixes\nmeasure one = 1\ntest sum one >= 1\naggregate any\n",
                b"",
                b"answer no\n",
                b"",
            ),
            (
                b"generate sublists\ntest sum v = 4\naggregate any\n",
                b"3\n2\n",
                b"answer no\n",
                b"",
            ),
            (
                b"generate sublists\ntest sum v = 5\naggregate any\n",
                b"3\n2\n",
                b"answer yes\n",
                b"",
            ),
        ],
    )
}

// The number of rows, each a 1, and the number of their sublists.
#[test]
fn counts_at_the_cap(rt: HostRuntime) -> Result<(), Fail> {
    let cases: [(u32, &[u8]); 2] = [
        (63, b"answer 9223372036854775808\n"),
        (64, b"answer 18446744073709551615 or more\n"),
    ];
    for (count, out) in cases {
        let mut input = job_of(rt.alloc(), b"generate sublists\naggregate count\n", b"")?;
        for _ in 0..count {
            input.extend_from_slice(b"1\n")?;
        }
        let ended = called(&rt, rt.alloc(), &["run"], input.as_slice(), SMOOTH)?;
        assert_eq!(rt; ended.out.as_slice(), out, "output at {count}");
    }
    Ok(())
}

// The test, the cells, and what is printed where.
#[test]
fn sums_that_are_compared(rt: HostRuntime) -> Result<(), Fail> {
    assert_jobs(
        &rt,
        rt.alloc(),
        &[
            (
                b"generate sublists\ntest sum v <= 5\naggregate max v\n",
                b"3\n4\n2\n",
                b"answer 5\n",
                b"",
            ),
            (
                b"generate sublists\ntest sum v <= 0\naggregate max v\n",
                b"0\n1\n",
                b"answer 0\n",
                b"",
            ),
            (
                b"generate sublists\ntest sum v <= 8190\naggregate max v\n",
                b"8191\n8190\n",
                b"answer 8190\n",
                b"",
            ),
            (
                b"generate sublists\ntest sum v >= 2\naggregate count\n",
                b"1\n1\n1\n",
                b"answer 4\n",
                b"",
            ),
            (
                b"generate sublists\ntest sum v = 2\naggregate count\n",
                b"1\n1\n1\n",
                b"answer 3\n",
                b"",
            ),
            (
                b"generate sublists\ntest sum v <= 2\naggregate count\n",
                b"1\n1\n1\n",
                b"answer 7\n",
                b"",
            ),
            (
                b"generate sublists\ntest sum v >= 2\naggregate max v\n",
                b"1\n1\n1\n",
                b"answer 3\n",
                b"",
            ),
            (
                b"generate sublists\ntest sum v = 2\naggregate max v\n",
                b"1\n1\n1\n",
                b"answer 2\n",
                b"",
            ),
            (
                b"generate sublists\ntest sum v <= 2\naggregate max v\n",
                b"1\n1\n1\n",
                b"answer 2\n",
                b"",
            ),
            (
                b"test sum v <= 8190\ngenerate sublists\naggregate count\n",
                b"1\n",
                b"answer 2\n",
                b"",
            ),
            (
                b"test sum v <= 8191\ngenerate sublists\naggregate count\n",
                b"1\n",
                b"",
                b"refused 25: line 3: limit bound\n",
            ),
            (
                b"generate sublists\ntest sum v >= 8190\naggregate max v\n",
                b"4611686018427387903\n",
                b"answer 4611686018427387903\n",
                b"",
            ),
            (
                b"generate sublists\ntest sum v <= 8191\naggregate max v\n",
                b"1\n",
                b"",
                b"refused 25: line 4: limit bound\n",
            ),
        ],
    )
}

// Forms by cases, labels, and what the labels of a row may weigh.
#[test]
fn measures_and_labels(rt: HostRuntime) -> Result<(), Fail> {
    assert_jobs(
        &rt,
        rt.alloc(),
        &[
            (
                b"generate sublists\nmeasure m = 2*v - 1 if v >= 2 ; 10 if v = 1\naggregate max m\n",
                b"3\n1\n0\n",
                b"answer 15\n",
                b"",
            ),
            (
                b"labels A B\ngenerate assign\nmeasure onA = v if label A\n\
                  test sum onA = 3\naggregate count\n",
                b"1\n2\n3\n",
                b"answer 2\n",
                b"",
            ),
            (
                b"labels A B\ngenerate assign\nmeasure onA = v if label A\n\
                  test sum onA = 3\naggregate max onA\n",
                b"1\n2\n3\n",
                b"answer 3\n",
                b"",
            ),
            (
                b"labels A B\ngenerate assign\nmeasure onA = v if label A\naggregate max onA\n",
                b"1\n2\n3\n",
                b"answer 6\n",
                b"",
            ),
            (
                b"labels A B\ngenerate assign\nmeasure m = v if label A and v <= 1 ; 5 if label B\n\
                  aggregate min m\n",
                b"1\n-2\n3\n",
                b"answer -1\n",
                b"",
            ),
            (
                b"labels A B\ngenerate assign\nmeasure m = 4611686018427387903 if label B ; v\n\
                  aggregate max m\n",
                b"1\n",
                b"answer 4611686018427387903\n",
                b"",
            ),
            (
                b"labels A B\ngenerate assign\nmeasure m = 4611686018427387903 if label B ; v\n\
                  aggregate max m\n",
                b"0\n1\n",
                b"",
                b"refused 41: row 2: weight total past 4611686018427387903\n",
            ),
            (
                b"generate sublists\naggregate count\n",
                b"4611686018427387903\n4611686018427387903\n",
                b"answer 4\n",
                b"",
            ),
        ],
    )
}

// The first of these refusals comes: a negative value before a weight past the bound.
#[test]
fn values_that_are_refused(rt: HostRuntime) -> Result<(), Fail> {
    assert_jobs(
        &rt,
        rt.alloc(),
        &[
            (
                b"generate sublists\ntest sum v <= 5\naggregate count\n",
                b"-3\n",
                b"",
                b"refused 40: test 1, row 1: value -3 is negative\n",
            ),
            (
                b"generate sublists\ntest sum v <= 5\naggregate max v\n",
                b"4611686018427387903\n1\n-2\n",
                b"",
                b"refused 40: test 1, row 3: value -2 is negative\n",
            ),
            (
                b"generate sublists\ntest sum v <= 5\naggregate max v\n",
                b"-3\n",
                b"",
                b"refused 40: test 1, row 1: value -3 is negative\n",
            ),
            (
                b"labels A B\ngenerate assign\nmeasure cost = 3*v if label B\n\
                  test sum cost <= 5\naggregate count\n",
                b"1\n-2\n",
                b"",
                b"refused 40: test 1, row 2, label B: value -6 is negative\n",
            ),
            (
                b"labels A B\ngenerate assign\nmeasure cost = v\n\
                  test sum cost <= 5\naggregate count\n",
                b"-1\n",
                b"",
                b"refused 40: test 1, row 1, label A: value -1 is negative\n",
            ),
        ],
    )
}

// Tests that pass candidates of one measure, and the greatest total of another.
#[test]
fn a_test_of_one_column_and_the_total_of_another(rt: HostRuntime) -> Result<(), Fail> {
    assert_runs(
        &rt,
        rt.alloc(),
        &[
            (
                b"gta 1\ncolumns weight value\ngenerate sublists\ntest sum weight <= 50\n\
                  aggregate max value\nrows\nweight,value\n10,60\n20,100\n30,120\n",
                b"answer 220\n",
                b"",
            ),
            (
                b"gta 1\ncolumns weight value\ngenerate sublists\ntest sum weight >= 50\n\
                  aggregate min value\nrows\nvalue,weight\n60,10\n100,20\n120,30\n",
                b"answer 220\n",
                b"",
            ),
        ],
    )
}
