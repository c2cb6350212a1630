//! What each shape generates, over the top call.

use super::{assert_jobs, assert_runs, job_of};
use std::test::Fail;

// The number of candidates of none, one and three rows.
#[test]
fn candidates_of_each_shape(rt: HostRuntime) -> Result<(), Fail> {
    let cases: [(&[u8], [&[u8]; 3]); 6] = [
        (
            b"generate sublists\n",
            [b"answer 1\n", b"answer 2\n", b"answer 8\n"],
        ),
        (
            b"generate prefixes\n",
            [b"answer 1\n", b"answer 2\n", b"answer 4\n"],
        ),
        (
            b"generate suffixes\n",
            [b"answer 1\n", b"answer 2\n", b"answer 4\n"],
        ),
        (
            b"generate segments\n",
            [b"answer 1\n", b"answer 2\n", b"answer 7\n"],
        ),
        (
            b"labels A B C\ngenerate assign\n",
            [b"answer 1\n", b"answer 3\n", b"answer 27\n"],
        ),
        (
            b"labels A B C D E F G H I J K L M N O P\ngenerate assign\n",
            [b"answer 1\n", b"answer 16\n", b"answer 4096\n"],
        ),
    ];
    for (shape, answers) in cases {
        let mut lines = Vec::from_slice(rt.alloc(), shape)?;
        lines.extend_from_slice(b"aggregate count\n")?;
        let tables: [&[u8]; 3] = [b"", b"1\n", b"1\n1\n1\n"];
        for (cells, answer) in tables.into_iter().zip(answers) {
            let input = job_of(rt.alloc(), lines.as_slice(), cells)?;
            assert_runs(&rt, rt.alloc(), &[(input.as_slice(), answer, b"")])?;
        }
    }
    Ok(())
}

// Where only the empty candidate could have total 0, and where it does not pass.
#[test]
fn totals_of_runs(rt: HostRuntime) -> Result<(), Fail> {
    let long: &[u8] = b"-2\n1\n-3\n4\n-1\n2\n1\n-5\n4\n";
    assert_jobs(
        &rt,
        rt.alloc(),
        &[
            (
                b"generate segments\naggregate max v\n",
                long,
                b"answer 6\n",
                b"",
            ),
            (
                b"generate segments\naggregate min v\n",
                long,
                b"answer -5\n",
                b"",
            ),
            (
                b"generate segments\naggregate max v\n",
                b"-3\n-1\n",
                b"answer 0\n",
                b"",
            ),
            (
                b"generate segments\nmeasure one = 1\ntest sum one >= 1\naggregate max v\n",
                b"-3\n-1\n",
                b"answer -1\n",
                b"",
            ),
            (
                b"generate segments\nmeasure one = 1\ntest sum one = 2\naggregate max v\n",
                long,
                b"answer 3\n",
                b"",
            ),
            (
                b"generate prefixes\naggregate max v\n",
                b"1\n-2\n4\n-5\n",
                b"answer 3\n",
                b"",
            ),
            (
                b"generate suffixes\naggregate max v\n",
                b"-5\n4\n-2\n",
                b"answer 2\n",
                b"",
            ),
            (
                b"generate suffixes\naggregate min v\n",
                b"3\n-2\n1\n",
                b"answer -1\n",
                b"",
            ),
            (
                b"generate suffixes\nmeasure one = 1\ntest sum one = 3\naggregate min v\n",
                b"3\n-2\n1\n",
                b"answer 2\n",
                b"",
            ),
        ],
    )
}
