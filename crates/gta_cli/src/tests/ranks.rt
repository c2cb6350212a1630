//! Aggregates of several totals over the top call.

use super::assert_runs;
use std::alloc::Global;
use std::test::Fail;

/// A job over columns a and b, from the lines that it has besides and the lines of its cells.
fn ranked_job(alloc: Global, lines: &[u8], cells: &[u8]) -> Result<Vec<u8>, Fail> {
    let mut input = Vec::from_slice(alloc, b"gta 2\ncolumns a b\n")?;
    input.extend_from_slice(lines)?;
    input.extend_from_slice(b"rows\na,b\n")?;
    input.extend_from_slice(cells)?;
    Ok(input)
}

// The lines of a job, its cells, and what is printed where.
#[test]
fn totals_one_after_the_other(rt: HostRuntime) -> Result<(), Fail> {
    let cases: [(&[u8], &[u8], &[u8], &[u8]); 10] = [
        (
            b"generate sublists\ntest length <= 1\naggregate max a then min b\n",
            b"3,1\n3,2\n1,0\n",
            b"answer 3 1\n",
            b"",
        ),
        (
            b"generate sublists\ntest length <= 1\naggregate best 2 max a then max b\n",
            b"3,1\n3,2\n1,0\n",
            b"answer 2\n1 3 2 2\n2 3 1 1\n",
            b"",
        ),
        (
            b"generate sublists\ntest length = 2\naggregate max a then min b\n",
            b"3,1\n",
            b"answer none\n",
            b"",
        ),
        (
            b"generate sublists\ntest length <= 1\naggregate max a then max b\n",
            b"0,4611686018427387903\n0,1\n",
            b"",
            b"refused 41: row 2: weight total past 4611686018427387903\n",
        ),
        (
            b"generate sublists\naggregate max a then min b\n",
            b"0,-4611686018427387903\n",
            b"answer 0 -4611686018427387903\n",
            b"",
        ),
        (
            b"generate sublists\nmeasure c = a + b\naggregate min a then max b then min c\n",
            b"-1,2\n-1,2\n1,5\n",
            b"answer -2 4 2\n",
            b"",
        ),
        (
            b"generate sublists\ntest length = 1\nmeasure c = 0 - a\n\
              aggregate best 3 max b then min c then min a\n",
            b"1,7\n2,7\n3,8\n",
            b"answer 3\n1 8 -3 3 3\n2 7 -2 2 2\n3 7 -1 1 1\n",
            b"",
        ),
        (
            b"generate sublists\naggregate best 4 max a then max b\n",
            b"0,0\n0,0\n",
            b"answer 4\n1 0 0 -\n2 0 0 1\n3 0 0 2\n4 0 0 1 2\n",
            b"",
        ),
        (
            b"labels P Q\ngenerate assign\nmeasure p = b if label P\naggregate best 3 min p then max a\n",
            b"1,1\n1,0\n",
            b"answer 3\n1 0 2 1:Q 2:P\n2 0 2 1:Q 2:Q\n3 1 2 1:P 2:P\n",
            b"",
        ),
        (
            b"generate segments\ntest length >= 1\naggregate best 2 min b then min a\n",
            b"1,-1\n0,2\n-1,-1\n",
            b"answer 2\n1 -1 -1 3\n2 -1 1 1\n",
            b"",
        ),
    ];
    for (lines, cells, out, err) in cases {
        let input = ranked_job(rt.alloc(), lines, cells)?;
        assert_runs(&rt, rt.alloc(), &[(input.as_slice(), out, err)])?;
    }
    Ok(())
}
