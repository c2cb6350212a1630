//! The best candidates over the top call.

use super::{assert_jobs, assert_runs};
use std::test::Fail;

// The lines of a job, the cells, and what is printed: equal totals stand shorter first, then by the first mark.
#[test]
fn best_of_each_shape(rt: HostRuntime) -> Result<(), Fail> {
    assert_jobs(
        &rt,
        rt.alloc(),
        &[
            (
                b"generate sublists\naggregate best 3 max v\n",
                b"0\n0\n",
                b"answer 3\n1 0 -\n2 0 1\n3 0 2\n",
                b"",
            ),
            (
                b"generate sublists\ntest sum v <= 3\naggregate best 3 max v\n",
                b"1\n2\n3\n",
                b"answer 3\n1 3 3\n2 3 1 2\n3 2 2\n",
                b"",
            ),
            (
                b"generate sublists\ntest length >= 1\naggregate best 2 max v\n",
                b"",
                b"answer 0\n",
                b"",
            ),
            (
                b"generate sublists\naggregate best 64 max v\n",
                b"1\n",
                b"answer 2\n1 1 1\n2 0 -\n",
                b"",
            ),
            (
                b"generate sublists\ntest length mod 2 = 1\naggregate best 2 min v\n",
                b"3\n-1\n-2\n",
                b"answer 2\n1 -2 3\n2 -1 2\n",
                b"",
            ),
            (
                b"generate segments\naggregate best 1 max v\n",
                b"-2\n1\n-3\n4\n-1\n2\n1\n-5\n4\n",
                b"answer 1\n1 6 4 5 6 7\n",
                b"",
            ),
            (
                b"generate segments\naggregate best 4 min v\n",
                b"-1\n0\n2\n",
                b"answer 4\n1 -1 1\n2 -1 1 2\n3 0 -\n4 0 2\n",
                b"",
            ),
            (
                b"generate prefixes\naggregate best 1 max v\n",
                b"1\n",
                b"answer 1\n1 1 1\n",
                b"",
            ),
            (
                b"generate prefixes\naggregate best 2 min v\n",
                b"1\n-2\n4\n",
                b"answer 2\n1 -1 1 2\n2 0 -\n",
                b"",
            ),
            (
                b"generate suffixes\naggregate best 2 max v\n",
                b"-5\n4\n-2\n",
                b"answer 2\n1 2 2 3\n2 0 -\n",
                b"",
            ),
            (
                b"generate suffixes\naggregate best 5 min v\n",
                b"1\n",
                b"answer 2\n1 0 -\n2 1 1\n",
                b"",
            ),
        ],
    )
}

// The same where each row takes a label. Labels are compared by the order in which they are declared.
#[test]
fn best_by_labels(rt: HostRuntime) -> Result<(), Fail> {
    assert_jobs(
        &rt,
        rt.alloc(),
        &[
            (
                b"labels A B\ngenerate assign\nmeasure onA = v if label A\naggregate best 1 max onA\n",
                b"1\n2\n3\n",
                b"answer 1\n1 6 1:A 2:A 3:A\n",
                b"",
            ),
            (
                b"labels A B\ngenerate assign\nmeasure onA = v if label A\naggregate best 3 max onA\n",
                b"1\n2\n3\n",
                b"answer 3\n1 6 1:A 2:A 3:A\n2 5 1:B 2:A 3:A\n3 4 1:A 2:B 3:A\n",
                b"",
            ),
            (
                b"labels A B\ngenerate assign\nmeasure onA = v if label A\ntest sum onA = 3\n\
                  aggregate best 3 min v\n",
                b"1\n2\n3\n",
                b"answer 2\n1 6 1:A 2:A 3:B\n2 6 1:B 2:B 3:A\n",
                b"",
            ),
            (
                b"labels Z A\ngenerate assign\naggregate best 4 max v\n",
                b"2\n",
                b"answer 2\n1 2 1:Z\n2 2 1:A\n",
                b"",
            ),
            (
                b"labels Z A\ngenerate assign\naggregate best 4 max v\n",
                b"",
                b"answer 1\n1 0 -\n",
                b"",
            ),
        ],
    )
}

// Two columns, and headers with quotes behind a mark.
#[test]
fn best_of_a_bounded_weight(rt: HostRuntime) -> Result<(), Fail> {
    assert_runs(
        &rt,
        rt.alloc(),
        &[
            (
                b"gta 1\ncolumns weight value\ngenerate sublists\ntest sum weight <= 50\n\
                  aggregate best 2 max value\nrows\nweight,value\n10,60\n20,100\n30,120\n",
                b"answer 2\n1 220 2 3\n2 180 1 3\n",
                b"",
            ),
            (
                b"gta 1\ncolumns weight=\"Weight, kg\" value=\"Price\"\ngenerate sublists\n\
                  test sum weight <= 50\naggregate best 2 max value\nrows\n\
                  \xef\xbb\xbfItem,Price,\"Weight, kg\",Note\r\nTent,120,30,\r\n\
                  \"Stove \"\"S\"\"\",60,10,old\r\nRope, 100 ,20,\r\n",
                b"answer 2\n1 220 1 3\n2 180 1 2\n",
                b"",
            ),
        ],
    )
}

// A size is the shape's width by the keys, by k and by the rows, where the best are asked for.
#[test]
fn best_that_is_refused(rt: HostRuntime) -> Result<(), Fail> {
    assert_jobs(
        &rt,
        rt.alloc(),
        &[
            (
                b"generate sublists\naggregate best 1 max v\n",
                b"4611686018427387903\n1\n",
                b"",
                b"refused 41: row 2: weight total past 4611686018427387903\n",
            ),
            (
                b"generate segments\ntest sum v mod 8192 = 0\naggregate best 64 max v\n",
                b"1\n1\n1\n1\n1\n1\n1\n1\n1\n1\n1\n1\n1\n1\n1\n1\n1\n\
                  1\n1\n1\n1\n1\n1\n1\n1\n1\n1\n1\n1\n1\n1\n1\n1\n",
                b"",
                b"refused 43: size 69206016 past 67108864\n",
            ),
            (
                b"generate segments\ntest sum v mod 8192 = 0\naggregate best 64 max v\n",
                b"1\n1\n1\n1\n1\n1\n1\n1\n1\n1\n1\n1\n1\n1\n1\n1\n\
                  1\n1\n1\n1\n1\n1\n1\n1\n1\n1\n1\n1\n1\n1\n1\n1\n",
                b"answer 1\n1 0 -\n",
                b"",
            ),
        ],
    )
}
