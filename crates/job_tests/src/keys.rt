//! Jobs on either side of the number of keys from which on maps are rows of lanes, and large jobs, which have longer
//! leaves.

use crate::jobs::told;
use std::alloc::Global;
use std::test::Fail;

/// What is asked of the candidates that pass.
const ASKED: [&[u8]; 4] = [b"max v", b"min v", b"any", b"count"];

// Sublists of 3, 5 and 9, whose totals are 0, 3, 5, 8, 9, 12, 14 and 17: a test, which has 15 or 16 keys, and the
// answers.
const TESTS: [(&[u8], [&[u8]; 4]); 8] = [
    (b"<= 13", [b"12", b"0", b"yes", b"6"]),
    (b"<= 14", [b"14", b"0", b"yes", b"7"]),
    (b">= 13", [b"17", b"14", b"yes", b"2"]),
    (b">= 14", [b"17", b"14", b"yes", b"2"]),
    (b"= 13", [b"none", b"none", b"no", b"0"]),
    (b"= 14", [b"14", b"14", b"yes", b"1"]),
    (b"mod 15 = 2", [b"17", b"17", b"yes", b"1"]),
    (b"mod 16 = 1", [b"17", b"17", b"yes", b"1"]),
];

fn joined(alloc: Global, parts: &[&[u8]]) -> Result<Vec<u8>, Fail> {
    let mut bytes = Vec::new(alloc);
    for part in parts {
        bytes.extend_from_slice(part)?;
    }
    Ok(bytes)
}

#[test]
fn fifteen_and_sixteen_keys(rt: HostRuntime) -> Result<(), Fail> {
    let head: &[u8] = b"gta 1\ncolumns v\ngenerate sublists\ntest sum v ";
    let rows: &[u8] = b"\nrows\nv\n3\n5\n9\n";
    for (test, answers) in TESTS {
        for k in 0..4 {
            let job = joined(rt.alloc(), &[head, test, b"\naggregate ", ASKED[k], rows])?;
            let line = joined(rt.alloc(), &[b"answer ", answers[k], b"\n"])?;
            let text = told(&rt, rt.alloc(), job.as_slice(), 2, 1)?;
            assert_eq!(rt; text.as_slice(), line.as_slice(), "{test:?}, {k}");
        }
    }
    Ok(())
}

// 1,500 rows, each a 1: the lines behind the columns, and the answer.
const LARGE: [(&[u8], &[u8]); 6] = [
    (
        b"generate sublists\ntest length <= 20\naggregate max v\n",
        b"answer 20\n",
    ),
    (
        b"generate sublists\ntest length >= 20\naggregate min v\n",
        b"answer 20\n",
    ),
    (
        b"generate segments\ntest length mod 20 = 19\naggregate count\n",
        b"answer 55650\n",
    ),
    (
        b"generate prefixes\ntest sum v = 1500\naggregate any\n",
        b"answer yes\n",
    ),
    (
        b"generate sublists\ntest length <= 3\naggregate best 2 max v\n",
        b"answer 2\n1 3 1 2 3\n2 3 1 2 4\n",
    ),
    (
        b"generate suffixes\ntest length <= 3\naggregate best 5 max v\n",
        b"answer 4\n1 3 1498 1499 1500\n2 2 1499 1500\n3 1 1500\n4 0 -\n",
    ),
];

#[test]
fn longer_leaves_show_in_no_answer(rt: HostRuntime) -> Result<(), Fail> {
    for (lines, answer) in LARGE {
        let mut job = joined(rt.alloc(), &[b"gta 1\ncolumns v\n", lines, b"rows\nv\n"])?;
        for _ in 0..1500u32 {
            job.extend_from_slice(b"1\n")?;
        }
        for (workers, leaf) in [(1, 1), (2, 64), (8, 2000)] {
            let text = told(&rt, rt.alloc(), job.as_slice(), workers, leaf)?;
            assert_eq!(rt;
                text.as_slice(),
                answer,
                "{workers} workers, leaf {leaf} at {lines:?}"
            );
        }
    }
    Ok(())
}
