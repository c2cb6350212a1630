//! The commands `list` and `drill`, and options, over the top call.

use super::{HEAD, Ports, SMOOTH, USAGE, assert_called, called, job_of};
use std::alloc::Global;
use std::process::Abort;
use std::test::Fail;
use std::thread::Threads;

/// What a list of a job prints to the output and to the error output.
fn assert_listed<R: Threads + Abort + Sync>(
    rt: &R,
    alloc: Global,
    lines: &[u8],
    cells: &[u8],
    out: &[u8],
    err: &[u8],
) -> Result<(), Fail> {
    let input = job_of(alloc, lines, cells)?;
    let status = if err.is_empty() { 0 } else { 1 };
    assert_called(
        rt,
        alloc,
        &["list"],
        (input.as_slice(), SMOOTH),
        status,
        (out, err),
    )
}

// The lines of a job and its cells, and what `list` prints to the output and to the error output.
#[test]
fn candidates_that_are_listed(rt: HostRuntime) -> Result<(), Fail> {
    let cases: [(&[u8], &[u8], &[u8], &[u8]); 10] = [
        (
            b"generate sublists\ntest sum v <= 3\naggregate best 3 max v\n",
            b"1\n2\n3\n",
            b"kept 5\n-\n3\n2\n1\n1 2\n",
            b"",
        ),
        (
            b"generate prefixes\naggregate count\n",
            b"3\n-1\n4\n",
            b"kept 4\n-\n1\n1 2\n1 2 3\n",
            b"",
        ),
        (
            b"generate sublists\naggregate count\n",
            b"1\n1\n1\n1\n1\n1\n1\n1\n1\n1\n1\n1\n1\n1\n1\n1\n1\n",
            b"",
            b"refused 44: too many candidates to list\n",
        ),
        (
            b"generate sublists\ntest sum v = 2\naggregate count\n",
            b"1\n1\n1\n",
            b"kept 3\n2 3\n1 3\n1 2\n",
            b"",
        ),
        (
            b"generate segments\ntest sum v >= 5\naggregate count\n",
            b"1\n2\n1\n",
            b"kept 0\n",
            b"",
        ),
        (
            b"labels A B\ngenerate assign\naggregate any\n",
            b"7\n",
            b"kept 2\n1:A\n1:B\n",
            b"",
        ),
        (
            b"generate prefixes\naggregate any\n",
            b"4\n-4\n",
            b"kept 3\n-\n1\n1 2\n",
            b"",
        ),
        (
            b"generate sublists\ntest length >= 17\naggregate count\n",
            b"0\n0\n0\n0\n0\n0\n0\n0\n0\n0\n0\n0\n0\n0\n0\n0\n",
            b"kept 0\n",
            b"",
        ),
        (
            b"generate sublists\ntest length >= 17\naggregate count\n",
            b"0\n0\n0\n0\n0\n0\n0\n0\n0\n0\n0\n0\n0\n0\n0\n0\n0\n",
            b"",
            b"refused 44: too many candidates to list\n",
        ),
        (
            b"generate sublists\ntest sum v <= 1\naggregate count\n",
            b"0\n0\n0\n0\n0\n0\n0\n0\n0\n0\n0\n0\n0\n0\n0\n0\n-1\n",
            b"",
            b"refused 40: test 1, row 17: value -1 is negative\n",
        ),
    ];
    for (lines, cells, out, err) in cases {
        assert_listed(&rt, rt.alloc(), lines, cells, out, err)?;
    }
    Ok(())
}

// The words of a drill, whose source fails at its first read.
#[test]
fn a_drill_of_three_rows(rt: HostRuntime) -> Result<(), Fail> {
    let lists: [&[&str]; 3] = [
        &["drill", "7", "3"],
        &["drill", "--leaf", "1", "7", "3", "--workers=8"],
        &["drill", "--leaf=65536", "7", "3"],
    ];
    for texts in lists {
        let ports = Ports {
            source_fails: &[1],
            ..SMOOTH
        };
        let ended = called(&rt, rt.alloc(), texts, HEAD, ports)?;
        assert_eq!(rt;
            ended.out.as_slice(),
            b"drill 7 3\nanswer 3\n1 146 1 2 3\n2 112 2 3\n3 98 1 3\nanswer 146\nanswer 6\n".as_slice(),
            "output at {texts:?}"
        );
        assert_eq!(rt; ended.err.len(), 0, "error output at {texts:?}");
        assert_eq!(rt; ended.status, 0, "status at {texts:?}");
    }
    Ok(())
}

// The words of a drill of 2000 rows. All print the same.
#[test]
fn a_drill_by_any_crew(rt: HostRuntime) -> Result<(), Fail> {
    let lists: [&[&str]; 6] = [
        &["drill", "7", "2000", "--workers", "1", "--leaf", "1"],
        &["drill", "7", "2000", "--workers", "1", "--leaf", "64"],
        &["drill", "7", "2000", "--workers", "1", "--leaf", "65536"],
        &["drill", "7", "2000", "--workers", "8", "--leaf", "1"],
        &["drill", "7", "2000", "--workers", "8", "--leaf", "64"],
        &["drill", "7", "2000", "--workers", "8", "--leaf", "65536"],
    ];
    let first = called(&rt, rt.alloc(), &["drill", "7", "2000"], b"", SMOOTH)?;
    let out = first.out.as_slice();
    assert!(rt;
        out.starts_with(b"drill 7 2000\nanswer 3\n1 7033 12 38 51 64 "),
        "{out:?}"
    );
    assert!(rt;
        out.ends_with(b" 1988\nanswer 29275\nanswer 2001000\n"),
        "{out:?}"
    );
    for texts in lists {
        let ended = called(&rt, rt.alloc(), texts, b"", SMOOTH)?;
        assert_eq!(rt; ended.out.as_slice(), out, "output at {texts:?}");
        assert_eq!(rt; ended.err.len(), 0, "error output at {texts:?}");
        assert_eq!(rt; ended.status, 0, "status at {texts:?}");
    }
    Ok(())
}

#[test]
fn words_with_options_that_are_no_command(rt: HostRuntime) -> Result<(), Fail> {
    let lists: [&[&str]; 10] = [
        &["run", "--workers", "0"],
        &["list", "x"],
        &["list", "--leaf", "1"],
        &["drill", "7"],
        &["drill", "7", "0"],
        &["drill", "7", "20001"],
        &["drill", "4294967296", "3"],
        &["run", "--workers", "65"],
        &["run", "--leaf", "0"],
        &["run", "--leaf", "65537"],
    ];
    for texts in lists {
        let ended = called(&rt, rt.alloc(), texts, HEAD, SMOOTH)?;
        assert_eq!(rt; ended.status, 2, "status at {texts:?}");
        assert_eq!(rt; ended.out.len(), 0, "output at {texts:?}");
        assert_eq!(rt; ended.err.as_slice(), USAGE, "error output at {texts:?}");
    }
    Ok(())
}
