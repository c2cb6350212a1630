//! Inputs that end early, and lines of the error output that a fault cuts.

use super::faults::{CALLS, KNAPSACK};
use super::{Ports, SMOOTH, USAGE, called};
use std::test::Fail;

// Each front of a knapsack is answered or refused, and prints in one place.
#[test]
fn each_front_of_an_input(rt: HostRuntime) -> Result<(), Fail> {
    for len in 0..=KNAPSACK.len() {
        let ended = called(&rt, rt.alloc(), &["run"], &KNAPSACK[..len], SMOOTH)?;
        let status = if ended.err.is_empty() { 0 } else { 1 };
        assert_eq!(rt; ended.status, status, "status of {len} bytes");
        assert!(rt;
            ended.out.is_empty() != ended.err.is_empty(),
            "outputs of {len} bytes"
        );
    }
    Ok(())
}

// Words, an input, and the line and the status. Each call for four bytes of the line fails, and then none does.
#[test]
fn a_line_cut_at_each_call(rt: HostRuntime) -> Result<(), Fail> {
    let cases: [(&[&str], &[u8], &[u8], u8); 3] = [
        (&["run", "--workers", "0"], b"", USAGE, 2),
        (&["run"], b"gta 1\n", b"refused 14: no line rows\n", 1),
        (
            &["run"],
            b"gta 1\ncolumns v\ngenerate suffixes\ntable t unit e elements e a b\ntimes t e = e a b\n\
              times t a = a b a\ntimes t b = b b e\naggregate count\nrows\n",
            b"refused 27: table t: not associative at a a a\n",
            1,
        ),
    ];
    for (texts, input, line, status) in cases {
        for k in 0..20usize {
            let ports = Ports {
                err_chunk: 4,
                err_fails: &CALLS[k..k + 1],
                ..SMOOTH
            };
            let ended = called(&rt, rt.alloc(), texts, input, ports)?;
            let gone = (4 * k).min(line.len());
            let failed = gone < line.len();
            let status = if failed { 4 } else { status };
            assert_eq!(rt; ended.status, status, "status at call {k} of {texts:?}");
            assert_eq!(rt; ended.out.len(), 0, "output at call {k} of {texts:?}");
            assert_eq!(rt;
                ended.faults,
                (0, 0, u64::from(failed)),
                "faults at call {k} of {texts:?}"
            );
            assert_eq!(rt;
                ended.err.as_slice(),
                &line[..gone],
                "error output at call {k} of {texts:?}"
            );
        }
    }
    Ok(())
}
