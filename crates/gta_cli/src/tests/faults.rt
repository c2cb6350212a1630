//! Each call of the source and of the output fails in turn, and reads and writes are of every length.

use super::{Ended, Ports, SMOOTH, USAGE, called};
use std::test::Fail;

/// A knapsack of 132 bytes.
pub(super) const KNAPSACK: &[u8] =
    b"gta 1\ncolumns weight value\ngenerate sublists\ntest sum weight <= 50\n\
      aggregate best 2 max value\nrows\nweight,value\n10,60\n20,100\n30,120\n";

/// Its answer, of 29 bytes.
const BEST: &[u8] = b"answer 2\n1 220 2 3\n2 180 1 3\n";

/// Numbers of calls.
pub(super) const CALLS: &[u64] = &[
    1, 2, 3, 4, 5, 6, 7, 8, 9, 10, 11, 12, 13, 14, 15, 16, 17, 18, 19, 20,
];

/// Whether a run ended with this status and these outputs, and with so many faults of the source and of each output.
fn is(ended: &Ended, status: u8, out: &[u8], err: &[u8], faults: (u64, u64, u64)) -> bool {
    ended.status == status
        && ended.out.as_slice() == out
        && ended.err.as_slice() == err
        && ended.faults == faults
}

// Nine reads of 16 bytes give the knapsack, and a tenth finds its end.
#[test]
fn a_source_that_fails_at_each_call(rt: HostRuntime) -> Result<(), Fail> {
    for k in 0..12usize {
        let ports = Ports {
            source_chunk: 16,
            source_fails: &CALLS[k..k + 1],
            ..SMOOTH
        };
        let ended = called(&rt, rt.alloc(), &["run"], KNAPSACK, ports)?;
        let is_right = if k < 10 {
            is(&ended, 3, b"", b"read fault\n", (1, 0, 0))
        } else {
            is(&ended, 0, BEST, b"", (0, 0, 0))
        };
        assert!(rt; is_right, "where call {k} from 0 fails");
    }
    Ok(())
}

// Eight writes of four bytes take the answer.
#[test]
fn an_output_that_fails_at_each_call(rt: HostRuntime) -> Result<(), Fail> {
    for k in 0..12usize {
        let ports = Ports {
            out_chunk: 4,
            out_fails: &CALLS[k..k + 1],
            ..SMOOTH
        };
        let ended = called(&rt, rt.alloc(), &["run"], KNAPSACK, ports)?;
        let is_right = if k < 8 {
            is(&ended, 4, &BEST[..4 * k], b"write fault\n", (0, 1, 0))
        } else {
            is(&ended, 0, BEST, b"", (0, 0, 0))
        };
        assert!(rt; is_right, "where call {k} from 0 fails");
    }
    Ok(())
}

// From one byte a call to more than there are, over the knapsack and over words that are no command.
#[test]
fn reads_and_writes_of_every_length(rt: HostRuntime) -> Result<(), Fail> {
    for chunk in 1..=133 {
        let ports = Ports {
            source_chunk: chunk,
            out_chunk: chunk,
            err_chunk: chunk,
            ..SMOOTH
        };
        let ended = called(&rt, rt.alloc(), &["run"], KNAPSACK, ports)?;
        assert!(rt;
            is(&ended, 0, BEST, b"", (0, 0, 0)),
            "a run by {chunk} bytes"
        );
        let refused = called(&rt, rt.alloc(), &["run", "run"], KNAPSACK, ports)?;
        assert!(rt;
            is(&refused, 2, b"", USAGE, (0, 0, 0)),
            "the usage line by {chunk} bytes"
        );
    }
    Ok(())
}
