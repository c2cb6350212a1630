//! Whole jobs, by several numbers of workers and sizes of leaves: the answer is the same, and the size of a job
//! rests on its leaves.

use gta_job::{JobEnd, answer_job, answer_with, list_job};
use report_text::fault_line;
use std::alloc::Global;
use std::process::Abort;
use std::sync::atomic::{AtomicU64, Ordering};
use std::test::Fail;
use std::thread::Threads;
use worker_pool::Gate;

/// What is printed at this end of a job: its text, or the line of its refusal.
fn printed(alloc: Global, end: Result<Vec<u8>, JobEnd>) -> Result<Vec<u8>, Fail> {
    match end {
        Ok(text) => Ok(text),
        Err(JobEnd::Refused(refusal)) => Ok(fault_line(alloc, &refusal)?),
        Err(JobEnd::Memory) => Ok(Vec::new(alloc)),
    }
}

/// What a job prints: its report, or the line of its refusal.
pub(crate) fn told<R: Threads + Abort + Sync>(
    rt: &R,
    alloc: Global,
    input: &[u8],
    workers: u32,
    leaf: u32,
) -> Result<Vec<u8>, Fail> {
    assert!(rt; input.len() <= 1_000_000);
    assert!(rt; workers >= 1);
    assert!(rt; workers <= 64);
    assert!(rt; leaf >= 1);
    assert!(rt; leaf <= 65536);
    printed(alloc, answer_job(rt, alloc, input, workers, leaf))
}

#[test]
fn answers_by_any_workers_and_leaf(rt: HostRuntime) -> Result<(), Fail> {
    let cases: [(&[u8], &[u8]); 9] = [
        (
            b"gta 1\ncolumns v\ngenerate segments\naggregate best 1 max v\nrows\n\
              v\n-2\n1\n-3\n4\n-1\n2\n1\n-5\n4\n",
            b"answer 1\n1 6 4 5 6 7\n",
        ),
        (
            b"gta 1\ncolumns v\ngenerate segments\naggregate max v\nrows\n\
              v\n-2\n1\n-3\n4\n-1\n2\n1\n-5\n4\n",
            b"answer 6\n",
        ),
        (
            b"gta 1\ncolumns v\ngenerate segments\naggregate best 2 max v\nrows\n\
              v\n-2\n1\n-3\n4\n-1\n2\n1\n-5\n4\n",
            b"answer 2\n1 6 4 5 6 7\n2 5 4 5 6\n",
        ),
        (
            b"gta 1\ncolumns v\ngenerate sublists\ntest sum v mod 3 = 0\ntest length >= 1\n\
              aggregate count\nrows\nv\n1\n2\n3\n4\n5\n",
            b"answer 11\n",
        ),
        (
            b"gta 1\ncolumns v\nlabels A B\ngenerate assign\nmeasure onA = v if label A\n\
              test sum onA = 3\naggregate count\nrows\nv\n1\n2\n3\n",
            b"answer 2\n",
        ),
        (
            b"gta 1\ncolumns v\ngenerate sublists\ntest sum v >= 2\naggregate min v\nrows\nv\n1\n1\n1\n",
            b"answer 2\n",
        ),
        (
            b"gta 1\ncolumns v\ngenerate prefixes\naggregate any\nrows\nv\n",
            b"answer yes\n",
        ),
        (
            b"gta 1\ncolumns v\ngenerate suffixes\naggregate max w\nrows\nv\n",
            b"refused 20: line 4: unknown name w\n",
        ),
        (
            b"gta 1\ncolumns v\ngenerate suffixes\naggregate max v\nrows\nv\n1\n2\nx\n",
            b"refused 35: row 3, column v: not a whole number within 4611686018427387903\n",
        ),
    ];
    for (input, line) in cases {
        for workers in [1, 2, 8] {
            for leaf in [1, 2, 4, 64, 65536] {
                let text = told(&rt, rt.alloc(), input, workers, leaf)?;
                assert_eq!(rt;
                    text.as_slice(),
                    line,
                    "{workers} workers, leaf {leaf} at {input:?}"
                );
            }
        }
    }
    Ok(())
}

// The number of rows, each a 1, and of the rows of a leaf, with 4 components and 8192 keys.
#[test]
fn sizes_past_the_limit(rt: HostRuntime) -> Result<(), Fail> {
    let cases: [(u32, u32, &[u8]); 3] = [
        (2048, 1, b"answer 1\n"),
        (2049, 1, b"refused 43: size 67141632 past 67108864\n"),
        (4097, 2, b"refused 43: size 67141632 past 67108864\n"),
    ];
    for (count, leaf, line) in cases {
        let mut input = Vec::from_slice(
            rt.alloc(),
            b"gta 1\ncolumns v\ngenerate segments\ntest sum v mod 8192 = 0\naggregate count\nrows\nv\n",
        )?;
        for _ in 0..count {
            input.extend_from_slice(b"1\n")?;
        }
        let text = told(&rt, rt.alloc(), input.as_slice(), 4, leaf)?;
        assert_eq!(rt; text.as_slice(), line, "{count} rows by leaves of {leaf}");
    }
    Ok(())
}

/// Counts the turns, and holds a worker back for longer at some of them.
#[derive(Drop)]
struct Uneven {
    turns: AtomicU64,
}

impl Gate for Uneven {
    fn pass(&self, worker: u32, turn: u64) {
        self.turns.fetch_add(1, Ordering::SeqCst);
        for _ in 0..(u64::from(worker % 8) + turn % 8) * 1000 {
            let _ = self.turns.load(Ordering::SeqCst);
        }
    }
}

// The numbers of workers, of whom some are held back. Each of eight leaves is somebody's turn.
#[test]
fn what_happens_at_the_gate_shows_nowhere(rt: HostRuntime) -> Result<(), Fail> {
    let input = b"gta 1\ncolumns v\ngenerate segments\naggregate best 2 max v\nrows\n\
                  v\n-2\n1\n-3\n4\n-1\n2\n1\n-5\n";
    for workers in [1, 2, 3, 8] {
        let turns = AtomicU64::new(0);
        let gate = Uneven { turns };
        let text = printed(
            rt.alloc(),
            answer_with(&rt, rt.alloc(), input, workers, 1, &gate),
        )?;
        assert_eq!(rt;
            text.as_slice(),
            b"answer 2\n1 6 4 5 6 7\n2 5 4 5 6\n".as_slice()
        );
        assert!(rt; gate.turns.load(Ordering::SeqCst) >= 8, "{workers} workers");
    }
    Ok(())
}

/// Two workers wait for each other at their second turns.
#[derive(Drop)]
struct Meeting {
    came: [AtomicU64; 2],
    missed: AtomicU64,
}

impl Gate for Meeting {
    fn pass(&self, worker: u32, turn: u64) {
        let (own, other) = if worker == 1 { (0, 1) } else { (1, 0) };
        if turn == 1 {
            self.came[own].store(1, Ordering::SeqCst);
        }
        if turn == 2 {
            for _ in 0..100_000_000u32 {
                if self.came[other].load(Ordering::SeqCst) == 1 {
                    return;
                }
            }
            self.missed.store(1, Ordering::SeqCst);
        }
    }
}

// A job of 64 rows, each a 1 and a leaf: while one worker waits there are leaves left for the other's second turn.
#[test]
fn two_workers_answer_beside_each_other(rt: HostRuntime) -> Result<(), Fail> {
    let mut input = Vec::from_slice(
        rt.alloc(),
        b"gta 1\ncolumns v\ngenerate prefixes\naggregate max v\nrows\nv\n",
    )?;
    for _ in 0..64u32 {
        input.extend_from_slice(b"1\n")?;
    }
    assert!(rt; input.len() <= 1_000_000);
    let gate = Meeting {
        came: [AtomicU64::new(0), AtomicU64::new(0)],
        missed: AtomicU64::new(0),
    };
    let text = printed(
        rt.alloc(),
        answer_with(&rt, rt.alloc(), input.as_slice(), 2, 1, &gate),
    )?;
    assert_eq!(rt; text.as_slice(), b"answer 64\n".as_slice());
    assert_eq!(rt; gate.missed.load(Ordering::SeqCst), 0);
    for came in &gate.came {
        assert_eq!(rt; came.load(Ordering::SeqCst), 1);
    }
    Ok(())
}

/// What is printed of the candidates that a job keeps: their list, or the line of the refusal.
fn listed<R: Abort>(rt: &R, alloc: Global, input: &[u8]) -> Result<Vec<u8>, Fail> {
    assert!(rt; input.len() <= 1_000_000);
    printed(alloc, list_job(alloc, input))
}

// Jobs that count: the number behind `answer` is the one behind `kept`, where the candidates are listed.
#[test]
fn a_count_is_the_number_of_those_listed(rt: HostRuntime) -> Result<(), Fail> {
    let cases: [&[u8]; 7] = [
        b"gta 1\ncolumns v\ngenerate sublists\ntest sum v mod 3 = 1\naggregate count\nrows\n\
          v\n2\n7\n1\n8\n-2\n8\n",
        b"gta 1\ncolumns v\ngenerate segments\ntest sum v >= 4\naggregate count\nrows\nv\n3\n1\n4\n1\n5\n",
        b"gta 1\ncolumns v\ngenerate segments\naggregate count\nrows\nv\n",
        b"gta 1\ncolumns v\ngenerate prefixes\ntest length <= 2\naggregate count\nrows\nv\n3\n1\n4\n1\n",
        b"gta 1\ncolumns v\ngenerate suffixes\ntest sum v mod 2 = 0\ntest length >= 1\naggregate count\nrows\n\
          v\n3\n1\n4\n1\n",
        b"gta 1\ncolumns v\nlabels A B C\ngenerate assign\nmeasure a = v if label A\n\
          measure b = v if label B\ntest sum a <= 4\ntest sum b >= 2\naggregate count\nrows\nv\n3\n1\n4\n1\n",
        b"gta 1\ncolumns v\ngenerate sublists\ntable t unit e elements e a\ntimes t e = e a\n\
          times t a = a a\ntest fold t by a if v >= 3 accept a\naggregate count\nrows\nv\n3\n1\n4\n",
    ];
    for input in cases {
        let report = told(&rt, rt.alloc(), input, 2, 1)?;
        let list = listed(&rt, rt.alloc(), input)?;
        let counted = report.as_slice().get(7..).unwrap_or(&[]);
        let kept = list.as_slice().get(5..).unwrap_or(&[]);
        assert!(rt;
            report.as_slice().starts_with(b"answer "),
            "report at {input:?}"
        );
        assert!(rt; list.as_slice().starts_with(b"kept "), "list at {input:?}");
        assert!(rt;
            kept.starts_with(counted),
            "{report:?} and {list:?} at {input:?}"
        );
    }
    Ok(())
}

// A job of 16 rows and without tests: as many candidates as may be listed.
#[test]
fn the_longest_list(rt: HostRuntime) -> Result<(), Fail> {
    let text = listed(
        &rt,
        rt.alloc(),
        b"gta 1\ncolumns v\ngenerate sublists\naggregate count\nrows\n\
          v\n1\n2\n3\n4\n5\n6\n7\n8\n9\n10\n11\n12\n13\n14\n15\n16\n",
    )?;
    let lines = text.as_slice();
    assert_eq!(rt; lines.len(), 1277965);
    assert!(rt; lines.starts_with(b"kept 65536\n-\n16\n15\n15 16\n14\n"));
    assert!(rt; lines.ends_with(b"\n1 2 3 4 5 6 7 8 9 10 11 12 13 14 15 16\n"));
    Ok(())
}
