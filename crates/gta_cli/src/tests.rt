//! The worked examples over the top call: what is printed and where, limits of the input, and faults at each call.
//! tests/specs.rt has those of specifications, with `show`; tests/table.rt those of tables, tests/shapes.rt those of
//! what is generated, tests/answers.rt and tests/folds.rt those of tests and aggregates, tests/best.rt those of the
//! best candidates, tests/keep.rt and tests/ranks.rt those of version 2, tests/runs.rt those of version 3, and
//! tests/commands.rt those of the other commands. tests/cuts.rt has inputs and lines that are cut,
//! tests/faults.rt calls that fail in turn.

mod answers;
mod best;
mod commands;
mod cuts;
mod faults;
mod folds;
mod keep;
mod ranks;
mod runs;
mod shapes;
mod specs;
mod table;

use super::top::gta_main;
use gta_port::{MemorySink, MemorySource};
use std::alloc::Global;
use std::process::Abort;
use std::test::Fail;
use std::thread::Threads;

const HEAD: &[u8] = b"gta 1\ncolumns v\ngenerate sublists\naggregate max v\nrows\nv\n";

const USAGE: &[u8] = b"usage: gta run|show|list|drill [--workers N] [--leaf N] [SEED ROWS]\n";

/// The words of a run, also by several workers and sizes of leaves.
const RUNS: [&[&str]; 10] = [
    &["run"],
    &["run", "--workers=1", "--leaf=1"],
    &["run", "--workers=1", "--leaf=2"],
    &["run", "--workers=1", "--leaf=64"],
    &["run", "--workers=2", "--leaf=1"],
    &["run", "--workers=2", "--leaf=2"],
    &["run", "--workers=2", "--leaf=64"],
    &["run", "--workers=8", "--leaf=1"],
    &["run", "--workers=8", "--leaf=2"],
    &["run", "--workers=8", "--leaf=64"],
];

/// How the source, the output and the error output of a run behave.
#[derive(Clone, Copy)]
struct Ports {
    source_chunk: u8,
    source_fails: &'static [u64],
    out_chunk: u8,
    out_fails: &'static [u64],
    err_chunk: u8,
    err_fails: &'static [u64],
}

const SMOOTH: Ports = Ports {
    source_chunk: 255,
    source_fails: &[],
    out_chunk: 255,
    out_fails: &[],
    err_chunk: 255,
    err_fails: &[],
};

/// What a run left behind, and how often the source, the output and the error output failed.
#[derive(Debug, Drop)]
struct Ended {
    status: u8,
    out: Vec<u8>,
    err: Vec<u8>,
    faults: (u64, u64, u64),
}

fn words_of(alloc: Global, texts: &[&str]) -> Result<Vec<String>, Fail> {
    let mut words = Vec::new(alloc);
    for text in texts {
        words.push(String::from_str(alloc, text)?)?;
    }
    Ok(words)
}

fn sink(alloc: Global, chunk: u8, fails: &[u64]) -> Result<MemorySink, Fail> {
    let fails = Vec::from_slice(alloc, fails)?;
    Ok(MemorySink::new(alloc, 2000, usize::from(chunk.max(1)), fails)?)
}

fn called<R: Threads + Sync>(
    rt: &R,
    alloc: Global,
    texts: &[&str],
    input: &[u8],
    ports: Ports,
) -> Result<Ended, Fail> {
    let words = words_of(alloc, texts)?;
    let bytes = Vec::from_slice(alloc, input)?;
    let fails = Vec::from_slice(alloc, ports.source_fails)?;
    let mut source = MemorySource::new(bytes, usize::from(ports.source_chunk.max(1)), fails);
    let mut out = sink(alloc, ports.out_chunk, ports.out_fails)?;
    let mut err = sink(alloc, ports.err_chunk, ports.err_fails)?;
    let status = gta_main(rt, alloc, words.as_slice(), &mut source, &mut out, &mut err);
    Ok(Ended {
        status,
        out: Vec::from_slice(alloc, out.bytes())?,
        err: Vec::from_slice(alloc, err.bytes())?,
        faults: (source.faults(), out.faults(), err.faults()),
    })
}

fn with_head(alloc: Global, cells: &[u8]) -> Result<Vec<u8>, Fail> {
    let mut input = Vec::from_slice(alloc, HEAD)?;
    input.extend_from_slice(cells)?;
    Ok(input)
}

/// Whether a call ended with this status, this output and this error output.
fn is_ended(ended: &Ended, status: u8, out: &[u8], err: &[u8]) -> bool {
    ended.status == status && ended.out.as_slice() == out && ended.err.as_slice() == err
}

/// A call with these words ends with this status, this output and this error output.
fn assert_called<R: Threads + Abort + Sync>(
    rt: &R,
    alloc: Global,
    texts: &[&str],
    (input, ports): (&[u8], Ports),
    status: u8,
    (out, err): (&[u8], &[u8]),
) -> Result<(), Fail> {
    let ended = called(rt, alloc, texts, input, ports)?;
    assert!(rt;
        is_ended(&ended, status, out, err),
        "{texts:?} at {input:?} ends with {ended:?}"
    );
    Ok(())
}

/// What a run of each input prints to the output and to the error output, by whichever crew. It ends with status 0
/// where nothing is on the error output, and else with status 1.
fn assert_runs<R: Threads + Abort + Sync>(
    rt: &R,
    alloc: Global,
    cases: &[(&[u8], &[u8], &[u8])],
) -> Result<(), Fail> {
    for (input, out, err) in cases {
        for texts in RUNS {
            let status = if err.is_empty() { 0 } else { 1 };
            assert_called(rt, alloc, texts, (input, SMOOTH), status, (out, err))?;
        }
    }
    Ok(())
}

/// A job over a column v, from the lines that it has besides and the lines of its cells.
fn job_of(alloc: Global, lines: &[u8], cells: &[u8]) -> Result<Vec<u8>, Fail> {
    let mut input = Vec::from_slice(alloc, b"gta 1\ncolumns v\n")?;
    input.extend_from_slice(lines)?;
    input.extend_from_slice(b"rows\nv\n")?;
    input.extend_from_slice(cells)?;
    Ok(input)
}

/// The same for such jobs.
fn assert_jobs<R: Threads + Abort + Sync>(
    rt: &R,
    alloc: Global,
    cases: &[(&[u8], &[u8], &[u8], &[u8])],
) -> Result<(), Fail> {
    for (lines, cells, out, err) in cases {
        let input = job_of(alloc, lines, cells)?;
        assert_runs(rt, alloc, &[(input.as_slice(), *out, *err)])?;
    }
    Ok(())
}

// An input, and what is printed where: other spellings of a job, and bytes that no specification has.
#[test]
fn spellings(rt: HostRuntime) -> Result<(), Fail> {
    assert_runs(
        &rt,
        rt.alloc(),
        &[
            (
                b"gta 1\naggregate max v\ncolumns v\ngenerate sublists\nrows\nv\n2\n",
                b"answer 2\n",
                b"",
            ),
            (
                b"\xef\xbb\xbf# a job\n\n gta\t1\r\ncolumns  v#c\ngenerate sublists\n\
                  aggregate max v\n rows # t\nv\n-1\n3\n",
                b"answer 3\n",
                b"",
            ),
            (
                b"gta 1\ncolumns v\ngenerate sublists\naggregate max v\nrows \xc3\x00#\nv\n",
                b"",
                b"refused 10: line 5, byte 6: not printable ASCII\n",
            ),
            (
                b"gta 1\ncolumns v\ngenerate sublists\naggregate max v\nrows # \xc3\x00\nv\n5\n",
                b"answer 5\n",
                b"",
            ),
        ],
    )
}

#[test]
fn words_that_are_no_command(rt: HostRuntime) -> Result<(), Fail> {
    let lists: [&[&str]; 6] = [
        &[],
        &["run", "x"],
        &["show", "run"],
        &["help"],
        &["Run"],
        &[""],
    ];
    for texts in lists {
        let ended = called(&rt, rt.alloc(), texts, HEAD, SMOOTH)?;
        assert_eq!(rt; ended.status, 2, "status at {texts:?}");
        assert_eq!(rt; ended.out.len(), 0, "output at {texts:?}");
        assert_eq!(rt; ended.err.as_slice(), USAGE, "error output at {texts:?}");
    }
    Ok(())
}

// A job of a version that is filled up with a comment to so many bytes.
#[test]
fn the_most_bytes(rt: HostRuntime) -> Result<(), Fail> {
    let first: &[u8] = b"gta 1\ncolumns v\ngenerate sublists\naggregate max v\nrows\nv\n7\n";
    let second: &[u8] = b"gta 2\ncolumns v\ngenerate sublists\naggregate max v\nrows\nv\n7\n";
    let third: &[u8] = b"gta 3\ncolumns v\ngenerate sublists\naggregate max v\nrows\nv\n7\n";
    let cases: [(&[u8], u32, &[u8], &[u8]); 7] = [
        (first, 16_777_216, b"answer 7\n", b""),
        (
            first,
            16_777_217,
            b"",
            b"refused 45: input past 16777216 bytes\n",
        ),
        (
            first,
            67_108_865,
            b"",
            b"refused 45: input past 67108864 bytes\n",
        ),
        (second, 16_777_217, b"answer 7\n", b""),
        (third, 16_777_217, b"answer 7\n", b""),
        (second, 67_108_864, b"answer 7\n", b""),
        (
            second,
            67_108_865,
            b"",
            b"refused 45: input past 67108864 bytes\n",
        ),
    ];
    for (job, count, out, err) in cases {
        let mut input = Vec::with_capacity(rt.alloc(), count as usize)?;
        input.extend_from_slice(b"# ")?;
        for _ in job.len() + 3..count as usize {
            input.push(b'x')?;
        }
        input.push(b'\n')?;
        input.extend_from_slice(job)?;
        let ended = called(&rt, rt.alloc(), &["run"], input.as_slice(), SMOOTH)?;
        assert_eq!(rt; input.len(), count as usize);
        assert_eq!(rt; ended.out.as_slice(), out, "output at {count}");
        assert_eq!(rt; ended.err.as_slice(), err, "error output at {count}");
    }
    Ok(())
}

// What faults at listed calls leave: the first example with chunks of four bytes, and words that are no command.
#[test]
fn faults_at_each_call(rt: HostRuntime) -> Result<(), Fail> {
    let fours = Ports {
        source_chunk: 40,
        out_chunk: 4,
        err_chunk: 4,
        ..SMOOTH
    };
    let cases: [(&str, Ports, u8, &[u8], &[u8]); 13] = [
        (
            "run",
            Ports {
                source_fails: &[1],
                ..fours
            },
            3,
            b"",
            b"read fault\n",
        ),
        (
            "run",
            Ports {
                source_fails: &[2],
                ..fours
            },
            3,
            b"",
            b"read fault\n",
        ),
        (
            "run",
            Ports {
                source_fails: &[3],
                ..fours
            },
            3,
            b"",
            b"read fault\n",
        ),
        (
            "run",
            Ports {
                source_fails: &[4],
                ..fours
            },
            0,
            b"answer 7\n",
            b"",
        ),
        (
            "run",
            Ports {
                source_fails: &[1],
                err_fails: &[2],
                ..fours
            },
            3,
            b"",
            b"read",
        ),
        (
            "run",
            Ports {
                out_fails: &[1],
                ..fours
            },
            4,
            b"",
            b"write fault\n",
        ),
        (
            "run",
            Ports {
                out_fails: &[2],
                ..fours
            },
            4,
            b"answ",
            b"write fault\n",
        ),
        (
            "run",
            Ports {
                out_fails: &[3],
                ..fours
            },
            4,
            b"answer 7",
            b"write fault\n",
        ),
        (
            "run",
            Ports {
                out_fails: &[4],
                ..fours
            },
            0,
            b"answer 7\n",
            b"",
        ),
        (
            "run",
            Ports {
                out_fails: &[2],
                err_fails: &[3],
                ..fours
            },
            4,
            b"answ",
            b"write fa",
        ),
        (
            "run",
            Ports {
                out_chunk: 1,
                err_fails: &[1],
                ..fours
            },
            0,
            b"answer 7\n",
            b"",
        ),
        (
            "",
            Ports {
                source_fails: &[1],
                err_fails: &[1],
                ..fours
            },
            4,
            b"",
            b"",
        ),
        (
            "",
            Ports {
                source_fails: &[1],
                err_fails: &[3],
                ..fours
            },
            4,
            b"",
            b"usage: g",
        ),
    ];
    let input = with_head(rt.alloc(), b"3\n-1\n4\n")?;
    for (word, ports, status, out, err) in cases {
        let input = (input.as_slice(), ports);
        assert_called(&rt, rt.alloc(), &[word], input, status, (out, err))?;
    }
    Ok(())
}
