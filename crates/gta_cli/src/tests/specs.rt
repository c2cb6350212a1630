//! Specifications over the top call: the refusals in their order, each limit, and the canonical text.

use super::{SMOOTH, assert_called, called};
use std::alloc::Global;
use std::fmt::Write;
use std::process::Abort;
use std::test::Fail;
use std::thread::Threads;

// A specification, and the line of its first refusal.
#[test]
fn refusals_in_their_order(rt: HostRuntime) -> Result<(), Fail> {
    let cases: [(&[u8], &[u8]); 43] = [
        (
            b"gta 2\ncolumns v # \xc3\n",
            b"refused 10: line 2, byte 13: not printable ASCII\n",
        ),
        (b"", b"refused 11: line 1: not a known gta version\n"),
        (
            b"\n# c\ngta 01\nnothing\nrows\n",
            b"refused 11: line 3: not a known gta version\n",
        ),
        (b"rows\n", b"refused 11: line 1: not a known gta version\n"),
        (
            b"gta 1\nmeasure m = 4611686018427387904\nnothing\nrows\n",
            b"refused 12: line 3: not in the grammar\n",
        ),
        (
            b"gta 1\ncolumns v\ngenerate nothing\ntest sum w <= 1\nrows\nv\n",
            b"refused 12: line 3: not in the grammar\n",
        ),
        (
            b"gta 1\ngta 1\nrows\n",
            b"refused 12: line 2: not in the grammar\n",
        ),
        (
            b"gta 1\nmeasure m = 4611686018427387904\n",
            b"refused 13: line 2: number past 4611686018427387903\n",
        ),
        (
            b"gta 1\ncolumns v\ngenerate sublists\n",
            b"refused 14: no line rows\n",
        ),
        (
            b"gta 1\ncolumns v\ngenerate sublists\naggregate max w\n",
            b"refused 14: no line rows\n",
        ),
        (
            b"gta 1\ncolumns v v\ngenerate sublists\naggregate max w\nrows\nv\n",
            b"refused 20: line 4: unknown name w\n",
        ),
        (
            b"gta 1\nmeasure m = v if label A\ncolumns v\nlabels B\nrows\n",
            b"refused 20: line 2: unknown name A\n",
        ),
        (
            b"gta 1\ncolumns v\nmeasure m = 2*v + n if n >= 1\nrows\n",
            b"refused 20: line 3: unknown name n\n",
        ),
        (
            b"gta 1\ncolumns v\nmeasure n = v\nmeasure m = n\nrows\n",
            b"refused 20: line 4: unknown name n\n",
        ),
        (
            b"gta 1\ncolumns v\nmeasure m = 1 if label v\nrows\n",
            b"refused 20: line 3: unknown name v\n",
        ),
        (
            b"gta 1\nmeasure v = 1\ncolumns v\nmeasure m = v\nrows\n",
            b"refused 20: line 4: unknown name v\n",
        ),
        (
            b"gta 1\ntest fold t by a accept e\nrows\n",
            b"refused 20: line 2: unknown name t\n",
        ),
        (
            b"gta 1\ntable t unit u elements e a\nrows\n",
            b"refused 20: line 2: unknown name u\n",
        ),
        (
            b"gta 1\ntable t unit e elements e a\ntimes t a = e b\nrows\n",
            b"refused 20: line 3: unknown name b\n",
        ),
        (
            b"gta 1\ntable t unit e elements e a\ntest fold t by a ; b accept e\nrows\n",
            b"refused 20: line 3: unknown name b\n",
        ),
        (
            b"gta 1\ncolumns v\nlabels v\nrows\n",
            b"refused 21: line 3: name v declared twice\n",
        ),
        (
            b"gta 1\ntable t unit e elements e a e\ntable t unit t elements t\nrows\n",
            b"refused 21: line 2: name e declared twice\n",
        ),
        (
            b"gta 1\ntable t unit e elements e t\ntable t unit e elements e\nrows\n",
            b"refused 21: line 3: name t declared twice\n",
        ),
        (
            b"gta 1\ncolumns v v\naggregate count\nrows\n",
            b"refused 21: line 2: name v declared twice\n",
        ),
        (b"gta 1\nrows\n", b"refused 22: no part columns\n"),
        (
            b"gta 1\ncolumns v\naggregate count\nrows\n",
            b"refused 22: no part generate\n",
        ),
        (
            b"gta 1\ncolumns v\ncolumns w\ngenerate sublists\nrows\nv\n",
            b"refused 22: no part aggregate\n",
        ),
        (
            b"gta 1\ncolumns v\ngenerate assign\ngenerate assign\naggregate count\nrows\n",
            b"refused 23: line 4: second part generate\n",
        ),
        (
            b"gta 1\naggregate any\naggregate any\ncolumns v\ncolumns w\ngenerate sublists\nrows\n",
            b"refused 23: line 3: second part aggregate\n",
        ),
        (
            b"gta 1\nlabels A\nlabels B\ncolumns v\ngenerate sublists\naggregate any\nrows\n",
            b"refused 23: line 3: second part labels\n",
        ),
        (
            b"gta 1\ncolumns v\ngenerate assign\naggregate count\nrows\nv\n",
            b"refused 24: line 3: assign without labels\n",
        ),
        (
            b"gta 1\ncolumns v\ngenerate prefixes\naggregate count\nlabels A\nrows\nv\n",
            b"refused 24: line 5: labels without assign\n",
        ),
        (
            b"gta 1\ncolumns v\ntest length <= 8191\ngenerate assign\naggregate count\nrows\nv\n",
            b"refused 24: line 4: assign without labels\n",
        ),
        (
            b"gta 1\ncolumns v\ntest length mod 0 = 0\ntest length <= -1\ngenerate suffixes\naggregate count\nrows\n",
            b"refused 25: line 3: limit modulus\n",
        ),
        (
            b"gta 1\ncolumns v\ntable t unit e elements e\ntest length <= 8191\n\
              generate suffixes\naggregate count\nrows\n",
            b"refused 25: line 4: limit bound\n",
        ),
        (
            b"gta 1\ncolumns v\ntable t unit e elements e\ngenerate suffixes\naggregate count\nrows\n",
            b"refused 28: table t: not square at e\n",
        ),
        (
            b"gta 1\ncolumns v\ngenerate sublists\ntable t unit e elements e a\ntimes t e = e a\n\
              test fold t by a accept e\naggregate count\nrows\nv\n",
            b"refused 28: table t: not square at a\n",
        ),
        (
            b"gta 1\ncolumns v\ngenerate sublists\ntable t unit e elements e a b\ntimes t e = e a b\n\
              times t a = a b a\ntimes t b = b b b\ntest fold t by a accept e\naggregate count\nrows\nv\n1\n",
            b"refused 27: table t: not associative at a a a\n",
        ),
        (
            b"gta 1\ncolumns v\ngenerate suffixes\ntable t unit e elements e a b\ntimes t e = e a b\n\
              times t a = a b a\ntimes t b = b b e\naggregate count\nrows\n",
            b"refused 27: table t: not associative at a a a\n",
        ),
        (
            b"gta 1\ncolumns v\ngenerate sublists\ntable t unit e elements e a\ntimes t e = e e\n\
              times t a = a a\ntest fold t by a accept e\naggregate count\nrows\nv\n1\n",
            b"refused 26: table t: unit fails at a, left\n",
        ),
        (
            b"gta 1\ncolumns v\ngenerate sublists\ntable t unit e elements e a\ntimes t e = e a\n\
              times t a = e a\naggregate count\nrows\n",
            b"refused 26: table t: unit fails at a, right\n",
        ),
        (
            b"gta 1\ncolumns v\ngenerate sublists\ntable t unit e elements e\ntable u unit e elements e a\n\
              times u e = e e\ntimes u a = a a\naggregate count\nrows\n",
            b"refused 26: table u: unit fails at a, left\n",
        ),
        (
            b"gta 1\ncolumns v\ntest length mod 3 = 3\ngenerate suffixes\naggregate best 65 max v\nrows\n",
            b"refused 25: line 3: limit residue\n",
        ),
    ];
    for (input, line) in cases {
        for word in ["show", "run"] {
            assert_called(&rt, rt.alloc(), &[word], (input, SMOOTH), 1, (b"", line))?;
        }
    }
    Ok(())
}

// A specification that grows by a piece: how often it may stand, how often it may not, and
// the refusal.
#[derive(Clone, Copy)]
struct Growing {
    head: &'static str,
    before: &'static str,
    // Whether the piece's number stands between what is before it and what is behind it.
    numbered: bool,
    behind: &'static str,
    tail: &'static str,
    most: u32,
    past: u32,
    refused: &'static [u8],
    // Whether there is a table. It is not square, which is looked at after the limits.
    table: bool,
}

fn grown(alloc: Global, text: &Growing, count: u32) -> Result<String, Fail> {
    let mut out = String::from_str(alloc, text.head)?;
    for number in 0..count {
        out.push_str(text.before)?;
        if text.numbered {
            write!(out, "{number}")?;
        }
        out.push_str(text.behind)?;
    }
    out.push_str(text.tail)?;
    Ok(out)
}

// With as many pieces as there may be it is shown, but for a table that isn't square.
fn assert_most<R: Threads + Abort + Sync>(
    rt: &R,
    alloc: Global,
    text: &Growing,
) -> Result<(), Fail> {
    let most = grown(alloc, text, text.most)?;
    let ended = called(rt, alloc, &["show"], most.as_bytes(), SMOOTH)?;
    let is_right = (ended.status == 1) == text.table && ended.out.is_empty() == text.table;
    assert!(rt; is_right, "at {most:?}");
    Ok(())
}

// With one more it is refused.
fn assert_past<R: Threads + Abort + Sync>(
    rt: &R,
    alloc: Global,
    text: &Growing,
) -> Result<(), Fail> {
    let past = grown(alloc, text, text.past)?;
    let words: &[&str] = &["show"];
    assert_called(
        rt,
        alloc,
        words,
        (past.as_bytes(), SMOOTH),
        1,
        (b"", text.refused),
    )
}

#[test]
fn limits_of_what_grows(rt: HostRuntime) -> Result<(), Fail> {
    let rest = "\ngenerate sublists\naggregate count\nrows\n";
    let start = "gta 1\ncolumns v\ngenerate sublists\naggregate count\n";
    let base = Growing {
        head: "gta 1\ncolumns",
        before: " c",
        numbered: true,
        behind: "",
        tail: rest,
        most: 32,
        past: 33,
        refused: b"refused 25: line 2: limit columns\n",
        table: false,
    };
    let texts = [
        Growing { ..base },
        Growing {
            head: "gta 1\ncolumns ",
            before: "n",
            numbered: false,
            most: 64,
            past: 65,
            refused: b"refused 25: line 2: limit name\n",
            ..base
        },
        Growing {
            head: "gta 1\ncolumns v=\"",
            before: "h",
            numbered: false,
            tail: "\"\ngenerate sublists\naggregate count\nrows\n",
            most: 256,
            past: 257,
            refused: b"refused 25: line 2: limit header\n",
            ..base
        },
        Growing {
            head: "gta 1\ncolumns v\nlabels",
            before: " l",
            tail: "\ngenerate assign\naggregate count\nrows\n",
            most: 16,
            past: 17,
            refused: b"refused 25: line 3: limit labels\n",
            ..base
        },
        Growing {
            head: start,
            before: "measure m",
            behind: " = 1\n",
            tail: "rows\n",
            most: 32,
            past: 33,
            refused: b"refused 25: line 37: limit measures\n",
            ..base
        },
        Growing {
            head: start,
            before: "table t",
            behind: " unit e elements e\n",
            tail: "rows\n",
            most: 8,
            past: 9,
            refused: b"refused 25: line 13: limit tables\n",
            table: true,
            ..base
        },
        Growing {
            head: start,
            before: "test length >= ",
            behind: "\n",
            tail: "rows\n",
            most: 8,
            past: 9,
            refused: b"refused 25: line 13: limit tests\n",
            ..base
        },
        Growing {
            head: "gta 1\ncolumns v\ntable t unit e0 elements",
            before: " e",
            most: 64,
            past: 65,
            refused: b"refused 25: line 3: limit elements\n",
            table: true,
            ..base
        },
        Growing {
            head: "gta 1\ncolumns v\nmeasure m = 1",
            before: " ; ",
            most: 15,
            past: 16,
            refused: b"refused 25: line 3: limit cases\n",
            ..base
        },
        Growing {
            head: "gta 1\ncolumns v\ntable t unit e elements e\ntest fold t by e",
            before: " ; e",
            numbered: false,
            tail: " accept e\ngenerate sublists\naggregate count\nrows\n",
            most: 15,
            past: 16,
            refused: b"refused 25: line 4: limit cases\n",
            table: true,
            ..base
        },
        Growing {
            head: "gta 1\ncolumns v\nmeasure m = v",
            before: " - ",
            behind: "*v",
            most: 31,
            past: 32,
            refused: b"refused 25: line 3: limit terms\n",
            ..base
        },
        Growing {
            head: "gta 1\ncolumns v\nmeasure m = 1 if v = 0",
            before: " and v >= ",
            most: 7,
            past: 8,
            refused: b"refused 25: line 3: limit atoms\n",
            ..base
        },
    ];
    for text in texts {
        assert_most(&rt, rt.alloc(), &text)?;
        assert_past(&rt, rt.alloc(), &text)?;
    }
    Ok(())
}

// A line that keeps a limit, one just past it, and the limit.
#[test]
fn limits_of_numbers(rt: HostRuntime) -> Result<(), Fail> {
    let cases: [(&[u8], &[u8], &[u8]); 9] = [
        (b"test sum v <= 8190", b"test sum v <= 8191", b"bound"),
        (b"test length = 0", b"test length = -1", b"bound"),
        (
            b"test sum v mod 8192 = 8191",
            b"test sum v mod 8193 = 1",
            b"modulus",
        ),
        (
            b"test length mod 1 = 0",
            b"test length mod 0 = 0",
            b"modulus",
        ),
        (b"test sum v mod 2 = 1", b"test sum v mod 2 = 2", b"residue"),
        (b"aggregate best 64 max v", b"aggregate best 65 max v", b"k"),
        (b"aggregate best 1 min v", b"aggregate best 0 min v", b"k"),
        (
            b"measure m = 1000000*v",
            b"measure m = 1000001*v",
            b"factor",
        ),
        (
            b"measure m = v - 1000000*v",
            b"measure m = v - 1000001*v ; 1",
            b"factor",
        ),
    ];
    for (kept, past, limit) in cases {
        for (line, refused) in [(kept, false), (past, true)] {
            let mut input = Vec::from_slice(rt.alloc(), b"gta 1\ncolumns v\n")?;
            input.extend_from_slice(line)?;
            input.extend_from_slice(b"\ngenerate sublists\n")?;
            if !line.starts_with(b"aggregate") {
                input.extend_from_slice(b"aggregate count\n")?;
            }
            input.extend_from_slice(b"rows\n")?;
            let mut err = Vec::new(rt.alloc());
            if refused {
                err.extend_from_slice(b"refused 25: line 3: limit ")?;
                err.extend_from_slice(limit)?;
                err.extend_from_slice(b"\n")?;
            }
            let ended = called(&rt, rt.alloc(), &["show"], input.as_slice(), SMOOTH)?;
            assert_eq!(rt; ended.err.as_slice(), err.as_slice(), "at {line:?}");
        }
    }
    Ok(())
}

// A specification, and its canonical text, which shows as itself.
#[test]
fn canonical_texts(rt: HostRuntime) -> Result<(), Fail> {
    let cases: [(&[u8], &[u8]); 7] = [
        (
            b"gta 1\ncolumns v#c\ngenerate  sublists\nmeasure m = -  3*v+02 if v>=1;7\naggregate min m\nrows\n",
            b"gta 1\ncolumns v\ngenerate sublists\nmeasure m = -3*v + 2 if v >= 1 ; 7\naggregate min m\nrows\n",
        ),
        (
            b"gta 1\naggregate best 007 max v\ngenerate\tassign\nlabels A B\ntest length<=-0\n\
              test sum m mod 5=04\ntest sum v>=1\n\
              columns v w = \"Weight, kg\"\nmeasure m=v-2*w-3 if label A and w<=-7 and v=2;0\nrows # the table\n\xff",
            b"gta 1\naggregate best 7 max v\ngenerate assign\nlabels A B\ntest length <= 0\n\
              test sum m mod 5 = 4\ntest sum v >= 1\n\
              columns v w=\"Weight, kg\"\nmeasure m = v - 2*w - 3 if label A and w <= -7 and v = 2 ; 0\nrows\n",
        ),
        (
            b"gta 1\ntest fold t by a if v>=-01;e accept a e\ntimes t a=a e\ncolumns v\n\
              table t unit e elements e a\ngenerate\tsegments\naggregate any\n times t e = e a\nrows\n",
            b"gta 1\ntest fold t by a if v >= -1 ; e accept a e\ntimes t a = a e\ncolumns v\n\
              table t unit e elements e a\ngenerate segments\naggregate any\ntimes t e = e a\nrows\n",
        ),
        (
            b"gta 1\ncolumns v\ngenerate suffixes\naggregate any\nrows",
            b"gta 1\ncolumns v\ngenerate suffixes\naggregate any\nrows\n",
        ),
        (
            b"gta 1\ncolumns v\ngenerate prefixes\ntest sum v = -0\ntest length mod 3 = 2\n\
              aggregate best 2 min v\nrows",
            b"gta 1\ncolumns v\ngenerate prefixes\ntest sum v = 0\ntest length mod 3 = 2\n\
              aggregate best 2 min v\nrows\n",
        ),
        (
            b"gta 1\ncolumns v\nmeasure m=-0+v\ngenerate segments\naggregate count\nrows",
            b"gta 1\ncolumns v\nmeasure m = -0 + v\ngenerate segments\naggregate count\nrows\n",
        ),
        (
            b"gta 1\ncolumns v\ngenerate sublists\naggregate max v\nrows",
            b"gta 1\ncolumns v\ngenerate sublists\naggregate max v\nrows\n",
        ),
    ];
    for (input, text) in cases {
        for source in [input, text] {
            let ended = called(&rt, rt.alloc(), &["show"], source, SMOOTH)?;
            assert_eq!(rt; ended.out.as_slice(), text, "output at {source:?}");
            assert_eq!(rt; ended.status, 0, "status at {source:?}");
        }
    }
    Ok(())
}
