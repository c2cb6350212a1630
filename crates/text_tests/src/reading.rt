//! Worked examples: a text, and how many parts it has or its refusal.
use gta_syntax::{SpecFault, first_version, read_spec};
use gta_text::INPUT_BOUND;
use std::alloc::Global;
use std::fmt::Write;
use std::test::Fail;

/// The number of parts that are read, or the refusal in a word and its numbers.
fn answer(alloc: Global, bytes: &[u8]) -> Result<Vec<u8>, Fail> {
    let mut out = String::new(alloc);
    if bytes.len() > INPUT_BOUND {
        return Ok(Vec::new(alloc));
    }
    match read_spec(alloc, bytes) {
        Ok(read) => write!(out, "parts {}", read.spec.parts.len())?,
        Err(SpecFault::Byte { line, place }) => write!(out, "byte {line} {place}")?,
        Err(SpecFault::Version { line }) => write!(out, "version {line}")?,
        Err(SpecFault::Grammar { line }) => write!(out, "grammar {line}")?,
        Err(SpecFault::Number { line }) => write!(out, "number {line}")?,
        Err(SpecFault::NoRows) => write!(out, "no rows")?,
        Err(SpecFault::Memory) => write!(out, "memory")?,
    }
    Ok(out.as_bytes().to_vec(alloc)?)
}

#[test]
fn taken_texts(rt: HostRuntime) -> Result<(), Fail> {
    let cases: [(&[u8], &[u8]); 33] = [
        (b"gta 1\nrows\n", b"parts 0"),
        (b"# c\n\ngta 1 # d\r\n\nrows # e\nv\n1", b"parts 0"),
        (
            b"gta 1\ncolumns v#c\ngenerate  sublists\nmeasure m = -  3*v+02 if v>=1;7\naggregate min m\nrows",
            b"parts 4",
        ),
        (
            b"gta 1\ncolumns weight = \"Weight, kg\" value n=\"\"\nrows",
            b"parts 1",
        ),
        (b"gta 1\nlabels A B _c\nrows", b"parts 1"),
        (b"gta 1\nmeasure m=v\nrows", b"parts 1"),
        (b"gta 1\nmeasure m=-0-0+v-2*w\nrows", b"parts 1"),
        (
            b"gta 1\nmeasure m=1 if label A and v<=-0 and w = -7;2;x if x=3\nrows",
            b"parts 1",
        ),
        (b"gta 1\ntable t unit e elements e a\nrows", b"parts 1"),
        (b"gta 1\ntimes t a=e a\nrows", b"parts 1"),
        (b"gta 1\ngenerate segments\nrows", b"parts 1"),
        (b"gta 1\ngenerate prefixes\nrows", b"parts 1"),
        (b"gta 1\ngenerate suffixes\nrows", b"parts 1"),
        (b"gta 1\ngenerate assign\nrows", b"parts 1"),
        (b"gta 1\ntest sum v<=50\nrows", b"parts 1"),
        (b"gta 1\ntest sum v mod 03=1\nrows", b"parts 1"),
        (b"gta 1\ntest length>=-1\nrows", b"parts 1"),
        (
            b"gta 1\ntest fold t by a if v=1 and label B;b accept e a\nrows",
            b"parts 1",
        ),
        (b"gta 1\naggregate count\nrows", b"parts 1"),
        (b"gta 1\naggregate any\nrows", b"parts 1"),
        (b"gta 1\naggregate max m\nrows", b"parts 1"),
        (b"gta 1\naggregate best 03 min m\nrows", b"parts 1"),
        (b"gta 1\nmeasure m=4611686018427387903\nrows", b"parts 1"),
        (b"gta 1\ncolumns keep or not then\nrows", b"parts 1"),
        (b"gta 2\ntest few=length<=1\nrows", b"parts 1"),
        (b"gta 2\nkeep not(a or b)and c\nrows", b"parts 1"),
        (b"gta 2\naggregate max a then min b\nrows", b"parts 1"),
        (
            b"gta 2\naggregate best 3 min a then min b then max c\nrows",
            b"parts 1",
        ),
        (b"gta 2\ncolumns step run in\nrows", b"parts 1"),
        (
            b"gta 3\nautomaton A states s start s letters x\nrows",
            b"parts 1",
        ),
        (b"gta 3\nstep A x=s t\nrows", b"parts 1"),
        (
            b"gta 3\ntest run A by x if v=1;y accept s t\nrows",
            b"parts 1",
        ),
        (
            b"gta 3\ntest a=run A by x accept s\nkeep a\nrows",
            b"parts 2",
        ),
    ];
    for (bytes, parts) in cases {
        let told = answer(rt.alloc(), bytes)?;
        assert_eq!(rt; told.as_slice(), parts, "at {bytes:?}");
    }
    Ok(())
}

#[test]
fn refusals(rt: HostRuntime) -> Result<(), Fail> {
    let cases: [(&[u8], &[u8]); 58] = [
        (b"", b"version 1"),
        (b"rows\n", b"version 1"),
        (b"\n\n# c\n\ngta 4\nrows\n", b"version 5"),
        (b"gta 01\nrows\n", b"version 1"),
        (b"gta 1 1\nrows\n", b"version 1"),
        (b"gta\nrows\n", b"version 1"),
        (b"gta 1\ncolumns v\n", b"no rows"),
        (b"gta 1\ngta 1\nrows\n", b"grammar 2"),
        (b"gta 1\n\ncolumns\nrows\n", b"grammar 3"),
        (b"gta 1\ncolumns v=\nrows\n", b"grammar 2"),
        (b"gta 1\ncolumns v=w\nrows\n", b"grammar 2"),
        (b"gta 1\ncolumns v=\"w\nrows\n", b"grammar 2"),
        (b"gta 1\ncolumns count\nrows\n", b"grammar 2"),
        (b"gta 1\nlabels\nrows\n", b"grammar 2"),
        (b"gta 1\nlabels 1\nrows\n", b"grammar 2"),
        (b"gta 1\nmeasure m =\nrows\n", b"grammar 2"),
        (b"gta 1\nmeasure m = v*2\nrows\n", b"grammar 2"),
        (b"gta 1\nmeasure m = + v\nrows\n", b"grammar 2"),
        (b"gta 1\nmeasure m = v if\nrows\n", b"grammar 2"),
        (b"gta 1\nmeasure m = v if v\nrows\n", b"grammar 2"),
        (b"gta 1\nmeasure m = v if v < 1\nrows\n", b"grammar 2"),
        (b"gta 1\nmeasure m = v;\nrows\n", b"grammar 2"),
        (b"gta 1\ntable t unit e elements\nrows\n", b"grammar 2"),
        (b"gta 1\ntable t elements e\nrows\n", b"grammar 2"),
        (b"gta 1\ntimes t a = \nrows\n", b"grammar 2"),
        (b"gta 1\ngenerate nothing\nrows\n", b"grammar 2"),
        (b"gta 1\ngenerate sublists x\nrows\n", b"grammar 2"),
        (b"gta 1\ntest sum <= 1\nrows\n", b"grammar 2"),
        (b"gta 1\ntest length mod 2\nrows\n", b"grammar 2"),
        (b"gta 1\ntest fold t by a accept\nrows\n", b"grammar 2"),
        (b"gta 1\naggregate\nrows\n", b"grammar 2"),
        (b"gta 1\naggregate best 3 m\nrows\n", b"grammar 2"),
        (b"gta 1\nrows x\nrows\n", b"grammar 2"),
        (
            b"gta 1\nmeasure m = 4611686018427387904\nrows\n",
            b"number 2",
        ),
        (
            b"gta 1\ntest sum v <= -4611686018427387904\ngenerate x\nrows\n",
            b"grammar 3",
        ),
        (
            b"gta 1\nmeasure m = 9999999999999999999999999\n",
            b"number 2",
        ),
        (b"gta 2\ncolumns v # \xc3\nrows\n", b"byte 2 13"),
        (b"gta 1\ncolumns v\x00\n", b"byte 2 10"),
        (b"gta 1\ntest few = length <= 1\nrows\n", b"grammar 2"),
        (b"gta 2\ncolumns keep\nrows\n", b"grammar 2"),
        (b"gta 2\nkeep a b\nrows\n", b"grammar 2"),
        (b"gta 2\nkeep a and\nrows\n", b"grammar 2"),
        (b"gta 2\nkeep ()\nrows\n", b"grammar 2"),
        (b"gta 2\naggregate max a then b\nrows\n", b"grammar 2"),
        (b"gta 2\naggregate best 3 max a then\nrows\n", b"grammar 2"),
        (
            b"gta 2\nautomaton A states s start s letters x\nrows\n",
            b"grammar 2",
        ),
        (b"gta 2\nstep A x = s\nrows\n", b"grammar 2"),
        (b"gta 2\ntest run A by x accept s\nrows\n", b"grammar 2"),
        (b"gta 3\ncolumns step\nrows\n", b"grammar 2"),
        (b"gta 3\ncolumns then\nrows\n", b"grammar 2"),
        (
            b"gta 3\nautomaton A states s letters x\nrows\n",
            b"grammar 2",
        ),
        (
            b"gta 3\nautomaton A states start s letters x\nrows\n",
            b"grammar 2",
        ),
        (b"gta 3\nstep A = s\nrows\n", b"grammar 2"),
        (b"gta 3\nstep A x =\nrows\n", b"grammar 2"),
        (b"gta 3\ntest run A by x\nrows\n", b"grammar 2"),
        (
            b"gta 3\ngenerate states p start p end p\nrows\n",
            b"grammar 2",
        ),
        (b"gta 1\n\x7f\nrows\n", b"byte 2 1"),
        (b"gta 1\ncolumns a\rb\nrows\n", b"byte 2 10"),
    ];
    for (bytes, text) in cases {
        let shown = answer(rt.alloc(), bytes)?;
        assert_eq!(rt; shown.as_slice(), text, "at {bytes:?}");
    }
    Ok(())
}

#[test]
fn reserved_words_are_no_columns(rt: HostRuntime) -> Result<(), Fail> {
    let words: [&[u8]; 31] = [
        b"gta",
        b"columns",
        b"labels",
        b"measure",
        b"table",
        b"times",
        b"generate",
        b"test",
        b"aggregate",
        b"rows",
        b"sum",
        b"length",
        b"fold",
        b"by",
        b"accept",
        b"mod",
        b"if",
        b"and",
        b"label",
        b"unit",
        b"elements",
        b"best",
        b"max",
        b"min",
        b"count",
        b"any",
        b"sublists",
        b"segments",
        b"prefixes",
        b"suffixes",
        b"assign",
    ];
    for word in words {
        let mut text = b"gta 1\ncolumns ".to_vec(rt.alloc())?;
        text.extend_from_slice(word)?;
        text.extend_from_slice(b"\nrows\n")?;
        let shown = answer(rt.alloc(), &text)?;
        assert_eq!(rt; shown.as_slice(), b"grammar 2".as_slice(), "at {word:?}");
    }
    Ok(())
}

#[test]
fn the_table_begins_behind_rows(rt: HostRuntime) -> Result<(), Fail> {
    let cases: [(&[u8], u32); 4] = [
        (b"gta 1\nrows", 10),
        (b"gta 1\nrows\r\nv\n", 12),
        (b"\xef\xbb\xbfgta 1\nrows\nv\n", 14),
        (b"gta 1\nrows # \xc3\xa9\n", 16),
    ];
    for (bytes, place) in cases {
        let read = read_spec(rt.alloc(), bytes).ok().ok_or("it is read")?;
        assert_eq!(rt; read.rows_at, place, "at {bytes:?}");
    }
    Ok(())
}

// A text, and the version that its first line with tokens names.
#[test]
fn versions(rt: HostRuntime) -> Result<(), Fail> {
    let cases: [(&[u8], Option<u8>); 9] = [
        (b"gta 1\n", Some(1)),
        (b"\xef\xbb\xbf# \xc3\n\n \tgta  2# c\r\nrows\n", Some(2)),
        (b"gta 2", Some(2)),
        (b"rows\ngta 2\n", None),
        (b"gta 02\n", None),
        (b"gta 2 \xc3\n", None),
        (b"gta 3\n", Some(3)),
        (b"gta 4\n", None),
        (b"", None),
    ];
    for (bytes, version) in cases {
        if bytes.len() <= INPUT_BOUND {
            assert_eq!(rt; first_version(rt.alloc(), bytes)?, version, "at {bytes:?}");
        }
    }
    Ok(())
}
