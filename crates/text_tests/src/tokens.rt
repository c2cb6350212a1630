//! Worked examples in bytes.
use gta_text::{
    INPUT_BOUND, Name, TextFault, TokenKind, digits_value, field_value, is_name, lines_of,
};
use std::alloc::Global;
use std::fmt::Write;
use std::test::Fail;

#[test]
fn names_hand_their_bytes_back(rt: HostRuntime) -> Result<(), Fail> {
    let name = Name::of(rt.alloc(), b"weight")?;
    assert_eq!(rt; name.bytes(), b"weight".as_slice());
    Ok(())
}

#[test]
fn numbers(rt: HostRuntime) {
    let cases: [(&[u8], Option<u64>); 9] = [
        (b"0", Some(0)),
        (b"007", Some(7)),
        (b"4611686018427387903", Some(4611686018427387903)),
        (b"4611686018427387904", None),
        (b"00000000000000000000000000000000000000005", Some(5)),
        (b"99999999999999999999999999999999999999999", None),
        (b"", None),
        (b"1x", None),
        (b"+1", None),
    ];
    for (bytes, value) in cases {
        assert_eq!(rt; digits_value(bytes), value, "at {bytes:?}");
    }
}

#[test]
fn cells(rt: HostRuntime) {
    let cases: [(&[u8], Option<i64>); 11] = [
        (b"12", Some(12)),
        (b"+12", Some(12)),
        (b"-12", Some(-12)),
        (b"-0", Some(0)),
        (b"-4611686018427387903", Some(-4611686018427387903)),
        (b"-4611686018427387904", None),
        (b"+", None),
        (b"-", None),
        (b"--1", None),
        (b" 1", None),
        (b"", None),
    ];
    for (bytes, value) in cases {
        assert_eq!(rt; field_value(bytes), value, "at {bytes:?}");
    }
}

#[test]
fn words_that_are_names(rt: HostRuntime) {
    let cases: [(&[u8], bool); 10] = [
        (b"weight", true),
        (b"_", true),
        (b"Z9_a", true),
        (b"Sum", true),
        (b"", false),
        (b"9a", false),
        (b"a b", false),
        (b"a-b", false),
        (b"sum", false),
        (b"sums", true),
    ];
    for (bytes, answer) in cases {
        assert_eq!(rt; is_name(bytes), answer, "at {bytes:?}");
    }
}

#[test]
fn reserved_words_are_no_names(rt: HostRuntime) {
    let words: [&[u8]; 31] = [
        b"gta",
        b"columns",
        b"labels",
        b"measure",
        b"table",
        b"times",
        b"generate",
        b"test",
        b"aggregate",
        b"rows",
        b"sum",
        b"length",
        b"fold",
        b"by",
        b"accept",
        b"mod",
        b"if",
        b"and",
        b"label",
        b"unit",
        b"elements",
        b"best",
        b"max",
        b"min",
        b"count",
        b"any",
        b"sublists",
        b"segments",
        b"prefixes",
        b"suffixes",
        b"assign",
    ];
    for word in words {
        assert!(rt; !is_name(word), "at {word:?}");
    }
}

/// The answer of `lines_of` in letters: each line's number and its tokens' kinds, then the rest.
fn kinds(alloc: Global, bytes: &[u8]) -> Result<String, Fail> {
    let mut out = String::new(alloc);
    if bytes.len() > INPUT_BOUND {
        return Ok(out);
    }
    let lines = match lines_of(alloc, bytes) {
        Ok(lines) => lines,
        Err(TextFault::Byte { line, place }) => {
            write!(out, "byte {line} {place}")?;
            return Ok(out);
        }
        Err(TextFault::Memory) => {
            out.push_str("memory")?;
            return Ok(out);
        }
    };
    for line in &lines.lines {
        let number = line.number;
        write!(out, "{number} ")?;
        for token in &line.tokens {
            let letter = match token.kind {
                TokenKind::Word => "W",
                TokenKind::Digits => "D",
                TokenKind::Text => "T",
                TokenKind::Sign => "S",
                TokenKind::Stray => "?",
            };
            out.push_str(letter)?;
        }
        out.push_str(" ")?;
    }
    match lines.rows_at {
        Some(place) => write!(out, "rows {place}")?,
        None => out.push_str("no rows")?,
    }
    Ok(out)
}

#[test]
fn lines_and_tokens(rt: HostRuntime) -> Result<(), Fail> {
    let cases: [(&[u8], &str); 42] = [
        (b"", "no rows"),
        (b"rows", "rows 4"),
        (b"rows\r", "rows 5"),
        (b"rows\n", "rows 5"),
        (b"\n\nrows\nrest", "rows 7"),
        (b"\xef\xbb\xbfrows\n", "rows 8"),
        (b"\xef\xbb\xbf\xef\xbb\xbfrows\n", "byte 1 1"),
        (b"\xef\xbbrows\n", "byte 1 1"),
        (b" rows # \xc3\x00\nx", "rows 11"),
        (b"rows x\n", "1 WW no rows"),
        (b"Rows\n", "1 W no rows"),
        (b"\"rows\"\n", "1 T no rows"),
        (b"gta 1\n\nrows\n", "1 WD rows 12"),
        (b"a<=b\n", "1 WSW no rows"),
        (b"a<b\n", "1 W?W no rows"),
        (b"a>\n", "1 W? no rows"),
        (b"a>=\n", "1 WS no rows"),
        (b"=\n", "1 S no rows"),
        (b"==\n", "1 SS no rows"),
        (b"<\n", "1 ? no rows"),
        (b"<=", "1 S no rows"),
        (b"12ab3 4\n", "1 DWD no rows"),
        (b"a1_b 0x\n", "1 WDW no rows"),
        (b"+-*;()=\n", "1 SSSSSSS no rows"),
        (b"!\n", "1 ? no rows"),
        (b"\"a b\"c\n", "1 TW no rows"),
        (b"\"\"\n", "1 T no rows"),
        (b"\"\n", "1 ? no rows"),
        (b"\"a\n", "1 ?W no rows"),
        (b"\"a\tb\"\n", "1 ?WW? no rows"),
        (b"\"a#b\" c\n", "1 TW no rows"),
        (b"\"a # b\n", "1 ?W no rows"),
        (b"a#\"b\n", "1 W no rows"),
        (b"#\n\ta\n", "2 W no rows"),
        (b"a\r\nb\r\n", "1 W 2 W no rows"),
        (b"a\rb\n", "byte 1 2"),
        (b"a\r\r\n", "byte 1 2"),
        (b"a\nbc\x00\n", "byte 2 3"),
        (b"a # \x7f\n", "byte 1 5"),
        (b"\xef\xbb\xbfab\xc3\n", "byte 1 3"),
        (b"a\nrows\n\xc3\x00\x7f", "1 W rows 7"),
        (b"\xc3\nrows\n", "byte 1 1"),
    ];
    for (bytes, answer) in cases {
        let shown = kinds(rt.alloc(), bytes)?;
        assert_eq!(rt; shown.as_str(), answer, "at {bytes:?}");
    }
    Ok(())
}

#[test]
fn tokens_are_slices(rt: HostRuntime) -> Result<(), Fail> {
    let source = b"\nab <= \"x y\"\n";
    let lines = lines_of(rt.alloc(), source).ok().ok_or("memory")?;
    let texts: [&[u8]; 3] = [b"ab", b"<=", b"\"x y\""];
    for line in &lines.lines {
        assert_eq!(rt; line.number, 2);
        assert_eq!(rt; line.tokens.len(), 3);
        for (token, text) in line.tokens.iter().zip(texts) {
            assert_eq!(rt; token.text(source), text);
        }
    }
    Ok(())
}
