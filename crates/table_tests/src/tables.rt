//! Tables and what is read of them, in letters.

use gta_checked::{Checked, Goal, Rows};
use gta_rows::{RowsFault, read_rows};
use gta_spec::{COLUMN_LIMIT, ColumnItem, FIRST_ROW_LIMIT};
use gta_text::{INPUT_BOUND, Name};
use shape_gen::Shape;
use std::alloc::{AllocError, Global};
use std::fmt::Write;
use std::test::Fail;

/// A specification with these columns, each a name and the text of its header.
fn with_columns(alloc: Global, columns: &[(&[u8], &[u8])]) -> Result<Option<Checked>, AllocError> {
    let mut items = Vec::new(alloc);
    for (name, text) in columns {
        let header = if name == text {
            None
        } else {
            Some(Name::of(alloc, text)?)
        };
        items.push(ColumnItem {
            name: Name::of(alloc, name)?,
            header,
        })?;
    }
    if items.len() > COLUMN_LIMIT {
        return Ok(None);
    }
    Ok(Some(Checked::of(
        1,
        items,
        Vec::new(alloc),
        Vec::new(alloc),
        Vec::new(alloc),
        Vec::new(alloc),
        Vec::new(alloc),
        Vec::new(alloc),
        None,
        Shape::Sublists,
        Goal::Count,
    )))
}

/// The answer of `read_rows` in letters.
fn read(alloc: Global, columns: &[(&[u8], &[u8])], bytes: &[u8]) -> Result<String, Fail> {
    let mut out = String::new(alloc);
    let Some(checked) = with_columns(alloc, columns)? else {
        return Ok(out);
    };
    if bytes.len() > INPUT_BOUND {
        return Ok(out);
    }
    match read_rows(alloc, &checked, bytes) {
        Ok(rows) => write_rows(&mut out, &rows)?,
        Err(fault) => write_fault(&mut out, &fault)?,
    }
    Ok(out)
}

fn write_rows(out: &mut String, rows: &Rows) -> Result<(), Fail> {
    let count = rows.count;
    let columns = rows.columns;
    write!(out, "{count} by {columns}:")?;
    if rows.cells.len() < 9 {
        for cell in &rows.cells {
            write!(out, " {cell}")?;
        }
    }
    Ok(())
}

fn write_fault(out: &mut String, fault: &RowsFault) -> Result<(), Fail> {
    match fault {
        RowsFault::NoHeader => out.push_str("no header")?,
        RowsFault::Missing { column } => {
            out.push_str("missing")?;
            write_bytes(out, column.bytes())?;
        }
        RowsFault::ColumnTwice { column } => {
            out.push_str("twice")?;
            write_bytes(out, column.bytes())?;
        }
        RowsFault::Length {
            row,
            fields,
            header,
        } => write!(out, "row {row} has {fields} of {header}")?,
        RowsFault::Field { row, column } => {
            write!(out, "row {row} no cell")?;
            write_bytes(out, column.bytes())?;
        }
        RowsFault::TooMany { limit } => write!(out, "more than {limit}")?,
        RowsFault::Memory => out.push_str("memory")?,
    }
    Ok(())
}

fn write_bytes(out: &mut String, bytes: &[u8]) -> Result<(), Fail> {
    for byte in bytes {
        write!(out, " {byte}")?;
    }
    Ok(())
}

#[test]
fn tables_of_one_column(rt: HostRuntime) -> Result<(), Fail> {
    let cases: [(&[u8], &str); 24] = [
        (b"v\n5\n7\n", "2 by 1: 5 7"),
        (b"v\r\n5\r\n7", "2 by 1: 5 7"),
        (b"v", "0 by 1:"),
        (b"", "no header"),
        (b"\r\n\n", "no header"),
        (b"\n\nv\n\n1\n\n\n2\n", "2 by 1: 1 2"),
        (b"\xef\xbb\xbfv\n1\n", "1 by 1: 1"),
        (b"\xef\xbb\xbf\xef\xbb\xbfv\n1\n", "1 by 1: 1"),
        (b"\xef\xbb\xbf\xef\xbb\xbf\xef\xbb\xbfv\n1\n", "missing 118"),
        (b" v\t\n 7 \t\n+3\n-0\n", "3 by 1: 7 3 0"),
        (b"\" v \"\n\" 8 \"\n", "1 by 1: 8"),
        (b"v\n\"1,000\"\n", "row 0 no cell 118"),
        (b"v\n2\n1.5\n", "row 1 no cell 118"),
        (b"v\n\"\"\n", "row 0 no cell 118"),
        (b"v\n4611686018427387903\n", "1 by 1: 4611686018427387903"),
        (b"v\n4611686018427387904\n", "row 0 no cell 118"),
        (b"v\n\"1\n2", "row 0 no cell 118"),
        (b"w\n1\n", "missing 118"),
        (b"V\n1\n", "missing 118"),
        (b"v, v\n1,2\n", "twice 118"),
        (b"w,v\nx,1\n\xff,2\n", "2 by 1: 1 2"),
        (b"v,w\nx,1\ny,1\n1\n1,2,3\n", "row 2 has 1 of 2"),
        (b"v\nx\ny\n", "row 0 no cell 118"),
        (b"v\n1,2\n", "row 0 has 2 of 1"),
    ];
    for (bytes, answer) in cases {
        let text = read(rt.alloc(), &[(b"v", b"v")], bytes)?;
        assert_eq!(rt; text.as_str(), answer, "at {bytes:?}");
    }
    Ok(())
}

#[test]
fn tables_of_two_columns(rt: HostRuntime) -> Result<(), Fail> {
    let cases: [(&[u8], &str); 5] = [
        (
            b"\xef\xbb\xbfcount,\"Unit price\"\r\n4,3\r\n\" 6\",\"-5\"\r\n",
            "2 by 2: 3 4 -5 6",
        ),
        (b"Unit price\n1\n", "missing 110"),
        (b"count,count\n1,2\n", "missing 112"),
        (b"count,Unit price,count\n1,2,3\n", "twice 110"),
        (b"count,Unit price\nx,y\n", "row 0 no cell 112"),
    ];
    for (bytes, answer) in cases {
        let text = read(
            rt.alloc(),
            &[(b"p", b"Unit price"), (b"n", b"count")],
            bytes,
        )?;
        assert_eq!(rt; text.as_str(), answer, "at {bytes:?}");
    }
    Ok(())
}

#[test]
fn as_many_rows_as_the_limit(rt: HostRuntime) -> Result<(), Fail> {
    let mut table = Vec::from_slice(rt.alloc(), b"v\n")?;
    for _ in 0..FIRST_ROW_LIMIT {
        table.extend_from_slice(b"1\n")?;
    }
    let whole = read(rt.alloc(), &[(b"v", b"v")], table.as_slice())?;
    assert_eq!(rt; whole.as_str(), "100000 by 1:");
    table.extend_from_slice(b"1\n")?;
    let more = read(rt.alloc(), &[(b"v", b"v")], table.as_slice())?;
    assert_eq!(rt; more.as_str(), "more than 100000");
    table.extend_from_slice(b"x\n")?;
    let bad = read(rt.alloc(), &[(b"v", b"v")], table.as_slice())?;
    assert_eq!(rt; bad.as_str(), "row 100001 no cell 118");
    Ok(())
}
