//! Tables over the top call: which bytes are one, and the refusals of others in their order.

use super::{SMOOTH, assert_runs, called, job_of};
use std::alloc::Global;
use std::test::Fail;

const BAD_CELL: &[u8] =
    b"refused 35: row 1, column v: not a whole number within 4611686018427387903\n";

/// A job that asks for the greatest total of a column v, with the bytes of its table.
fn with_table(alloc: Global, table: &[u8]) -> Result<Vec<u8>, Fail> {
    let mut input = Vec::from_slice(
        alloc,
        b"gta 1\ncolumns v\ngenerate sublists\naggregate max v\nrows\n",
    )?;
    input.extend_from_slice(table)?;
    Ok(input)
}

// A table, and what is printed.
#[test]
fn tables_that_are_read(rt: HostRuntime) -> Result<(), Fail> {
    let cases: [(&[u8], &[u8]); 15] = [
        (b"v\n3\n-1\n4\n", b"answer 7\n"),
        (b"v\n", b"answer 0\n"),
        (b"v", b"answer 0\n"),
        (b"v\n-3\n-1\n", b"answer 0\n"),
        (b"v\n+3\n-0\n007\n", b"answer 10\n"),
        (b"v\n 7 \t\n", b"answer 7\n"),
        (b"\t v \n5\n", b"answer 5\n"),
        (b"v\n\n5\n\n\n6\n\n", b"answer 11\n"),
        (b"v\n5\n6", b"answer 11\n"),
        (b"v\r\n5\r\n6\r\n", b"answer 11\n"),
        (b"\xef\xbb\xbfv\n5\n", b"answer 5\n"),
        (b"v\n\"5\"\n", b"answer 5\n"),
        (b"\"a, b\",\"v\"\n\"x \"\"y\"\"\",5\nz,6\n", b"answer 11\n"),
        (b"v,w\n5,-\n6,\n", b"answer 11\n"),
        (b"v\n4611686018427387903\n", b"answer 4611686018427387903\n"),
    ];
    for (table, out) in cases {
        let input = with_table(rt.alloc(), table)?;
        assert_runs(&rt, rt.alloc(), &[(input.as_slice(), out, b"")])?;
    }
    Ok(())
}

// A table, and its refusal.
#[test]
fn tables_that_are_refused(rt: HostRuntime) -> Result<(), Fail> {
    let cases: [(&[u8], &[u8]); 19] = [
        (b"", b"refused 31: no header\n"),
        (b"\n\n", b"refused 31: no header\n"),
        (b"w\n", b"refused 32: column v missing\n"),
        (b"V\n1\n", b"refused 32: column v missing\n"),
        (b"w\nx\n1,2\n", b"refused 32: column v missing\n"),
        (b"v,v\n", b"refused 33: column v twice\n"),
        (
            b"v,w\nx,1\n2\n",
            b"refused 34: row 2: 1 fields, header has 2\n",
        ),
        (
            b"v\n1\n2,3\n",
            b"refused 34: row 2: 2 fields, header has 1\n",
        ),
        (b"v\n\"1,000\"\n", BAD_CELL),
        (b"v\n1.5\n", BAD_CELL),
        (b"v\n\"\"\n", BAD_CELL),
        (b"v,w\n,1\n", BAD_CELL),
        (b"v\n+\n", BAD_CELL),
        (b"v\n- 1\n", BAD_CELL),
        (b"v\n4611686018427387904\n", BAD_CELL),
        (b"v\n-4611686018427387904\n", BAD_CELL),
        (b"v\n\"5\n6\n", BAD_CELL),
        (
            b"v\n4611686018427387903\n1\n",
            b"refused 41: row 2: weight total past 4611686018427387903\n",
        ),
        (
            b"v\n-4611686018427387903\n0\n-1\n5\n",
            b"refused 41: row 3: weight total past 4611686018427387903\n",
        ),
    ];
    for (table, err) in cases {
        let input = with_table(rt.alloc(), table)?;
        assert_runs(&rt, rt.alloc(), &[(input.as_slice(), b"", err)])?;
    }
    Ok(())
}

// Columns with header texts of their own, and CR LF behind a mark.
#[test]
fn headers_of_their_own(rt: HostRuntime) -> Result<(), Fail> {
    assert_runs(
        &rt,
        rt.alloc(),
        &[
            (
                b"gta 1\ncolumns weight=\"Weight, kg\" value=\"Price\"\ngenerate sublists\n\
                  test sum weight <= 50\naggregate max value\nrows\n\
                  \xef\xbb\xbfItem,Price,\"Weight, kg\",Note\r\nTent,120,30,\r\n\
                  \"Stove \"\"S\"\"\",60,10,old\r\nRope, 100 ,20,\r\n",
                b"answer 220\n",
                b"",
            ),
            (
                b"gta 1\ncolumns v=\"V\"\ngenerate sublists\naggregate max v\nrows\nv,V\n1,2\n",
                b"answer 2\n",
                b"",
            ),
            (
                b"gta 1\ncolumns v=\"V\"\ngenerate sublists\naggregate max v\nrows\nv\n1\n",
                b"",
                b"refused 32: column v missing\n",
            ),
            (
                b"gta 1\ncolumns v w=\"v\"\ngenerate sublists\naggregate max w\nrows\nv\n3\n",
                b"answer 3\n",
                b"",
            ),
        ],
    )
}

// A version, and the number of cells, each a 1 on a line of its own.
#[test]
fn the_most_rows(rt: HostRuntime) -> Result<(), Fail> {
    let cases: [(&[u8], u32, &[u8], &[u8]); 4] = [
        (b"gta 1", 100_000, b"answer 100001\n", b""),
        (
            b"gta 1",
            100_001,
            b"",
            b"refused 36: more than 100000 rows\n",
        ),
        (b"gta 2", 400_000, b"answer 400001\n", b""),
        (
            b"gta 2",
            400_001,
            b"",
            b"refused 36: more than 400000 rows\n",
        ),
    ];
    for (version, count, out, err) in cases {
        let mut input = Vec::from_slice(rt.alloc(), version)?;
        input.extend_from_slice(b"\ncolumns v\ngenerate prefixes\naggregate count\nrows\nv\n")?;
        for _ in 0..count {
            input.extend_from_slice(b"1\n")?;
        }
        let ended = called(&rt, rt.alloc(), &["run"], input.as_slice(), SMOOTH)?;
        assert_eq!(rt; ended.out.as_slice(), out, "output at {count}");
        assert_eq!(rt; ended.err.as_slice(), err, "error output at {count}");
    }
    Ok(())
}

// A table, and its refusal where the candidates are counted.
#[test]
fn tables_of_a_count(rt: HostRuntime) -> Result<(), Fail> {
    let cases: [(&[u8], &[u8]); 5] = [
        (b"", b"refused 31: no header\n"),
        (b"w\n", b"refused 32: column v missing\n"),
        (b"v,v\n", b"refused 33: column v twice\n"),
        (
            b"v,w\nx,1\n2\n",
            b"refused 34: row 2: 1 fields, header has 2\n",
        ),
        (b"v\n1.5\n", BAD_CELL),
    ];
    for (table, err) in cases {
        let mut input = Vec::from_slice(
            rt.alloc(),
            b"gta 1\ncolumns v\ngenerate sublists\naggregate count\nrows\n",
        )?;
        input.extend_from_slice(table)?;
        for word in ["run", "list"] {
            let ended = called(&rt, rt.alloc(), &[word], input.as_slice(), SMOOTH)?;
            assert_eq!(rt; ended.status, 1, "status at {table:?}");
            assert_eq!(rt; ended.out.len(), 0, "output at {table:?}");
            assert_eq!(rt; ended.err.as_slice(), err, "error output at {table:?}");
        }
    }
    Ok(())
}
