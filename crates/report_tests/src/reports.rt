//! Every refusal and every answer, with its printed bytes.

ghost use Rattle.std.specs.Prelude.{◌<◌, IfOk};
ghost use Rattle.std.specs.List.{All};

use best_k::{Best, Entry};
use gta_text::Name;
use report_text::{Answer, Refusal, fault_line, report};
use semiring_kit::Lex;
use shape_gen::Mark;
use std::alloc::{AllocError, Global};
use std::fmt::Write;
use std::test::Fail;
use witness_order::Witness;

#[test]
fn faults_of_reading(rt: HostRuntime) -> Result<(), Fail> {
    let cases: [(Refusal, &[u8]); 7] = [
        (
            Refusal::Byte { line: 2, place: 7 },
            b"refused 10: line 2, byte 7: not printable ASCII\n",
        ),
        (
            Refusal::Version { line: 1 },
            b"refused 11: line 1: not a known gta version\n",
        ),
        (
            Refusal::Grammar { line: 3 },
            b"refused 12: line 3: not in the grammar\n",
        ),
        (
            Refusal::Number { line: 4 },
            b"refused 13: line 4: number past 4611686018427387903\n",
        ),
        (Refusal::NoRows, b"refused 14: no line rows\n"),
        (
            Refusal::LabelsAssign {
                line: 3,
                assign: true,
            },
            b"refused 24: line 3: assign without labels\n",
        ),
        (
            Refusal::LabelsAssign {
                line: 2,
                assign: false,
            },
            b"refused 24: line 2: labels without assign\n",
        ),
    ];
    for (refusal, line) in cases {
        let said = fault_line(rt.alloc(), &refusal)?;
        assert_eq!(rt; said.as_slice(), line, "at {refusal:?}");
    }
    Ok(())
}

#[test]
fn faults_of_names(rt: HostRuntime) -> Result<(), Fail> {
    let name = Name::of(rt.alloc(), b"w")?;
    let twice = Name::of(rt.alloc(), b"v")?;
    let part = Name::of(rt.alloc(), b"aggregate")?;
    let second = Name::of(rt.alloc(), b"columns")?;
    let limit = Name::of(rt.alloc(), b"bound")?;
    let cases: [(Refusal, &[u8]); 5] = [
        (
            Refusal::Unknown { line: 4, name },
            b"refused 20: line 4: unknown name w\n",
        ),
        (
            Refusal::Twice {
                line: 2,
                name: twice,
            },
            b"refused 21: line 2: name v declared twice\n",
        ),
        (
            Refusal::Missing { part },
            b"refused 22: no part aggregate\n",
        ),
        (
            Refusal::SecondPart {
                line: 3,
                part: second,
            },
            b"refused 23: line 3: second part columns\n",
        ),
        (
            Refusal::Limit { line: 3, limit },
            b"refused 25: line 3: limit bound\n",
        ),
    ];
    for (refusal, line) in cases {
        let said = fault_line(rt.alloc(), &refusal)?;
        assert_eq!(rt; said.as_slice(), line, "at {refusal:?}");
    }
    Ok(())
}

#[test]
fn faults_of_tables_and_automata(rt: HostRuntime) -> Result<(), Fail> {
    let alloc = rt.alloc();
    let table = Name::of(alloc, b"t")?;
    let element = Name::of(alloc, b"a")?;
    let left = Refusal::UnitFails {
        table,
        element,
        left: true,
    };
    let table = Name::of(alloc, b"t")?;
    let element = Name::of(alloc, b"b")?;
    let right = Refusal::UnitFails {
        table,
        element,
        left: false,
    };
    let table = Name::of(alloc, b"t")?;
    let (a, b, c) = (
        Name::of(alloc, b"a")?,
        Name::of(alloc, b"b")?,
        Name::of(alloc, b"c")?,
    );
    let triple = Refusal::NotAssociative { table, a, b, c };
    let table = Name::of(alloc, b"t")?;
    let element = Name::of(alloc, b"a")?;
    let square = Refusal::NotSquare { table, element };
    let (name, letter) = (Name::of(alloc, b"A")?, Name::of(alloc, b"n")?);
    let not_total = Refusal::Automaton {
        name,
        letter: Some(letter),
    };
    let name = Name::of(alloc, b"T")?;
    let too_many = Refusal::Automaton { name, letter: None };
    let cases: [(Refusal, &[u8]); 6] = [
        (left, b"refused 26: table t: unit fails at a, left\n"),
        (right, b"refused 26: table t: unit fails at b, right\n"),
        (triple, b"refused 27: table t: not associative at a b c\n"),
        (square, b"refused 28: table t: not square at a\n"),
        (not_total, b"refused 29: automaton A: not total at n\n"),
        (
            too_many,
            b"refused 29: automaton T: more than 64 elements\n",
        ),
    ];
    for (refusal, line) in cases {
        let said = fault_line(alloc, &refusal)?;
        assert_eq!(rt; said.as_slice(), line, "at {refusal:?}");
    }
    Ok(())
}

#[test]
fn faults_of_rows(rt: HostRuntime) -> Result<(), Fail> {
    let missing = Name::of(rt.alloc(), b"v")?;
    let twice = Name::of(rt.alloc(), b"v")?;
    let column = Name::of(rt.alloc(), b"price")?;
    let cases: [(Refusal, &[u8]); 6] = [
        (Refusal::NoHeader, b"refused 31: no header\n"),
        (
            Refusal::ColumnMissing { column: missing },
            b"refused 32: column v missing\n",
        ),
        (
            Refusal::ColumnTwice { column: twice },
            b"refused 33: column v twice\n",
        ),
        (
            Refusal::Length {
                row: 1,
                fields: 1,
                header: 2,
            },
            b"refused 34: row 2: 1 fields, header has 2\n",
        ),
        (
            Refusal::Field { row: 0, column },
            b"refused 35: row 1, column price: not a whole number within 4611686018427387903\n",
        ),
        (
            Refusal::TooMany { limit: 100000 },
            b"refused 36: more than 100000 rows\n",
        ),
    ];
    for (refusal, line) in cases {
        let said = fault_line(rt.alloc(), &refusal)?;
        assert_eq!(rt; said.as_slice(), line, "at {refusal:?}");
    }
    Ok(())
}

#[test]
fn faults_of_numbers(rt: HostRuntime) -> Result<(), Fail> {
    let label = Some(Name::of(rt.alloc(), b"A")?);
    let least = -147573952589676412896;
    let cases: [(Refusal, &[u8]); 8] = [
        (
            Refusal::Negative {
                test: 0,
                row: 0,
                label: None,
                value: -3,
            },
            b"refused 40: test 1, row 1: value -3 is negative\n",
        ),
        (
            Refusal::Negative {
                test: 1,
                row: 4,
                label,
                value: least,
            },
            b"refused 40: test 2, row 5, label A: value -147573952589676412896 is negative\n",
        ),
        (
            Refusal::Heavy { row: 1 },
            b"refused 41: row 2: weight total past 4611686018427387903\n",
        ),
        (
            Refusal::Keys { keys: 16384 },
            b"refused 42: 16384 keys past 8192\n",
        ),
        (
            Refusal::Keys {
                keys: 20282409603651670423947251286016,
            },
            b"refused 42: 20282409603651670423947251286016 keys past 8192\n",
        ),
        (
            Refusal::Size { size: 67108865 },
            b"refused 43: size 67108865 past 67108864\n",
        ),
        (
            Refusal::ListSize,
            b"refused 44: too many candidates to list\n",
        ),
        (
            Refusal::Input { limit: 67108864 },
            b"refused 45: input past 67108864 bytes\n",
        ),
    ];
    for (refusal, line) in cases {
        let said = fault_line(rt.alloc(), &refusal)?;
        assert_eq!(rt; said.as_slice(), line, "at {refusal:?}");
    }
    Ok(())
}

#[test]
fn reports(rt: HostRuntime) -> Result<(), Fail> {
    let totals = Lex {
        first: 6,
        second: -3,
        third: 1,
    };
    let cases: [(Answer, &[u8]); 11] = [
        (Answer::Count(0), b"answer 0\n"),
        (
            Answer::Count(18446744073709551614),
            b"answer 18446744073709551614\n",
        ),
        (
            Answer::Count(18446744073709551615),
            b"answer 18446744073709551615 or more\n",
        ),
        (Answer::Any(true), b"answer yes\n"),
        (Answer::Any(false), b"answer no\n"),
        (
            Answer::Total(Some(4611686018427387903)),
            b"answer 4611686018427387903\n",
        ),
        (Answer::Total(Some(-7)), b"answer -7\n"),
        (Answer::Total(None), b"answer none\n"),
        (
            Answer::Totals {
                parts: 2,
                totals: Some(totals),
            },
            b"answer 6 -3\n",
        ),
        (
            Answer::Totals {
                parts: 3,
                totals: Some(totals),
            },
            b"answer 6 -3 1\n",
        ),
        (
            Answer::Totals {
                parts: 2,
                totals: None,
            },
            b"answer none\n",
        ),
    ];
    for (answer, text) in cases {
        let said = report(rt.alloc(), &answer, &[])?;
        assert_eq!(rt; said.as_slice(), text, "at {answer:?}");
    }
    Ok(())
}

// The entry of these rows, which all have this label.
fn entry_of<W: Copy>(
    alloc: Global,
    total: W,
    rows: &[u32],
    label: u32,
) -> Result<Entry<W>, AllocError>
    requires { label < 2 }
    ensures { IfOk result (λ entry. All (λ mark. mark.label < 2) entry.witness) }
{
    let mut marks = Vec::new(alloc);
    'rows: for row in rows {
        marks.push(Mark { row: *row, label })?;
    }
    let witness = Witness::of(alloc, marks.as_slice())?;
    Ok(Entry { total, witness })
}

#[test]
fn best_without_labels(rt: HostRuntime) -> Result<(), Fail> {
    let alloc = rt.alloc();
    let cases: [(&[(i64, &[u32])], &[u8]); 4] = [
        (&[], b"answer 0\n"),
        (
            &[(220, &[1, 2]), (180, &[0, 2])],
            b"answer 2\n1 220 2 3\n2 180 1 3\n",
        ),
        (
            &[(0, &[]), (0, &[0]), (0, &[1])],
            b"answer 3\n1 0 -\n2 0 1\n3 0 2\n",
        ),
        (&[(-3, &[4294967295])], b"answer 1\n1 -3 4294967296\n"),
    ];
    for (entries, text) in cases {
        let mut best = Vec::new(alloc);
        for (total, rows) in entries {
            best.push(entry_of(alloc, *total, rows, 0)?)?;
        }
        let said = report(alloc, &Answer::Best(Best::of(best)), &[])?;
        assert_eq!(rt; said.as_slice(), text, "at {entries:?}");
    }
    Ok(())
}

#[test]
fn best_with_labels(rt: HostRuntime) -> Result<(), Fail> {
    let alloc = rt.alloc();
    let labels = [Name::of(alloc, b"A")?, Name::of(alloc, b"B")?];
    let first = entry_of(alloc, 6, &[0, 1, 2], 0)?;
    let second = entry_of(alloc, 5, &[0], 1)?;
    let mut entries = Vec::new(alloc);
    entries.push(first)?;
    entries.push(second)?;
    let said = report(alloc, &Answer::Best(Best::of(entries)), &labels)?;
    let text: &[u8] = b"answer 2\n1 6 1:A 2:A 3:A\n2 5 1:B\n";
    assert_eq!(rt; said.as_slice(), text);
    Ok(())
}

#[test]
fn best_by_several_totals(rt: HostRuntime) -> Result<(), Fail> {
    let alloc = rt.alloc();
    let totals = Lex {
        first: 6,
        second: 0,
        third: -4611686018427387903,
    };
    let entry = entry_of(alloc, totals, &[0, 2], 0)?;
    let mut entries = Vec::new(alloc);
    entries.push(entry)?;
    let best = Best::of(entries);
    let said = report(alloc, &Answer::RankedBest { parts: 3, best }, &[])?;
    let text: &[u8] = b"answer 1\n1 6 0 -4611686018427387903 1 3\n";
    assert_eq!(rt; said.as_slice(), text);
    Ok(())
}
