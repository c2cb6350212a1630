//! Worked examples: a specification that is accepted, the first faults of two others, and two tables
//! with a fold.

ghost use Rattle.std.specs.Prelude.{◌≡◌, IfOk};
ghost use Rattle.gta_spec.specs.Parts.{kind_tree, pick_tree, spec_tree};
ghost use Rattle.gta_spec.specs.WellFormed.{FitsKind, FitsName, FitsPick, IsWellFormed, SomeFit};

use gta_checked::{Checked, Test};
use gta_spec::{
    ColumnItem, GoalPart, Part, PartKind, PickPart, Spec, TablePart, TestPart, TimesPart,
};
use gta_text::Name;
use gta_types::{CheckFault, check};
use shape_gen::Shape;
use spec_tables::TablesFault;
use std::alloc::{AllocError, Global};
use std::fmt::Write;
use std::test::Fail;

/// Columns on line 2, a shape on line 3, a goal on line 4.
fn spec(alloc: Global, column: &[u8], shape: Shape, weight: &[u8]) -> Result<Spec, AllocError>
    requires column { FitsName 1 column.now }
    requires weight { FitsName 1 weight.now }
    ensures { IfOk result (λ spec. IsWellFormed (spec_tree spec)) }
{
    let mut items = Vec::new(alloc);
    let name = Name::of(alloc, column)?;
    items.push(ColumnItem { name, header: None })?;
    let goal = GoalPart::Max(Name::of(alloc, weight)?);
    let columns = Part {
        line: 2,
        kind: PartKind::Columns(items),
    };
    let generate = Part {
        line: 3,
        kind: PartKind::Generate(shape),
    };
    let aggregate = Part {
        line: 4,
        kind: PartKind::Aggregate(goal),
    };
    let parts = Vec::from_array(alloc, [columns, generate, aggregate])?;
    Ok(Spec { version: 1, parts })
}

#[tactic(auto, unfolding(gta_text::specs::Names::is_reserved, gta_spec::specs::Versions::is_later))]
#[test]
fn first_faults(rt: HostRuntime) -> Result<(), Fail> {
    let alloc = rt.alloc();
    let checked = check(alloc, &spec(alloc, b"v", Shape::Sublists, b"v")?)?;
    assert_eq!(rt; checked.measures().len(), 1);
    let unknown = check(alloc, &spec(alloc, b"v", Shape::Assign, b"w")?);
    assert!(rt;
        matches!(&unknown, Err(CheckFault::Unknown { line: 4, .. })),
        "a weight that isn't declared"
    );
    let assign = check(alloc, &spec(alloc, b"v", Shape::Assign, b"v")?);
    let is_assign = matches!(
        &assign,
        Err(CheckFault::LabelsAssign {
            line: 3,
            assign: true
        })
    );
    assert!(rt; is_assign, "assignments without labels");
    Ok(())
}

/// The elements e, a and b of a table in some order, and its lines `times`: an element, and its products in
/// that order.
#[derive(Clone, Copy)]
struct Lines {
    order: &'static [u8; 3],
    times: [&'static [u8; 5]; 3],
}

/// Counts modulo 3, with a as 1 and b as 2.
const MODULO: Lines = Lines {
    order: b"eab",
    times: [b"e:eab", b"a:abe", b"b:bea"],
};

/// The same from the last element to the first.
const BACKWARDS: Lines = Lines {
    order: b"bae",
    times: [b"b:aeb", b"a:eba", b"e:bae"],
};

/// e isn't a unit of b from the right.
const NO_UNIT: Lines = Lines {
    order: b"eab",
    times: [b"e:eab", b"a:abe", b"b:aea"],
};

/// a (a a) isn't (a a) a.
const NO_ORDER: Lines = Lines {
    order: b"eab",
    times: [b"e:eab", b"a:aba", b"b:bba"],
};

/// a has two lines, and b has none.
const NO_LINE: Lines = Lines {
    order: b"eab",
    times: [b"e:eab", b"a:abe", b"a:bea"],
};

#[tactic(auto, unfolding(gta_text::specs::Names::is_reserved, gta_spec::specs::Versions::is_later))]
fn letter(alloc: Global, byte: u8) -> Result<Name, AllocError>
    ensures { IfOk result (FitsName 1) }
{
    match byte {
        b'a' => Name::of(alloc, b"a"),
        b'b' => Name::of(alloc, b"b"),
        b't' => Name::of(alloc, b"t"),
        b'u' => Name::of(alloc, b"u"),
        _ => Name::of(alloc, b"e"),
    }
}

fn letters(alloc: Global, bytes: [u8; 3]) -> Result<Vec<Name>, AllocError>
    ensures { IfOk result (λ names. SomeFit (FitsName 1) names.items) }
{
    let first = letter(alloc, bytes[0])?;
    let second = letter(alloc, bytes[1])?;
    let third = letter(alloc, bytes[2])?;
    Ok(Vec::from_array(alloc, [first, second, third])?)
}

fn table(alloc: Global, line: u32, name: u8, lines: &Lines) -> Result<Part, AllocError>
    ensures line { IfOk result (λ part. part.line ≡ line) }
    ensures fits { IfOk result (λ part. FitsKind 1 (kind_tree part.kind)) }
{
    let kind = PartKind::Table(TablePart {
        name: letter(alloc, name)?,
        unit: letter(alloc, b'e')?,
        elements: letters(alloc, *lines.order)?,
    });
    Ok(Part { line, kind })
}

fn times(alloc: Global, line: u32, table: u8, row: &[u8; 5]) -> Result<Part, AllocError>
    ensures line { IfOk result (λ part. part.line ≡ line) }
    ensures fits { IfOk result (λ part. FitsKind 1 (kind_tree part.kind)) }
{
    let kind = PartKind::Times(TimesPart {
        table: letter(alloc, table)?,
        element: letter(alloc, row[0])?,
        products: letters(alloc, [row[2], row[3], row[4]])?,
    });
    Ok(Part { line, kind })
}

fn pick(alloc: Global, element: u8) -> Result<PickPart, AllocError>
    ensures { IfOk result (λ pick. FitsPick 1 (pick_tree pick)) }
{
    Ok(PickPart {
        element: letter(alloc, element)?,
        cond: Vec::new(alloc),
    })
}

/// A fold by the table u that picks b, and accepts e and a.
fn fold(alloc: Global, line: u32) -> Result<Part, AllocError>
    ensures line { IfOk result (λ part. part.line ≡ line) }
    ensures fits { IfOk result (λ part. FitsKind 1 (kind_tree part.kind)) }
{
    let picked = pick(alloc, b'b')?;
    let e = letter(alloc, b'e')?;
    let a = letter(alloc, b'a')?;
    let kind = PartKind::Test(TestPart::Fold {
        table: letter(alloc, b'u')?,
        picks: Vec::from_array(alloc, [picked])?,
        accept: Vec::from_array(alloc, [e, a])?,
    });
    Ok(Part { line, kind })
}

/// Columns on line 2, a shape on line 3, the tables t and u, a fold by u, and a goal.
#[tactic(auto, unfolding(gta_text::specs::Names::is_reserved, gta_spec::specs::Versions::is_later))]
fn of_tables(alloc: Global, t: &Lines, u: &Lines) -> Result<Spec, AllocError>
    ensures { IfOk result (λ spec. IsWellFormed (spec_tree spec)) }
{
    let name = Name::of(alloc, b"v")?;
    let items = Vec::from_array(alloc, [ColumnItem { name, header: None }])?;
    let columns = Part {
        line: 2,
        kind: PartKind::Columns(items),
    };
    let generate = Part {
        line: 3,
        kind: PartKind::Generate(Shape::Sublists),
    };
    let aggregate = Part {
        line: 13,
        kind: PartKind::Aggregate(GoalPart::Count),
    };
    let parts = Vec::from_array(
        alloc,
        [
            columns,
            generate,
            table(alloc, 4, b't', t)?,
            times(alloc, 5, b't', t.times[0])?,
            times(alloc, 6, b't', t.times[1])?,
            times(alloc, 7, b't', t.times[2])?,
            table(alloc, 8, b'u', u)?,
            times(alloc, 9, b'u', u.times[0])?,
            times(alloc, 10, b'u', u.times[1])?,
            times(alloc, 11, b'u', u.times[2])?,
            fold(alloc, 12)?,
            aggregate,
        ],
    )?;
    Ok(Spec { version: 1, parts })
}

fn write_name(out: &mut String, name: &Name) -> Result<(), Fail> {
    out.push(' ')?;
    for byte in name.bytes() {
        out.push(*byte as char)?;
    }
    Ok(())
}

fn write_tests(out: &mut String, checked: &Checked) -> Result<(), Fail> {
    for test in checked.tests() {
        if let Test::Fold {
            table,
            picks,
            accept,
        } = test
        {
            write!(out, "by {table} picks")?;
            for pick in picks {
                let element = pick.element;
                write!(out, " {element}")?;
            }
            out.push_str(" accepts")?;
            for element in accept {
                write!(out, " {element}")?;
            }
        }
    }
    Ok(())
}

fn write_tables_fault(out: &mut String, fault: &TablesFault) -> Result<(), Fail> {
    match fault {
        TablesFault::UnitFails {
            table,
            element,
            left,
        } => {
            write!(out, "unit {left}")?;
            write_name(out, table)?;
            write_name(out, element)?;
        }
        TablesFault::NotAssociative { table, a, b, c } => {
            out.push_str("triple")?;
            write_name(out, table)?;
            write_name(out, a)?;
            write_name(out, b)?;
            write_name(out, c)?;
        }
        TablesFault::NotSquare { table, element } => {
            out.push_str("square")?;
            write_name(out, table)?;
            write_name(out, element)?;
        }
        TablesFault::Memory => out.push_str("memory")?,
    }
    Ok(())
}

fn write_fault(out: &mut String, fault: &CheckFault) -> Result<(), Fail> {
    match fault {
        CheckFault::Table(fault) => write_tables_fault(out, fault),
        other => Ok(write!(out, "{other:?}")?),
    }
}

/// The fold of a specification of these tables in letters, or its fault.
fn tell(alloc: Global, t: &Lines, u: &Lines) -> Result<String, Fail> {
    let mut out = String::new(alloc);
    match check(alloc, &of_tables(alloc, t, u)?) {
        Ok(checked) => write_tests(&mut out, &checked)?,
        Err(fault) => write_fault(&mut out, &fault)?,
    }
    Ok(out)
}

#[test]
fn tables_and_a_fold(rt: HostRuntime) -> Result<(), Fail> {
    let cases = [
        (MODULO, BACKWARDS, "by 1 picks 0 accepts 2 1"),
        (BACKWARDS, MODULO, "by 1 picks 2 accepts 0 1"),
        (MODULO, NO_UNIT, "unit false u b"),
        (NO_ORDER, MODULO, "triple t a a a"),
        (MODULO, NO_LINE, "square u a"),
        // a unit before a triple before a line, and of like faults that of the first table
        (NO_ORDER, NO_UNIT, "unit false u b"),
        (NO_LINE, NO_ORDER, "triple u a a a"),
        (NO_ORDER, NO_ORDER, "triple t a a a"),
        (NO_LINE, NO_LINE, "square t a"),
    ];
    for (t, u, told) in cases {
        let text = tell(rt.alloc(), &t, &u)?;
        assert_eq!(rt; text.as_str(), told);
    }
    Ok(())
}
