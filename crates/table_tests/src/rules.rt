//! Worked examples: parts, and the first rule that they break.
use gta_spec::{ColumnItem, GoalPart, Part, PartKind, Spec};
use gta_text::Name;
use shape_gen::Shape;
use spec_rules::{RuleFault, SinglePart, rule_fault};
use std::alloc::{AllocError, Global};

fn columns(alloc: Global) -> Result<PartKind, AllocError> {
    let mut items = Vec::new(alloc);
    items.push(ColumnItem {
        name: Name::of(alloc, b"v")?,
        header: None,
    })?;
    Ok(PartKind::Columns(items))
}

/// What a line says, by a letter: columns, assignments, segments, and else a count.
fn kind(alloc: Global, letter: u8) -> Result<PartKind, AllocError> {
    match letter {
        b'c' => columns(alloc),
        b'a' => Ok(PartKind::Generate(Shape::Assign)),
        b's' => Ok(PartKind::Generate(Shape::Segments)),
        _ => Ok(PartKind::Aggregate(GoalPart::Count)),
    }
}

/// A specification whose lines say this, from line 2 on.
fn spec(alloc: Global, letters: &[u8]) -> Result<Spec, AllocError> {
    let mut parts = Vec::new(alloc);
    let mut line = 1;
    for letter in letters {
        line = if line < 100 { line + 1 } else { line };
        let kind = kind(alloc, *letter)?;
        parts.push(Part { line, kind })?;
    }
    Ok(Spec { version: 1, parts })
}

// What the lines say, and the first rule that they break.
#[test]
fn first_rules_broken(rt: HostRuntime) -> Result<(), std::test::Fail> {
    let missing = RuleFault::Missing {
        part: SinglePart::Aggregate,
    };
    let assign = RuleFault::LabelsAssign {
        line: 4,
        assign: true,
    };
    let second = RuleFault::SecondPart {
        line: 4,
        part: SinglePart::Columns,
    };
    let cases: [(&[u8], Option<RuleFault>); 4] = [
        (b"cs", Some(missing)),
        (b"cga", Some(assign)),
        (b"cgcs", Some(second)),
        (b"cgs", None),
    ];
    for (letters, fault) in cases {
        let spec = spec(rt.alloc(), letters)?;
        assert_eq!(rt; rule_fault(&spec), fault, "at {letters:?}");
    }
    Ok(())
}
