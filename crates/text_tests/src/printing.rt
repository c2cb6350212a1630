//! Worked examples: specifications built by hand, and their texts.
ghost use Rattle.std.specs.Prelude.{IfOk};
ghost use Rattle.gta_spec.specs.WellFormed.{FitsName};

use gta_canonical::show_spec;
use gta_spec::{
    AtomPart, CasePart, Check, Cmp, ColumnItem, GoalPart, MeasurePart, Part, PartKind, Spec,
    TermPart, TestPart,
};
use gta_text::{Name, is_name};
use shape_gen::Shape;
use std::alloc::Global;
use std::test::Fail;

/// A name of version 1.
#[tactic(auto, using(crate::proofs::Names::first_reserves_none))]
fn name(alloc: Global, text: &[u8]) -> Result<Name, Fail>
    ensures { IfOk result (FitsName 1) }
{
    if !is_name(text) {
        return Err("it is a name".into());
    }
    Ok(Name::of(alloc, text)?)
}

#[test]
fn no_parts(rt: HostRuntime) -> Result<(), Fail> {
    let spec = Spec {
        version: 1,
        parts: Vec::new(rt.alloc()),
    };
    let text = show_spec(rt.alloc(), &spec)?;
    assert_eq!(rt; text.as_slice(), b"gta 1\nrows\n".as_slice());
    Ok(())
}

#[test]
fn parts_without_names(rt: HostRuntime) -> Result<(), Fail> {
    let least = Check::Compare {
        cmp: Cmp::AtLeast,
        number: -1,
    };
    let even = Check::Mod {
        modulus: 2,
        residue: 0,
    };
    let parts = vec![in rt.alloc();
        Part {
            line: 2,
            kind: PartKind::Generate(Shape::Segments)
        },
        Part {
            line: 5,
            kind: PartKind::Test(TestPart::Length { check: least })
        },
        Part {
            line: 6,
            kind: PartKind::Test(TestPart::Length { check: even })
        },
        Part {
            line: 9,
            kind: PartKind::Aggregate(GoalPart::Count)
        },
    ]?;
    let spec = Spec { version: 1, parts };
    let text = show_spec(rt.alloc(), &spec)?;
    let expected =
        b"gta 1\ngenerate segments\ntest length >= -1\ntest length mod 2 = 0\naggregate count\nrows\n";
    assert_eq!(rt; text.as_slice(), expected.as_slice());
    Ok(())
}

#[test]
fn columns_and_a_measure(rt: HostRuntime) -> Result<(), Fail> {
    let bare = ColumnItem {
        name: name(rt.alloc(), b"v")?,
        header: None,
    };
    let product = TermPart {
        minus: true,
        number: Some(3),
        name: Some(name(rt.alloc(), b"v")?),
    };
    let constant = TermPart {
        minus: false,
        number: Some(2),
        name: None,
    };
    let case = CasePart {
        form: vec![in rt.alloc(); product, constant]?,
        cond: vec![in rt.alloc(); AtomPart::Label(name(rt.alloc(), b"A")?)]?,
    };
    let measure = MeasurePart {
        name: name(rt.alloc(), b"m")?,
        cases: vec![in rt.alloc(); case]?,
    };
    let parts = vec![in rt.alloc();
        Part {
            line: 2,
            kind: PartKind::Columns(vec![in rt.alloc(); bare]?)
        },
        Part {
            line: 3,
            kind: PartKind::Measure(measure)
        },
    ]?;
    let spec = Spec { version: 1, parts };
    let text = show_spec(rt.alloc(), &spec)?;
    let expected = b"gta 1\ncolumns v\nmeasure m = -3*v + 2 if label A\nrows\n";
    assert_eq!(rt; text.as_slice(), expected.as_slice());
    Ok(())
}
