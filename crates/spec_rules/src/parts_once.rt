//! Parts that stand at most once, and those that belong together.

ghost use Rattle.std.specs.Prelude.{◌≡◌, map};
ghost use Rattle.std.specs.List.{list_any};
ghost use Rattle.gta_spec.specs.Parts.{kind_tree, part_tree};
ghost use Rattle.spec_rules.specs.declared.fault.SinglePart.TheVariants as singles;
ghost use Rattle.spec_rules.specs.SpecRules.{first_line, is_assign, is_single, labels_assign};
ghost use Rattle.spec_rules.specs.SpecRules.{missing, second_part, single_of};

use crate::fault::{RuleFault, SinglePart};
use gta_spec::{Part, PartKind};
use shape_gen::Shape;

fn single_of(kind: &PartKind) -> Option<SinglePart>
    ensures { result ≡ single_of (kind_tree kind.now) }
{
    match kind {
        PartKind::Columns(_) => Some(SinglePart::Columns),
        PartKind::Labels(_) => Some(SinglePart::Labels),
        PartKind::Generate(_) => Some(SinglePart::Generate),
        PartKind::Aggregate(_) => Some(SinglePart::Aggregate),
        PartKind::Keep(_) => Some(SinglePart::Keep),
        _ => None,
    }
}

fn is_single(part: SinglePart, line: &Part) -> bool
    ensures { result ≡ is_single part (part_tree line.now) }
{
    match single_of(&line.kind) {
        Some(single) => single == part,
        None => false,
    }
}

fn is_there(part: SinglePart, parts: &[Part]) -> bool
    ensures { result ≡ list_any (is_single part) (map part_tree parts.now) }
{
    parts.iter().any(|line| is_single(part, line))
}

/// The first of the parts that must stand and that no line is.
pub(crate) fn missing(parts: &[Part]) -> Option<SinglePart>
    ensures { result ≡ missing (map part_tree parts.now) }
{
    if !is_there(SinglePart::Columns, parts) {
        Some(SinglePart::Columns)
    } else if !is_there(SinglePart::Generate, parts) {
        Some(SinglePart::Generate)
    } else if !is_there(SinglePart::Aggregate, parts) {
        Some(SinglePart::Aggregate)
    } else {
        None
    }
}

/// Assignments without labels, or labels without assignments.
pub(crate) fn labels_assign(parts: &[Part]) -> Option<RuleFault>
    ensures { result ≡ labels_assign (map part_tree parts.now) }
{
    match (assign_line(parts), labels_line(parts)) {
        (Some(line), None) => Some(RuleFault::LabelsAssign { line, assign: true }),
        (None, Some(line)) => Some(RuleFault::LabelsAssign {
            line,
            assign: false,
        }),
        (Some(_), Some(_)) | (None, None) => None,
    }
}

fn assign_line(parts: &[Part]) -> Option<u32>
    ensures { result ≡ first_line (λ line. is_assign line.kind) (map part_tree parts.now) }
{
    match parts.iter().find(|line| is_assign(line)) {
        Some(line) => Some(line.line),
        None => None,
    }
}

fn labels_line(parts: &[Part]) -> Option<u32>
    ensures { result ≡ first_line (is_single singles.Labels) (map part_tree parts.now) }
{
    match parts
        .iter()
        .find(|line| is_single(SinglePart::Labels, line))
    {
        Some(line) => Some(line.line),
        None => None,
    }
}

fn is_assign(line: &Part) -> bool
    ensures { result ≡ is_assign (part_tree line.now).kind }
{
    match &line.kind {
        PartKind::Generate(shape) => *shape == Shape::Assign,
        _ => false,
    }
}

/// Which of the parts came so far.
#[derive(Drop)]
pub(crate) struct Seen {
    columns: bool,
    labels: bool,
    generate: bool,
    aggregate: bool,
    keep: bool,
}

impl Seen {
    ghost use Rattle.std.specs.Prelude.{◌≡◌, ◌||◌};
    ghost use Rattle.spec_rules.specs.SpecRules.{same_single};
    ghost use Rattle.spec_rules.specs.Seen.{has};
    ghost use Rattle.spec_rules.specs.declared.fault.SinglePart.{SinglePart};

    fn has(&self, part: SinglePart) -> bool
        ensures { result ≡ has self.now part }
    {
        match part {
            SinglePart::Columns => self.columns,
            SinglePart::Labels => self.labels,
            SinglePart::Generate => self.generate,
            SinglePart::Aggregate => self.aggregate,
            SinglePart::Keep => self.keep,
        }
    }

    fn add(&mut self, part: SinglePart)
        ensures { (other : SinglePart) → has self.new other ≡ (has self.old other || same_single other part) }
    {
        match part {
            SinglePart::Columns => self.columns = true,
            SinglePart::Labels => self.labels = true,
            SinglePart::Generate => self.generate = true,
            SinglePart::Aggregate => self.aggregate = true,
            SinglePart::Keep => self.keep = true,
        }
    }
}

/// The first line that repeats a part.
pub(crate) fn second_part(parts: &[Part]) -> Option<RuleFault>
    ensures { result ≡ second_part (map part_tree parts.now) }
{
    let mut seen = Seen {
        columns: false,
        labels: false,
        generate: false,
        aggregate: false,
        keep: false,
    };
    for line in parts {
        if let Some(part) = single_of(&line.kind) {
            if seen.has(part) {
                return Some(RuleFault::SecondPart {
                    line: line.line,
                    part,
                });
            }
            seen.add(part);
        }
    }
    None
}
