//! The names that the lines declare, in their order.

ghost use Rattle.std.specs.Prelude.{◌≡◌, [], ◌∷◌, ◌++◌, map, IfOk, OnOk};
ghost use Rattle.gta_spec.specs.Parts.{kind_tree, part_tree};
ghost use Rattle.gta_types.specs.Names.{declare, declarations_of, declarations};
ghost use Rattle.gta_types.specs.Index.{declaration, scope_within, scope_in, scope_of, found_of};

use crate::names::Found;
use gta_spec::{ColumnItem, Part, PartKind};
use gta_text::Name;
use std::alloc::{AllocError, Global};

/// What a name within a line is declared as.
#[derive(Clone, Copy, PartialEq, Eq, Debug)]
pub(crate) enum InnerKind {
    Element,
    State,
    Letter,
}

/// What a name is declared as.
#[derive(Clone, Copy, PartialEq, Eq, Debug)]
pub(crate) enum NameKind {
    AColumn,
    ALabel,
    AMeasure,
    ATable,
    AnAutomaton,
    ATest,
    Inner(InnerKind),
}

/// A name, what it is declared as, and the line that does so.
#[derive(Clone, Copy)]
pub(crate) struct Declared<'a> {
    pub(crate) line: u32,
    pub(crate) kind: NameKind,
    pub(crate) name: &'a Name,
}

impl<'a> Declared<'a> {
    /// Where the name is looked up.
    pub(crate) fn scope(&self) -> u64
        ensures { result ≡ scope_of (declaration self.now) }
    {
        scope_in(self.kind, self.line)
    }

    pub(crate) fn found(&self) -> Found
        ensures { result ≡ found_of (declaration self.now) }
    {
        Found {
            kind: self.kind,
            line: self.line,
        }
    }
}

/// Where a name within a line is looked up. The lists of such names are counted, three for each line.
pub(crate) fn scope_within(kind: InnerKind, line: u32) -> u64
    ensures { result ≡ scope_within kind line }
{
    match kind {
        InnerKind::Element => 3 * line as u64 + 1,
        InnerKind::State => 3 * line as u64 + 2,
        InnerKind::Letter => 3 * line as u64 + 3,
    }
}

fn scope_in(kind: NameKind, line: u32) -> u64
    ensures { result ≡ scope_in kind line }
{
    match kind {
        NameKind::Inner(kind) => scope_within(kind, line),
        _ => 0,
    }
}

/// The declarations of these lines, in their order.
pub(crate) fn declared_in<'a>(
    alloc: Global,
    parts: &'a [Part],
) -> Result<Vec<Declared<'a>>, AllocError>
    ensures { IfOk result (λ all. map declaration all.items ≡ declarations (map part_tree parts.now)) }
{
    let mut all = Vec::new(alloc);
    for part in parts {
        declare_part(&mut all, part.line, &part.kind)?;
    }
    Ok(all)
}

fn declare_part<'a>(
    all: &mut Vec<Declared<'a>>,
    line: u32,
    kind: &'a PartKind,
) -> Result<(), AllocError>
    ensures { OnOk result (map declaration all.new.items
        ≡ map declaration all.old.items ++ declarations_of line (kind_tree kind.now)) }
{
    match kind {
        PartKind::Columns(items) => declare_items(all, line, items.as_slice()),
        PartKind::Labels(names) => declare_names(all, line, NameKind::ALabel, names.as_slice()),
        PartKind::Measure(part) => declare_one(all, line, NameKind::AMeasure, &part.name),
        PartKind::Table(part) => {
            declare_one(all, line, NameKind::ATable, &part.name)?;
            declare_names(
                all,
                line,
                NameKind::Inner(InnerKind::Element),
                part.elements.as_slice(),
            )
        }
        PartKind::Automaton(part) => {
            declare_one(all, line, NameKind::AnAutomaton, &part.name)?;
            declare_names(
                all,
                line,
                NameKind::Inner(InnerKind::State),
                part.states.as_slice(),
            )?;
            declare_names(
                all,
                line,
                NameKind::Inner(InnerKind::Letter),
                part.letters.as_slice(),
            )
        }
        PartKind::Named { name, .. } => declare_one(all, line, NameKind::ATest, name),
        _ => Ok(()),
    }
}

fn declare_one<'a>(
    all: &mut Vec<Declared<'a>>,
    line: u32,
    kind: NameKind,
    name: &'a Name,
) -> Result<(), AllocError>
    ensures { OnOk result (map declaration all.new.items
        ≡ map declaration all.old.items ++ declare line kind name.now ∷ []) }
{
    all.push(Declared { line, kind, name })?;
    Ok(())
}

fn declare_names<'a>(
    all: &mut Vec<Declared<'a>>,
    line: u32,
    kind: NameKind,
    names: &'a [Name],
) -> Result<(), AllocError>
    ensures { OnOk result (map declaration all.new.items
        ≡ map declaration all.old.items ++ map (declare line kind) names.now) }
{
    for name in names {
        declare_one(all, line, kind, name)?;
    }
    Ok(())
}

fn declare_items<'a>(
    all: &mut Vec<Declared<'a>>,
    line: u32,
    items: &'a [ColumnItem],
) -> Result<(), AllocError>
    ensures { OnOk result (map declaration all.new.items
        ≡ map declaration all.old.items ++ map (λ item. declare line NameKind.AColumn item.name) items.now) }
{
    for item in items {
        declare_one(all, line, NameKind::AColumn, &item.name)?;
    }
    Ok(())
}
