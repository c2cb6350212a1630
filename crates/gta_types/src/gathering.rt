//! Copies of the declared names, each kind in its order.

ghost use Rattle.std.specs.Prelude.{◌≡◌, ◌≤◌, ◌++◌, map, vec_len, All, IfOk, OnOk};
ghost use Rattle.gta_spec.specs.Parts.{kind_tree, part_tree};
ghost use Rattle.gta_spec.specs.declared.limits.TheConstants.{TABLE_LIMIT};
ghost use Rattle.gta_checked.specs.Plain.{plain_named};
ghost use Rattle.gta_checked.specs.Within.{IsTableWithin};
ghost use Rattle.gta_types.specs.Lists.{environment_of, names_of, HasGathered, HasGatheredMore, HasFewNames};
ghost use Rattle.gta_types.specs.Resolved.{environment, column_items};
ghost use Rattle.std.specs.List.{flat_map};

use crate::lists::Lists;
use gta_checked::Table;
use gta_spec::{AutomatonPart, ColumnItem, Part, PartKind};
use gta_text::Name;
use std::alloc::{AllocError, Global};

/// Names as they are gathered.
#[derive(Drop)]
pub(crate) struct Gathered<'a> {
    pub(crate) columns: Vec<ColumnItem>,
    pub(crate) labels: Vec<Name>,
    pub(crate) measures: Vec<Name>,
    pub(crate) automata: Vec<&'a AutomatonPart>,
    pub(crate) tests: Vec<Name>,
}

fn copy_of(alloc: Global, name: &Name) -> Result<Name, AllocError>
    ensures { IfOk result (λ copy. copy ≡ name.now) }
{
    Name::of(alloc, name.bytes())
}

fn copy_of_item(alloc: Global, item: &ColumnItem) -> Result<ColumnItem, AllocError>
    ensures { IfOk result (λ copy. copy ≡ item.now) }
{
    let name = copy_of(alloc, &item.name)?;
    let header = match &item.header {
        Some(header) => Some(copy_of(alloc, header)?),
        None => None,
    };
    Ok(ColumnItem { name, header })
}

fn copy_names(alloc: Global, copies: &mut Vec<Name>, names: &[Name]) -> Result<(), AllocError>
    ensures { OnOk result (copies.new.items ≡ copies.old.items ++ names.now) }
{
    for name in names {
        copies.push(copy_of(alloc, name)?)?;
    }
    Ok(())
}

fn copy_items(
    alloc: Global,
    copies: &mut Vec<ColumnItem>,
    items: &[ColumnItem],
) -> Result<(), AllocError>
    ensures { OnOk result (copies.new.items ≡ copies.old.items ++ items.now) }
{
    for item in items {
        copies.push(copy_of_item(alloc, item)?)?;
    }
    Ok(())
}

fn gather_part<'a>(
    alloc: Global,
    gathered: &mut Gathered<'a>,
    kind: &'a PartKind,
) -> Result<(), AllocError>
    ensures { OnOk result (HasGatheredMore (kind_tree kind.now) gathered.old gathered.new) }
{
    match kind {
        PartKind::Columns(items) => copy_items(alloc, &mut gathered.columns, items.as_slice()),
        PartKind::Labels(names) => copy_names(alloc, &mut gathered.labels, names.as_slice()),
        PartKind::Measure(part) => {
            gathered.measures.push(copy_of(alloc, &part.name)?)?;
            Ok(())
        }
        PartKind::Automaton(automaton) => {
            gathered.automata.push(automaton)?;
            Ok(())
        }
        PartKind::Test(_) => {
            gathered.tests.push(Name::of(alloc, b"")?)?;
            Ok(())
        }
        PartKind::Named { name, .. } => {
            gathered.tests.push(copy_of(alloc, name)?)?;
            Ok(())
        }
        _ => Ok(()),
    }
}

fn gather<'a>(alloc: Global, parts: &'a [Part]) -> Result<Gathered<'a>, AllocError>
    ensures { IfOk result (HasGathered (map part_tree parts.now)) }
{
    let mut gathered = Gathered {
        columns: Vec::new(alloc),
        labels: Vec::new(alloc),
        measures: Vec::new(alloc),
        automata: Vec::new(alloc),
        tests: Vec::new(alloc),
    };
    for part in parts {
        gather_part(alloc, &mut gathered, &part.kind)?;
    }
    Ok(gathered)
}

/// The declared names of these lines, with the tables of their lines.
pub(crate) fn lists_of<'a>(
    alloc: Global,
    parts: &'a [Part],
    tables: Vec<Table>,
) -> Result<Lists<'a>, AllocError>
    requires few { HasFewNames (map part_tree parts.now) }
    requires few_tables { vec_len tables ≤ TABLE_LIMIT }
    requires within { All IsTableWithin (map plain_named tables.items) }
    requires tables { map names_of tables.items ≡ (environment (map part_tree parts.now)).tables }
    ensures names { IfOk result (λ lists. environment_of lists ≡ environment (map part_tree parts.now)) }
    ensures columns { IfOk result (λ lists. lists.columns.items
        ≡ flat_map (λ part. column_items part.kind) (map part_tree parts.now)) }
    ensures tables { IfOk result (λ lists. lists.tables.items ≡ tables.items) }
{
    let Gathered {
        columns,
        labels,
        measures,
        automata,
        tests,
    } = gather(alloc, parts)?;
    Ok(Lists {
        columns,
        labels,
        measures,
        tables,
        automata,
        tests,
    })
}
