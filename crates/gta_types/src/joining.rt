//! A specification without a fault, with its names resolved.

ghost use Rattle.std.specs.Prelude.{◌≡◌, map, None, All, IfOk};
ghost use Rattle.auto_monoid.specs.TransitionOf.{machine};
ghost use Rattle.gta_spec.specs.Parts.{spec_tree};
ghost use Rattle.gta_spec.specs.WellFormed.{IsWellFormed};
ghost use Rattle.gta_checked.specs.Plain.{plain_checked, plain_named};
ghost use Rattle.gta_checked.specs.Within.{IsAutomatonWithin, IsWithinLimits};
ghost use Rattle.spec_rules.specs.SpecRules.{rule_fault};
ghost use Rattle.spec_automata.specs.Automata.{automata_in, automaton_of};
ghost use Rattle.spec_tables.specs.Tables.{named_table, tables_in};
ghost use Rattle.gta_types.specs.Faults.{name_fault};
ghost use Rattle.gta_types.specs.Resolved.{IsResolved};

use crate::drafting::{Draft, draft_parts};
use crate::gathering::lists_of;
use crate::lists::Lists;
use crate::resolving::column_measures;
use auto_monoid::AutoMonoid;
use gta_checked::{Checked, Goal, Table};
use gta_spec::Spec;
use shape_gen::Shape;
use std::alloc::{AllocError, Global};

/// The specification with its names resolved, and these tables and automata. Refuses only for want of memory.
pub(crate) fn resolve(
    alloc: Global,
    spec: &Spec,
    tables: Vec<Table>,
    automata: Vec<AutoMonoid>,
) -> Result<Checked, AllocError>
    requires well_formed { IsWellFormed (spec_tree spec.now) }
    requires names { name_fault (spec_tree spec.now).parts ≡ None }
    requires rules { rule_fault (spec_tree spec.now) ≡ None }
    requires tables { map plain_named tables.items
        ≡ map (named_table (spec_tree spec.now).parts) (tables_in (spec_tree spec.now).parts) }
    requires automata { map machine automata.items
        ≡ map (automaton_of (spec_tree spec.now).parts) (automata_in (spec_tree spec.now).parts) }
    requires within { All IsAutomatonWithin (map machine automata.items) }
    ensures { IfOk result (IsResolved (spec_tree spec.now)) }
{
    let parts = spec.parts.as_slice();
    let lists = lists_of(alloc, parts, tables)?;
    let columns = lists.columns.len() as u32;
    let mut draft = Draft {
        measures: column_measures(alloc, columns)?,
        tests: Vec::new(alloc),
        named: Vec::new(alloc),
        keep: None,
        shapes: Vec::new(alloc),
        goals: Vec::new(alloc),
    };
    draft_parts(alloc, &lists, &mut draft, parts)?;
    let shape = draft.shapes[0];
    let goal = draft.goals.remove(0);
    Ok(checked_of(spec.version, lists, automata, draft, shape, goal))
}

fn checked_of(
    version: u8,
    lists: Lists,
    automata: Vec<AutoMonoid>,
    draft: Draft,
    shape: Shape,
    goal: Goal,
) -> Checked
    requires { IsWithinLimits (plain_checked version lists.columns.items lists.labels.items
        draft.measures.items lists.tables.items automata.items draft.tests.items draft.named.items draft.keep
        shape goal) }
    ensures { result ≡ plain_checked version lists.entry.columns.items lists.entry.labels.items
        draft.measures.items lists.entry.tables.items automata.items draft.tests.items draft.named.items draft.keep
        shape goal }
{
    Checked::of(
        version,
        lists.columns,
        lists.labels,
        draft.measures,
        lists.tables,
        automata,
        draft.tests,
        draft.named,
        draft.keep,
        shape,
        goal,
    )
}
