//! The lines with their names resolved, each kind in its order.

ghost use Rattle.std.specs.Prelude.{◌≡◌, map, OnOk};
ghost use Rattle.gta_spec.specs.Parts.{kind_tree, part_tree};
ghost use Rattle.gta_spec.specs.WellFormed.{EachFits};
ghost use Rattle.gta_types.specs.Lists.{environment_of, IsDrafted, IsDraftedMore};
ghost use Rattle.gta_types.specs.Ready.{IsReady};

use crate::lists::Lists;
use crate::resolving::{resolve_goal, resolve_keep, resolve_measure, resolve_test};
use gta_checked::{Goal, Keep, Measure, Test};
use gta_spec::{Part, PartKind};
use shape_gen::Shape;
use std::alloc::{AllocError, Global};

/// The measures, tests, shapes and goals of the lines so far, and the first expression over tests.
#[derive(Drop)]
pub(crate) struct Draft {
    pub(crate) measures: Vec<Measure>,
    pub(crate) tests: Vec<Test>,
    pub(crate) named: Vec<bool>,
    pub(crate) keep: Option<Keep>,
    pub(crate) shapes: Vec<Shape>,
    pub(crate) goals: Vec<Goal>,
}

fn draft_part(
    alloc: Global,
    lists: &Lists,
    draft: &mut Draft,
    kind: &PartKind,
) -> Result<(), AllocError>
    requires { IsReady (kind_tree kind.now) }
    ensures { OnOk result (IsDraftedMore (environment_of lists.now) (kind_tree kind.now) draft.old draft.new) }
{
    match kind {
        PartKind::Measure(part) => {
            let measure = resolve_measure(alloc, lists, part.cases.as_slice())?;
            draft.measures.push(measure)?;
            Ok(())
        }
        PartKind::Generate(shape) => {
            draft.shapes.push(*shape)?;
            Ok(())
        }
        PartKind::Test(test) => {
            draft.tests.push(resolve_test(alloc, lists, test)?)?;
            draft.named.push(false)?;
            Ok(())
        }
        PartKind::Named { test, .. } => {
            draft.tests.push(resolve_test(alloc, lists, test)?)?;
            draft.named.push(true)?;
            Ok(())
        }
        PartKind::Keep(keep) => {
            if draft.keep.is_none() {
                draft.keep = Some(resolve_keep(alloc, lists, keep)?);
            }
            Ok(())
        }
        PartKind::Aggregate(goal) => {
            draft.goals.push(resolve_goal(alloc, lists, goal)?)?;
            Ok(())
        }
        _ => Ok(()),
    }
}

/// Adds the measures, tests, shapes and goals of these lines, and their first expression where none is there.
pub(crate) fn draft_parts(
    alloc: Global,
    lists: &Lists,
    draft: &mut Draft,
    parts: &[Part],
) -> Result<(), AllocError>
    requires { EachFits IsReady (map (λ part. kind_tree part.kind) parts.now) }
    ensures { OnOk result (IsDrafted (environment_of lists.now) (map part_tree parts.now) draft.old draft.new) }
{
    for part in parts {
        draft_part(alloc, lists, draft, &part.kind)?;
    }
    Ok(())
}
