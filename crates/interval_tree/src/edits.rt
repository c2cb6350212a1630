//! A plan and the node of its rows, edited together. Without memory both are as before.

ghost use Rattle.std.specs.Prelude.{◌≡◌, ◌+◌, ◌*◌, ◌<◌, ◌≤◌, OnErr, OnOk};
ghost use Rattle.interval_tree.specs.Levels.{levels};
ghost use Rattle.interval_tree.specs.Node.{Holds};

use crate::editable::Editable;
use crate::node::Node;
use crate::replace::{path_of, put};
use std::alloc::{AllocError, Global};
use std::sync::ledger::Ledger;
use step_count::Steps;

/// Replaces a row. It takes memory for the new values.
pub(crate) fn set_row<F: Editable, L: Ledger>(
    alloc: Global,
    plan: &mut F,
    root: &mut Node<F::Value>,
    row: u32,
    new: F::Row,
    steps: &mut Steps<L>,
) -> Result<(), AllocError>
    requires in_range { row < F.rows plan.old }
    requires may_set { F.may_set plan.old row new }
    requires holds { Holds (F.stands plan.old) 0 (F.rows plan.old) root.old }
    ensures holds { Holds (F.stands plan.new) 0 (F.rows plan.new) root.new }
    ensures plan { OnOk result (plan.new ≡ F.after_set plan.old row new) }
    ensures same_plan { OnErr result (plan.new ≡ plan.old) }
    ensures same_root { OnErr result (root.new ≡ root.old) }
    ensures cost { steps.new ≤ steps.old + F.leaf_bound plan.old 1
        + F.join_bound plan.old * (2 * levels (F.rows plan.old)) }
{
    let rows = plan.rows();
    let old = plan.set(row, new);
    match path_of(alloc, plan, root, 0, rows, row, steps) {
        Ok(path) => {
            put(plan, root, 0, rows, row, path);
            Ok(())
        }
        Err(AllocError) => {
            plan.set(row, old);
            Err(AllocError)
        }
    }
}
