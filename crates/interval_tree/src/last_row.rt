//! A plan and the node of its rows, with a row more or a row less at the end. Without memory both are as before.

ghost use Rattle.std.specs.Prelude.{◌≡◌, ◌+◌, ◌*◌, ◌^◌, ◌<◌, ◌≤◌, IfOk, OnErr, OnOk};
ghost use Rattle.std.specs.Prelude.{if◌then◌else◌, nat_le};
ghost use Rattle.interval_tree.specs.Levels.{levels};
ghost use Rattle.interval_tree.specs.Node.{Holds};

use crate::editable::Editable;
use crate::grown::{grown_of, put_grown};
use crate::node::Node;
use crate::shrunk::{put_shrunk, shrunk_of};
use std::alloc::{AllocError, Global};
use std::sync::ledger::Ledger;
use step_count::Steps;

/// Adds a row at the end. It takes memory for the new values.
pub(crate) fn push_row<F: Editable, L: Ledger>(
    alloc: Global,
    plan: &mut F,
    root: &mut Node<F::Value>,
    new: F::Row,
    steps: &mut Steps<L>,
) -> Result<(), AllocError>
    requires has_room { F.rows plan.old + 1 < 2 ^ 32 }
    requires may_push { F.may_push plan.old new }
    requires holds { Holds (F.stands plan.old) 0 (F.rows plan.old) root.old }
    ensures holds { Holds (F.stands plan.new) 0 (F.rows plan.new) root.new }
    ensures plan { OnOk result (plan.new ≡ F.after_push plan.old new) }
    ensures same_plan { OnErr result (plan.new ≡ plan.old) }
    ensures same_root { OnErr result (root.new ≡ root.old) }
    ensures cost { steps.new ≤ steps.old + F.leaf_bound plan.old 1
        + F.join_bound plan.old * (2 * levels (F.rows plan.old + 1)) }
{
    let rows = plan.rows();
    if plan.push(alloc, new).is_err() {
        return Err(AllocError);
    }
    match grown_of(alloc, plan, root, 0, rows, steps) {
        Ok(grown) => {
            put_grown(plan, root, 0, rows, grown);
            Ok(())
        }
        Err(AllocError) => {
            plan.pop();
            Err(AllocError)
        }
    }
}

/// Takes the last row away, and tells whether there was one. It takes memory for the new values.
pub(crate) fn pop_row<F: Editable, L: Ledger>(
    alloc: Global,
    plan: &mut F,
    root: &mut Node<F::Value>,
    steps: &mut Steps<L>,
) -> Result<bool, AllocError>
    requires holds { Holds (F.stands plan.old) 0 (F.rows plan.old) root.old }
    ensures holds { Holds (F.stands plan.new) 0 (F.rows plan.new) root.new }
    ensures some_row { IfOk result (λ popped. popped ≡ nat_le 1 (F.rows plan.old)) }
    ensures plan { OnOk result (plan.new ≡ (if nat_le 1 (F.rows plan.old) then F.after_pop plan.old else plan.old)) }
    ensures same_plan { OnErr result (plan.new ≡ plan.old) }
    ensures same_root { OnErr result (root.new ≡ root.old) }
    ensures cost { steps.new ≤ steps.old + F.join_bound plan.old * (2 * levels (F.rows plan.old)) }
{
    let rows = plan.rows();
    if rows == 0 {
        return Ok(false);
    }
    let shrunk = shrunk_of(alloc, plan, root, 0, rows, steps)?;
    put_shrunk(plan, root, 0, rows, shrunk);
    plan.pop();
    Ok(true)
}
