//! Nodes from the rows of a plan.

ghost use Rattle.std.specs.Prelude.{◌≡◌, ◌+◌, ◌-◌, ◌^◌, ◌<◌, ◌≤◌, IfOk};
ghost use Rattle.interval_tree.specs.Node.{Holds, height};

use crate::node::Node;
use interval_kit::Fused;
use std::alloc::{AllocError, Global};
use std::sync::ledger::Ledger;
use step_count::Steps;

/// The node of the rows `lo..hi`, which are at most 2 to the power of the level. It takes memory for each value.
pub(crate) fn node_of<F: Fused, L: Ledger>(
    alloc: Global,
    plan: &F,
    level: u32,
    lo: u32,
    hi: u32,
    steps: &mut Steps<L>,
) -> Result<Node<F::Value>, AllocError>
    requires level { level ≤ 32 }
    requires ordered { lo ≤ hi }
    requires within { hi ≤ F.rows plan.now }
    requires fits { hi ≤ lo + 2 ^ level }
    ensures holds { IfOk result (Holds (F.stands plan.now) lo hi) }
    ensures flat { IfOk result (λ node. height node ≤ level) }
    ensures full { hi ≡ lo + 2 ^ level → IfOk result (λ node. height node ≡ level) }
{
    if lo == hi {
        return Ok(Node::NoRows);
    }
    if level == 0 {
        return Ok(Node::Row(plan.leaf(alloc, lo, hi, steps)?));
    }
    let half = half_of(level);
    if hi - lo <= half {
        return node_of(alloc, plan, level - 1, lo, hi, steps);
    }
    let mid = lo + half;
    let left = Box::new(alloc, node_of(alloc, plan, level - 1, lo, mid, steps)?)?;
    let right = Box::new(alloc, node_of(alloc, plan, level - 1, mid, hi, steps)?)?;
    let value = joined(alloc, plan, lo, mid, hi, &left, &right, steps)?;
    Ok(Node::Rows(left, mid, value, right))
}

/// Half of 2 to the power of the level.
fn half_of(level: u32) -> u32
    requires some_level { 1 ≤ level }
    requires level { level ≤ 32 }
    ensures half { result ≡ 2 ^ (level - 1) }
    ensures twice { 2 ^ level ≡ result + result }
{
    1 << (level - 1)
}

/// The value of the rows `lo..hi`, from the nodes of `lo..mid` and `mid..hi`. It takes memory for the value.
pub(crate) fn joined<F: Fused, L: Ledger>(
    alloc: Global,
    plan: &F,
    lo: u32,
    mid: u32,
    hi: u32,
    left: &Node<F::Value>,
    right: &Node<F::Value>,
    steps: &mut Steps<L>,
) -> Result<F::Value, AllocError>
    requires left_rows { lo < mid }
    requires right_rows { mid < hi }
    requires within { hi ≤ F.rows plan.now }
    requires left { Holds (F.stands plan.now) lo mid left.now }
    requires right { Holds (F.stands plan.now) mid hi right.now }
    ensures stands { IfOk result (F.stands plan.now lo hi) }
    ensures cost { steps.new ≤ steps.old + F.join_bound plan.now }
{
    let Some(left_value) = left.value() else {
        unreachable!()
    };
    let Some(right_value) = right.value() else {
        unreachable!()
    };
    plan.join(alloc, lo, mid, hi, left_value, right_value, steps)
}
