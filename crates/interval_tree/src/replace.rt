//! The values of a tree after its plan has another row: those of the intervals with the row, made apart and then put
//! in place of the old ones.

ghost use Rattle.std.specs.Prelude.{◌≡◌, ◌+◌, ◌*◌, ◌<◌, ◌≤◌, IfOk};
ghost use Rattle.interval_tree.specs.Node.{Holds, height};
ghost use Rattle.interval_tree.specs.Path.{Renews, path_value, standing_without};

use crate::node::Node;
use interval_kit::Fused;
use std::alloc::{AllocError, Global};
use std::sync::ledger::Ledger;
use step_count::Steps;

/// New values of the intervals with one row: that of the row alone, and above it that of each larger interval.
#[derive(Drop)]
pub enum Path<V> {
    Leaf(V),
    Above(Box<Path<V>>, V),
}

impl<V> Path<V> {
    /// The value of the most rows. It takes no memory.
    fn value(&self) -> &V
        ensures { result.now ≡ path_value self.now }
    {
        match self {
            Path::Leaf(value) => value,
            Path::Above(_, value) => value,
        }
    }
}

/// The values anew of the intervals with the row. The node's values of the others stand. It takes memory for them.
pub(crate) fn path_of<F: Fused, L: Ledger>(
    alloc: Global,
    plan: &F,
    node: &Node<F::Value>,
    lo: u32,
    hi: u32,
    row: u32,
    steps: &mut Steps<L>,
) -> Result<Path<F::Value>, AllocError>
    requires from { lo ≤ row }
    requires below { row < hi }
    requires within { hi ≤ F.rows plan.now }
    requires others_stand { Holds (standing_without (F.stands plan.now) row) lo hi node.now }
    ensures renews { IfOk result (Renews (F.stands plan.now) row lo hi node.now) }
    ensures stands { IfOk result (λ path. F.stands plan.now lo hi (path_value path)) }
    ensures cost { steps.new
        ≤ steps.old + F.leaf_bound plan.now 1 + F.join_bound plan.now * height node.now }
{
    match node {
        Node::NoRows => unreachable!(),
        Node::Row(_) => Ok(Path::Leaf(plan.leaf(alloc, lo, hi, steps)?)),
        Node::Rows(left, mid, _, right) => {
            let mid = *mid;
            if row < mid {
                let path = path_of(alloc, plan, left, lo, mid, row, steps)?;
                let Some(beside) = right.value() else {
                    unreachable!()
                };
                let value = plan.join(alloc, lo, mid, hi, path.value(), beside, steps)?;
                Ok(Path::Above(Box::new(alloc, path)?, value))
            } else {
                let path = path_of(alloc, plan, right, mid, hi, row, steps)?;
                let Some(beside) = left.value() else {
                    unreachable!()
                };
                let value = plan.join(alloc, lo, mid, hi, beside, path.value(), steps)?;
                Ok(Path::Above(Box::new(alloc, path)?, value))
            }
        }
    }
}

/// Puts the values of the path in place of the old ones. It takes no memory.
#[tactic(auto, using(crate::proofs::Nodes::holds_above, crate::proofs::Nodes::holds_below))]
pub(crate) fn put<F: Fused>(
    plan: &F,
    node: &mut Node<F::Value>,
    lo: u32,
    hi: u32,
    row: u32,
    path: Path<F::Value>,
)
    requires from { lo ≤ row }
    requires below { row < hi }
    requires others_stand { Holds (standing_without (F.stands plan.now) row) lo hi node.old }
    requires renews { Renews (F.stands plan.now) row lo hi node.old path }
    ensures holds { Holds (F.stands plan.now) lo hi node.new }
    ensures same_height { height node.new ≡ height node.old }
{
    match (node, path) {
        (Node::Row(old), Path::Leaf(value)) => *old = value,
        (Node::Rows(left, mid, old, right), Path::Above(below, value)) => {
            *old = value;
            if row < *mid {
                put(plan, left, lo, *mid, row, Box::into_inner(below));
            } else {
                put(plan, right, *mid, hi, row, Box::into_inner(below));
            }
        }
        _ => unreachable!(),
    }
}
