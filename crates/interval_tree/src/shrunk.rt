//! A row less at the end of a tree: the values of the larger intervals at the end, made apart and then put in place.

ghost use Rattle.std.specs.Prelude.{◌≡◌, ◌+◌, ◌-◌, ◌*◌, ◌<◌, ◌≤◌, IfOk, IfSome, IsSome};
ghost use Rattle.interval_tree.specs.Ends.{Shrinks};
ghost use Rattle.interval_tree.specs.Node.{Holds, height};

use crate::node::Node;
use interval_kit::Fused;
use std::alloc::{AllocError, Global};
use std::mem;
use std::sync::ledger::Ledger;
use step_count::Steps;

/// What is left of a node without its last row.
#[derive(Drop)]
pub enum Shrunk<V> {
    /// The row was the only one.
    Gone,
    /// The right side was that row: the left side is left.
    LeftAlone,
    /// What is left of the right side, and the value of all that are left.
    Within(Box<Shrunk<V>>, V),
}

/// The value of the rows that are left, where there are some. It takes no memory.
#[tactic(auto, using(crate::proofs::Ends::gone_is_one, crate::proofs::Ends::within_stands))]
fn value_left<'a, F: Fused>(
    plan: &F,
    node: &'a Node<F::Value>,
    shrunk: &'a Shrunk<F::Value>,
    lo: u32,
    hi: u32,
) -> Option<&'a F::Value>
    requires several { lo + 1 < hi }
    requires holds { Holds (F.stands plan.now) lo hi node.now }
    requires shrinks { Shrinks (F.stands plan.now) lo hi node.now shrunk.now }
    ensures some { IsSome result }
    ensures stands { IfSome result (λ value. F.stands plan.now lo (hi - 1) value.now) }
{
    match shrunk {
        Shrunk::Gone => None,
        Shrunk::Within(_, value) => Some(value),
        Shrunk::LeftAlone => match node {
            Node::Rows(left, _, _, _) => left.value(),
            _ => None,
        },
    }
}

/// What is left of the node of the rows `lo..hi` without the last one. It takes memory for the values.
pub(crate) fn shrunk_of<F: Fused, L: Ledger>(
    alloc: Global,
    plan: &F,
    node: &Node<F::Value>,
    lo: u32,
    hi: u32,
    steps: &mut Steps<L>,
) -> Result<Shrunk<F::Value>, AllocError>
    requires some_rows { lo < hi }
    requires within { hi ≤ F.rows plan.now }
    requires holds { Holds (F.stands plan.now) lo hi node.now }
    ensures shrinks { IfOk result (Shrinks (F.stands plan.now) lo hi node.now) }
    ensures cost { steps.new ≤ steps.old + F.join_bound plan.now * height node.now }
{
    match node {
        Node::NoRows => unreachable!(),
        Node::Row(_) => Ok(Shrunk::Gone),
        Node::Rows(left, mid, _, right) => {
            let mid = *mid;
            if hi - mid == 1 {
                return Ok(Shrunk::LeftAlone);
            }
            let below = shrunk_of(alloc, plan, right, mid, hi, steps)?;
            let Some(first) = left.value() else {
                unreachable!()
            };
            let Some(rest) = value_left(plan, right, &below, mid, hi) else {
                unreachable!()
            };
            let value = plan.join(alloc, lo, mid, hi - 1, first, rest, steps)?;
            Ok(Shrunk::Within(Box::new(alloc, below)?, value))
        }
    }
}

/// Leaves of the node of the rows `lo..hi` what there is without the last one. It takes no memory.
pub(crate) fn put_shrunk<F: Fused>(
    plan: &F,
    node: &mut Node<F::Value>,
    lo: u32,
    hi: u32,
    shrunk: Shrunk<F::Value>,
)
    requires some_rows { lo < hi }
    requires holds { Holds (F.stands plan.now) lo hi node.old }
    requires shrinks { Shrinks (F.stands plan.now) lo hi node.old shrunk }
    ensures holds { Holds (F.stands plan.now) lo (hi - 1) node.new }
{
    match shrunk {
        Shrunk::Gone => *node = Node::NoRows,
        Shrunk::LeftAlone => {
            let Node::Rows(left, _, _, _) = mem::replace(node, Node::NoRows) else {
                unreachable!()
            };
            *node = Box::into_inner(left);
        }
        Shrunk::Within(below, value) => {
            let Node::Rows(_, mid, all, right) = node else {
                unreachable!()
            };
            *all = value;
            put_shrunk(plan, right, *mid, hi, Box::into_inner(below));
        }
    }
}
