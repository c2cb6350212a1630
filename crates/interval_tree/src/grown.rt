//! A row more at the end of a tree: the values of the intervals with it, made apart and then put in place.

ghost use Rattle.std.specs.Prelude.{◌≡◌, ◌+◌, ◌*◌, ◌^◌, ◌<◌, ◌≤◌, IfOk};
ghost use Rattle.interval_tree.specs.Ends.{Grows, IsBeside, grown_value};
ghost use Rattle.interval_tree.specs.Node.{Holds, height};

use crate::node::Node;
use interval_kit::Fused;
use std::alloc::{AllocError, Global};
use std::mem;
use std::sync::ledger::Ledger;
use step_count::Steps;

/// What a row adds behind the rows of a node.
#[derive(Drop)]
pub enum Grown<V> {
    /// There were no rows: the value of the row.
    First(V),
    /// The node and the row lie beside each other: room for the node, the value of both, and the node of the row.
    Beside(Box<Node<V>>, V, Box<Node<V>>),
    /// The row belongs to the right side: what it adds there, and the value of all.
    Below(Box<Grown<V>>, V),
}

impl<V> Grown<V> {
    /// The value of all rows with the new one. It takes no memory.
    fn value(&self) -> &V
        ensures { result.now ≡ grown_value self.now }
    {
        match self {
            Grown::First(value) => value,
            Grown::Beside(_, value, _) => value,
            Grown::Below(_, value) => value,
        }
    }
}

/// What the row `hi` adds behind the node of the rows `lo..hi`. It takes memory for the values.
pub(crate) fn grown_of<F: Fused, L: Ledger>(
    alloc: Global,
    plan: &F,
    node: &Node<F::Value>,
    lo: u32,
    hi: u32,
    steps: &mut Steps<L>,
) -> Result<Grown<F::Value>, AllocError>
    requires within { hi < F.rows plan.now }
    requires fits { hi + 1 < 2 ^ 32 }
    requires holds { Holds (F.stands plan.now) lo hi node.now }
    ensures grows { IfOk result (Grows (F.stands plan.now) lo hi node.now) }
    ensures stands { IfOk result (λ grown. F.stands plan.now lo (hi + 1) (grown_value grown)) }
    ensures cost { steps.new
        ≤ steps.old + F.leaf_bound plan.now 1 + F.join_bound plan.now * (height node.now + 1) }
{
    match node {
        Node::NoRows => Ok(Grown::First(plan.leaf(alloc, hi, hi + 1, steps)?)),
        Node::Row(value) => beside(alloc, plan, value, lo, hi, steps),
        Node::Rows(left, mid, value, right) => {
            let mid = *mid;
            if hi - mid == mid - lo {
                return beside(alloc, plan, value, lo, hi, steps);
            }
            let below = grown_of(alloc, plan, right, mid, hi, steps)?;
            let Some(first) = left.value() else {
                unreachable!()
            };
            let value = plan.join(alloc, lo, mid, hi + 1, first, below.value(), steps)?;
            Ok(Grown::Below(Box::new(alloc, below)?, value))
        }
    }
}

/// The row `hi` beside the rows `lo..hi`, of which this is the value. It takes memory for the values.
fn beside<F: Fused, L: Ledger>(
    alloc: Global,
    plan: &F,
    all: &F::Value,
    lo: u32,
    hi: u32,
    steps: &mut Steps<L>,
) -> Result<Grown<F::Value>, AllocError>
    requires some_rows { lo < hi }
    requires within { hi < F.rows plan.now }
    requires fits { hi + 1 < 2 ^ 32 }
    requires stands { F.stands plan.now lo hi all.now }
    ensures grows { IfOk result (IsBeside (F.stands plan.now) lo hi) }
    ensures cost { steps.new ≤ steps.old + F.leaf_bound plan.now 1 + F.join_bound plan.now }
{
    let row = plan.leaf(alloc, hi, hi + 1, steps)?;
    let value = plan.join(alloc, lo, hi, hi + 1, all, &row, steps)?;
    let room = Box::new(alloc, Node::NoRows)?;
    let row = Box::new(alloc, Node::Row(row))?;
    Ok(Grown::Beside(room, value, row))
}

/// Puts what the row `hi` adds behind the rows `lo..hi`. It takes no memory.
#[tactic(auto, using(crate::proofs::Ends::beside_full, crate::proofs::Ends::beside_row))]
pub(crate) fn put_grown<F: Fused>(
    plan: &F,
    node: &mut Node<F::Value>,
    lo: u32,
    hi: u32,
    grown: Grown<F::Value>,
)
    requires holds { Holds (F.stands plan.now) lo hi node.old }
    requires grows { Grows (F.stands plan.now) lo hi node.old grown }
    ensures holds { Holds (F.stands plan.now) lo (hi + 1) node.new }
{
    match grown {
        Grown::First(value) => *node = Node::Row(value),
        Grown::Beside(mut room, value, row) => {
            *room = mem::replace(node, Node::NoRows);
            *node = Node::Rows(room, hi, value, row);
        }
        Grown::Below(below, value) => {
            let Node::Rows(_, mid, all, right) = node else {
                unreachable!()
            };
            *all = value;
            put_grown(plan, right, *mid, hi, Box::into_inner(below));
        }
    }
}
