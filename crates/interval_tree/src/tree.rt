//! A plan and the values of its rows, which stay those of the plan as its rows are edited.

ghost use Rattle.std.specs.Prelude.{◌≡◌, ◌+◌, ◌*◌, ◌^◌, ◌<◌, ◌≤◌, ◌↔◌, IfOk, IfSome, OnErr, OnOk, Some};
ghost use Rattle.std.specs.Prelude.{if◌then◌else◌, nat_le};
ghost use Rattle.interval_tree.specs.Levels.{levels};

use crate::build::node_of;
use crate::editable::Editable;
use crate::edits::set_row;
use crate::last_row::{pop_row, push_row};
use crate::node::Node;
use std::alloc::{AllocError, Global};
use std::marker::Model;
use std::sync::ledger::Ledger;
use step_count::Steps;

/// A plan and values of its rows: one for each row, and one for all of them with those of the intervals between.
/// Contracts see the plan, and the value of all rows.
#[derive(Drop)]
pub struct Tree<F: Editable> {
    plan: F,
    root: Node<F::Value>,
}

impl<F: Editable> Model for Tree<F> {
    ghost use Rattle.interval_tree.specs.Node.{Holds, top_value};
    ghost use Rattle.interval_tree.specs.Tree.{TreeOf};

    ghost Value = { TreeOf F F.Value };

    ghost view = { λ t. record {
      plan = t.plan;
      top = top_value t.root;
    } };

    ghost invariant = { λ t. Holds (F.stands t.plan) 0 (F.rows t.plan) t.root };
}

impl<F: Editable> Tree<F> {
    /// The tree of a plan. It takes memory for each value.
    pub fn build<L: Ledger>(
        alloc: Global,
        plan: F,
        steps: &mut Steps<L>,
    ) -> Result<Tree<F>, AllocError>
        ensures plan { IfOk result (λ tree. tree.plan ≡ plan) }
    {
        let rows = plan.rows();
        let root = node_of(alloc, &plan, 32, 0, rows, steps)?;
        Ok(Tree { plan, root })
    }

    /// The plan as it is after the edits. It takes no memory.
    pub fn plan(&self) -> &F
        ensures { result.now ≡ self.now.plan }
    {
        &self.plan
    }

    /// A value that stands for all rows, and none where there are no rows. It takes no memory.
    pub fn top(&self) -> Option<&F::Value>
        ensures none { (result ≡ None) ↔ (F.rows self.now.plan ≡ 0) }
        ensures stands { IfSome result (λ value.
            F.stands self.now.plan 0 (F.rows self.now.plan) value.now) }
        ensures value { IfSome result (λ value. self.now.top ≡ Some value.now) }
    {
        self.root.value()
    }

    /// Replaces a row. It takes memory for the new values, and without it the tree is as before.
    pub fn set<L: Ledger>(
        &mut self,
        alloc: Global,
        row: u32,
        new: F::Row,
        steps: &mut Steps<L>,
    ) -> Result<(), AllocError>
        requires in_range { row < F.rows self.old.plan }
        requires may_set { F.may_set self.old.plan row new }
        ensures plan { OnOk result (self.new.plan ≡ F.after_set self.old.plan row new) }
        ensures unchanged { OnErr result (self.new ≡ self.old) }
        ensures cost { steps.new ≤ steps.old + F.leaf_bound self.old.plan 1
            + F.join_bound self.old.plan * (2 * levels (F.rows self.old.plan)) }
    {
        set_row(alloc, &mut self.plan, &mut self.root, row, new, steps)
    }
    /// Adds a row at the end. It takes memory for the row and the new values, and without it the tree is as before.
    pub fn push<L: Ledger>(
        &mut self,
        alloc: Global,
        new: F::Row,
        steps: &mut Steps<L>,
    ) -> Result<(), AllocError>
        requires has_room { F.rows self.old.plan + 1 < 2 ^ 32 }
        requires may_push { F.may_push self.old.plan new }
        ensures plan { OnOk result (self.new.plan ≡ F.after_push self.old.plan new) }
        ensures unchanged { OnErr result (self.new ≡ self.old) }
        ensures cost { steps.new ≤ steps.old + F.leaf_bound self.old.plan 1
            + F.join_bound self.old.plan * (2 * levels (F.rows self.old.plan + 1)) }
    {
        push_row(alloc, &mut self.plan, &mut self.root, new, steps)
    }

    /// Takes the last row away, and tells whether there was one: without rows the tree is as before. It takes memory
    /// for the new values, and without it the tree is as before.
    pub fn pop<L: Ledger>(
        &mut self,
        alloc: Global,
        steps: &mut Steps<L>,
    ) -> Result<bool, AllocError>
        ensures some_row { IfOk result (λ popped. popped ≡ nat_le 1 (F.rows self.old.plan)) }
        ensures plan { OnOk result (self.new.plan
            ≡ (if nat_le 1 (F.rows self.old.plan) then F.after_pop self.old.plan else self.old.plan)) }
        ensures unchanged { OnErr result (self.new ≡ self.old) }
        ensures cost { steps.new ≤ steps.old + F.join_bound self.old.plan * (2 * levels (F.rows self.old.plan)) }
    {
        pop_row(alloc, &mut self.plan, &mut self.root, steps)
    }
}
