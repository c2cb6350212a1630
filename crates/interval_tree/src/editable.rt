//! Plans whose rows are replaced, added at the end and taken away there.
//! The plans that these calls leave are ghost members, and their laws are in specs/Editable.antt.

ghost use Rattle.std.specs.Prelude.{◌≡◌, ℕ, ◌+◌, ◌^◌, ◌<◌, ◌≤◌, ◌↔◌, IfErr, IsTrue, OnErr, OnOk};
ghost use Rattle.std.specs.Prelude.{if◌then◌else◌};
ghost use Rattle.interval_tree.specs.Editable.{IsEditable};

use interval_kit::Fused;
use std::alloc::Global;

/// A plan whose rows are edited. What stood for an interval without the changed row stands for it still.
pub trait Editable: Fused {
    type Row: Drop;

    // whether a row may stand at this place, and whether it may stand at the end
    ghost may_set: { Self → ℕ → Self.Row → Type 0 };

    ghost may_push: { Self → Self.Row → Type 0 };

    // whether this is the row at this place
    ghost has_row: { Self → ℕ → Self.Row → Type 0 };

    ghost after_set: { Self → ℕ → Self.Row → Self };

    ghost after_push: { Self → Self.Row → Self };

    ghost after_pop: { Self → Self };

    /// Replaces a row and gives the old one. It takes no memory.
    fn set(&mut self, row: u32, new: Self::Row) -> Self::Row
        requires in_range { row < Self.rows self.old }
        requires may_set { may_set self.old row new }
        ensures plan { self.new ≡ after_set self.old row new }
        ensures old_row { has_row self.old row result };

    /// Adds a row at the end. Want of memory alone hands it back, and the plan is as before.
    fn push(&mut self, alloc: Global, new: Self::Row) -> Result<(), Self::Row>
        requires has_room { Self.rows self.old + 1 < 2 ^ 32 }
        requires may_push { may_push self.old new }
        ensures plan { OnOk result (self.new ≡ after_push self.old new) }
        ensures handed_back { IfErr result (λ row. row ≡ new) }
        ensures unchanged { OnErr result (self.new ≡ self.old) };

    /// Takes the last row away, where there is one, and takes no memory.
    fn pop(&mut self) -> bool
        ensures some_row { IsTrue result ↔ (1 ≤ Self.rows self.old) }
        ensures plan { self.new ≡ (if result then after_pop self.old else self.old) };

    ghost laws: { (plan : Self) → IsEditable Self.rows Self.stands Self.leaf_bound Self.join_bound
        may_set may_push has_row after_set after_push after_pop plan };
}
