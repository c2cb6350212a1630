//! The table of a board: its rule, and the kinds of step on its word.

use crate::view::View;
use atomic_table::{Join, Play, Split, Table, TableRule};
use board_core::Core;
use interval_kit::Fused;
use std::alloc::Global;
use std::marker::PhantomData;
use std::snapshot::Snapshot;

/// What the table is told when it is made.
pub struct Opening<F> {
    pub plan: Snapshot<F>,
    pub room: u32,
    pub callers: u32,
}

impl<F> Drop for Opening<F> {
    fn drop(self) {
        let Opening {
            plan: _plan,
            room: _,
            callers: _,
        } = self;
    }
}

/// The rule of the table.
pub struct Ruled<F> {
    plan: PhantomData<F>,
}

impl<F: Fused> TableRule<Option<Core<F::Value>>, View<F>, Opening<F>> for Ruled<F> {
    ghost use Rattle.board_table.specs.Rule.{BoardRule, first_view};

    ghost holds = { BoardRule F.rows F.stands };

    ghost first = { first_view };
}

/// A try for the turn, which wins it or misses it.
pub struct Try<F> {
    plan: PhantomData<F>,
}

impl<F: Fused> Play<Option<Core<F::Value>>, View<F>> for Try<F> {
    ghost use Rattle.board_table.specs.Steps.{tries};

    ghost then = { tries F.rows F.stands };
}

/// The step that gives up the turn, with the entry that the call made.
pub struct Free<F> {
    plan: PhantomData<F>,
}

impl<F: Fused> Play<Option<Core<F::Value>>, View<F>> for Free<F> {
    ghost use Rattle.board_table.specs.Steps.{frees};

    ghost then = { frees };
}

/// The last number of a seat goes to a new seat.
pub struct Share;

impl<F> Split<View<F>> for Share {
    ghost use Rattle.board_table.specs.Views.{parent_view, child_view};

    ghost left = { parent_view };

    ghost right = { child_view };
}

/// What a seat has seen goes to a note.
pub struct Tell;

impl<F> Split<View<F>> for Tell {
    ghost use Rattle.board_table.specs.Views.{same_view, told_view};

    ghost left = { same_view };

    ghost right = { told_view };
}

/// What a note has seen comes to a seat.
pub struct Meet;

impl<F> Join<View<F>> for Meet {
    ghost use Rattle.board_table.specs.Views.{joined_view, spent_view};

    ghost both = { joined_view };

    ghost spent = { spent_view };
}

/// A load of the word after a join, which shows that the logs taken in are one.
pub struct Look<F> {
    plan: PhantomData<F>,
}

impl<F: Fused> Play<Option<Core<F::Value>>, View<F>> for Look<F> {
    ghost use Rattle.board_table.specs.Steps.{looks};

    ghost then = { looks F.rows };
}

pub type Slot<F> = Option<Core<<F as Fused>::Value>>;

pub type BoardTable<F> = Table<Slot<F>, View<F>, Opening<F>, Ruled<F>, Global>;
