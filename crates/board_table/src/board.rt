//! The board as callers share it: a table with one word, the turn, and one slot, the board's own.

use crate::table::BoardTable;
use interval_kit::Fused;
use std::marker::Model;

/// A board that callers share by reference, each with a seat of its own.
/// Contracts see which table it is.
#[derive(Drop)]
pub struct Board<F: Fused> {
    pub(crate) table: BoardTable<F>,
}

impl<F: Fused> Model for Board<F> {
    ghost use Rattle.atomic_table.specs.Seated.{TableId};
    ghost use Rattle.board_table.specs.Seen.{IsBoard};

    ghost Value = { TableId };

    ghost view = { λ b. b.table.shared.table_id };

    ghost invariant = { λ b. IsBoard b.table.shared.table_id };
}
