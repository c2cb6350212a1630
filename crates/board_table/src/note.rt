//! A token of what a seat has seen, for another caller's seat.

use crate::seat::Raw;
use interval_kit::Fused;
use std::marker::Model;

/// A token of what a seat of the same board has seen.
#[derive(Drop)]
pub struct Note<F: Fused> {
    pub(crate) raw: Raw<F>,
}

impl<F: Fused> Model for Note<F> {
    ghost use Rattle.board_table.specs.Notes.{NoteSeen, note_seen, IsNote};

    ghost Value = { NoteSeen F };

    ghost view = { λ n. note_seen F.rows n.raw.table_id n.raw.me.0 };

    ghost invariant = { λ n. IsNote n.raw.me };
}
